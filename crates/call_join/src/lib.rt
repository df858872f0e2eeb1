// The call for C of joining two jobs: include/vorruda.h declares it.
#![tactic(auto)]

ghost use Rattle.std.specs.Prelude.{◌↔◌, ◌≡◌, Err};
ghost use Rattle.joining.specs.Conditions.{JoinMeans, SafeJoined};
ghost use Rattle.joining.specs.Join.{Joining, pair_refused, join as join_due};
ghost use Rattle.joint.specs.Answer.{joining_of, join_result, Joinable};
ghost use Rattle.number.specs.CallResult.{lent};
ghost use Rattle.verdict.specs.Verdict.{reason_of};

use joint::{JoinCounts, JoinRefusal, join};
use lending::lend;
use verdict::{Refused, refusal_number, rule_name, rule_number};

// Tells a host that a pair, 1 or 2, is refused: the number of the refusal, and the pair, the place, the broken rule, its name and zeros.
fn tell_pair(pair: u64, refused: Refused, out: &mut [u64]) -> u32
    ensures number { result ≡ (join_result (pair_refused pair (reason_of refused.refusal) refused.place)).code }
    ensures values { out.new ≡ lent (join_result (pair_refused pair (reason_of refused.refusal) refused.place)).values out.old }
{
    let place = refused.place as u64;
    let rule = u64::from(rule_number(refused.refusal));
    let name = u64::from(rule_name(refused.refusal));
    lend(&[pair, place, rule, name, 0, 0, 0, 0], out);
    refusal_number(refused.refusal)
}

// Tells a host why two pairs are not joined: what is told of the pair that is refused; beside 24 to 27 zeros.
fn tell_refusal(refusal: JoinRefusal, out: &mut [u64]) -> u32
    ensures { (result ≡ (join_result (joining_of (Err refusal))).code) × (out.new ≡ lent (join_result (joining_of (Err refusal))).values out.old) }
{
    match refusal {
        JoinRefusal::First(refused) => tell_pair(1, refused, out),
        JoinRefusal::Second(refused) => tell_pair(2, refused, out),
        JoinRefusal::Joint(joint) => {
            lend(&[0; 8], out);
            joint.number()
        }
    }
}

// Tells a host the answer's number and, in an array that it lends, both sets of counts; or why the two are not joined.
fn tell(answer: Result<JoinCounts, JoinRefusal>, out: &mut [u64]) -> u32
    ensures { (result ≡ (join_result (joining_of answer)).code) × (out.new ≡ lent (join_result (joining_of answer)).values out.old) }
{
    match answer {
        Ok(counts) => {
            let a = counts.first;
            let b = counts.second;
            let values = [
                a.bads as u64,
                a.members as u64,
                a.covers as u64,
                a.links as u64,
                b.bads as u64,
                b.members as u64,
                b.covers as u64,
                b.links as u64,
            ];
            lend(&values, out);
            0
        }
        Err(refusal) => tell_refusal(refusal, out),
    }
}

// The answer on two pairs and a hand-over state: 0 exactly if the two are to be joined there, with both sets of counts, and 0 carries the run guarantee
// of the joined program; or the refusal's number.
#[unsafe(no_mangle)]
pub extern "C" fn vorruda_join(
    job1: &[u8],
    cert1: &[u8],
    job2: &[u8],
    cert2: &[u8],
    state: u32,
    out: &mut [u64],
) -> u32
    ensures number { result ≡ (join_result (join_due job1.now cert1.now job2.now cert2.now state)).code }
    ensures values { out.new ≡ lent (join_result (join_due job1.now cert1.now job2.now cert2.now state)).values out.old }
    ensures means { (j : Joining) → JoinMeans job1.now cert1.now job2.now cert2.now state j → (result ≡ (join_result j).code) × (out.new ≡ lent (join_result j).values out.old) }
    ensures accepted { (result ≡ 0) ↔ Joinable job1.now cert1.now job2.now cert2.now state }
    ensures safe { result ≡ 0 → SafeJoined job1.now job2.now state }
{
    tell(join(job1, cert1, job2, cert2, state as usize), out)
}
