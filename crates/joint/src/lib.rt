// Two jobs joined at a hand-over state: one answer for the bytes of both pairs and the state.
#![tactic(auto)]

ghost use Rattle.std.specs.Prelude.{not, ◌&&◌, List, ◌↔◌, ◌≡◌, ℕ, ◌+◌, ◌*◌, ◌≤◌, ◌<◌, eqb, length, get_or, OnOk};
ghost use Rattle.lists.specs.List.{all_of};
ghost use Rattle.lists.specs.Test.{all_from};
ghost use Rattle.checker.specs.Jobs.{file_in};
ghost use Rattle.format.specs.Verdict.{no_state, verdict_at};
ghost use Rattle.joining.specs.Conditions.{JoinMeans, SafeJoined};
ghost use Rattle.joining.specs.Join.{Joining, joint_of, same_shape, joint_refusal, read_joint, after_second, join as join_due};
ghost use Rattle.joint.specs.Answer.{joint_number, joining_of, falls_of, listed_among, is_settled};
ghost use Rattle.joint.specs.declared.JoinRefusal.TheVariants.{Joint};
ghost use Rattle.layout.specs.Entries.{located_at, entries_at, members_at, EntryInRange, EntriesIn, Table};
ghost use Rattle.reader.specs.Job.{JobRead};
ghost use Rattle.verdict.specs.Verdict.{counts_told};

use checker::check_pair;
use layout::{entry_end, fact_span};
use number::wide;
use reader::Header;
use verdict::{Counts, Refused};

// What falls where both pairs are accepted, by document 02's names of 24 to 27, in their order.
#[derive(Clone, Copy)]
pub enum JointRefusal {
    Outside,
    VariablesDiffer,
    GoesOn,
    NotListed,
}

impl JointRefusal {
    // Document 02's number of it.
    pub fn number(self) -> u32
        ensures { result ≡ joint_number self }
    {
        match self {
            JointRefusal::Outside => 24,
            JointRefusal::VariablesDiffer => 25,
            JointRefusal::GoesOn => 26,
            JointRefusal::NotListed => 27,
        }
    }
}

// Why two pairs are not joined: the first is refused, or the second; or what falls of both.
#[derive(Clone, Copy)]
pub enum JoinRefusal {
    First(Refused),
    Second(Refused),
    Joint(JointRefusal),
}

impl From<JointRefusal> for JoinRefusal {
    ghost from_gives = { λ refusal r. r ≡ Joint refusal };

    fn from(refusal: JointRefusal) -> JoinRefusal {
        JoinRefusal::Joint(refusal)
    }
}

// The counts of two pairs that are to be joined.
#[derive(Clone, Copy)]
pub struct JoinCounts {
    pub first: Counts,
    pub second: Counts,
}

// Whether the entries at two places, of files that need not be of one version, have the same shape.
fn same_shape(bytes: &[u8], at: usize, others: &[u8], other: usize, variables: usize) -> bool
    requires { (EntryInRange bytes.now variables at) × (EntryInRange others.now variables other) × (variables ≤ 8) }
    ensures { result ≡ same_shape (located_at bytes.now variables at).shape (located_at others.now variables other).shape }
{
    let n = wide(bytes[at + 1]);
    let m = wide(others[other + 1]);
    let vars = at + 2;
    let links = vars + variables;
    let end = links + n;
    let other_vars = other + 2;
    let other_links = other_vars + variables;
    let other_end = other_links + m;
    if bytes[vars..links] != others[other_vars..other_links] {
        return false;
    }
    if bytes[links..end] != others[other_links..other_end] {
        return false;
    }
    let span = fact_span(bytes, at, variables);
    let other_span = fact_span(others, other, variables);
    let facts = &bytes[span.first..span.end];
    let other_facts = &others[other_span.first..other_span.end];
    facts == other_facts
}

// Whether the forbidden shape at a place is that of a member, and forbidden at the hand-over.
fn forbids(
    job: &[u8],
    at: usize,
    variables: usize,
    state: usize,
    cert: &[u8],
    member: usize,
) -> bool
    requires { (EntryInRange job.now variables at) × (EntryInRange cert.now variables member) × (variables ≤ 8) }
    ensures { result ≡ (eqb (get_or job.now at 0) state && same_shape (located_at job.now variables at).shape (located_at cert.now variables member).shape) }
{
    if wide(job[at]) != state {
        return false;
    }
    same_shape(job, at, cert, member, variables)
}

// Whether the first job forbids, at the hand-over, the shape of the second's member at a place.
fn is_listed(
    job: &[u8],
    first: usize,
    bads: usize,
    variables: usize,
    state: usize,
    cert: &[u8],
    member: usize,
) -> bool
    requires { (EntriesIn job.now variables first bads) × (EntryInRange cert.now variables member) × (variables ≤ 8) }
    ensures { result ≡ listed_among state (entries_at job.now variables first bads) (located_at cert.now variables member).shape }
{
    let mut at = first;
    for _i in 0..bads {
        if forbids(job, at, variables, state, cert, member) {
            return true;
        }
        at = entry_end(job, at, variables).unwrap();
    }
    false
}

// Whether a member of the second is listed by the first, if it is at the second's start.
fn is_settled(job: &[u8], h: Header, state: usize, cert: &[u8], member: usize, start: usize) -> bool
    requires { (EntriesIn job.now h.variables h.bads_at h.bads) × (EntryInRange cert.now h.variables member) × (h.variables ≤ 8) }
    ensures { result ≡ is_settled state (entries_at job.now h.variables h.bads_at h.bads) start (located_at cert.now h.variables member) }
{
    if wide(cert[member]) != start {
        return true;
    }
    is_listed(job, h.bads_at, h.bads, h.variables, state, cert, member)
}

// 27: whether all members of the second at its start are listed by the first.
fn owed_listed(
    job: &[u8],
    h: Header,
    state: usize,
    cert: &[u8],
    starts: &[u16],
    start: usize,
) -> bool
    requires { (EntriesIn job.now h.variables h.bads_at h.bads) × (Table cert.now h.variables starts.now) }
    ensures { result ≡ all_of (is_settled state (entries_at job.now h.variables h.bads_at h.bads) start) (members_at cert.now h.variables starts.now) }
{
    for &member in starts {
        if !is_settled(job, h, state, cert, member as usize, start) {
            return false;
        }
    }
    true
}

// 26: whether no transition of the first is from the hand-over.
fn ends(job: &[u8], first: usize, count: usize, state: usize) -> bool
    requires { (i : ℕ) → i < count → first + 5 * i < length job.now }
    ensures { result ≡ all_from count 0 (λ i. not (eqb (get_or job.now (first + 5 * i) 0) state)) }
{
    for i in 0..count {
        if wide(job[first + 5 * i]) == state {
            return false;
        }
    }
    true
}

// Whether the two are to be joined, for members of the second by the table of their places; else which of 24 to 27 falls first.
fn check_joint(
    job: &[u8],
    h: Header,
    second: Header,
    cert: &[u8],
    starts: &[u16],
    state: usize,
) -> Result<(), JointRefusal>
    requires { (JobRead job.now h) × (Table cert.now second.variables starts.now) }
    ensures { (job2 : List ℕ) → falls_of result ≡ joint_refusal (joint_of (file_in job.now h) (file_in job2 second) state) (members_at cert.now second.variables starts.now) }
{
    if h.states <= state {
        return Err(JointRefusal::Outside);
    }
    if h.variables != second.variables {
        return Err(JointRefusal::VariablesDiffer);
    }
    if !ends(job, h.transitions_at, h.transitions, state) {
        return Err(JointRefusal::GoesOn);
    }
    if !owed_listed(job, h, state, cert, starts, second.start) {
        return Err(JointRefusal::NotListed);
    }
    Ok(())
}

// The answer where the first pair is accepted.
fn join_second(
    job1: &[u8],
    first: Header,
    a: Counts,
    job2: &[u8],
    cert2: &[u8],
    state: usize,
) -> Result<JoinCounts, JoinRefusal>
    requires { JobRead job1.now first }
    ensures { joining_of result ≡ after_second (counts_told a) (verdict_at no_state job2.now cert2.now) (read_joint job1.now job2.now cert2.now state) }
{
    let mut starts = [0u16; 512];
    match check_pair(job2, cert2, false, &mut starts) {
        Err(refused) => Err(JoinRefusal::Second(refused)),
        Ok(pair) => {
            let members = pair.counts.members as usize;
            let all = &starts[..];
            check_joint(job1, first, pair.header, cert2, &all[..members], state)?;
            Ok(JoinCounts {
                first: a,
                second: pair.counts,
            })
        }
    }
}

// The answer on two pairs and a hand-over state: both sets of counts exactly if the two are to be joined there, and then no run of the joined program
// meets a shape that it forbids.
pub fn join(
    job1: &[u8],
    cert1: &[u8],
    job2: &[u8],
    cert2: &[u8],
    state: usize,
) -> Result<JoinCounts, JoinRefusal>
    ensures exact { joining_of result ≡ join_due job1.now cert1.now job2.now cert2.now state }
    ensures means { (j : Joining) → (joining_of result ≡ j) ↔ JoinMeans job1.now cert1.now job2.now cert2.now state j }
    ensures safe { OnOk result (SafeJoined job1.now job2.now state) }
{
    let mut starts = [0u16; 512];
    match check_pair(job1, cert1, true, &mut starts) {
        Err(refused) => Err(JoinRefusal::First(refused)),
        Ok(pair) => join_second(job1, pair.header, pair.counts, job2, cert2, state),
    }
}
