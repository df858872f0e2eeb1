// The calls for C of the checker: include/vorruda.h declares them.
#![tactic(auto)]

ghost use Rattle.std.specs.Prelude.{◌↔◌, ◌≡◌};
ghost use Rattle.format.specs.Conditions.{Conditions, Acceptable};
ghost use Rattle.format.specs.JobBytes.{SafeBytes};
ghost use Rattle.format.specs.Verdict.{Counts, accepted, verdict};
ghost use Rattle.number.specs.CallResult.{lent};
ghost use Rattle.verdict.specs.Verdict.{verdict_result};
ghost use Rattle.call_check.specs.Links.{LinksBounded};

use telling::{tell, verdict_number};

// The verdict on a job and a certificate: 0 for accepted, exactly if the conditions of document 01 hold, or the refusal's number. 0 carries the
// run guarantee.
#[unsafe(no_mangle)]
pub extern "C" fn vorruda_check(job: &[u8], cert: &[u8]) -> u32
    ensures number { result ≡ (verdict_result (verdict job.now cert.now)).code }
    ensures accepted { (result ≡ 0) ↔ Acceptable job.now cert.now }
    ensures safe { result ≡ 0 → SafeBytes job.now }
{
    verdict_number(checker::check(job, cert))
}

// The same, with the four counts, or the place, the broken rule, its name (0 and 0 but for refusal 9) and 0, in an array that the host lends.
// Of an accepted pair the links told are at most 14 for each cover.
#[unsafe(no_mangle)]
pub extern "C" fn vorruda_verdict(job: &[u8], cert: &[u8], out: &mut [u64]) -> u32
    ensures number { result ≡ (verdict_result (verdict job.now cert.now)).code }
    ensures values { out.new ≡ lent (verdict_result (verdict job.now cert.now)).values out.old }
    ensures counts { (c : Counts) → Conditions job.now cert.now c → out.new ≡ lent (verdict_result (accepted c)).values out.old }
    ensures links { LinksBounded result out.old out.new }
    ensures accepted { (result ≡ 0) ↔ Acceptable job.now cert.now }
    ensures safe { result ≡ 0 → SafeBytes job.now }
{
    tell(checker::check(job, cert), out)
}
