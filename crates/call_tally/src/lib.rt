// The calls for C of the tally: include/vorruda.h declares them.
#![tactic(auto)]

ghost use Rattle.std.specs.Prelude.{◌≡◌, length};
ghost use Rattle.call_tally.specs.Answers.{tally_result, report_result, report_output};
ghost use Rattle.format.specs.Conditions.{Acceptable};
ghost use Rattle.format.specs.JobBytes.{SafeBytes};
ghost use Rattle.format.specs.Verdict.{verdict};
ghost use Rattle.number.specs.CallResult.{lent};
ghost use Rattle.tally.specs.Numbers.{numbers_after};

use lending::lend;
use sheet::report;
use tally::{NUMBERS, take_in_numbers};
use telling::{tell, verdict_number};

// Judges a pair and takes the verdict into the tally that the host lends.
#[unsafe(no_mangle)]
pub extern "C" fn vorruda_tally_verdict(
    job: &[u8],
    cert: &[u8],
    tally: &mut [u32],
    out: &mut [u64],
) -> u32
    ensures number { result ≡ (tally_result (verdict job.now cert.now) tally.old).code }
    ensures tally { tally.new ≡ numbers_after (verdict job.now cert.now) tally.old }
    ensures values { out.new ≡ lent (tally_result (verdict job.now cert.now) tally.old).values out.old }
    ensures full { result ≡ 23 → tally.new ≡ tally.old }
    ensures accepted { result ≡ 0 → Acceptable job.now cert.now }
    ensures safe { result ≡ 0 → SafeBytes job.now }
{
    if tally.len() < NUMBERS {
        lend(&[35, 0, 0, 0], out);
        return 12;
    }
    let judged = checker::check(job, cert);
    match take_in_numbers(tally, judged) {
        Ok(()) => tell(judged, out),
        // they are enough, so it is full
        Err(_) => {
            lend(&[verdict_number(judged) as u64, 0, 0, 0], out);
            23
        }
    }
}

// Writes the release sheet of a tally.
#[unsafe(no_mangle)]
pub extern "C" fn vorruda_tally_report(tally: &[u32], text: &mut [u8], out: &mut [u64]) -> u32
    ensures number { result ≡ (report_result tally.now (length text.old)).code }
    ensures text { text.new ≡ report_output tally.now text.old }
    ensures values { out.new ≡ lent (report_result tally.now (length text.old)).values out.old }
{
    if tally.len() < NUMBERS {
        lend(&[35, 1], out);
        return 12;
    }
    match report(tally[0], tally[1], tally[3], text) {
        Ok(length) => {
            lend(&[length as u64, 0], out);
            0
        }
        Err(short) => {
            lend(&[short.needed as u64, 0], out);
            12
        }
    }
}
