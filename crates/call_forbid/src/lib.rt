// The calls for C that write a job again with the usual forbidden shapes: include/vorruda.h declares them.
#![tactic(auto)]

ghost use Rattle.std.specs.Prelude.{◌≡◌, length};
ghost use Rattle.number.specs.CallResult.{lent};
ghost use Rattle.forbidden.specs.Written.{not_list, lost_block, bad_steps, rewrite, rewrite_result, output_after, ReadyIn};
ghost use Rattle.forbidding.specs.Answers.{answer_result};

use forbidding::{Asked, RewriteRefusal};
use lending::lend;
use verdict::refusal_number;

// Hands the value of an answer to the host; gives its number.
fn tell(answer: Result<usize, RewriteRefusal>, out: &mut [u64]) -> u32
    ensures code { result ≡ (answer_result answer).code }
    ensures values { out.new ≡ lent (answer_result answer).values out.old }
{
    let (code, value) = match answer {
        Ok(filled) => (0, filled),
        Err(RewriteRefusal::Job(refused)) => (refusal_number(refused.refusal), refused.place),
        Err(RewriteRefusal::Outside) => (16, 0),
        Err(RewriteRefusal::TooMany) => (31, 0),
        Err(RewriteRefusal::TooShort(needed)) => (12, needed),
    };
    lend(&[value as u64], out);
    code
}

// The job written again with "not a proper list" of a variable at a state forbidden after its own.
#[unsafe(no_mangle)]
pub extern "C" fn vorruda_forbid_not_list(
    job: &[u8],
    variable: u32,
    state: u32,
    bytes: &mut [u8],
    out: &mut [u64],
) -> u32
    ensures code { result ≡ (rewrite_result (rewrite job.now (not_list variable state) (length bytes.old))).code }
    ensures bytes { bytes.new ≡ output_after (rewrite job.now (not_list variable state) (length bytes.old)) bytes.old }
    ensures values { out.new ≡ lent (rewrite_result (rewrite job.now (not_list variable state) (length bytes.old))).values out.old }
    ensures ready { result ≡ 0 → ReadyIn job.now (not_list variable state) bytes.old bytes.new }
{
    let asked = Asked::NotList(variable as usize, state as usize);
    let answer = forbidding::rewrite_job(job, asked, bytes);
    tell(answer, out)
}

// The same with "lost block" of a variable at a state.
#[unsafe(no_mangle)]
pub extern "C" fn vorruda_forbid_lost_block(
    job: &[u8],
    variable: u32,
    state: u32,
    bytes: &mut [u8],
    out: &mut [u64],
) -> u32
    ensures code { result ≡ (rewrite_result (rewrite job.now (lost_block variable state) (length bytes.old))).code }
    ensures bytes { bytes.new ≡ output_after (rewrite job.now (lost_block variable state) (length bytes.old)) bytes.old }
    ensures values { out.new ≡ lent (rewrite_result (rewrite job.now (lost_block variable state) (length bytes.old))).values out.old }
    ensures ready { result ≡ 0 → ReadyIn job.now (lost_block variable state) bytes.old bytes.new }
{
    let asked = Asked::LostBlock(variable as usize, state as usize);
    let answer = forbidding::rewrite_job(job, asked, bytes);
    tell(answer, out)
}

// The same with "step through null" and "step through dangling", for all transitions.
#[unsafe(no_mangle)]
pub extern "C" fn vorruda_forbid_bad_steps(job: &[u8], bytes: &mut [u8], out: &mut [u64]) -> u32
    ensures code { result ≡ (rewrite_result (rewrite job.now bad_steps (length bytes.old))).code }
    ensures bytes { bytes.new ≡ output_after (rewrite job.now bad_steps (length bytes.old)) bytes.old }
    ensures values { out.new ≡ lent (rewrite_result (rewrite job.now bad_steps (length bytes.old))).values out.old }
    ensures ready { result ≡ 0 → ReadyIn job.now bad_steps bytes.old bytes.new }
{
    let answer = forbidding::rewrite_job(job, Asked::BadSteps, bytes);
    tell(answer, out)
}
