// The call for C that translates a listing: include/vorruda.h declares it.
#![tactic(auto)]

ghost use Rattle.std.specs.Prelude.{◌≡◌, length};
ghost use Rattle.number.specs.CallResult.{lent};
ghost use Rattle.listing.specs.Promise.{PromisedIn};
ghost use Rattle.listing.specs.Written.{translate, translate_result, bytes_after, marks_after};
ghost use Rattle.translating.specs.Work.{fault_number};
ghost use Rattle.translating.specs.Answer.{answer_result};

use lending::lend;
use translating::{Fault, TranslateRefusal};

// The number of a refusal at a line. The numbers are the C interface's, so they stand here with the call, where no `From` for another crate's
// type may stand.
fn fault_number(fault: Fault) -> u32
    ensures { result ≡ fault_number fault }
{
    match fault {
        Fault::Grammar => 17,
        Fault::Nesting => 18,
        Fault::Limits => 19,
    }
}

// Hands the value of an answer to the host; gives its number.
fn tell(answer: Result<usize, TranslateRefusal>, out: &mut [u64]) -> u32
    ensures code { result ≡ (answer_result answer).code }
    ensures values { out.new ≡ lent (answer_result answer).values out.old }
{
    let (code, value) = match answer {
        Ok(filled) => (0, filled),
        Err(TranslateRefusal::AtLine(refusal)) => (fault_number(refusal.fault), refusal.line),
        Err(TranslateRefusal::TooShort(needed)) => (12, needed),
    };
    lend(&[value as u64], out);
    code
}

// A listing as the bytes of a job ahead of its forbidden shapes, and the states of its marks.
#[unsafe(no_mangle)]
pub extern "C" fn vorruda_translate(
    text: &[u8],
    bytes: &mut [u8],
    marks: &mut [u8],
    out: &mut [u64],
) -> u32
    ensures code { result ≡ (translate_result (translate text.now (length bytes.old))).code }
    ensures bytes { bytes.new ≡ bytes_after (translate text.now (length bytes.old)) bytes.old }
    ensures marks { marks.new ≡ marks_after (translate text.now (length bytes.old)) marks.old }
    ensures values { out.new ≡ lent (translate_result (translate text.now (length bytes.old))).values out.old }
    ensures promise { result ≡ 0 → PromisedIn text.now bytes.old marks.old bytes.new marks.new }
{
    let answer = translating::translate(text, bytes, marks);
    tell(answer, out)
}
