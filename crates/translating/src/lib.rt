// Translates a listing into the bytes of a job ahead of its forbidden shapes.
#![tactic(auto)]

ghost use Rattle.std.specs.Prelude.{[], ◌∷◌, ◌++◌, ◌≡◌, suc, ◌+◌, ◌*◌, ◌≤◌, length, take, drop};
ghost use Rattle.number.specs.CallResult.{lent};
ghost use Rattle.listing.specs.Promise.{Translates};
ghost use Rattle.listing.specs.Written.{in_room, translate_result, bytes_after, marks_after};
ghost use Rattle.translating.specs.Work.{transitions_in};
ghost use Rattle.translating.specs.Answer.{answer_result, variables_of};

use crate::blocks::{Block, read_block};
use crate::steps::{Progress, Work};

mod blocks;
mod names;
mod steps;

// Why a listing is refused: a line outside the grammar, or an `end` too many or missing; more than 16 open at once; more than 8 names or 64
// states.
#[derive(Clone, Copy)]
pub enum Fault {
    Grammar,
    Nesting,
    Limits,
}

// A listing is refused: why, and at which line.
#[derive(Clone, Copy)]
pub struct Refusal {
    pub fault: Fault,
    pub line: usize,
}

// Why no byte is filled: the listing is refused at a line; the output is too short, with the length needed.
#[derive(Clone, Copy)]
pub enum TranslateRefusal {
    AtLine(Refusal),
    TooShort(usize),
}

impl From<Refusal> for TranslateRefusal {
    ghost use Rattle.std.specs.Prelude.{◌≡◌};
    ghost use Rattle.translating.specs.declared.TranslateRefusal.TheVariants.{AtLine};

    ghost from_gives = { λ refusal r. r ≡ AtLine refusal };

    fn from(refusal: Refusal) -> TranslateRefusal {
        TranslateRefusal::AtLine(refusal)
    }
}

// Puts the numbers ahead of the transitions: version, variables, states, start, transitions.
fn put_header(p: Progress, job: &mut [u8; 635])
    requires { (length job.old ≡ 635) × (p.passed ≤ 63) × (p.count ≤ 2 * p.passed) × (p.met ≤ 8) }
    ensures { (length job.new ≡ 635) × (take (5 + 5 * p.count) job.new ≡ 1 ∷ variables_of p.met ∷ suc p.passed ∷ 0 ∷ p.count ∷ transitions_in p.count job.old) }
{
    job[0] = 1;
    job[1] = p.met.max(1) as u8;
    job[2] = (p.passed + 1) as u8;
    job[3] = 0;
    job[4] = p.count as u8;
}

// Writes the job and the marks' states of a listing that was read; where there is no room for all marks, none is written.
#[tactic(auto, using(std::proofs::lemmas::Bool::Decides::nat_tests), unfolding(number::specs::CallResult::lent))]
fn write(
    job: &[u8],
    states: &[u8],
    bytes: &mut [u8],
    marks: &mut [u8],
) -> Result<usize, TranslateRefusal>
    ensures result { answer_result result ≡ translate_result (in_room (length bytes.old) job.now states.now) }
    ensures bytes { bytes.new ≡ bytes_after (in_room (length bytes.old) job.now states.now) bytes.old }
    ensures marks { marks.new ≡ marks_after (in_room (length bytes.old) job.now states.now) marks.old }
{
    if bytes.len() < job.len() {
        return Err(TranslateRefusal::TooShort(job.len()));
    }
    bytes[..job.len()].copy_from_slice(job);
    if states.len() <= marks.len() {
        marks[..states.len()].copy_from_slice(states);
    }
    Ok(job.len())
}

// The listing as a job ahead of B, and the state of each mark, 64 for none; a refusal leaves both outputs as they are.
pub fn translate(text: &[u8], bytes: &mut [u8], marks: &mut [u8]) -> Result<usize, TranslateRefusal>
    ensures { Translates text.now bytes.old marks.old (answer_result result) bytes.new marks.new }
{
    let mut work = Work {
        job: [0; 635],
        letters: [0; 8],
        states: [64; 64],
    };
    let start = Progress {
        at: 0,
        passed: 0,
        count: 0,
        met: 0,
    };
    match read_block(text, start, 0, &mut work)? {
        Block::Over(p) => {
            put_header(p, &mut work.job);
            let needed = 5 + 5 * p.count;
            write(&work.job[..needed], &work.states, bytes, marks)
        }
        Block::Ended(p) => Err(p.refused(Fault::Grammar).into()),
    }
}
