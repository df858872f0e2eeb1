// Writes a job again with a ready set of forbidden shapes after its own.
#![tactic(auto)]

ghost use Rattle.std.specs.Prelude.{◌&&◌, ◌++◌, ◌≡◌, suc, ◌+◌, ◌*◌, ◌≤◌, ltb, length};
ghost use Rattle.forbidden.specs.Written.{shapes_of, is_inside, Inside, Rewrites};
ghost use Rattle.format.specs.Parser.{within};
ghost use Rattle.reader.specs.Job.{JobRead};
ghost use Rattle.reader.specs.Transitions.{transitions_in};
ghost use Rattle.forbidding.specs.Answers.{set_of, answer_result, cells_of, set_bytes, count_place, with_count};
ghost use Rattle.putting.specs.Put.{Put};

use crate::put::{Point, count_bytes, put_lost_block, put_not_list};
use crate::steps::{count_steps, put_steps};
use layout::version_of;
use putting::put_all;
use reader::{Header, read_job};
use verdict::{Refusal, Refused};

mod put;
mod steps;

// Which set is asked for, the first two with a variable and a state.
#[derive(Clone, Copy)]
pub enum Asked {
    NotList(usize, usize),
    LostBlock(usize, usize),
    BadSteps,
}

// Why no byte is filled: the job's own refusal with its place; a variable or state outside it; more than 64 forbidden shapes in all; an output
// that is too short, with the length needed.
#[derive(Clone, Copy)]
pub enum RewriteRefusal {
    Job(Refused),
    Outside,
    TooMany,
    TooShort(usize),
}

impl From<Refused> for RewriteRefusal {
    ghost use Rattle.std.specs.Prelude.{◌≡◌};
    ghost use Rattle.forbidding.specs.declared.RewriteRefusal.TheVariants.{Job};

    ghost from_gives = { λ refused r. r ≡ Job refused };

    fn from(refused: Refused) -> RewriteRefusal {
        RewriteRefusal::Job(refused)
    }
}

// Whether a variable, from 1, and a state, from 0, are among so many.
#[tactic(auto, using(std::proofs::lemmas::Bool::Decides::nat_tests))]
fn is_point(variable: usize, state: usize, variables: usize, states: usize) -> bool
    ensures { result ≡ within 1 (suc variables) variable && ltb state states }
{
    (1..=variables).contains(&variable) && state < states
}

// Whether the variable and the state that are asked for are the job's.
fn is_inside(asked: Asked, variables: usize, states: usize) -> bool
    ensures { result ≡ is_inside (set_of asked) variables states }
{
    match asked {
        Asked::NotList(variable, state) | Asked::LostBlock(variable, state) => {
            is_point(variable, state, variables, states)
        }
        Asked::BadSteps => true,
    }
}

// How many shapes the set has.
fn shapes_of(job: &[u8], h: Header, asked: Asked) -> usize
    requires { JobRead job.now h }
    ensures { (result ≡ length (shapes_of (set_of asked) h.variables (transitions_in job.now h))) × (result ≤ 512) }
{
    match asked {
        Asked::NotList(_, _) => 4,
        Asked::LostBlock(_, _) => 6,
        Asked::BadSteps => count_steps(job, h.transitions_at, h.transitions, h.variables),
    }
}

// How many cells they have together.
fn cells_of(asked: Asked) -> usize
    ensures { result ≡ cells_of (set_of asked) }
{
    match asked {
        Asked::NotList(_, _) => 4,
        Asked::LostBlock(_, _) => 11,
        Asked::BadSteps => 0,
    }
}

// Puts the shapes of the set at a place.
fn put_set(job: &[u8], h: Header, asked: Asked, bytes: &mut [u8], at: usize) -> usize
    requires { (JobRead job.now h) × (Inside (set_of asked) h.variables h.states) × (at + length (set_bytes job.now h (set_of asked)) ≤ length bytes.old) }
    ensures { Put at bytes.old (set_bytes job.now h (set_of asked)) result bytes.new }
{
    match asked {
        Asked::NotList(variable, state) => {
            put_not_list(bytes, at, Point::of(job, h.variables, variable, state))
        }
        Asked::LostBlock(variable, state) => {
            put_lost_block(bytes, at, Point::of(job, h.variables, variable, state))
        }
        Asked::BadSteps => put_steps(job, h.transitions_at, h.transitions, h.variables, bytes, at),
    }
}

// The place of the number of forbidden shapes: version, V, S and the start are a byte each, T is one or two, and each transition five.
fn count_place(transitions: usize) -> usize
    requires { transitions ≤ 256 }
    ensures { result ≡ count_place transitions }
{
    if transitions < 128 {
        return 5 + 5 * transitions;
    }
    6 + 5 * transitions
}

// Copies the job, puts the number of forbidden shapes that it then has, and the set after it; gives the place after that.
fn fill(job: &[u8], h: Header, asked: Asked, count: usize, bytes: &mut [u8]) -> usize
    requires { (JobRead job.now h) × (Inside (set_of asked) h.variables h.states) × (count ≤ 64) × (length job.now + length (set_bytes job.now h (set_of asked)) ≤ length bytes.old) }
    ensures { Put 0 bytes.old (with_count job.now h count ++ set_bytes job.now h (set_of asked)) result bytes.new }
{
    let end = put_all(bytes, 0, job);
    bytes[count_place(h.transitions)] = count as u8;
    put_set(job, h, asked, bytes, end)
}

// The same of a job that was read.
fn rewrite_read(
    job: &[u8],
    h: Header,
    asked: Asked,
    bytes: &mut [u8],
) -> Result<usize, RewriteRefusal>
    requires { (JobRead job.now h) × (1 ≤ length job.now) × (length job.now ≤ 65536) }
    ensures { Rewrites job.now (set_of asked) bytes.old (answer_result result) bytes.new }
{
    if !is_inside(asked, h.variables, h.states) {
        return Err(RewriteRefusal::Outside);
    }
    let shapes = shapes_of(job, h, asked);
    let count = h.bads + shapes;
    if 64 < count {
        return Err(RewriteRefusal::TooMany);
    }
    let entry = 2 + h.variables + count_bytes(version_of(job));
    let needed = job.len() + shapes * entry + cells_of(asked);
    if bytes.len() < needed {
        return Err(RewriteRefusal::TooShort(needed));
    }
    fill(job, h, asked, count, bytes);
    Ok(needed)
}

// The job written again with the set after its own, or refused; a refusal leaves the output as it is.
pub fn rewrite_job(job: &[u8], asked: Asked, bytes: &mut [u8]) -> Result<usize, RewriteRefusal>
    ensures { Rewrites job.now (set_of asked) bytes.old (answer_result result) bytes.new }
{
    if job.is_empty() || 65536 < job.len() {
        return Err(RewriteRefusal::Job(Refused {
            refusal: Refusal::JobLength,
            place: 0,
        }));
    }
    let h = read_job(job)?;
    rewrite_read(job, h, asked, bytes)
}
