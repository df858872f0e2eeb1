// The transitions of a job that step through a variable.
ghost use Rattle.std.specs.Prelude.{◌≡◌, ℕ, ◌+◌, ◌≤◌, length};
ghost use Rattle.std.specs.Option.{option_to_list};
ghost use Rattle.lists.specs.List.{concat_map};
ghost use Rattle.heap.specs.Operation.{kind_of};
ghost use Rattle.forbidden.specs.Sets.{steps_through, bad_steps_of, bad_steps_shapes};
ghost use Rattle.format.specs.JobNumbers.{located_numbers};
ghost use Rattle.layout.specs.Entries.{version_of};
ghost use Rattle.layout.specs.Transitions.{op_of, transition_at, transitions_from};
ghost use Rattle.putting.specs.Put.{Put};
ghost use Rattle.forbidding.specs.Steps.{StepIn, StepsIn};

use crate::put::{Point, put_bad_step};
use transitions::transition_at;

// The variable that an operation steps through, if it does: for kind 4 its b, for kind 5 its a.
fn steps_through(kind: u8, a: u8, b: u8) -> Option<usize>
    ensures { option_to_list result ≡ steps_through (op_of (kind_of kind) a b) }
{
    if kind == 4 {
        return Some(b as usize);
    }
    if kind == 5 {
        return Some(a as usize);
    }
    None
}

// How many forbidden shapes the transition at a place makes.
fn shapes_at(job: &[u8], at: usize) -> usize
    requires { at + 5 ≤ length job.now }
    ensures { ((n : ℕ) → result ≡ length (bad_steps_of n (transition_at job.now at))) × (result ≤ 2) }
{
    let t = transition_at(job, at);
    match steps_through(t.kind, t.a, t.b) {
        Some(_) => 2,
        None => 0,
    }
}

// How many all transitions make.
pub(crate) fn count_steps(job: &[u8], first: usize, count: usize, variables: usize) -> usize
    requires { (StepsIn job.now variables first count) × (count ≤ 256) }
    ensures { (result ≡ length (bad_steps_shapes variables (transitions_from job.now first 0 count))) × (result ≤ 512) }
{
    let mut shapes = 0;
    for i in 0..count {
        shapes += shapes_at(job, first + 5 * i);
    }
    shapes
}

// Puts those of the transition at a place.
fn put_step(job: &[u8], from: usize, variables: usize, bytes: &mut [u8], at: usize) -> usize
    requires { (StepIn job.now variables from) × (variables ≤ 8) × (at + length (concat_map (located_numbers (version_of job.now)) (bad_steps_of variables (transition_at job.now from))) ≤ length bytes.old) }
    ensures { Put at bytes.old (concat_map (located_numbers (version_of job.now)) (bad_steps_of variables (transition_at job.now from))) result bytes.new }
{
    let t = transition_at(job, from);
    match steps_through(t.kind, t.a, t.b) {
        Some(variable) => {
            let p = Point::of(job, variables, variable, t.from as usize);
            put_bad_step(bytes, at, p)
        }
        None => at,
    }
}

// "Step through null" and "step through dangling", transition by transition.
pub(crate) fn put_steps(
    job: &[u8],
    first: usize,
    count: usize,
    variables: usize,
    bytes: &mut [u8],
    at: usize,
) -> usize
    requires { (StepsIn job.now variables first count) × (variables ≤ 8) × (at + length (concat_map (located_numbers (version_of job.now)) (bad_steps_shapes variables (transitions_from job.now first 0 count))) ≤ length bytes.old) }
    ensures { Put at bytes.old (concat_map (located_numbers (version_of job.now)) (bad_steps_shapes variables (transitions_from job.now first 0 count))) result bytes.new }
{
    let mut next = at;
    for i in 0..count {
        next = put_step(job, first + 5 * i, variables, bytes, next);
    }
    next
}
