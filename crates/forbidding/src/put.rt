// Forbidden shapes as bytes: each of their numbers is one byte.
ghost use Rattle.std.specs.Prelude.{[], map, ◌≡◌, ◌+◌, ◌*◌, ◌≤◌, length};
ghost use Rattle.lists.specs.List.{concat_map};
ghost use Rattle.forbidden.specs.Sets.{only, not_list_shapes, lost_block_shapes, bad_step_shapes, at_state};
ghost use Rattle.format.specs.JobNumbers.{located_numbers};
ghost use Rattle.layout.specs.Entries.{version_of};
ghost use Rattle.forbidding.specs.Answers.{count_bytes, PointIn, with_loose};
ghost use Rattle.putting.specs.Put.{Put};

use layout::version_of;
use place::{DANGLING, FIRST_CELL, NOWHERE, NULL};
use putting::put_all;

// The place of the second cell.
const SECOND_CELL: u8 = FIRST_CELL + 1;

// A variable, of so many, at a state, in a job of a version.
#[derive(Clone, Copy)]
pub struct Point {
    pub version: u8,
    pub variables: usize,
    pub variable: usize,
    pub state: usize,
}

impl Point {
    // A variable at a state, in a job with so many variables.
    pub(crate) fn of(job: &[u8], variables: usize, variable: usize, state: usize) -> Point
        ensures { result ≡ record { version = version_of job.now; variables = variables; variable = variable; state = state } }
    {
        Point {
            version: version_of(job),
            variables,
            variable,
            state,
        }
    }
}

// How many bytes the number of facts of a shape has, which is 0: one in version 2, else none.
pub(crate) fn count_bytes(version: u8) -> usize
    ensures { (result ≡ count_bytes version) × (result ≤ 1) }
{
    if version == 2 {
        return 1;
    }
    0
}

// A shape at a state: the variable stands at a place, no other variable does, the cells have these links, one more is loose or none, and there are
// no facts.
fn put_shape(bytes: &mut [u8], at: usize, p: Point, place: u8, links: &[u8], loose: usize) -> usize
    requires { (PointIn p) × (at + 2 + p.variables + count_bytes p.version + length links.now + loose ≤ length bytes.old) × (length links.now ≤ 12) × (loose ≤ 1) }
    ensures { (result ≡ at + 2 + p.variables + count_bytes p.version + length links.now + loose) × Put at bytes.old (located_numbers p.version (record { state = p.state; shape = with_loose loose (record { vars = only p.variables p.variable place; links = links.now; facts = [] }) })) result bytes.new }
{
    let mut start = [NOWHERE; 10];
    start[0] = p.state as u8;
    start[1] = (links.len() + loose) as u8;
    start[1 + p.variable] = place;
    let places = 2 + p.variables;
    let none = [NOWHERE; 2];
    let last = loose + count_bytes(p.version);
    let links_at = put_all(bytes, at, &start[..places]);
    let last_at = put_all(bytes, links_at, links);
    put_all(bytes, last_at, &none[..last])
}

// The four of "not a proper list", x at *; x's cell linked to *; to itself; to a cell that links to itself: with a loose cell beside each, or none.
fn put_four(bytes: &mut [u8], at: usize, p: Point, loose: usize) -> usize
    requires { (PointIn p) × (at + 4 * (2 + p.variables + count_bytes p.version + loose) + 4 ≤ length bytes.old) × (loose ≤ 1) }
    ensures { (result ≡ at + 4 * (2 + p.variables + count_bytes p.version + loose) + 4) × Put at bytes.old (concat_map (located_numbers p.version) (at_state p.state (map (with_loose loose) (not_list_shapes p.variables p.variable)))) result bytes.new }
{
    let second = put_shape(bytes, at, p, DANGLING, b"", loose);
    let third = put_shape(bytes, second, p, FIRST_CELL, &[DANGLING], loose);
    let fourth = put_shape(bytes, third, p, FIRST_CELL, &[FIRST_CELL], loose);
    put_shape(
        bytes,
        fourth,
        p,
        FIRST_CELL,
        &[SECOND_CELL, SECOND_CELL],
        loose,
    )
}

// "Not a proper list": the four.
pub(crate) fn put_not_list(bytes: &mut [u8], at: usize, p: Point) -> usize
    requires { (PointIn p) × (at + 4 * (2 + p.variables + count_bytes p.version) + 4 ≤ length bytes.old) }
    ensures { Put at bytes.old (concat_map (located_numbers p.version) (at_state p.state (not_list_shapes p.variables p.variable))) result bytes.new }
{
    put_four(bytes, at, p, 0)
}

// "Lost block": one loose cell beside each of the four, beside x at # and beside x's cell linked to #.
pub(crate) fn put_lost_block(bytes: &mut [u8], at: usize, p: Point) -> usize
    requires { (PointIn p) × (at + 6 * (2 + p.variables + count_bytes p.version) + 11 ≤ length bytes.old) }
    ensures { Put at bytes.old (concat_map (located_numbers p.version) (at_state p.state (lost_block_shapes p.variables p.variable))) result bytes.new }
{
    let fifth = put_four(bytes, at, p, 1);
    let sixth = put_shape(bytes, fifth, p, NULL, b"", 1);
    put_shape(bytes, sixth, p, FIRST_CELL, &[NULL], 1)
}

// A step through the variable: at # and then at *.
pub(crate) fn put_bad_step(bytes: &mut [u8], at: usize, p: Point) -> usize
    requires { (PointIn p) × (at + 2 * (2 + p.variables + count_bytes p.version) ≤ length bytes.old) }
    ensures { Put at bytes.old (concat_map (located_numbers p.version) (at_state p.state (bad_step_shapes p.variables p.variable))) result bytes.new }
{
    let second = put_shape(bytes, at, p, NULL, b"", 0);
    put_shape(bytes, second, p, DANGLING, b"", 0)
}
