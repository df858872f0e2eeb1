// Checks the covers in their order: those of the forbidden shapes; then for each member, each transition into its state.
ghost use Rattle.std.specs.Prelude.{true, ◌||◌, ◌&&◌, map, ◌≡◌, ◌+◌, ◌≤◌, ◌<◌, eqb, length, get_or};
ghost use Rattle.lists.specs.List.{concat_map};
ghost use Rattle.heap.specs.Operation.{kind_of};
ghost use Rattle.backward.specs.Predecessors.{before};
ghost use Rattle.cover.specs.Cover.{owed};
ghost use Rattle.checker.specs.Jobs.{to_state, file_in, owed_by};
ghost use Rattle.checker.specs.Checking.{no_covers, take_all, checked_of, located, covers_of, Within, ChecksAll, OwnVersion};
ghost use Rattle.shape.specs.Shape.{Shape};
ghost use Rattle.undoing.specs.Rowed.{Settled, rowed};
ghost use Rattle.factrows.specs.Rows.{no_facts, is_consistent};
ghost use Rattle.layout.specs.Loading.{loaded_facts};
ghost use Rattle.layout.specs.Members.{members_from};
ghost use Rattle.kinds.specs.Kinds.{allowed};
ghost use Rattle.layout.specs.ShapeArray.{cell_count, shape_in, ShapeArray};
ghost use Rattle.layout.specs.Entries.{located_at, entries_at, EntriesIn, members_at, Table};
ghost use Rattle.layout.specs.Transitions.{op_of};
ghost use Rattle.transitions.specs.Index.{IndexedFrom};
ghost use Rattle.reader.specs.Job.{JobRead};

use crate::checked::Position;
use crate::choices::{check_first_choices, with_helper};
use crate::quickly::check_first_quickly;
use crate::removal::check_cases;
use crate::single::check_cover;
use factrows::is_consistent;
use kinds::{BELOW_VALUE, DELETE, NEW, STORE};
use layout::{entry_end, load_facts, load_shape, version_of};
use reader::Header;
use transitions::{Transition, index_transitions, transition_named};
use verdict::{Refusal, Refused};

// Loads the facts of the forbidden shape at a place, and all that follows from them, into empty rows. A job of version 1 has none, and makes no call.
fn load_rows(job: &[u8], at: usize, variables: usize, facts: &mut [u16; 28])
    requires { facts.old ≡ no_facts }
    ensures { facts.new ≡ loaded_facts job.now variables at }
{
    if version_of(job) == 2 {
        load_facts(job, at, variables, facts);
    }
}

// Covers of so many forbidden shapes, from a place of the job on.
pub(crate) fn check_forbidden(
    job: &[u8],
    first: usize,
    bads: usize,
    cert: &[u8],
    starts: &[u16],
    variables: usize,
    from: Position,
) -> Result<Position, Refused>
    requires { (EntriesIn job.now variables first bads) × (variables ≤ 8) × (Within cert.now from) }
    ensures { ChecksAll cert.now (members_from cert.now variables starts.now) (entries_at job.now variables first bads) from result }
{
    let mut at = first;
    let mut t = from;
    for _i in 0..bads {
        let mut s = [0u8; 28];
        load_shape(job, at, variables, &mut s);
        let mut facts = [0u16; 28];
        load_rows(job, at, variables, &mut facts);
        t = check_cover(cert, starts, variables, job[at], &s, &facts, t)?;
        at = entry_end(job, at, variables).unwrap();
    }
    Ok(t)
}

// Whether a kind is 6 (new) or 7 (delete).
fn is_removal(kind: u8) -> bool
    ensures { result ≡ (eqb kind 6 || eqb kind 7) }
{
    kind == NEW || kind == DELETE
}

// Whether one variable is tested to be below itself, which has no predecessor: that is seen before any placing.
fn is_below_itself(kind: u8, a: u8, b: u8) -> bool
    ensures { result ≡ (eqb kind 9 && eqb a b) }
{
    kind == BELOW_VALUE && a == b
}

// Covers of the predecessors of a shape by a transition.
fn check_transition(
    cert: &[u8],
    starts: &[u16],
    variables: usize,
    by: Transition,
    s: &[u8; 28],
    facts: &[u16; 28],
    t: Position,
) -> Result<Position, Refused>
    requires { (allowed variables by.kind by.a by.b ≡ true) × (variables ≤ 8) × (ShapeArray variables s.now) × (cell_count s.now ≤ 12) × (OwnVersion cert.now facts.now) × (Within cert.now t) × ((whole : Shape) × Settled (rowed facts.now (shape_in variables s.now)) whole) }
    ensures { (whole : Shape) → Settled (rowed facts.now (shape_in variables s.now)) whole → ChecksAll cert.now (members_from cert.now variables starts.now) (map (located by.from) (before (op_of (kind_of by.kind) by.a by.b) whole)) t result }
{
    if by.kind <= STORE {
        let placed = with_helper(variables, by);
        return check_first_quickly(cert, starts, variables, placed, s, facts, t);
    }
    if is_removal(by.kind) {
        return check_cases(cert, starts, variables, by, s, facts, t);
    }
    if is_below_itself(by.kind, by.a, by.b) {
        return Ok(t);
    }
    let placed = with_helper(variables, by);
    check_first_choices(cert, starts, variables, placed, s, facts, t)
}

// Loads the facts of the member at a place, and all that follows from them, into empty rows. Whether no cell is then below itself. Version 1 has none.
fn settle_facts(cert: &[u8], at: usize, variables: usize, facts: &mut [u16; 28]) -> bool
    requires { facts.old ≡ no_facts }
    ensures is { result ≡ is_consistent (loaded_facts cert.now variables at) }
    ensures facts { facts.new ≡ loaded_facts cert.now variables at }
{
    if version_of(cert) != 2 {
        return true;
    }
    load_facts(cert, at, variables, facts);
    is_consistent(facts)
}

// Covers of the predecessors of member m, by each transition into its state.
fn check_member(
    job: &[u8],
    h: Header,
    index: &[u16; 320],
    cert: &[u8],
    starts: &[u16],
    m: usize,
    from: Position,
) -> Result<Position, Refused>
    requires { (JobRead job.now h) × (IndexedFrom (to_state job.now h) h.transitions 0 index.now) × (Table cert.now h.variables starts.now) × (m < length starts.now) × (Within cert.now from) }
    ensures { ChecksAll cert.now (members_from cert.now h.variables starts.now) (owed_by job.now h (located_at cert.now h.variables (get_or starts.now m 0))) from result }
{
    let at = starts[m] as usize;
    let mut k = index[cert[at] as usize];
    if k == 0 {
        return Ok(from);
    }
    let mut s = [0u8; 28];
    load_shape(cert, at, h.variables, &mut s);
    let mut facts = [0u16; 28];
    if !settle_facts(cert, at, h.variables, &mut facts) {
        return Ok(from);
    }
    let mut t = from;
    // along the index: behind each transition stands which is the next into the state
    while 0 < k {
        let by = transition_named(job, h.transitions_at, k);
        t = check_transition(cert, starts, h.variables, by, &s, &facts, t)?;
        k = index[63 + k as usize];
    }
    Ok(t)
}

// Covers of the predecessors of every member.
pub(crate) fn check_members(
    job: &[u8],
    h: Header,
    index: &[u16; 320],
    cert: &[u8],
    starts: &[u16],
    from: Position,
) -> Result<Position, Refused>
    requires { (JobRead job.now h) × (IndexedFrom (to_state job.now h) h.transitions 0 index.now) × (Table cert.now h.variables starts.now) × (Within cert.now from) }
    ensures { ChecksAll cert.now (members_from cert.now h.variables starts.now) (concat_map (owed_by job.now h) (members_at cert.now h.variables starts.now)) from result }
{
    let mut t = from;
    for m in 0..starts.len() {
        t = check_member(job, h, index, cert, starts, m, t)?;
    }
    Ok(t)
}

// Covers of all that is owed, from a place of the certificate on.
pub(crate) fn check_owed(
    job: &[u8],
    h: Header,
    cert: &[u8],
    starts: &[u16],
    at: usize,
) -> Result<Position, Refused>
    requires { (JobRead job.now h) × (Table cert.now h.variables starts.now) × (at ≤ length cert.now) × (length cert.now ≤ 65536) }
    ensures { checked_of result ≡ take_all (covers_of cert.now (members_at cert.now h.variables starts.now) (owed (file_in job.now h).job (members_at cert.now h.variables starts.now))) no_covers at }
{
    // neither is ever so: said for the compiler, so that tests of it in the loops go
    if 8 < h.variables {
        return Err(Refused {
            refusal: Refusal::JobRange,
            place: 0,
        });
    }
    if h.variables == 0 {
        return Err(Refused {
            refusal: Refusal::JobRange,
            place: 0,
        });
    }
    let mut index = [0u16; 320];
    index_transitions(job, h.transitions_at, h.transitions, &mut index);
    let from = Position { at, counted: 0 };
    let t = check_forbidden(job, h.bads_at, h.bads, cert, starts, h.variables, from)?;
    check_members(job, h, &index, cert, starts, t)
}
