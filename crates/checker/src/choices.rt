// Kinds 8 to 13: covers of the predecessors, by the choices of the operand that is placed first and of the one that is placed last. Kinds 1 to 5 go the same
// way, by loops of their own (`quickly`).
ghost use Rattle.std.specs.Prelude.{true, ◌≡◌, ◌+◌, ◌≤◌, ◌<◌};
ghost use Rattle.layout.specs.Members.{members_from};
ghost use Rattle.factrows.specs.Rows.{cell_number};
ghost use Rattle.layout.specs.ShapeArray.{cell_count, operand_at, links_in};
ghost use Rattle.placing.specs.Choice.{put};
ghost use Rattle.placing.specs.Retained.{changed};
ghost use Rattle.placing.specs.Wanted.{fits_in};
ghost use Rattle.shapes.specs.Operands.{HoldsShape, shape_under, Working, OneToPlace, first_placed_in, last_operand_in, wanted_last_in};
ghost use Rattle.checker.specs.Checking.{Within, Checks};
ghost use Rattle.checker.specs.Placing.{second_operand, with_helper};
ghost use Rattle.undoing.specs.Before.{choices_rowed, valued_before};

use crate::change::{place_operand, undo};
use crate::checked::Position;
use crate::single::check_cover;
use crate::wanted::{is_wanted_in, last_operand, place_of, wanted_of_first, wanted_of_last};
use kinds::{LOAD, READ};
use place::{FIRST_CELL, both_nowhere};
use placing::choices_of;
use transitions::Transition;
use undoing::undo_values;
use verdict::Refused;

// The predecessor by choice k of the operand that is placed last, which is wanted, in place.
pub(crate) fn undo_choice(variables: usize, by: Transition, operand: u8, s: &mut [u8; 28], k: u8)
    requires { (OneToPlace variables by.kind by.a by.b s.old) × (operand ≡ last_operand_in by.a by.b s.old) × (k < cell_count s.old + (2 + cell_count s.old)) × (fits_in (links_in s.old) (wanted_last_in by.kind by.a by.b s.old) k ≡ true) }
    ensures { HoldsShape variables s.new (changed variables by.kind by.a by.b (put operand (shape_under variables by.b s.old) k)) }
{
    place_operand(s, operand, k);
    undo(variables, by.kind, by.a, by.b, s);
}

// The number of the cell at which an operand stands; 14, which is in no fact, where it stands at none.
fn cell_of(s: &[u8; 28], operand: u8) -> usize
    requires { operand ≤ 9 }
    ensures { result ≡ cell_number (operand_at s.now operand) }
{
    let p = place_of(s, operand);
    if p.code < FIRST_CELL {
        return 14;
    }
    (p.code - FIRST_CELL) as usize
}

// Kinds 8 to 13: the cover of the predecessor, its facts undone, if there is one.
fn check_valued(
    cert: &[u8],
    starts: &[u16],
    variables: usize,
    by: Transition,
    s: &[u8; 28],
    facts: &[u16; 28],
    t: Position,
) -> Result<Position, Refused>
    requires { (by.a ≤ 9) × (by.b ≤ 9) × (Within cert.now t) }
    ensures { Checks cert.now (members_from cert.now variables starts.now) by.from (valued_before variables by.kind by.a by.b s.now facts.now) t result }
{
    let mut rows = *facts;
    if !undo_values(&mut rows, by.kind, cell_of(s, by.a), cell_of(s, by.b)) {
        return Ok(t);
    }
    check_cover(cert, starts, variables, by.from, s, &rows, t)
}

// Covers of the predecessors where at most one variable is still to be placed.
pub(crate) fn check_last_choices(
    cert: &[u8],
    starts: &[u16],
    variables: usize,
    by: Transition,
    s: &[u8; 28],
    facts: &[u16; 28],
    from: Position,
) -> Result<Position, Refused>
    requires { (OneToPlace variables by.kind by.a by.b s.now) × (5 < by.kind) × (Within cert.now from) }
    ensures { Checks cert.now (members_from cert.now variables starts.now) by.from (choices_rowed variables by.kind by.a by.b s.now facts.now) from result }
{
    let operand = last_operand(by.a, by.b, s);
    let wanted = wanted_of_last(by.kind, by.a, by.b, s);
    let c = choices_of(s[0], wanted);
    let mut t = from;
    // `step_by` in a `for` was tried: it divides by the step ahead of each such loop
    let mut k = c.from;
    while k < c.to {
        let j = k as u8;
        k += c.step;
        if is_wanted_in(s, wanted, j) {
            let mut v = *s;
            undo_choice(variables, by, operand, &mut v, j);
            t = check_valued(cert, starts, variables, by, &v, facts, t)?;
        }
    }
    Ok(t)
}

// Places a by choice k, where both operands are nowhere.
#[tactic(auto, unfolding(shapes::specs::Operands::first_placed_in))]
pub(crate) fn place_first(a: u8, b: u8, s: &mut [u8; 28], k: u8)
    requires { (a ≤ 9) × (b ≤ 9) × (cell_count s.old ≤ 13) × (k < cell_count s.old + (2 + cell_count s.old)) }
    ensures { s.new ≡ first_placed_in a b s.old k }
{
    let x = place_of(s, a);
    let y = place_of(s, b);
    if both_nowhere(a == b, x, y) {
        place_operand(s, a, k);
    }
}

// Covers of the predecessors by all choices of a and b.
pub(crate) fn check_first_choices(
    cert: &[u8],
    starts: &[u16],
    variables: usize,
    by: Transition,
    s: &[u8; 28],
    facts: &[u16; 28],
    from: Position,
) -> Result<Position, Refused>
    requires { (Working 12 variables by.kind by.a by.b s.now) × (5 < by.kind) × (Within cert.now from) }
    ensures { Checks cert.now (members_from cert.now variables starts.now) by.from (choices_rowed variables by.kind by.a by.b s.now facts.now) from result }
{
    let wanted = wanted_of_first(by.a, by.b, s);
    let c = choices_of(s[0], wanted);
    let mut t = from;
    // `step_by` in a `for` was tried: it divides by the step ahead of each such loop
    let mut k = c.from;
    while k < c.to {
        let j = k as u8;
        k += c.step;
        if is_wanted_in(s, wanted, j) {
            let mut v = *s;
            place_first(by.a, by.b, &mut v, j);
            t = check_last_choices(cert, starts, variables, by, &v, facts, t)?;
        }
    }
    Ok(t)
}

// The second operand as it is placed: b; the helper where kind 4 has one variable, and a for kind 13.
fn second_operand(variables: usize, kind: u8, a: u8, b: u8) -> u8
    requires { variables ≤ 8 }
    ensures { result ≡ second_operand variables kind a b }
{
    if kind == LOAD {
        if a == b {
            return (variables + 1) as u8;
        }
        return b;
    }
    if kind == READ {
        return a;
    }
    b
}

// The transition with it.
pub(crate) fn with_helper(variables: usize, by: Transition) -> Transition
    requires { variables ≤ 8 }
    ensures { result ≡ with_helper variables by }
{
    Transition {
        from: by.from,
        kind: by.kind,
        a: by.a,
        b: second_operand(variables, by.kind, by.a, by.b),
        to: by.to,
    }
}
