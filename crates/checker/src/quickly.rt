// Kinds 1 to 5, which leave the facts: the loops of `choices`, with the quick test of a cover ahead of the exact one. The quick test is called from one place, so that
// it is compiled into the loop there.
ghost use Rattle.std.specs.Prelude.{◌≤◌};
ghost use Rattle.layout.specs.Members.{members_from};
ghost use Rattle.shapes.specs.Operands.{Working, OneToPlace};
ghost use Rattle.checker.specs.Checking.{Within, Checks};
ghost use Rattle.undoing.specs.Before.{choices_rowed};

use crate::checked::{COVER, Position};
use crate::choices::{place_first, undo_choice};
use crate::single::check_cover;
use crate::wanted::{is_wanted_in, last_operand, wanted_of_first, wanted_of_last};
use covering::quick_cover;
use placing::choices_of;
use transitions::Transition;
use verdict::Refused;

// Covers of the predecessors where at most one variable is still to be placed.
pub(crate) fn check_last_quickly(
    cert: &[u8],
    starts: &[u16],
    variables: usize,
    by: Transition,
    s: &[u8; 28],
    facts: &[u16; 28],
    from: Position,
) -> Result<Position, Refused>
    requires { (OneToPlace variables by.kind by.a by.b s.now) × (by.kind ≤ 5) × (Within cert.now from) }
    ensures { Checks cert.now (members_from cert.now variables starts.now) by.from (choices_rowed variables by.kind by.a by.b s.now facts.now) from result }
{
    let operand = last_operand(by.a, by.b, s);
    let wanted = wanted_of_last(by.kind, by.a, by.b, s);
    let c = choices_of(s[0], wanted);
    let mut t = from;
    // `step_by` in a `for` was tried: it divides by the step ahead of each such loop
    let mut k = c.from;
    while k < c.to {
        let j = k as u8;
        k += c.step;
        if is_wanted_in(s, wanted, j) {
            let mut v = *s;
            undo_choice(variables, by, operand, &mut v, j);
            t = match quick_cover(cert, starts, variables, t.at, by.from, &v) {
                Some(cover) => Position {
                    at: cover.next,
                    counted: t.counted + COVER + cover.links as u64,
                },
                None => check_cover(cert, starts, variables, by.from, &v, facts, t)?,
            };
        }
    }
    Ok(t)
}

// Covers of the predecessors by all choices of a and b.
pub(crate) fn check_first_quickly(
    cert: &[u8],
    starts: &[u16],
    variables: usize,
    by: Transition,
    s: &[u8; 28],
    facts: &[u16; 28],
    from: Position,
) -> Result<Position, Refused>
    requires { (Working 12 variables by.kind by.a by.b s.now) × (by.kind ≤ 5) × (Within cert.now from) }
    ensures { Checks cert.now (members_from cert.now variables starts.now) by.from (choices_rowed variables by.kind by.a by.b s.now facts.now) from result }
{
    let wanted = wanted_of_first(by.a, by.b, s);
    let c = choices_of(s[0], wanted);
    let mut t = from;
    // `step_by` in a `for` was tried: it divides by the step ahead of each such loop
    let mut k = c.from;
    while k < c.to {
        let j = k as u8;
        k += c.step;
        if is_wanted_in(s, wanted, j) {
            let mut v = *s;
            place_first(by.a, by.b, &mut v, j);
            t = check_last_quickly(cert, starts, variables, by, &v, facts, t)?;
        }
    }
    Ok(t)
}
