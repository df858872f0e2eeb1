// Which choices of its operands an operation of kinds 1 to 5 or 8 to 13 retains, in the shape of an array.
ghost use Rattle.std.specs.Prelude.{◌≡◌, ◌≤◌};
ghost use Rattle.layout.specs.ShapeArray.{cell_count, operand_at, links_in};
ghost use Rattle.place.specs.Place.{place_of};
ghost use Rattle.placing.specs.Wanted.{fits_in};
ghost use Rattle.shapes.specs.Operands.{wanted_first_in, wanted_last_in, last_operand_in};

use place::{NOWHERE, Place};
use placing::{Wanted, is_wanted, wanted_first, wanted_last};

// Where an operand stands.
pub(crate) fn place_of(s: &[u8; 28], operand: u8) -> Place
    requires { operand ≤ 9 }
    ensures { result ≡ place_of (operand_at s.now operand) }
{
    Place {
        code: s[17 + operand as usize],
    }
}

// What is wanted of the operand that is placed first.
pub(crate) fn wanted_of_first(a: u8, b: u8, s: &[u8; 28]) -> Wanted
    requires { (a ≤ 9) × (b ≤ 9) }
    ensures { result ≡ wanted_first_in a b s.now }
{
    let x = place_of(s, a);
    let y = place_of(s, b);
    wanted_first(a == b, x, y)
}

// What is wanted of the operand that is placed last.
pub(crate) fn wanted_of_last(kind: u8, a: u8, b: u8, s: &[u8; 28]) -> Wanted
    requires { (a ≤ 9) × (b ≤ 9) × (cell_count s.now ≤ 14) }
    ensures { result ≡ wanted_last_in kind a b s.now }
{
    let x = place_of(s, a);
    let y = place_of(s, b);
    let n = s[0] as usize;
    let all = &s[..];
    wanted_last(kind, a == b, &all[3..3 + n], x, y)
}

// The operand that is placed last: a where it is nowhere, else b.
pub(crate) fn last_operand(a: u8, b: u8, s: &[u8; 28]) -> u8
    requires { a ≤ 9 }
    ensures { result ≡ last_operand_in a b s.now }
{
    let x = place_of(s, a);
    if x.code == NOWHERE {
        return a;
    }
    b
}

// Whether choice k is wanted.
pub(crate) fn is_wanted_in(s: &[u8; 28], wanted: Wanted, k: u8) -> bool
    requires { cell_count s.now ≤ 14 }
    ensures { result ≡ fits_in (links_in s.now) wanted k }
{
    let n = s[0] as usize;
    let all = &s[..];
    is_wanted(&all[3..3 + n], wanted, k as usize)
}
