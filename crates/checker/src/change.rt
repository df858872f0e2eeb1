// Kinds 1 to 5, and 8 to 13, which change facts alone: the shape under work, changed in place.
ghost use Rattle.std.specs.Prelude.{◌≡◌, ◌+◌, ◌≤◌, ◌<◌};
ghost use Rattle.layout.specs.ShapeArray.{cell_count, operand_at};
ghost use Rattle.shapes.specs.Change.{placed_in, undone_in};

use kinds::{ASSIGN, STORE};
use place::{FIRST_CELL, NOWHERE, NULL};

// Places operand x by choice k: 0 .. n - 1 a cell, n #, n + 1 a fresh cell, n + 2 + j a fresh cell in the middle of the link of cell j. Nothing
// changes where it has a place.
#[tactic(auto, unfolding(shapes::specs::Change::placed_in))]
pub(crate) fn place_operand(s: &mut [u8; 28], x: u8, k: u8)
    requires { (x ≤ 9) × (cell_count s.old ≤ 13) × (k < cell_count s.old + (2 + cell_count s.old)) }
    ensures { s.new ≡ placed_in s.old x k }
{
    let n = s[0];
    let slot = 17 + x as usize;
    if s[slot] != NOWHERE {
        return;
    }
    if k < n {
        s[slot] = FIRST_CELL + k;
        return;
    }
    if k == n {
        s[slot] = NULL;
        return;
    }
    let fresh = FIRST_CELL + n;
    if k == n + 1 {
        s[0] = n + 1;
        s[fresh as usize] = NOWHERE;
        s[slot] = fresh;
        return;
    }
    let from = (k - n + 1) as usize;
    let link = s[from];
    s[0] = n + 1;
    s[fresh as usize] = link;
    s[from] = fresh;
    s[slot] = fresh;
}

// What the operation changes is put back, both operands being placed. Where b is above the variables it is the helper of kind 4.
#[tactic(auto, unfolding(shapes::specs::Change::undone_in))]
pub(crate) fn undo(variables: usize, kind: u8, a: u8, b: u8, s: &mut [u8; 28])
    requires { (a ≤ 9) × (b ≤ 9) × (operand_at s.old a < 17) × (operand_at s.old b < 17) }
    ensures { s.new ≡ undone_in variables kind a b s.old }
{
    if kind < ASSIGN {
        return;
    }
    if STORE < kind {
        return;
    }
    let to = 17 + a as usize;
    if kind == ASSIGN {
        if a == b {
            return;
        }
        s[to] = NOWHERE;
        return;
    }
    let x = s[to];
    if kind == STORE {
        s[x as usize] = NOWHERE;
        return;
    }
    let from = 17 + b as usize;
    let y = s[from];
    s[y as usize] = x;
    if variables < b as usize {
        s[to] = y;
        s[from] = NOWHERE;
        return;
    }
    s[to] = NOWHERE;
}
