// The facts before an operation, as rows: of kinds 8 to 13, which name cells c and d, and of kind 6, by the cell that was new.
#![tactic(auto)]

ghost use Rattle.std.specs.Prelude.{cond, not, ◌≡◌};
ghost use Rattle.factrows.specs.Rows.{has_fact, lowered};
ghost use Rattle.undoing.specs.Undone.{fact_kind, left_cell, right_cell, is_undone, rows_undone};

use factrows::{add_fact, clashes, drop_cell, has_fact, remove_cell};
use kinds::{BELOW_VALUE, COPY, EQUAL_VALUE, LARGER, READ};

// A fact that an operation tells: of kind 1, that its two cells are equal, or of kind 0, that the left one is below the right one.
#[derive(Clone, Copy)]
struct Told {
    kind: usize,
    left: usize,
    right: usize,
}

impl Told {
    // What an operation that names the cells c and d tells of them: that they are equal, by a test for equal or a copy; else that one is below the
    // other, d where a larger value was written to c.
    #[tactic(auto, unfolding(crate::specs::Undone::fact_kind, crate::specs::Undone::left_cell, crate::specs::Undone::right_cell))]
    fn by(kind: u8, c: usize, d: usize) -> Self
        ensures kind { result.kind ≡ fact_kind kind }
        ensures left { result.left ≡ left_cell kind c d }
        ensures right { result.right ≡ right_cell kind c d }
    {
        match kind {
            EQUAL_VALUE | COPY => Self {
                kind: 1,
                left: c,
                right: d,
            },
            LARGER => Self {
                kind: 0,
                left: d,
                right: c,
            },
            _ => Self {
                kind: 0,
                left: c,
                right: d,
            },
        }
    }
}

// Makes the rows those before an operation of kinds 8 to 13, if there is a shape before: none where its fact puts a cell below itself. Whether there is.
#[tactic(auto, unfolding(crate::specs::Undone::is_undone, crate::specs::Undone::rows_undone, crate::specs::Undone::is_own))]
pub fn undo_values(rows: &mut [u16; 28], kind: u8, c: usize, d: usize) -> bool
    ensures is { result ≡ is_undone kind c d rows.old }
    ensures rows { rows.new ≡ cond result (rows_undone kind c d rows.old) rows.old }
{
    if kind == READ {
        drop_cell(rows, c);
        return true;
    }
    if COPY < kind && c == d {
        drop_cell(rows, c);
        add_fact(rows, 1, c, c);
        return true;
    }
    let told = Told::by(kind, c, d);
    if clashes(rows, told.kind, told.left, told.right) {
        return false;
    }
    add_fact(rows, told.kind, told.left, told.right);
    if BELOW_VALUE < kind && c != d {
        drop_cell(rows, c);
    }
    true
}

// Takes cell c out, if it is in no fact. Whether it is in none.
pub fn take_out(rows: &mut [u16; 28], c: usize) -> bool
    ensures is { result ≡ not (has_fact rows.old 1 c c) }
    ensures rows { rows.new ≡ cond result (lowered c rows.old) rows.old }
{
    if has_fact(rows, 1, c, c) {
        return false;
    }
    remove_cell(rows, c);
    true
}
