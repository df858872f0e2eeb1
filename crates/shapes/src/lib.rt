// Shapes in arrays (layout/specs/ShapeArray.antt), undone by kinds 6 (new) and 7 (delete). Numbers that do not fit an array change nothing.
#![tactic(auto)]

ghost use Rattle.std.specs.Prelude.{cond, [], ℕ, ◌≡◌, ◌≤◌, ◌<◌, slice_index};
ghost use Rattle.backward.specs.Predecessors.{lower};
ghost use Rattle.layout.specs.ShapeArray.{cell_count, operand_at};
ghost use Rattle.shapes.specs.Change.{is_free_cell, slot_from, slot_without, array_without, cases_of_new, cases_of, operand_forgotten, array_prepared, is_before, array_before};
ghost use Rattle.shapes.specs.Without.{is_free};

use crate::restore::{prepare_delete, stand_by_case};
use kinds::DELETE;
use number::wide;
use place::{DANGLING, FIRST_CELL, NOWHERE, NULL, Place, link_at, none_at};

mod restore;

// Whether p is a cell, nothing stands at it and its link is nowhere or *.
fn is_free(vars: &[u8], links: &[u8], p: Place) -> bool
    ensures { result ≡ is_free p.code (record { vars = vars.entry.now; links = links.now; facts = [] }) }
{
    FIRST_CELL <= p.code
        && matches!(link_at(links, p).code, NOWHERE | DANGLING)
        && none_at(links, p.code)
        && none_at(vars, p.code)
}

// Whether the array has room for so many variables and for its cells, and cell k is one of them, and free.
#[tactic(auto, unfolding(crate::specs::Change::is_free_cell))]
fn is_free_cell(variables: usize, s: &[u8; 28], k: u8) -> bool
    ensures { result ≡ is_free_cell variables s.now k }
{
    let n = s[0];
    if 9 < variables || 14 < n || n <= k {
        return false;
    }
    is_free(
        &s[18..18 + variables],
        &s[3..3 + n as usize],
        Place::cell(k),
    )
}

// The slot from which slot i comes in a shape of n cells, once cell k is taken out.
#[tactic(auto, unfolding(crate::specs::Change::slot_from))]
fn slot_from(n: u8, k: u8, i: usize) -> usize
    requires { (n ≤ 14) × (k < n) × (i < 28) }
    ensures { result ≡ slot_from n k i }
{
    if 3 + k as usize <= i && i < 2 + n as usize {
        i + 1
    } else {
        i
    }
}

// A place, once the cell at `gone` is taken out.
fn lowered(gone: u8, code: u8) -> u8
    ensures { result ≡ lower gone code }
{
    if gone < code { code - 1 } else { code }
}

// Slot i once cell k is taken out.
#[tactic(auto, unfolding(crate::specs::Change::slot_without, crate::specs::Change::slot_from))]
fn slot_without(s: &[u8; 28], k: u8, i: usize) -> u8
    requires { (cell_count s.now ≤ 14) × (k < cell_count s.now) × (i < 28) }
    ensures { result ≡ slot_without s.now k i }
{
    match i {
        0 => s[0] - 1,
        1 | 2 => s[i],
        _ => lowered(FIRST_CELL + k, s[slot_from(s[0], k, i)]),
    }
}

// Makes each slot of t what is given for its number.
pub(crate) fn fill_slots<F: Fn(usize) -> u8>(t: &mut [u8; 28], slot: F)
    requires { (i : ℕ) → i < 28 → F.pre slot i }
    ensures { (i : ℕ) → i < 28 → F.post slot i (slice_index t.new i) }
{
    for (i, code) in t.iter_mut().enumerate() {
        *code = slot(i);
    }
}

// Makes t the shape of s without its cell k.
fn take_out(s: &[u8; 28], k: u8, t: &mut [u8; 28])
    requires { (cell_count s.now ≤ 14) × (k < cell_count s.now) }
    ensures { t.new ≡ array_without s.now k }
{
    fill_slots(t, |i| slot_without(s, k, i));
}

// Makes t the shape of s without its cell k, if that is free. Whether it is; without room for such a shape, it is not.
fn remove_cell(variables: usize, s: &[u8; 28], k: u8, t: &mut [u8; 28]) -> bool
    ensures free { result ≡ is_free_cell variables s.now k }
    ensures shape { t.new ≡ cond result (array_without s.now k) t.old }
{
    if !is_free_cell(variables, s, k) {
        return false;
    }
    take_out(s, k, t);
    true
}

// Where an operand stands; nowhere, where the array has no slot for it.
fn operand_at(s: &[u8], a: u8) -> u8
    ensures { result ≡ operand_at s.now a }
{
    s.get(17 + a as usize).copied().unwrap_or(NOWHERE)
}

// Puts an operand nowhere, if the array has a slot for it.
#[tactic(auto, unfolding(crate::specs::Change::operand_forgotten))]
fn forget_operand(s: &mut [u8; 28], a: u8)
    ensures { s.new ≡ operand_forgotten s.old a }
{
    if a <= 10 {
        s[17 + a as usize] = NOWHERE;
    }
}

// Numbers of cases, from one on, before another.
#[derive(Clone, Copy)]
pub struct Cases {
    pub first: usize,
    pub end: usize,
}

// The cases of kind 6, by the cell that was new: a's cell, or any where a is nowhere; the case after the last cell is one that the shape lacks. Puts
// a nowhere.
#[tactic(auto, unfolding(crate::specs::Change::cases_of_new))]
fn prepare_new(a: u8, s: &mut [u8; 28]) -> Cases
    ensures cases { result ≡ cases_of_new (cell_count s.old) (operand_at s.old a) }
    ensures shape { s.new ≡ operand_forgotten s.old a }
{
    let n = wide(s[0]);
    let x = operand_at(s, a);
    forget_operand(s, a);
    match x {
        NOWHERE => Cases {
            first: 0,
            end: n + 1,
        },
        NULL | DANGLING => Cases { first: 0, end: 0 },
        FIRST_CELL.. => {
            let k = wide(x - FIRST_CELL);
            Cases {
                first: k,
                end: k + 1,
            }
        }
    }
}

// The cases of the shapes before: by kind 7 where the variables stood, by any other kind, which is taken for 6, which cell was new. Changes s as is
// common to them: by kind 7 no link stands at * and a stands at a fresh cell, by 6 a is nowhere.
#[tactic(auto, unfolding(crate::specs::Change::cases_of, crate::specs::Change::array_prepared))]
pub fn prepare_cases(variables: usize, kind: u8, a: u8, s: &mut [u8; 28]) -> Cases
    ensures cases { result ≡ cases_of variables kind a s.old }
    ensures shape { s.new ≡ array_prepared variables kind a s.old }
{
    if kind == DELETE {
        return prepare_delete(variables, a, s);
    }
    prepare_new(a, s)
}

// Makes t, where what is common to all cases is done, the shape before by case k of so many, if there is one. Whether there is.
#[tactic(auto, unfolding(crate::specs::Change::is_before, crate::specs::Change::array_before))]
pub fn undo_case(variables: usize, kind: u8, count: usize, k: usize, t: &mut [u8; 28]) -> bool
    ensures is { result ≡ is_before variables kind t.old k }
    ensures shape { t.new ≡ cond result (array_before variables kind count t.old k) t.old }
{
    if kind == DELETE {
        return stand_by_case(variables, count, k, t);
    }
    let n = wide(t[0]);
    if n <= k {
        return true;
    }
    let s = *t;
    remove_cell(variables, &s, k as u8, t)
}
