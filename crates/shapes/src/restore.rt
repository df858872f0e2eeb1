// Kind 7 (delete) undone: the deleted cell is restored, once, and the variables stand as each case says.
ghost use Rattle.std.specs.Prelude.{cond, count_by, ◌&&◌, ◌==◌, ◌≡◌, ◌≤◌, ◌<◌, leb, length};
ghost use Rattle.layout.specs.ShapeArray.{cell_count};
ghost use Rattle.shapes.specs.Change.{is_restorable, slot_forgotten, array_forgotten, array_restored, case_count, vars_by_case, array_by_case, cases_of_delete};

use crate::{Cases, fill_slots};
use place::{DANGLING, FIRST_CELL, NOWHERE};

// Slot i of a shape in which no link stands at *.
#[tactic(auto, unfolding(crate::specs::Change::slot_forgotten))]
fn slot_forgotten(s: &[u8; 28], i: usize) -> u8
    requires { i < 28 }
    ensures { result ≡ slot_forgotten s.now i }
{
    match i {
        3..=16 if s[i] == DANGLING => NOWHERE,
        _ => s[i],
    }
}

// Makes t the shape of s in which no link stands at *.
fn forget_links(s: &[u8; 28], t: &mut [u8; 28])
    ensures { t.new ≡ array_forgotten s.now }
{
    fill_slots(t, |i| slot_forgotten(s, i));
}

// Makes t the shape of s in which no link stands at *, and a stands at a fresh cell without a link, if a is nowhere or at * and there is room for
// all. Whether so.
#[tactic(auto, unfolding(crate::specs::Change::is_restorable))]
fn restore_deleted(variables: usize, a: u8, s: &[u8; 28], t: &mut [u8; 28]) -> bool
    ensures is { result ≡ is_restorable variables a s.now }
    ensures shape { t.new ≡ cond result (array_restored s.now a) t.old }
{
    let n = s[0];
    if 9 < variables || 10 <= a || 14 <= n {
        return false;
    }
    if !matches!(s[17 + a as usize], NOWHERE | DANGLING) {
        return false;
    }
    forget_links(s, t);
    t[0] = n + 1;
    t[3 + n as usize] = NOWHERE;
    t[17 + a as usize] = FIRST_CELL + n;
    true
}

// How many of these places are *.
fn count_dangling(vars: &[u8]) -> usize
    ensures { result ≡ count_by (λ p. p == 2) vars.now }
{
    vars.iter().filter(|code| **code == DANGLING).count()
}

// How many cases there are of where variables that are now at these places stood.
fn count_cases(vars: &[u8]) -> usize
    requires { length vars.now ≤ 9 }
    ensures { result ≡ case_count vars.now }
{
    1 << count_dangling(vars)
}

// The cases of where the variables stood. Changes s as is common to them: no link stands at *, and a stands at a fresh cell; without a shape before
// there is no case, and s stays.
#[tactic(auto, unfolding(crate::specs::Change::cases_of_delete))]
pub(crate) fn prepare_delete(variables: usize, a: u8, s: &mut [u8; 28]) -> Cases
    ensures cases { result ≡ cases_of_delete variables a s.old }
    ensures shape { s.new ≡ cond (is_restorable variables a s.old) (array_restored s.old a) s.old }
{
    let old = *s;
    if !restore_deleted(variables, a, &old, s) {
        return Cases { first: 0, end: 0 };
    }
    Cases {
        first: 0,
        end: count_cases(&s[18..18 + variables]),
    }
}

// Puts variables where they stood by case k of so many, `gone` being the deleted cell. In the first half of the cases a variable at * was there
// already, in the second it stood at the deleted cell; then the next one at * has half as many.
fn choose_case(vars: &mut [u8], gone: u8, count: usize, k: usize)
    ensures { vars.new ≡ vars_by_case gone count k vars.old }
{
    let mut half = count;
    let mut left = k;
    for code in vars.iter_mut() {
        if *code == DANGLING {
            half /= 2;
            if half <= left {
                *code = gone;
                left -= half;
            }
        }
    }
}

// Puts the variables of t where they stood by case k of so many, its last cell being the deleted one, if there is room for variables and cells.
// Whether there is.
pub(crate) fn stand_by_case(variables: usize, count: usize, k: usize, t: &mut [u8; 28]) -> bool
    ensures is { result ≡ (leb variables 9 && leb (cell_count t.old) 14) }
    ensures shape { t.new ≡ cond result (array_by_case variables count k t.old) t.old }
{
    let n = t[0];
    if 9 < variables || 14 < n {
        return false;
    }
    choose_case(&mut t[18..18 + variables], 2 + n, count, k);
    true
}
