// Which choices of a placing an operation of kinds 1 to 5 or 8 to 13 retains. In a shape of n cells, whose links are lent, the choices are
// 0 .. n - 1 a cell, n #, n + 1 a fresh cell, n + 2 + i a fresh cell in the middle of the link of cell i.
#![tactic(auto)]

ghost use Rattle.std.specs.Prelude.{◌≡◌, ◌<◌};
ghost use Rattle.placing.specs.Choice.{choice_of, exists};
ghost use Rattle.placing.specs.Retained.{link_open, retained};
ghost use Rattle.placing.specs.Wanted.{source_fits, itself_fits, fits_in, one_by_one, target_choices, choices_of, target_of, cell_beside, beside, once_if, wanted_one, wanted_first, wanted_last};

use kinds::{ASSIGN, DIFFERENT, LOAD, STORE};
use number::wide;
use place::{DANGLING, FIRST_CELL, NOWHERE, Place, both_nowhere, link_at};

// The choices of a variable that are retained.
#[derive(Clone, Copy)]
pub enum Wanted {
    Nothing,
    // choice 0, which changes nothing: the variable has a place
    Once,
    Any,
    // the choice at this place
    At(Place),
    // all but the choice at this place
    Off(Place),
    // a cell whose link is nowhere or at this place
    Source(Place),
    // a cell whose link is nowhere or at that cell itself
    Itself,
    // the link of the cell with this number stands at this place: there, or in the middle of the link
    Target(Place, u8),
}

impl Wanted {
    // Any cell: all but #.
    const CELL: Self = Self::Off(Place::NULL);
}

// Choices from one on, in steps, before another.
#[derive(Clone, Copy)]
pub struct Choices {
    pub from: usize,
    pub step: usize,
    pub to: usize,
}

// Whether p is a cell whose link is nowhere or at q.
#[tactic(auto, unfolding(crate::specs::Retained::link_open))]
fn link_open(links: &[u8], p: Place, q: Place) -> bool
    ensures { result ≡ link_open links.now p.code q.code }
{
    if p.code <= DANGLING {
        return false;
    }
    let link = link_at(links, p);
    link == Place::NOWHERE || link == q
}

// Whether the kind retains a at x and b at y.
#[tactic(auto, unfolding(crate::specs::Retained::retained))]
fn retains(kind: u8, links: &[u8], x: Place, y: Place) -> bool
    ensures { result ≡ retained kind x.code y.code links.now }
{
    match kind {
        DIFFERENT => x != y,
        ..=ASSIGN => x == y,
        LOAD => link_open(links, y, x),
        STORE => link_open(links, x, y),
        _ => DANGLING < x.code && DANGLING < y.code,
    }
}

// The choice that puts a variable at # or at a cell.
#[tactic(auto, unfolding(crate::specs::Choice::choice_of))]
fn choice_of(n: usize, p: Place) -> usize
    ensures { result ≡ choice_of n p.code }
{
    if p == Place::NULL {
        n
    } else {
        p.cell_index().unwrap_or(0)
    }
}

// Whether choice k is there: the link that it is within has a place.
#[tactic(auto, unfolding(crate::specs::Choice::exists))]
fn choice_exists(links: &[u8], k: usize) -> bool
    ensures { result ≡ exists links.now k }
{
    let n = links.len();
    if k <= n + 1 {
        return true;
    }
    let i = k - n - 2;
    i < n && links[i] != NOWHERE
}

// Whether choice k puts a variable at a cell whose link is nowhere or at p.
#[tactic(auto, unfolding(crate::specs::Wanted::source_fits))]
fn source_fits(links: &[u8], p: Place, k: usize) -> bool
    ensures { result ≡ source_fits links.now p.code k }
{
    let n = links.len();
    if k < n {
        links[k] == NOWHERE || links[k] == p.code
    } else if k <= n + 1 {
        k == n + 1
    } else {
        let i = k - n - 2;
        i < n && links[i] != NOWHERE && links[i] == p.code
    }
}

// Whether choice k puts a variable at a cell whose link is nowhere or at that cell itself.
#[tactic(auto, unfolding(crate::specs::Wanted::itself_fits))]
fn itself_fits(links: &[u8], k: usize) -> bool
    ensures { result ≡ itself_fits links.now k }
{
    let n = links.len();
    if k < n {
        links[k] == NOWHERE || wide(links[k]) == k + 3
    } else {
        k == n + 1
    }
}

// Whether choice k is wanted.
#[tactic(auto, unfolding(crate::specs::Wanted::target_fits))]
pub fn is_wanted(links: &[u8], wanted: Wanted, k: usize) -> bool
    ensures { result ≡ fits_in links.now wanted k }
{
    let n = links.len();
    match wanted {
        Wanted::Nothing => false,
        Wanted::Once => k == 0,
        Wanted::Any => choice_exists(links, k),
        Wanted::At(p) => k == choice_of(n, p),
        Wanted::Off(p) => k != choice_of(n, p) && choice_exists(links, k),
        Wanted::Source(p) => source_fits(links, p, k),
        Wanted::Itself => itself_fits(links, k),
        Wanted::Target(p, i) => k == n + 2 + i as usize
            || (p != Place::DANGLING && k == choice_of(n, p)),
    }
}

// All choices from one on up to another.
fn one_by_one(from: usize, to: usize) -> Choices
    ensures { result ≡ one_by_one from to }
{
    Choices { from, step: 1, to }
}

// The choices of a target.
#[tactic(auto, unfolding(crate::specs::Wanted::target_choices))]
fn target_choices(n: usize, p: Place, i: u8) -> Choices
    requires { n < 256 }
    ensures { result ≡ target_choices n p.code i }
{
    let within = n + 2 + i as usize;
    if p == Place::DANGLING {
        return one_by_one(within, within + 1);
    }
    let at = choice_of(n, p);
    Choices {
        from: at,
        step: within.saturating_sub(at),
        to: within + 1,
    }
}

// The choices to try, which have all that are wanted among them.
#[tactic(auto, using(crate::proofs::Ranges::choice_of_under))]
pub fn choices_of(n: u8, wanted: Wanted) -> Choices
    ensures { result ≡ choices_of n wanted }
{
    let cells = n as usize;
    let past = cells + (2 + cells);
    match wanted {
        Wanted::Nothing => one_by_one(0, 0),
        Wanted::Once => one_by_one(0, 1),
        Wanted::At(p) => {
            let k = choice_of(cells, p);
            one_by_one(k, k + 1)
        }
        Wanted::Any | Wanted::Off(_) | Wanted::Source(_) | Wanted::Itself => one_by_one(0, past),
        Wanted::Target(p, i) => target_choices(cells, p, i),
    }
}

// What is wanted of a variable where the link of the cell at q is to end at it.
#[tactic(auto, unfolding(crate::specs::Wanted::target_of))]
fn target_of(links: &[u8], q: Place) -> Wanted
    ensures { result ≡ target_of links.now q.code }
{
    if q.code <= DANGLING {
        return Wanted::Nothing;
    }
    let link = link_at(links, q);
    if link == Place::NOWHERE {
        Wanted::Any
    } else {
        Wanted::Target(link, q.code - FIRST_CELL)
    }
}

// What is wanted of a variable that is to be at a cell, as the one at q is.
#[tactic(auto, unfolding(crate::specs::Wanted::cell_beside))]
fn cell_beside(q: Place) -> Wanted
    ensures { result ≡ cell_beside q.code }
{
    if q.code <= DANGLING {
        Wanted::Nothing
    } else {
        Wanted::CELL
    }
}

// What is wanted of a variable that is nowhere, where the other one is at q. In an operation of kind `starting` the link starts at this one.
#[tactic(auto, unfolding(crate::specs::Wanted::beside))]
fn wanted_beside(starting: u8, kind: u8, links: &[u8], q: Place) -> Wanted
    ensures { result ≡ beside starting kind links.now q }
{
    match kind {
        DIFFERENT => Wanted::Off(q),
        ..=ASSIGN => Wanted::At(q),
        _ if kind == starting => Wanted::Source(q),
        LOAD | STORE => target_of(links, q),
        _ => cell_beside(q),
    }
}

// Once, or nothing.
#[tactic(auto, unfolding(crate::specs::Wanted::once_if))]
fn once_if(test: bool) -> Wanted
    ensures { result ≡ once_if test }
{
    if test { Wanted::Once } else { Wanted::Nothing }
}

// What is wanted of a variable that is both a and b, and nowhere.
#[tactic(auto, unfolding(crate::specs::Wanted::wanted_one))]
fn wanted_of_one(kind: u8) -> Wanted
    ensures { result ≡ wanted_one kind }
{
    match kind {
        DIFFERENT => Wanted::Nothing,
        ..=LOAD => Wanted::Any,
        STORE => Wanted::Itself,
        _ => Wanted::CELL,
    }
}

// What is wanted of the operand that is placed first, where a is at x and b at y: any choice of a where both are nowhere; where one has a place
// there is nothing to place, and with one at * there is no choice.
#[tactic(auto, unfolding(crate::specs::Wanted::wanted_first))]
pub fn wanted_first(same: bool, x: Place, y: Place) -> Wanted
    ensures { result ≡ wanted_first same x y }
{
    if x == Place::DANGLING || y == Place::DANGLING {
        Wanted::Nothing
    } else if both_nowhere(same, x, y) {
        Wanted::Any
    } else {
        Wanted::Once
    }
}

// What is wanted of the operand that is placed last, a where it is nowhere and else b; the other one has a place.
#[tactic(auto, unfolding(crate::specs::Wanted::wanted_last))]
pub fn wanted_last(kind: u8, same: bool, links: &[u8], x: Place, y: Place) -> Wanted
    ensures { result ≡ wanted_last kind same links.now x y }
{
    match (x.code, y.code) {
        (NOWHERE, _) if same => wanted_of_one(kind),
        (NOWHERE, _) => wanted_beside(STORE, kind, links, y),
        (_, NOWHERE) => wanted_beside(LOAD, kind, links, x),
        _ => once_if(retains(kind, links, x, y)),
    }
}
