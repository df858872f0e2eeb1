// The stepper: one operation on a heap of up to 64 cells, which may have values.
#![tactic(auto)]

ghost use Rattle.std.specs.Prelude.{true, ◌≡◌, ◌≤◌, length, map, IfSome};
ghost use Rattle.heap.specs.Codes.{var_in};
ghost use Rattle.heap.specs.Operation.{assign, load, store, new, delete, copy, read, operation};
ghost use Rattle.kinds.specs.Kinds.{number_of, allowed};
ghost use Rattle.lists.specs.Test.{all_from};
ghost use Rattle.place.specs.Place.{codes};
ghost use Rattle.stepper.specs.Step.{outcome_code, stays, comparison, value_test, codes_meet, other_value, codes_differ, perform, perform_named, Performs, Steps};
ghost use Rattle.stepper.specs.Turns.{InTurn, StepsInTurn};
ghost use Rattle.stepper.specs.InPlace.{perform_kind, CellAt, FirstUnused};
ghost use Rattle.stepper.specs.Table.{aimed, aimed_at, slot_fits, cell_fits, value_fits, well_formed, Sized, FormedTable, code_in, most_code, dangle_place};

use kinds::Kind;
use place::{FIRST_CELL, Place};

// A heap of up to 64 cells: how many variables there are, where each stands, which cells are used, where their links stand, and the codes of
// their values: 0 for none, v + 1 for the value v. The arrays lie side by side, as `table_of` and the host's buffers have them.
#[derive(Clone, Copy)]
pub struct Heap64 {
    pub variables: u8,
    pub vars: [Place; 8],
    pub used: [bool; 64],
    pub links: [Place; 64],
    pub values: [u32; 64],
}

// Why a step is refused: document 01's 13, 14 and 15.
#[derive(Clone, Copy)]
pub enum StepRefusal {
    IllFormed,
    BadOperation,
    Full,
}

// What became of a step.
#[derive(Clone, Copy)]
pub enum Outcome {
    Moved,
    Blocked,
    Refused(StepRefusal),
}

// The heap after a step: the heap before it, unless the outcome is moved. It is no Result: a step that is blocked or refused hands back its heap too.
#[derive(Clone, Copy)]
pub struct Stepped {
    pub heap: Heap64,
    pub outcome: Outcome,
}

// What a host is told of an outcome.
pub fn outcome_code(outcome: Outcome) -> u32
    ensures { result ≡ outcome_code outcome }
{
    match outcome {
        Outcome::Moved => 0,
        Outcome::Blocked => 100,
        Outcome::Refused(refusal) => match refusal {
            StepRefusal::IllFormed => 13,
            StepRefusal::BadOperation => 14,
            StepRefusal::Full => 15,
        },
    }
}

// Whether a place, if it is a cell, is a used one. Its code is compared here, and not asked for by `cell_index`: that takes three instructions more a place, of
// which a step tests 72. It is compared before that of the first cell is taken from it, which saves two more.
fn is_aimed(used: &[bool], p: Place) -> bool
    ensures { result ≡ aimed used.now p.code }
{
    if p.code < FIRST_CELL {
        return true;
    }
    let first = FIRST_CELL as usize;
    let i = p.code as usize;
    i < first + used.len() && used[i - first]
}

// Whether each of the places that is a cell is a used one.
fn all_aimed(used: &[bool], places: &[Place]) -> bool
    ensures { result ≡ all_from (length places.now) 0 (aimed_at used.now places.now) }
{
    for p in places {
        if !is_aimed(used, *p) {
            return false;
        }
    }
    true
}

// The largest code of a used cell's value, and of an unused one's.
fn most_code(used: bool) -> u32
    ensures { result ≡ most_code used }
{
    if used { 65536 } else { 0 }
}

// Whether codes of values are those of two equal values, or the first that of a value below the second's. `equal`, and `larger` below, are as the definitions
// `codes_meet` and `codes_differ` take them.
fn codes_meet(equal: bool, v: u32, w: u32) -> bool
    ensures { result ≡ codes_meet equal v w }
{
    0 < v && if equal { v == w } else { v < w }
}

// Whether w is the code of a value larger than v's, or smaller.
fn codes_differ(larger: bool, v: u32, w: u32) -> bool
    ensures { result ≡ codes_differ larger v w }
{
    if larger {
        codes_meet(false, v, w)
    } else {
        codes_meet(false, w, v)
    }
}

// Each of the places that is that one becomes *. Each is written, changed or not: so the loop changes several at once.
fn dangle(places: &mut [Place], at: Place)
    ensures { places.new ≡ map (dangle_place at.code) places.old }
{
    for p in places.iter_mut() {
        *p = if *p == at { Place::DANGLING } else { *p };
    }
}

impl Heap64 {
    // Whether the slots of variables are right: nowhere just where there is no variable, and at used cells. The first is tested of all of them, here and
    // in the next two: a loop that isn't left early compares several at once. All three read copies of the arrays: the compiler then keeps these in registers,
    // and drops the test of the values where they are constants.
    fn slots_fit(&self) -> bool
        ensures { result ≡ all_from 8 0 (slot_fits self.now) }
    {
        let variables = self.variables as usize;
        let mut marked = true;
        for i in 0..8 {
            marked &= (i < variables) == (self.vars[i] != Place::NOWHERE);
        }
        if !marked {
            return false;
        }
        let used = self.used;
        all_aimed(&used, &self.vars)
    }

    // Whether the links of cells are right: nowhere just where a cell is unused, and at used cells.
    fn cells_fit(&self) -> bool
        ensures { result ≡ all_from 64 0 (cell_fits self.now) }
    {
        let used = self.used;
        let links = self.links;
        let mut marked = true;
        for i in 0..64 {
            marked &= used[i] == (links[i] != Place::NOWHERE);
        }
        if !marked {
            return false;
        }
        all_aimed(&used, &links)
    }

    // Whether the codes of values are right: at most 65,536 where a cell is used, else 0.
    fn values_fit(&self) -> bool
        ensures { result ≡ all_from 64 0 (value_fits self.now) }
    {
        let used = self.used;
        let values = self.values;
        let mut fits = true;
        for i in 0..64 {
            fits &= values[i] <= most_code(used[i]);
        }
        fits
    }

    // Whether the heap is well formed.
    #[tactic(auto, unfolding(crate::specs::Table::well_formed))]
    fn is_well_formed(&self) -> bool
        ensures { (result ≡ well_formed self.now) × Sized self.now }
    {
        if self.variables < 1 || 8 < self.variables {
            return false;
        }
        if !self.slots_fit() {
            return false;
        }
        if !self.cells_fit() {
            return false;
        }
        self.values_fit()
    }

    // The lowest unused cell; none if all are used.
    fn lowest_unused(&self) -> Option<usize>
        ensures { FirstUnused self.now.used result }
    {
        self.used.iter().position(|used| !*used)
    }

    // Where an operand stands.
    fn place_of(&self, a: usize) -> Place
        requires { a ≤ 8 }
        ensures { result.code ≡ var_in (codes self.now.vars) a }
    {
        if a == 0 {
            return Place::NULL;
        }
        self.vars[a - 1]
    }

    // The used cell at which an operand stands; none if it stands at # or *.
    fn cell_of(&self, a: usize) -> Option<usize>
        requires table { FormedTable self.now }
        requires a_in { a ≤ self.now.variables }
        ensures { CellAt self.now (var_in (codes self.now.vars) a) result }
    {
        self.place_of(a).cell_index()
    }

    // The code of the value of the cell at which an operand stands: 0, if it stands at none or the cell has no value.
    fn value_of(&self, a: usize) -> u32
        requires table { FormedTable self.now }
        requires a_in { a ≤ self.now.variables }
        ensures { result ≡ code_in self.now.values (var_in (codes self.now.vars) a) }
    {
        match self.cell_of(a) {
            Some(i) => self.values[i],
            None => 0,
        }
    }

    // a = b, or a != b.
    fn compare(&self, equal: bool, a: usize, b: usize) -> Outcome
        requires table { FormedTable self.now }
        requires a_in { a ≤ self.now.variables }
        requires b_in { b ≤ self.now.variables }
        ensures { Performs self.now (comparison equal a b) (stays self.now result) }
    {
        let p = self.place_of(a);
        let q = self.place_of(b);
        if p == Place::DANGLING || q == Place::DANGLING || (p == q) != equal {
            return Outcome::Blocked;
        }
        Outcome::Moved
    }

    // a := b.
    fn assign(&mut self, a: usize, b: usize) -> Outcome
        requires table { FormedTable self.old }
        requires a_in { (1 ≤ a) × (a ≤ self.old.variables) }
        requires b_in { b ≤ self.old.variables }
        ensures { Performs self.old (assign a b) (stays self.new result) }
    {
        let p = self.place_of(b);
        if p == Place::DANGLING {
            return Outcome::Blocked;
        }
        self.vars[a - 1] = p;
        Outcome::Moved
    }

    // a := b.next.
    fn load(&mut self, a: usize, b: usize) -> Outcome
        requires table { FormedTable self.old }
        requires a_in { (1 ≤ a) × (a ≤ self.old.variables) }
        requires b_in { b ≤ self.old.variables }
        ensures { Performs self.old (load a b) (stays self.new result) }
    {
        let Some(i) = self.cell_of(b) else {
            return Outcome::Blocked;
        };
        let link = self.links[i];
        if link == Place::DANGLING {
            return Outcome::Blocked;
        }
        self.vars[a - 1] = link;
        Outcome::Moved
    }

    // a.next := b.
    fn store(&mut self, a: usize, b: usize) -> Outcome
        requires table { FormedTable self.old }
        requires a_in { a ≤ self.old.variables }
        requires b_in { b ≤ self.old.variables }
        ensures { Performs self.old (store a b) (stays self.new result) }
    {
        let Some(i) = self.cell_of(a) else {
            return Outcome::Blocked;
        };
        let p = self.place_of(b);
        if p == Place::DANGLING {
            return Outcome::Blocked;
        }
        self.links[i] = p;
        Outcome::Moved
    }

    // new(a), at the lowest unused cell.
    fn take_cell(&mut self, a: usize) -> Outcome
        requires table { FormedTable self.old }
        requires a_in { (1 ≤ a) × (a ≤ self.old.variables) }
        ensures { Performs self.old (new a) (stays self.new result) }
    {
        let Some(i) = self.lowest_unused() else {
            return Outcome::Refused(StepRefusal::Full);
        };
        self.used[i] = true;
        self.links[i] = Place::DANGLING;
        self.vars[a - 1] = Place::cell(i as u8);
        Outcome::Moved
    }

    // delete(a).
    fn free_cell(&mut self, a: usize) -> Outcome
        requires table { FormedTable self.old }
        requires a_in { a ≤ self.old.variables }
        ensures { Performs self.old (delete a) (stays self.new result) }
    {
        let Some(i) = self.cell_of(a) else {
            return Outcome::Blocked;
        };
        let at = self.place_of(a);
        dangle(&mut self.vars, at);
        dangle(&mut self.links, at);
        self.used[i] = false;
        self.links[i] = Place::NOWHERE;
        self.values[i] = 0;
        Outcome::Moved
    }

    // The tests of two values: a's equals b's, or is below it.
    fn compare_values(&self, equal: bool, a: usize, b: usize) -> Outcome
        requires table { FormedTable self.now }
        requires a_in { a ≤ self.now.variables }
        requires b_in { b ≤ self.now.variables }
        ensures { Performs self.now (value_test equal a b) (stays self.now result) }
    {
        let v = self.value_of(a);
        let w = self.value_of(b);
        if !codes_meet(equal, v, w) {
            return Outcome::Blocked;
        }
        Outcome::Moved
    }

    // read(a): the value of a's cell becomes the one that is lent.
    fn read_value(&mut self, a: usize, value: u16) -> Outcome
        requires table { FormedTable self.old }
        requires a_in { a ≤ self.old.variables }
        ensures { stays self.new result ≡ perform self.old value (read a) }
    {
        let Some(i) = self.cell_of(a) else {
            return Outcome::Blocked;
        };
        self.values[i] = value as u32 + 1;
        Outcome::Moved
    }

    // copy(a, b): where b's cell has a value, a's cell reads that one.
    fn copy_value(&mut self, a: usize, b: usize) -> Outcome
        requires table { FormedTable self.old }
        requires a_in { a ≤ self.old.variables }
        requires b_in { b ≤ self.old.variables }
        ensures { Performs self.old (copy a b) (stays self.new result) }
    {
        let w = self.value_of(b);
        if w == 0 {
            return Outcome::Blocked;
        }
        self.read_value(a, (w - 1) as u16)
    }

    // A larger value than b's, or a smaller: where the one that is lent is so, a's cell reads it.
    fn read_other(&mut self, larger: bool, a: usize, b: usize, value: u16) -> Outcome
        requires table { FormedTable self.old }
        requires a_in { a ≤ self.old.variables }
        requires b_in { b ≤ self.old.variables }
        ensures { stays self.new result ≡ perform self.old value (other_value larger a b) }
    {
        let w = self.value_of(b);
        if !codes_differ(larger, w, value as u32 + 1) {
            return Outcome::Blocked;
        }
        self.read_value(a, value)
    }

    // An operation that keeps to the table of kinds, on a well formed heap.
    fn perform(&mut self, kind: Kind, a: usize, b: usize, value: u16) -> Outcome
        requires table { FormedTable self.old }
        requires is_allowed { allowed self.old.variables (number_of kind) a b ≡ true }
        ensures { stays self.new result ≡ perform_named self.old value (operation self.old.variables (number_of kind) a b) }
    {
        match kind {
            Kind::Equal => self.compare(true, a, b),
            Kind::Different => self.compare(false, a, b),
            Kind::Assign => self.assign(a, b),
            Kind::Load => self.load(a, b),
            Kind::Store => self.store(a, b),
            Kind::New => self.take_cell(a),
            Kind::Delete => self.free_cell(a),
            Kind::EqualValue => self.compare_values(true, a, b),
            Kind::BelowValue => self.compare_values(false, a, b),
            Kind::Copy => self.copy_value(a, b),
            Kind::Larger => self.read_other(true, a, b, value),
            Kind::Smaller => self.read_other(false, a, b, value),
            Kind::Read => self.read_value(a, value),
        }
    }

    // One operation on a well formed heap, refused where there is no kind: `kinds::named` gives none where the kind or the operands don't keep to the table.
    fn perform_named(&mut self, kind: Option<Kind>, a: usize, b: usize, value: u16) -> Outcome
        requires table { FormedTable self.old }
        requires is_allowed { IfSome kind (λ k. allowed self.old.variables (number_of k) a b ≡ true) }
        ensures { stays self.new result ≡ perform_kind self.old value kind a b }
    {
        match kind {
            Some(kind) => self.perform(kind, a, b, value),
            None => Outcome::Refused(StepRefusal::BadOperation),
        }
    }

    // One operation, by its kind and operands. A larger value, a smaller value and read write the value that is lent; the other kinds ignore it.
    pub fn step(mut self, kind: u32, a: u32, b: u32, value: u16) -> Stepped
        ensures { Steps self kind a b value result }
    {
        if !self.is_well_formed() {
            return Stepped {
                heap: self,
                outcome: Outcome::Refused(StepRefusal::IllFormed),
            };
        }
        let kind = kinds::named(
            self.variables as usize,
            kind as usize,
            a as usize,
            b as usize,
        );
        let outcome = self.perform_named(kind, a as usize, b as usize, value);
        Stepped {
            heap: self,
            outcome,
        }
    }

    // Several operations in turn on a well formed heap, as `steps` says.
    fn steps_formed(&mut self, turns: &[u32]) -> Outcome
        requires { FormedTable self.old }
        ensures { InTurn turns.now self.old (stays self.new result) }
    {
        for turn in turns {
            let a = (*turn / 16 % 16) as usize;
            let b = (*turn % 16) as usize;
            let kind = kinds::named(self.variables as usize, (*turn / 256 % 16) as usize, a, b);
            let times = *turn / 4096;
            for _ in 0..times {
                let outcome = self.perform_named(kind, a, b, 0);
                let Outcome::Moved = outcome else {
                    return outcome;
                };
            }
        }
        Outcome::Moved
    }

    // Several operations in turn, each done as `step` does it, with 0 lent; the first step that does not move ends it. A turn is a number, best written to
    // the base 16: the digits b, a and the kind, from the last on, and before them how many times it is done. 0x1312 is 1 := 2, once.
    pub fn steps(mut self, turns: &[u32]) -> Stepped
        ensures { StepsInTurn self turns.now result }
    {
        if !self.is_well_formed() {
            return Stepped {
                heap: self,
                outcome: Outcome::Refused(StepRefusal::IllFormed),
            };
        }
        let outcome = self.steps_formed(turns);
        Stepped {
            heap: self,
            outcome,
        }
    }
}
