// The transitions and marks of one line.
ghost use Rattle.std.specs.Prelude.{◌≡◌, ℕ, suc, ◌*◌, ◌≤◌, ◌<◌, cond, length};
ghost use Rattle.lines.specs.Line.{opens};
ghost use Rattle.lines.specs.declared.Line.TheVariants.{Perform, Mark};
ghost use Rattle.listing.specs.LineByLine.{skip_numbers, test_numbers, opposite_numbers};
ghost use Rattle.translating.specs.Work.{WorkWithin};
ghost use Rattle.translating.specs.Reading.{Adds, Leads, Begins, MarkIn, Closes};

use crate::names::number_operation;
use crate::{Fault, Refusal};
use kinds::{DIFFERENT, EQUAL};
use lines::{ANY, Line, Operation};

// How far the reading has come: the place in the text; the lines passed, which is the number of the present state too; how many transitions
// and names there are.
#[derive(Clone, Copy)]
pub struct Progress {
    pub at: usize,
    pub passed: usize,
    pub count: usize,
    pub met: usize,
}

impl Progress {
    // A refusal at the line after those passed.
    pub(crate) fn refused(self, fault: Fault) -> Refusal
        requires { self.passed ≤ 63 }
        ensures { result ≡ record { fault = fault; line = suc self.passed } }
    {
        Refusal {
            fault,
            line: self.passed + 1,
        }
    }
}

// What the reading keeps: the transitions' bytes behind five for the numbers ahead of them; the names' letters; the marks' states.
// There is no heap: each array has the most room that the limits allow, and `Progress` says how much of it counts.
#[derive(Drop)]
pub struct Work {
    pub job: [u8; 635],
    pub letters: [u8; 8],
    pub states: [u8; 64],
}

// A `while` (it loops) or an `if` that is open: T, and the state from which T leads.
#[derive(Clone, Copy)]
pub struct Open {
    pub loops: bool,
    pub test: Operation,
    pub state: usize,
}

// What a line does: it leads on; it opens a block; it ends one.
#[derive(Clone, Copy)]
pub enum Begun {
    On(Progress),
    Opened(Progress, Open),
    Ended,
}

// null = null
fn skip() -> Operation
    ensures { result ≡ skip_numbers }
{
    Operation {
        kind: EQUAL,
        a: 0,
        b: 0,
    }
}

// T as an operation.
fn test_of(test: Operation) -> Operation
    ensures { result ≡ test_numbers test }
{
    match test.kind {
        ANY => skip(),
        _ => test,
    }
}

// The opposite of T.
fn opposite_of(test: Operation) -> Operation
    ensures { result ≡ opposite_numbers test }
{
    match test.kind {
        ANY => skip(),
        EQUAL => Operation {
            kind: DIFFERENT,
            ..test
        },
        _ => Operation {
            kind: EQUAL,
            ..test
        },
    }
}

// Puts one transition after those that are there.
fn put_transition(job: &mut [u8; 635], count: usize, from: usize, operation: Operation, to: usize)
    requires { (length job.old ≡ 635) × (count < 126) × (from < 64) × (to < 64) }
    ensures { Adds job.old count from operation to job.new }
{
    let at = 5 + 5 * count;
    job[at] = from as u8;
    job[at + 1] = operation.kind;
    job[at + 2] = operation.a;
    job[at + 3] = operation.b;
    job[at + 4] = to as u8;
}

// Leads by an operation from the present state to a new one.
fn lead(
    p: Progress,
    met: usize,
    operation: Operation,
    job: &mut [u8; 635],
) -> Result<Progress, Refusal>
    requires { (length job.old ≡ 635) × (p.passed ≤ 63) × (p.count ≤ 2 * p.passed) }
    ensures { Leads p met operation job.old result job.new }
{
    if 62 < p.passed {
        return Err(p.refused(Fault::Limits));
    }
    let new = p.passed + 1;
    put_transition(job, p.count, p.passed, operation, new);
    Ok(Progress {
        at: p.at,
        passed: new,
        count: p.count + 1,
        met,
    })
}

// Where a block's `end` leads by null = null: back to the `while`'s state, or on to the new one.
fn back_to(opened: Open, new: usize) -> usize
    ensures { result ≡ cond opened.loops opened.state new }
{
    if opened.loops { opened.state } else { new }
}

// The two transitions of an `end`.
pub(crate) fn close(p: Progress, opened: Open, work: &mut Work) -> Result<Progress, Refusal>
    requires { (WorkWithin p work.old) × (opened.state < 64) }
    ensures { Closes p work.old opened result work.new }
{
    if 62 < p.passed {
        return Err(p.refused(Fault::Limits));
    }
    let new = p.passed + 1;
    let job = &mut work.job;
    put_transition(job, p.count, p.passed, skip(), back_to(opened, new));
    put_transition(
        job,
        p.count + 1,
        opened.state,
        opposite_of(opened.test),
        new,
    );
    Ok(Progress {
        at: p.at,
        passed: new,
        count: p.count + 2,
        met: p.met,
    })
}

// A line that is an operation.
fn perform(operation: Operation, p: Progress, work: &mut Work) -> Result<Begun, Refusal>
    requires { WorkWithin p work.old }
    ensures { (depth : ℕ) → Begins depth (Perform operation) p work.old result work.new }
{
    let Some(n) = number_operation(&mut work.letters, p.met, operation) else {
        return Err(p.refused(Fault::Limits));
    };
    let q = lead(p, n.met, n.operation, &mut work.job)?;
    Ok(Begun::On(q))
}

// `while T` (it loops) or `if T`, with so many open already.
fn open_block(
    loops: bool,
    test: Operation,
    p: Progress,
    depth: usize,
    work: &mut Work,
) -> Result<Begun, Refusal>
    requires { WorkWithin p work.old }
    ensures { Begins depth (opens loops test) p work.old result work.new }
{
    if 16 <= depth {
        return Err(p.refused(Fault::Nesting));
    }
    let Some(n) = number_operation(&mut work.letters, p.met, test) else {
        return Err(p.refused(Fault::Limits));
    };
    let q = lead(p, n.met, test_of(n.operation), &mut work.job)?;
    let open = Open {
        loops,
        test: n.operation,
        state: p.passed,
    };
    Ok(Begun::Opened(q, open))
}

// `mark k`.
fn mark(k: usize, p: Progress, work: &mut Work) -> Result<Begun, Refusal>
    requires { (k ≤ 63) × (WorkWithin p work.old) }
    ensures { (depth : ℕ) → Begins depth (Mark k) p work.old result work.new }
{
    if work.states[k] != 64 {
        return Err(p.refused(Fault::Grammar));
    }
    let q = lead(p, p.met, skip(), &mut work.job)?;
    work.states[k] = p.passed as u8;
    Ok(Begun::On(q))
}

// One line, up to the block that it opens.
pub(crate) fn begin(
    line: Line,
    p: Progress,
    depth: usize,
    work: &mut Work,
) -> Result<Begun, Refusal>
    requires { (MarkIn line) × (WorkWithin p work.old) }
    ensures { Begins depth line p work.old result work.new }
{
    match line {
        Line::Perform(operation) => perform(operation, p, work),
        Line::While(test) => open_block(true, test, p, depth, work),
        Line::If(test) => open_block(false, test, p, depth, work),
        Line::End => Ok(Begun::Ended),
        Line::Mark(k) => mark(k, p, work),
        Line::Other => Err(p.refused(Fault::Grammar)),
    }
}
