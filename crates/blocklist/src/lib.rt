// A list of blocks in a stepper's heap: cells from variable 1, the head. The heap is read here, and changed by the stepper's steps alone, which walk
// with variables 2 and 3. A refusal leaves the heap as it was.
#![tactic(auto)]

ghost use Rattle.std.specs.Prelude.{◌≡◌, ◌≤◌};
ghost use Rattle.blocklist.specs.Answers.{refusal_number, blocks, length_told, MetFromHead, Counts, Inserts, Removes};
ghost use Rattle.blocklist.specs.Parts.{refused_as, edit_of, EditedBy, insert_turns, first_turns, after_turns};

use place::{FIRST_CELL, NULL};
use stepper::{Heap64, Outcome, StepRefusal};

// The code of the last cell's place.
const LAST_CELL: u8 = 66;

// Why a list is not worked on: 13, 29, 28 and 15.
#[derive(Clone, Copy, PartialEq, Eq)]
pub enum ListRefusal {
    IllFormed,
    NoList,
    PastList,
    Full,
}

// What a host is told.
impl From<ListRefusal> for u32 {
    ghost from_gives = { λ refusal number. number ≡ refusal_number refusal };

    fn from(refusal: ListRefusal) -> u32 {
        match refusal {
            ListRefusal::IllFormed => 13,
            ListRefusal::NoList => 29,
            ListRefusal::PastList => 28,
            ListRefusal::Full => 15,
        }
    }
}

// How many cells are met from the head, in any heap: links are followed up to #, at most 64.
#[tactic(auto, using(crate::proofs::Bound::met))]
fn length_of(heap: &Heap64) -> Result<u32, ListRefusal>
    ensures told { result ≡ length_told (blocks heap.now) }
    ensures met { MetFromHead heap.now }
{
    let mut code = heap.vars[0].code;
    for n in 0..64 {
        code = match code {
            NULL => return Ok(n),
            FIRST_CELL..=LAST_CELL => heap.links[(code - FIRST_CELL) as usize].code,
            _ => return Err(ListRefusal::NoList),
        };
    }
    if code == NULL {
        Ok(64)
    } else {
        Err(ListRefusal::NoList)
    }
}

// The refusal, or 13 where that comes first: 3 = 3 is refused just where the heap is ill formed or has no third variable.
fn refused(heap: &Heap64, refusal: ListRefusal) -> ListRefusal
    ensures { result ≡ refused_as heap.now refusal }
{
    let tested = heap.step(1, 3, 3, 0);
    match tested.outcome {
        Outcome::Refused(_) => ListRefusal::IllFormed,
        _ => refusal,
    }
}

// What became of an edit by the outcome of its steps. None of them is blocked.
fn edit_of(outcome: Outcome) -> Result<(), ListRefusal>
    ensures { result ≡ edit_of outcome }
{
    match outcome {
        Outcome::Moved => Ok(()),
        Outcome::Refused(StepRefusal::Full) => Err(ListRefusal::Full),
        _ => Err(ListRefusal::IllFormed),
    }
}

// An edit whose steps are these turns.
fn edit_by(heap: &mut Heap64, turns: &[u32]) -> Result<(), ListRefusal>
    ensures { EditedBy heap.old turns.now (result, heap.new) }
{
    let stepped = heap.steps(turns);
    edit_of(stepped.outcome)?;
    *heap = stepped.heap;
    Ok(())
}

// How many cells are met from the head; variables 2 and 3 end at #.
pub fn count(heap: &mut Heap64) -> Result<u32, ListRefusal>
    ensures { Counts heap.old (result, heap.new) }
{
    let Ok(cells) = length_of(heap) else {
        return Err(refused(heap, ListRefusal::NoList));
    };
    let turns = [
        0x1330, // 3 := null
        0x1320, // 2 := null
    ];
    edit_by(heap, &turns)?;
    Ok(cells)
}

// A cell is put in after the n-th.
fn put_in(heap: &mut Heap64, n: u32) -> Result<(), ListRefusal>
    requires { n ≤ 64 }
    ensures { EditedBy heap.old (insert_turns n) (result, heap.new) }
{
    let turns = [
        0x1630, // new(3)
        0x1531, // 3.next := 1
        0x1313, // 1 := 3: the cell is in front
        n * 0x1000 + 0x433, // n times 3 := 3.next: the one after which it belongs
        0x1423, // 2 := 3.next: the rest is held
        0x1531, // 3.next := 1: the ring is closed
        0x1331, // 3 := 1
        0x1411, // 1 := 1.next: the head is where it was
        0x1532, // 3.next := 2: the ring is open
        0x1330, // 3 := null
        0x1320, // 2 := null
    ];
    edit_by(heap, &turns)
}

// A block is inserted after the n-th, in front for 0.
pub fn insert(heap: &mut Heap64, n: u32) -> Result<(), ListRefusal>
    ensures { Inserts heap.old n (result, heap.new) }
{
    let Ok(cells) = length_of(heap) else {
        return Err(refused(heap, ListRefusal::NoList));
    };
    if cells < n {
        return Err(refused(heap, ListRefusal::PastList));
    }
    put_in(heap, n)
}

// The first cell goes.
fn take_first(heap: &mut Heap64) -> Result<(), ListRefusal>
    ensures { EditedBy heap.old first_turns (result, heap.new) }
{
    let turns = [
        0x1331, // 3 := 1
        0x1411, // 1 := 1.next: the second is the first
        0x1730, // delete(3): the first is gone
        0x1330, // 3 := null
        0x1320, // 2 := null
    ];
    edit_by(heap, &turns)
}

// The cell after the one i links from the first goes.
fn take_after(heap: &mut Heap64, i: u32) -> Result<(), ListRefusal>
    requires { i ≤ 64 }
    ensures { EditedBy heap.old (after_turns i) (result, heap.new) }
{
    let turns = [
        0x1331, // 3 := 1
        i * 0x1000 + 0x433, // i times 3 := 3.next: the one before it
        0x1423, // 2 := 3.next
        0x1531, // 3.next := 1: its link keeps the head
        0x1312, // 1 := 2
        0x1422, // 2 := 2.next: the rest is held
        0x1710, // delete(1): the cell is gone
        0x1413, // 1 := 3.next: the head is where it was
        0x1532, // 3.next := 2: the rest is linked
        0x1330, // 3 := null
        0x1320, // 2 := null
    ];
    edit_by(heap, &turns)
}

// The n-th block is removed, from 1.
pub fn remove(heap: &mut Heap64, n: u32) -> Result<(), ListRefusal>
    ensures { Removes heap.old n (result, heap.new) }
{
    let Ok(cells) = length_of(heap) else {
        return Err(refused(heap, ListRefusal::NoList));
    };
    if n == 0 || cells < n {
        return Err(refused(heap, ListRefusal::PastList));
    }
    if n == 1 {
        take_first(heap)
    } else {
        take_after(heap, n - 2)
    }
}
