// The calls of the block list for a host in C: a library of their own, without the checker.
#![tactic(auto)]

ghost use Rattle.std.specs.Prelude.{◌≡◌};
ghost use Rattle.std.specs.Fn.{FnOnceReturnsAtMut};
ghost use Rattle.list_calls.specs.ListBytes.{edit_number, heap_lent, AnswersBytes, CountTells, InsertsBytes, RemovesBytes};

use blocklist::ListRefusal;
use heapcodec::{read_heap, read_values, write_heap, write_values};
use lending::lend;
use stepper::Heap64;

// The heap that bytes and numbers are, or 13; they are none where there aren't 64 numbers.
fn heap_lent(heap: &[u8], values: &[u32]) -> Result<Heap64, ListRefusal>
    ensures { result ≡ heap_lent heap.now values.now }
{
    if values.len() != 64 {
        return Err(ListRefusal::IllFormed);
    }
    read_heap(heap, read_values(values)).ok_or(ListRefusal::IllFormed)
}

// What a call of the list answers on the heap that is lent. The heap after it is written back, unless the answer is a refusal.
fn on_lent<T: Drop, F: FnOnce(&mut Heap64) -> Result<T, ListRefusal>>(
    heap: &mut [u8],
    values: &mut [u32],
    call: F,
) -> Result<T, ListRefusal>
    requires { F.IsAlwaysCallable call }
    ensures { AnswersBytes (λ t r. FnOnceReturnsAtMut F.FnOnce call t r.0 r.1) heap.old values.old result heap.new values.new }
{
    let mut lent = heap_lent(heap, values)?;
    let answer = call(&mut lent)?;
    let codes = lent.values;
    write_heap(lent, heap);
    write_values(codes, values);
    Ok(answer)
}

// What a host is told of an edit.
fn edit_number(edited: Result<(), ListRefusal>) -> u32
    ensures { result ≡ edit_number edited }
{
    match edited {
        Ok(()) => 0,
        Err(refusal) => u32::from(refusal),
    }
}

// Inserts a block after the n-th, in front for 0: 0, or 13, 29, 28, 15.
#[unsafe(no_mangle)]
pub extern "C" fn vorruda_list_insert(heap: &mut [u8], values: &mut [u32], n: u32) -> u32
    ensures { InsertsBytes heap.old values.old n result heap.new values.new }
{
    edit_number(on_lent(heap, values, |lent| blocklist::insert(lent, n)))
}

// Removes the n-th block, from 1: 0, or 13, 29, 28.
#[unsafe(no_mangle)]
pub extern "C" fn vorruda_list_remove(heap: &mut [u8], values: &mut [u32], n: u32) -> u32
    ensures { RemovesBytes heap.old values.old n result heap.new values.new }
{
    edit_number(on_lent(heap, values, |lent| blocklist::remove(lent, n)))
}

// Counts the blocks and tells how many there are: 0, or 13, 29.
#[unsafe(no_mangle)]
pub extern "C" fn vorruda_list_count(heap: &mut [u8], values: &mut [u32], out: &mut [u64]) -> u32
    ensures { CountTells heap.old values.old out.old result heap.new values.new out.new }
{
    let (number, cells) = match on_lent(heap, values, blocklist::count) {
        Ok(cells) => (0, u64::from(cells)),
        Err(refusal) => (u32::from(refusal), 0),
    };
    lend(&[cells], out);
    number
}
