// A heap of 64 cells read from a host's bytes and numbers, and written back.
#![tactic(auto)]

ghost use Rattle.std.specs.Prelude.{◌≡◌, ◌+◌, ◌<◌, ◌≤◌, ◌↔◌, EachIndex, IsTrue, length, slice_index};
ghost use Rattle.heapbytes.specs.HeapBytes.{bytes_readable, places_from, marks_from, codes_from};
ghost use Rattle.heapcodec.specs.Codec.{read_heap, heap_written, values_written};

use place::Place;
use stepper::Heap64;

// A heap's bytes: how many there are, and where those of the variable slots, the used marks and the links begin.
const BYTES: usize = 137;

const SLOTS: usize = 1;

const MARKS: usize = 9;

const LINKS: usize = 73;

// How many cells have values.
const CELLS: usize = 64;

// Whether the used marks are all 0 or 1. The loop isn't left early, so that it compares several at once.
fn are_marks(marks: &[u8]) -> bool
    ensures { IsTrue result ↔ EachIndex marks.now (λ k. slice_index marks.now k < 2) }
{
    let mut fit = true;
    for mark in marks {
        fit &= *mark < 2;
    }
    fit
}

// Whether bytes can be a heap's: 137, the used marks 0 or 1.
fn is_readable(bytes: &[u8]) -> bool
    ensures { result ≡ bytes_readable bytes.now }
{
    bytes.len() == BYTES && are_marks(&bytes[MARKS..LINKS])
}

// Where so many variables or links stand, by the bytes from the first of them on.
fn places_from<const N: usize>(bytes: &[u8], first: usize) -> [Place; N]
    requires { first + N ≤ length bytes.now }
    ensures { result ≡ places_from first N bytes.now }
{
    let mut places = [Place::NOWHERE; N];
    for (i, place) in places.iter_mut().enumerate() {
        place.code = bytes[first + i];
    }
    places
}

// Which cells are used.
fn marks_from(bytes: &[u8]) -> [bool; CELLS]
    requires { length bytes.now ≡ 137 }
    ensures { result ≡ marks_from bytes.now }
{
    let mut used = [false; CELLS];
    for (i, mark) in used.iter_mut().enumerate() {
        *mark = bytes[MARKS + i] == 1;
    }
    used
}

// The heap that bytes and the codes of its cells' values are; none where the bytes are no heap's.
pub fn read_heap(bytes: &[u8], values: [u32; CELLS]) -> Option<Heap64>
    ensures { result ≡ read_heap bytes.now values }
{
    if !is_readable(bytes) {
        return None;
    }
    Some(Heap64 {
        variables: bytes[0],
        vars: places_from(bytes, SLOTS),
        used: marks_from(bytes),
        links: places_from(bytes, LINKS),
        values,
    })
}

// Writes the bytes of a heap; leaves other than 137 as they are.
pub fn write_heap(heap: Heap64, bytes: &mut [u8])
    ensures { bytes.new ≡ heap_written heap bytes.old }
{
    if bytes.len() != BYTES {
        return;
    }
    bytes[0] = heap.variables;
    // Variables and links have a loop each: one function for both would also have to say which bytes it leaves, and is no plainer.
    for (i, place) in heap.vars.iter().enumerate() {
        bytes[SLOTS + i] = place.code;
    }
    for (i, used) in heap.used.iter().enumerate() {
        bytes[MARKS + i] = u8::from(*used);
    }
    for (i, place) in heap.links.iter().enumerate() {
        bytes[LINKS + i] = place.code;
    }
}

// The codes of the values of 64 cells: numbers past the 64th count for nothing, and missing ones are 0.
pub fn read_values(values: &[u32]) -> [u32; CELLS]
    ensures { result ≡ codes_from values.now }
{
    let mut codes = [0; CELLS];
    let count = values.len().min(CELLS);
    codes[..count].copy_from_slice(&values[..count]);
    codes
}

// Writes the codes of the values; leaves other than 64 numbers as they are.
pub fn write_values(codes: [u32; CELLS], values: &mut [u32])
    ensures { values.new ≡ values_written codes values.old }
{
    if values.len() == CELLS {
        values.copy_from_slice(&codes);
    }
}
