// Shapes of entries, loaded into the array of a shape under work, and their facts, loaded into rows. Every number of an entry is one byte, but for the
// number of its facts, which may be two.
#![tactic(auto)]

ghost use Rattle.std.specs.Prelude.{cond, None, Some, ◌≡◌, ◌+◌, ◌-◌, ◌≤◌, length, get_or, take, drop};
ghost use Rattle.std.proofs.Math.Seq.{paste};
ghost use Rattle.layout.specs.Entries.{version_of, fact_count, facts_first, facts_end, links_inside, entry_end, is_whole};
ghost use Rattle.layout.specs.ShapeArray.{links_in};
ghost use Rattle.layout.specs.Loading.{most_inside, loaded_codes, loaded_shape, entry_facts, span_first, span_end, loaded_facts};

use factrows::close;
use number::wide;
use place::Place;

// The version of a file, its first byte; 0 where it has none.
pub fn version_of(bytes: &[u8]) -> u8
    ensures { result ≡ version_of bytes.now }
{
    bytes.first().copied().unwrap_or(0)
}

// A byte of a file; 0 past its end.
fn byte_at(bytes: &[u8], at: usize) -> usize
    ensures { (result ≡ get_or bytes.now at 0) × (result ≤ 255) }
{
    match bytes.get(at) {
        Some(byte) => wide(*byte),
        None => 0,
    }
}

// The number of facts that stands at a place, in one byte or two.
fn fact_count(bytes: &[u8], at: usize) -> usize
    requires { at ≤ length bytes.now }
    ensures { (result ≡ fact_count bytes.now at) × (result ≤ 32767) }
{
    let low = byte_at(bytes, at);
    if low < 128 {
        return low;
    }
    low - 128 + byte_at(bytes, at + 1) * 128
}

// Where these facts begin.
fn facts_first(bytes: &[u8], at: usize) -> usize
    requires { at ≤ length bytes.now }
    ensures { (result ≡ facts_first bytes.now at) × (result ≤ at + 2) }
{
    if byte_at(bytes, at) < 128 {
        return at + 1;
    }
    at + 2
}

// The place after the facts whose number stands at a place, which there are in version 2.
fn facts_end(bytes: &[u8], at: usize) -> usize
    requires { at ≤ length bytes.now }
    ensures { result ≡ facts_end bytes.now at }
{
    if version_of(bytes) == 2 {
        return facts_first(bytes, at) + 3 * fact_count(bytes, at);
    }
    at
}

// Whether the links of an entry of at most 12 cells at a place, and all ahead of them, are inside, and an array has room for its variables.
fn links_inside(bytes: &[u8], at: usize, variables: usize) -> bool
    ensures { result ≡ links_inside bytes.now variables at }
{
    if 9 < variables {
        return false;
    }
    let Some(last) = bytes.len().checked_sub(2 + variables) else {
        return false;
    };
    let Some(left) = last.checked_sub(at) else {
        return false;
    };
    let n = wide(bytes[at + 1]);
    n <= 12 && n <= left
}

// The place after the entry of at most 12 cells that stands whole at a place, where an array has room for its variables; none where no such entry does.
pub fn entry_end(bytes: &[u8], at: usize, variables: usize) -> Option<usize>
    ensures { result ≡ cond (is_whole bytes.now variables at) (Some (entry_end bytes.now variables at)) None }
{
    if !links_inside(bytes, at, variables) {
        return None;
    }
    let n = wide(bytes[at + 1]);
    let end = facts_end(bytes, at + 2 + variables + n);
    if bytes.len() < end {
        return None;
    }
    Some(end)
}

// Whether such an entry stands whole at a place.
pub fn is_whole(bytes: &[u8], at: usize, variables: usize) -> bool
    ensures { result ≡ is_whole bytes.now variables at }
{
    entry_end(bytes, at, variables).is_some()
}

// Copies so many bytes, from a place on, to a place of a slice. Byte by byte: with `copy_from_slice` a load of a shape took 28 instructions more.
fn copy_bytes(bytes: &[u8], first: usize, count: usize, to: &mut [u8], at: usize)
    requires { (at + count ≤ length to.old) × (first + count ≤ length bytes.now) }
    ensures { to.new ≡ paste to.old at (drop first bytes.now) count }
{
    for i in 0..count {
        to[at + i] = bytes[first + i];
    }
}

// Copies eight bytes, from a place on, to a place of a slice. They go by way of an array of eight, so that it is one load and one store.
fn move_eight(bytes: &[u8], first: usize, to: &mut [u8], at: usize)
    requires { (at + 8 ≤ length to.old) × (first + 8 ≤ length bytes.now) }
    ensures { to.new ≡ paste to.old at (drop first bytes.now) 8 }
{
    let mut eight = [0u8; 8];
    copy_bytes(bytes, first, 8, &mut eight, 0);
    copy_bytes(&eight, 0, 8, to, at);
}

// Whether the most codes that an entry in range has, 8 ahead of its first link and 12 from it on, are inside the buffer.
fn most_inside(bytes: &[u8], variables: usize, links: usize) -> bool
    requires { links ≤ length bytes.now }
    ensures { result ≡ most_inside bytes.now variables links }
{
    if 8 < variables || links < 8 {
        return false;
    }
    12 <= bytes.len() - links
}

// Loads the codes of an entry of n cells, given the place of its first link: eight at a time, and more than it has, where the buffer allows it.
fn load_codes(bytes: &[u8], variables: usize, links: usize, n: usize, s: &mut [u8; 28])
    requires { (variables ≤ 9) × (n ≤ 12) × (variables ≤ links) × (links + n ≤ length bytes.now) }
    ensures { s.new ≡ loaded_codes bytes.now variables links n s.old }
{
    if most_inside(bytes, variables, links) {
        move_eight(bytes, links - 8, s, 10 + variables);
        move_eight(bytes, links, s, 3);
        move_eight(bytes, links + 4, s, 7);
        return;
    }
    copy_bytes(bytes, links - variables, variables, s, 18);
    copy_bytes(bytes, links, n, s, 3);
}

// Loads the shape of the entry at a place; where its links are not inside, the array stays as it is.
pub fn load_shape(bytes: &[u8], at: usize, variables: usize, s: &mut [u8; 28])
    ensures { s.new ≡ loaded_shape bytes.now variables at s.old }
{
    if !links_inside(bytes, at, variables) {
        return;
    }
    let n = bytes[at + 1];
    load_codes(bytes, variables, at + 2 + variables, wide(n), s);
    s[17] = Place::NULL.code;
    s[0] = n;
}

// Where the bytes of an entry's facts are, from one place up to another.
#[derive(Clone, Copy)]
pub struct Span {
    pub first: usize,
    pub end: usize,
}

// The bytes of the facts of the entry at a place: from the first of them up to the entry's end, also where it lists none; from 0 up to 0 in version 1, and where the
// entry is not whole.
pub fn fact_span(bytes: &[u8], at: usize, variables: usize) -> Span
    ensures { (result.first ≤ result.end) × (result.end ≤ length bytes.now) × (take (result.end - result.first) (drop result.first bytes.now) ≡ entry_facts bytes.now variables at) × (result.first ≡ span_first bytes.now variables at) × (result.end ≡ span_end bytes.now variables at) }
{
    let Some(end) = entry_end(bytes, at, variables) else {
        return Span { first: 0, end: 0 };
    };
    if version_of(bytes) != 2 {
        return Span { first: 0, end: 0 };
    }
    let first = facts_first(bytes, at + 2 + variables + wide(bytes[at + 1]));
    Span { first, end }
}

// Loads the facts of the entry at a place, and all that follows from them.
pub fn load_facts(bytes: &[u8], at: usize, variables: usize, rows: &mut [u16; 28])
    ensures { rows.new ≡ loaded_facts bytes.now variables at }
{
    let span = fact_span(bytes, at, variables);
    close(rows, &bytes[span.first..span.end]);
}

// How many cells the shape in an array has: no more than there are slots from the first link on.
pub fn cells_held(s: &[u8; 28]) -> usize
    ensures { (length s.now ≡ 28) × (result ≤ 25) × (result ≡ length (links_in s.now)) }
{
    wide(s[0]).min(s.len() - 3)
}
