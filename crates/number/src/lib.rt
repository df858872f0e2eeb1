// Numbers as bytes: a reader of one number at any place, and a writer of a list of numbers.
#![tactic(auto)]

ghost use Rattle.std.specs.Prelude.{◌≡◌, ◌++◌, ◌+◌, ◌<◌, ◌≤◌, length, get_or, take, drop};
ghost use Rattle.number.specs.Number.{largest, bytes_of, number_at};
ghost use Rattle.number.specs.NumberList.{encode, first_above, answer, output};

// The largest number that a file can have.
const LARGEST: u64 = 65535;

// A number that stands at a place, and the place after it.
#[derive(Clone, Copy)]
pub struct Numeral {
    pub value: usize,
    pub next: usize,
}

// No number can be read at the place that was asked for.
#[derive(Clone, Copy)]
pub struct Unreadable {
    pub at: usize,
}

// Why a list isn't written: the first number above 65,535, by its index; or an output that is too short, by the length needed.
#[derive(Clone, Copy)]
pub enum WriteRefusal {
    TooLarge(usize),
    TooShort(usize),
}

// A byte as a number, a place or an index.
pub fn wide(byte: u8) -> usize
    ensures { (result ≡ byte) × (result < 256) }
{
    byte as usize
}

// The number that starts at a place.
pub fn read_number(bytes: &[u8], at: usize) -> Result<Numeral, Unreadable>
    ensures { result ≡ number_at bytes.now at }
{
    if bytes.len() <= at {
        return Err(Unreadable { at });
    }
    let a = wide(bytes[at]);
    if a < 128 {
        return Ok(Numeral {
            value: a,
            next: at + 1,
        });
    }
    read_long(bytes, at, a)
}

// The same, where the first byte says that another follows.
fn read_long(bytes: &[u8], at: usize, a: usize) -> Result<Numeral, Unreadable>
    requires { (at < length bytes.now) × (a ≡ get_or bytes.now at 0) × (128 ≤ a) × (a < 256) }
    ensures { result ≡ number_at bytes.now at }
{
    if bytes.len() - at <= 1 {
        return Err(Unreadable { at });
    }
    let b = wide(bytes[at + 1]);
    if b == 0 {
        return Err(Unreadable { at });
    }
    if b < 128 {
        return Ok(Numeral {
            value: a - 128 + b * 128,
            next: at + 2,
        });
    }
    if bytes.len() - at <= 2 {
        return Err(Unreadable { at });
    }
    let c = wide(bytes[at + 2]);
    if c == 0 {
        return Err(Unreadable { at });
    }
    if c < 4 {
        return Ok(Numeral {
            value: a - 128 + (b - 128) * 128 + c * 16384,
            next: at + 3,
        });
    }
    Err(Unreadable { at })
}

// The index of the first number above 65,535, or the list's length.
fn first_above(numbers: &[u64]) -> usize
    ensures { result ≡ first_above numbers.now }
{
    for (i, n) in numbers.iter().enumerate() {
        if LARGEST < *n {
            return i;
        }
    }
    numbers.len()
}

// How many bytes a number takes.
fn width(n: u64) -> usize
    ensures { (result ≡ length (bytes_of n)) × (result ≤ 3) }
{
    match n {
        0..=127 => 1,
        128..=16383 => 2,
        _ => 3,
    }
}

// How many bytes a list of numbers takes.
fn room_needed(numbers: &[u64]) -> usize
    ensures { result ≡ length (encode numbers.now) }
{
    let mut total = 0;
    for n in numbers {
        total += width(*n);
    }
    total
}

// Writes the bytes of one number at a place and gives the place after them.
fn put_number(bytes: &mut [u8], at: usize, n: u64) -> usize
    requires { (at + length (bytes_of n) ≤ length bytes.old) × (n ≤ largest) }
    ensures { (result ≡ at + length (bytes_of n)) × (bytes.new ≡ take at bytes.old ++ bytes_of n ++ drop (at + length (bytes_of n)) bytes.old) }
{
    if n < 128 {
        bytes[at] = n as u8;
        return at + 1;
    }
    bytes[at] = (n % 128 + 128) as u8;
    if n < 16384 {
        bytes[at + 1] = (n / 128) as u8;
        return at + 2;
    }
    bytes[at + 1] = (n / 128 % 128 + 128) as u8;
    bytes[at + 2] = (n / 16384) as u8;
    at + 3
}

// Writes every number, one after the other.
fn fill(numbers: &[u64], bytes: &mut [u8])
    requires { (first_above numbers.now ≡ length numbers.now) × (length (encode numbers.now) ≤ length bytes.old) }
    ensures { bytes.new ≡ encode numbers.now ++ drop (length (encode numbers.now)) bytes.old }
{
    let mut at = 0;
    for number in numbers {
        at = put_number(bytes, at, *number);
    }
}

// Writes a list of numbers to the first bytes of the output, or refuses and leaves the output as it is.
pub fn write_numbers(numbers: &[u64], bytes: &mut [u8]) -> Result<usize, WriteRefusal>
    ensures { (result ≡ answer numbers.now (length bytes.old)) × (bytes.new ≡ output result numbers.now bytes.old) }
{
    let above = first_above(numbers);
    if above < numbers.len() {
        return Err(WriteRefusal::TooLarge(above));
    }
    let needed = room_needed(numbers);
    if bytes.len() < needed {
        return Err(WriteRefusal::TooShort(needed));
    }
    fill(numbers, bytes);
    Ok(needed)
}
