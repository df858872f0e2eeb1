// The release sheet: fractions in lowest terms, and the text that reports a tally.
#![tactic(auto)]

ghost use Rattle.std.specs.Prelude.{◌≡◌, ◌+◌, ◌≤◌, length, IsOk, MatchResult};
ghost use Rattle.number.specs.CallResult.{lent};
ghost use Rattle.putting.specs.Put.{Put};
ghost use Rattle.sheet.specs.Lowest.{gcd};
ghost use Rattle.sheet.specs.Sheet.{fraction_text, sheet_text, reported};

use putting::{put_all, put_number};

// Why a sheet was not written: its room is too short, and this is the length that it needs.
#[derive(Clone, Copy, Debug, PartialEq, Eq)]
pub struct TooShort {
    pub needed: usize,
}

// The greatest common divisor.
fn greatest(a: u32, b: u32) -> u32
    ensures { result ≡ gcd a b }
{
    let (mut x, mut y) = (a, b);
    // Euclid's turns, as many as it takes
    while y != 0 {
        (x, y) = (y, x % y);
    }
    x
}

// Writes a fraction in lowest terms at a place; gives the place after it.
fn put_fraction(text: &mut [u8], at: usize, n: u32, d: u32) -> usize
    requires { at + 21 ≤ length text.old }
    ensures length { result ≤ at + 21 }
    ensures put { Put at text.old (fraction_text n d) result text.new }
{
    if d == 0 {
        return put_all(text, at, b"none");
    }
    let divisor = greatest(n, d);
    let over = put_number(text, at, (n / divisor) as u64);
    let under = put_all(text, over, b"/");
    put_number(text, under, (d / divisor) as u64)
}

// The sheet of so many verdicts, accepted ones and covers of these: written, with its length, at most 56; or nothing is, where the room is short.
pub fn report(verdicts: u32, accepted: u32, covers: u32, text: &mut [u8]) -> Result<usize, TooShort>
    ensures result { result ≡ reported (sheet_text verdicts accepted covers) (length text.old) }
    ensures text { text.new ≡ lent (sheet_text verdicts accepted covers) text.old }
    ensures length { MatchResult result (λ length. length ≤ 56) (λ short. short.needed ≤ 56) }
    ensures room { 56 ≤ length text.old → IsOk result }
{
    let mut sheet = [0u8; 56];
    let share = put_all(&mut sheet, 0, b"share ");
    let shared = put_fraction(&mut sheet, share, accepted, verdicts);
    let mean = put_all(&mut sheet, shared, b" covers ");
    let length = put_fraction(&mut sheet, mean, covers, accepted);
    if text.len() < length {
        return Err(TooShort { needed: length });
    }
    put_all(text, 0, &sheet[..length]);
    Ok(length)
}
