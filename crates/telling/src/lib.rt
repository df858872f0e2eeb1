// What is told of a verdict: to a host, its number and four values; to a person, its line.
#![tactic(auto)]

ghost use Rattle.std.specs.Prelude.{◌++◌, ◌≡◌, ◌+◌, ◌≤◌, length, Ok, Err};
ghost use Rattle.number.specs.CallResult.{lent};
ghost use Rattle.putting.specs.Digits.{digits};
ghost use Rattle.putting.specs.Put.{Put};
ghost use Rattle.verdict.specs.Verdict.{verdict_of, verdict_result};
ghost use Rattle.telling.specs.Line.{verdict_line};

use lending::lend;
use putting::{put_all, put_number};
use verdict::{Counts, Refused, Verdict};

// The verdict's number, 0 for accepted.
pub fn verdict_number(v: Verdict) -> u32
    ensures { result ≡ (verdict_result (verdict_of v)).code }
{
    match v {
        Ok(_) => 0,
        Err(r) => verdict::refusal_number(r.refusal),
    }
}

// The four counts, or the place, the broken rule, its name and 0.
fn values_of(v: Verdict) -> [u64; 4]
    ensures { result ≡ (verdict_result (verdict_of v)).values }
{
    match v {
        Ok(counts) => [
            counts.bads as u64,
            counts.members as u64,
            counts.covers as u64,
            counts.links as u64,
        ],
        Err(r) => [
            r.place as u64,
            verdict::rule_number(r.refusal) as u64,
            verdict::rule_name(r.refusal) as u64,
            0,
        ],
    }
}

// Tells a host the verdict's number and, in an array that it lends, its values.
pub fn tell(v: Verdict, out: &mut [u64]) -> u32
    ensures number { result ≡ (verdict_result (verdict_of v)).code }
    ensures values { out.new ≡ lent (verdict_result (verdict_of v)).values out.old }
{
    lend(&values_of(v), out);
    verdict_number(v)
}

// Puts words and a number after them at a place of a line; gives the place after them.
fn put_worded(line: &mut [u8], at: usize, words: &[u8], n: u64) -> usize
    requires { at + length words.now + 20 ≤ length line.old }
    ensures length { result ≤ at + length words.now + 20 }
    ensures put { Put at line.old (words.now ++ digits n) result line.new }
{
    let next = put_all(line, at, words);
    put_number(line, next, n)
}

// Puts the line of an accepted pair, and gives its length.
fn put_counts(counts: Counts, line: &mut [u8]) -> usize
    requires { 128 ≤ length line.old }
    ensures length { result ≤ 128 }
    ensures put { Put 0 line.old (verdict_line (verdict_of (Ok counts))) result line.new }
{
    let bads = put_worded(line, 0, b"accepted bads ", counts.bads as u64);
    let members = put_worded(line, bads, b" members ", counts.members as u64);
    let covers = put_worded(line, members, b" covers ", counts.covers as u64);
    put_worded(line, covers, b" links ", counts.links as u64)
}

// Puts the line of a refusal, and gives its length.
fn put_refusal(r: Refused, line: &mut [u8]) -> usize
    requires { 128 ≤ length line.old }
    ensures length { result ≤ 128 }
    ensures put { Put 0 line.old (verdict_line (verdict_of (Err r))) result line.new }
{
    let number = put_worded(
        line,
        0,
        b"refused ",
        verdict::refusal_number(r.refusal) as u64,
    );
    let at = put_worded(line, number, b" at ", r.place as u64);
    let rule = verdict::rule_number(r.refusal);
    if rule == 0 {
        return at;
    }
    let named = put_worded(line, at, b" rule ", rule as u64);
    put_worded(line, named, b" of ", verdict::rule_name(r.refusal) as u64)
}

// Puts the verdict's line, without a line end, and gives its length.
pub fn put_line(v: Verdict, line: &mut [u8; 128]) -> usize
    ensures length { result ≤ 128 }
    ensures put { Put 0 line.old (verdict_line (verdict_of v)) result line.new }
{
    match v {
        Ok(counts) => put_counts(counts, line),
        Err(r) => put_refusal(r, line),
    }
}
