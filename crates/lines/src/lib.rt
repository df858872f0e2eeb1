// One line of a listing, read from its bytes.
#![tactic(auto)]

ghost use Rattle.std.specs.Prelude.{Some, None, MatchOption, IfSome, ◌≡◌, ◌<◌};
ghost use Rattle.kinds.specs.Kinds.{number_of};
ghost use Rattle.lines.specs.Line.{letter_of, operand_of, checked, enclosed_of, second_of, between_of, operation_of, test_of, digit_of, mark_for, mark_of, line_of};

use kinds::{DIFFERENT, Kind, allows};

// The kind of the word `any`, which the table of kinds does not have.
pub const ANY: u8 = 0;

// An operation as it stands on a line: its kind and its operands, 0 for null and 1 to 26 for the letters; kind 0 is the word `any`.
#[derive(Clone, Copy)]
pub struct Operation {
    pub kind: u8,
    pub a: u8,
    pub b: u8,
}

// What a line is: an operation; `while T` and `if T`; `end`; `mark k`; or outside the grammar.
#[derive(Clone, Copy)]
pub enum Line {
    Perform(Operation),
    While(Operation),
    If(Operation),
    End,
    Mark(usize),
    Other,
}

// A letter's number, from 1.
#[tactic(auto, using(std::proofs::lemmas::Bool::Decides::nat_tests), unfolding(crate::specs::Line::letter_of))]
fn letter(byte: u8) -> Option<u8>
    ensures { result ≡ letter_of byte }
{
    match byte {
        b'a'..=b'z' => Some(byte - b'a' + 1),
        _ => None,
    }
}

// The operand that bytes begin with, and the bytes behind it.
#[tactic(auto, using(crate::proofs::Starting::fronts, crate::proofs::Starting::letter_operand), unfolding(crate::specs::Line::operand_of))]
fn read_operand(bytes: &[u8]) -> Option<(u8, &[u8])>
    ensures { MatchOption result (operand_of bytes.now ≡ None) (λ p. operand_of bytes.now ≡ Some (p.0, p.1.now)) }
{
    if let Some(rest) = bytes.strip_prefix(b"null") {
        return Some((0, rest));
    }
    match bytes {
        [first, rest @ ..] => Some((letter(*first)?, rest)),
        [] => None,
    }
}

// The operation of a kind and operands that the table of kinds allows, with the letters as 26 variables.
#[tactic(auto, unfolding(crate::specs::Line::checked))]
fn check_table(kind: Kind, a: u8, b: u8) -> Option<Operation>
    ensures { result ≡ checked (number_of kind) a b }
{
    if allows(26, kind as usize, a as usize, b as usize) {
        Some(Operation {
            kind: kind as u8,
            a,
            b,
        })
    } else {
        None
    }
}

// After `new(` or `delete(`.
#[tactic(auto, using(crate::proofs::Starting::wholes), unfolding(crate::specs::Line::enclosed_of))]
fn read_enclosed(kind: Kind, bytes: &[u8]) -> Option<Operation>
    ensures { result ≡ enclosed_of (number_of kind) bytes.now }
{
    let (a, rest) = read_operand(bytes)?;
    if rest == b")".as_slice() {
        check_table(kind, a, 0)
    } else {
        None
    }
}

// After the first operand and what stands between.
#[tactic(auto, using(crate::proofs::Starting::wholes, std::proofs::lemmas::Bool::Decides::nat_tests), unfolding(crate::specs::Line::second_of))]
fn read_second(kind: Kind, a: u8, bytes: &[u8]) -> Option<Operation>
    ensures { result ≡ second_of (number_of kind) a bytes.now }
{
    let (b, rest) = read_operand(bytes)?;
    if rest.is_empty() {
        check_table(kind, a, b)
    } else if kind == Kind::Assign && rest == b".next".as_slice() {
        check_table(Kind::Load, a, b)
    } else {
        None
    }
}

// After the first operand.
#[tactic(auto, using(crate::proofs::Starting::fronts), unfolding(crate::specs::Line::between_of))]
fn read_between(a: u8, bytes: &[u8]) -> Option<Operation>
    ensures { result ≡ between_of a bytes.now }
{
    if let Some(rest) = bytes.strip_prefix(b" = ") {
        read_second(Kind::Equal, a, rest)
    } else if let Some(rest) = bytes.strip_prefix(b" != ") {
        read_second(Kind::Different, a, rest)
    } else if let Some(rest) = bytes.strip_prefix(b" := ") {
        read_second(Kind::Assign, a, rest)
    } else if let Some(rest) = bytes.strip_prefix(b".next := ") {
        read_second(Kind::Store, a, rest)
    } else {
        None
    }
}

// An operation.
#[tactic(auto, using(crate::proofs::Starting::fronts), unfolding(crate::specs::Line::operation_of))]
fn read_operation(bytes: &[u8]) -> Option<Operation>
    ensures { result ≡ operation_of bytes.now }
{
    if let Some(rest) = bytes.strip_prefix(b"new(") {
        return read_enclosed(Kind::New, rest);
    }
    if let Some(rest) = bytes.strip_prefix(b"delete(") {
        return read_enclosed(Kind::Delete, rest);
    }
    let (a, rest) = read_operand(bytes)?;
    read_between(a, rest)
}

// T, after `while ` or `if `.
#[tactic(auto, using(crate::proofs::Starting::wholes, std::proofs::lemmas::Bool::Decides::nat_tests), unfolding(crate::specs::Line::test_of))]
fn read_test(bytes: &[u8]) -> Option<Operation>
    ensures { result ≡ test_of bytes.now }
{
    if bytes == b"any".as_slice() {
        return Some(Operation {
            kind: ANY,
            a: 0,
            b: 0,
        });
    }
    let test = read_operation(bytes)?;
    if test.kind <= DIFFERENT {
        Some(test)
    } else {
        None
    }
}

// A digit's number.
#[tactic(auto, using(std::proofs::lemmas::Bool::Decides::nat_tests), unfolding(crate::specs::Line::digit_of))]
fn digit(byte: u8) -> Option<usize>
    ensures value { result ≡ digit_of byte }
    ensures small { IfSome result (λ d. d < 10) }
{
    match byte {
        b'0'..=b'9' => Some((byte - b'0') as usize),
        _ => None,
    }
}

// A number that a mark may have.
#[tactic(auto, using(std::proofs::lemmas::Bool::Decides::nat_tests), unfolding(crate::specs::Line::mark_for))]
fn mark_for(k: usize) -> Option<usize>
    ensures { result ≡ mark_for k }
{
    if k <= 63 { Some(k) } else { None }
}

// After `mark `: one digit, or two of which the first is not 0.
#[tactic(auto, using(std::proofs::lemmas::Bool::Decides::nat_tests), unfolding(crate::specs::Line::mark_of, crate::specs::Line::digit_of, crate::specs::Line::mark_for))]
fn read_mark(bytes: &[u8]) -> Option<usize>
    ensures { result ≡ mark_of bytes.now }
{
    match bytes {
        [y] => mark_for(digit(*y)?),
        [x, y] if *x != b'0' => mark_for(digit(*x)? * 10 + digit(*y)?),
        _ => None,
    }
}

// The line that bytes are.
#[tactic(auto, using(crate::proofs::Starting::fronts, crate::proofs::Starting::wholes), unfolding(crate::specs::Line::line_of, crate::specs::Line::test_line))]
pub fn read_line(bytes: &[u8]) -> Line
    ensures { result ≡ line_of bytes.now }
{
    if bytes == b"end".as_slice() {
        Line::End
    } else if let Some(rest) = bytes.strip_prefix(b"mark ") {
        read_mark(rest).map_or(Line::Other, Line::Mark)
    } else if let Some(rest) = bytes.strip_prefix(b"while ") {
        read_test(rest).map_or(Line::Other, Line::While)
    } else if let Some(rest) = bytes.strip_prefix(b"if ") {
        read_test(rest).map_or(Line::Other, Line::If)
    } else {
        read_operation(bytes).map_or(Line::Other, Line::Perform)
    }
}
