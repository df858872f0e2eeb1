// The table of kinds: which operands an operation of a kind may have.
#![tactic(auto)]

ghost use Rattle.std.specs.Prelude.{true, false, ◌≡◌, ◌≤◌, MatchOption};
ghost use Rattle.kinds.specs.Kinds.{number_of, least_a_of, least_b_of, most_b_of, allowed};

// The kinds of the table, by their numbers: those that compare and move variables and links, and those that compare or write values of cells.
#[derive(Clone, Copy, PartialEq, Eq)]
pub enum Kind {
    Equal = 1,
    Different,
    Assign,
    Load,
    Store,
    New,
    Delete,
    EqualValue,
    BelowValue,
    Copy,
    Larger,
    Smaller,
    Read,
}

// Their numbers, as jobs and certificates write them: the crates that read these compare bytes.
pub const EQUAL: u8 = Kind::Equal as u8;

pub const DIFFERENT: u8 = Kind::Different as u8;

pub const ASSIGN: u8 = Kind::Assign as u8;

pub const LOAD: u8 = Kind::Load as u8;

pub const STORE: u8 = Kind::Store as u8;

pub const NEW: u8 = Kind::New as u8;

pub const DELETE: u8 = Kind::Delete as u8;

pub const EQUAL_VALUE: u8 = Kind::EqualValue as u8;

pub const BELOW_VALUE: u8 = Kind::BelowValue as u8;

pub const COPY: u8 = Kind::Copy as u8;

pub const LARGER: u8 = Kind::Larger as u8;

pub const READ: u8 = Kind::Read as u8;

const LAST_KIND: usize = 13;

// The columns of the table, by kind. They are matches and no arrays: an array of constants is built anew at each use.

// The least a of a kind; 0 for a number that is no kind.
#[tactic(auto, using(crate::proofs::Rows::least_a_is))]
pub fn least_a(kind: usize) -> usize
    ensures { result ≡ least_a_of kind }
{
    match kind {
        3..=13 => 1,
        _ => 0,
    }
}

// The least b.
#[tactic(auto, using(crate::proofs::Rows::least_b_is))]
pub fn least_b(kind: usize) -> usize
    ensures { result ≡ least_b_of kind }
{
    match kind {
        4 | 8..=12 => 1,
        _ => 0,
    }
}

// The most b where there are so many variables.
#[tactic(auto, using(crate::proofs::Rows::most_b_is))]
pub fn most_b(kind: usize, variables: usize) -> usize
    ensures { result ≡ most_b_of kind variables }
{
    match kind {
        1..=5 | 8..=12 => variables,
        _ => 0,
    }
}

// Whether a kind and two operands keep to the table.
#[tactic(auto, using(crate::proofs::Rows::allowed_is))]
pub fn allows(variables: usize, kind: usize, a: usize, b: usize) -> bool
    ensures { result ≡ allowed variables kind a b }
{
    matches!(kind, 1..=LAST_KIND)
        && least_a(kind) <= a
        && a <= variables
        && least_b(kind) <= b
        && b <= most_b(kind, variables)
}

// The kind with a number; none if there is none.
fn kind_of(number: usize) -> Option<Kind>
    ensures { MatchOption result (¬ ((1 ≤ number) × (number ≤ 13))) (λ k. number_of k ≡ number) }
{
    match number {
        1 => Some(Kind::Equal),
        2 => Some(Kind::Different),
        3 => Some(Kind::Assign),
        4 => Some(Kind::Load),
        5 => Some(Kind::Store),
        6 => Some(Kind::New),
        7 => Some(Kind::Delete),
        8 => Some(Kind::EqualValue),
        9 => Some(Kind::BelowValue),
        10 => Some(Kind::Copy),
        11 => Some(Kind::Larger),
        12 => Some(Kind::Smaller),
        13 => Some(Kind::Read),
        _ => None,
    }
}

// The kind with a number, if it and two operands keep to the table.
pub fn named(variables: usize, kind: usize, a: usize, b: usize) -> Option<Kind>
    ensures { MatchOption result (allowed variables kind a b ≡ false) (λ k. (number_of k ≡ kind) × (allowed variables kind a b ≡ true)) }
{
    if !allows(variables, kind, a, b) {
        return None;
    }
    kind_of(kind)
}
