// The verdict on a job and a certificate: four counts, or a refusal with its place.
#![tactic(auto)]

ghost use Rattle.std.specs.Prelude.{◌≡◌};
ghost use Rattle.format.specs.Parser.{reason_number};
ghost use Rattle.verdict.specs.Verdict.{reason_of, rule_told, name_told};

// The rules of a cover, by document 02's numbers.
pub const WRONG_STATE: u8 = 1;

pub const IMAGE_TWICE: u8 = 2;

pub const VARIABLE_ELSEWHERE: u8 = 3;

pub const LINK_MISSES: u8 = 4;

pub const SHARED_PATH: u8 = 5;

pub const FACT_MISSING: u8 = 6;

// The rule of a cover that broke, and the cell (from 0) or the variable (from 1) that is named; 0 for the state.
#[derive(Clone, Copy)]
pub struct Broken {
    pub rule: u8,
    pub name: u8,
}

// The refusals 1 to 10 of document 01, in their order, and 20 of document 02.
#[derive(Clone, Copy)]
pub enum Refusal {
    JobLength,
    CertificateLength,
    JobUnreadable,
    JobRange,
    JobLeft,
    CertificateUnreadable,
    CertificateRange,
    StartSatisfied,
    CoverFails(Broken),
    CertificateLeft,
    VersionsDiffer,
}

// The counts of an accepted pair: forbidden shapes, members, covers, and the links followed for all covers.
#[derive(Clone, Copy)]
pub struct Counts {
    pub bads: u32,
    pub members: u32,
    pub covers: u32,
    pub links: u32,
}

// A refusal and its place.
#[derive(Clone, Copy)]
pub struct Refused {
    pub refusal: Refusal,
    pub place: usize,
}

// The counts of a pair that is accepted, or why and where it is refused.
pub type Verdict = Result<Counts, Refused>;

// Document 01's number of a refusal.
pub fn refusal_number(refusal: Refusal) -> u32
    ensures { result ≡ reason_number (reason_of refusal) }
{
    match refusal {
        Refusal::JobLength => 1,
        Refusal::CertificateLength => 2,
        Refusal::JobUnreadable => 3,
        Refusal::JobRange => 4,
        Refusal::JobLeft => 5,
        Refusal::CertificateUnreadable => 6,
        Refusal::CertificateRange => 7,
        Refusal::StartSatisfied => 8,
        Refusal::CoverFails(_) => 9,
        Refusal::CertificateLeft => 10,
        Refusal::VersionsDiffer => 20,
    }
}

// Document 02's number of the rule that broke, 0 where none did.
pub fn rule_number(refusal: Refusal) -> u32
    ensures { result ≡ rule_told (reason_of refusal) }
{
    match refusal {
        Refusal::CoverFails(broken) => u32::from(broken.rule),
        _ => 0,
    }
}

// The cell or variable that is named with it, 0 where none is.
pub fn rule_name(refusal: Refusal) -> u32
    ensures { result ≡ name_told (reason_of refusal) }
{
    match refusal {
        Refusal::CoverFails(broken) => u32::from(broken.name),
        _ => 0,
    }
}
