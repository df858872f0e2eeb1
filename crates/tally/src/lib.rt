// The running tally of verdicts.
#![tactic(auto)]

ghost use Rattle.std.specs.Prelude.{◌++◌, ◌≡◌, ◌≤◌, length, drop, is_ok, is_some};
ghost use Rattle.std.specs.Result.{result_err};
ghost use Rattle.verdict.specs.Verdict.{verdict_of};
ghost use Rattle.tally.specs.Numbers.{numbers_of, tally_from, untaken, numbers_after};
ghost use Rattle.tally.specs.Tally.{begun, take_in, tally_after};

use verdict::{Verdict, refusal_number};

// How many numbers a tally is to a host.
pub const NUMBERS: usize = 35;

// Verdicts, accepted ones, sums of members and covers over the accepted, and a count for each refusal: that of k stands at k - 1.
#[derive(Clone, Copy)]
pub struct Tally {
    pub verdicts: u32,
    pub accepted: u32,
    pub members: u32,
    pub covers: u32,
    pub refusals: [u32; 31],
}

// Why a verdict is not taken in by a tally: a count or sum would pass the largest number.
#[derive(Clone, Copy, Debug, PartialEq, Eq)]
pub struct Full;

// Why a verdict is not taken in by a host's numbers: they are too few, or their tally is full.
#[derive(Clone, Copy, Debug, PartialEq, Eq)]
pub enum Untaken {
    TooFew,
    Full,
}

impl Tally {
    // A tally that has begun.
    pub fn new() -> Tally
        ensures { result ≡ begun }
    {
        Tally {
            verdicts: 0,
            accepted: 0,
            members: 0,
            covers: 0,
            refusals: [0; 31],
        }
    }

    // The tally after a verdict: the core, by value. None where a count or sum that the verdict changes would pass the largest number.
    pub fn added(self, v: Verdict) -> Option<Tally>
        ensures { result ≡ take_in (verdict_of v) self }
    {
        let verdicts = self.verdicts.checked_add(1)?;
        match v {
            Ok(counts) => {
                let accepted = self.accepted.checked_add(1)?;
                let members = self.members.checked_add(counts.members)?;
                let covers = self.covers.checked_add(counts.covers)?;
                Some(Tally {
                    verdicts,
                    accepted,
                    members,
                    covers,
                    ..self
                })
            }
            Err(r) => {
                let mut refusals = self.refusals;
                let at = (refusal_number(r.refusal) - 1) as usize;
                refusals[at] = refusals[at].checked_add(1)?;
                Some(Tally {
                    verdicts,
                    refusals,
                    ..self
                })
            }
        }
    }

    // One running tally, lent: it takes in a verdict, or stays as it is where it is full.
    pub fn take_in(&mut self, v: Verdict) -> Result<(), Full>
        ensures taken { is_ok result ≡ is_some (take_in (verdict_of v) self.old) }
        ensures tally { self.new ≡ tally_after (verdict_of v) self.old }
    {
        *self = self.added(v).ok_or(Full)?;
        Ok(())
    }
}

// The tally that a host's numbers are.
fn tally_from(numbers: &[u32]) -> Tally
    requires { 35 ≤ length numbers.now }
    ensures { result ≡ tally_from numbers.now }
{
    let mut refusals = [0u32; 31];
    refusals.copy_from_slice(&numbers[4..NUMBERS]);
    Tally {
        verdicts: numbers[0],
        accepted: numbers[1],
        members: numbers[2],
        covers: numbers[3],
        refusals,
    }
}

// Writes a tally as a host's numbers.
fn put_tally(t: Tally, numbers: &mut [u32])
    requires { 35 ≤ length numbers.old }
    ensures { numbers.new ≡ numbers_of t ++ drop 35 numbers.old }
{
    numbers[..4].copy_from_slice(&[t.verdicts, t.accepted, t.members, t.covers]);
    numbers[4..NUMBERS].copy_from_slice(&t.refusals);
}

// The same as `take_in`, on a tally that a host lends as numbers; refused also where they are too few.
pub fn take_in_numbers(numbers: &mut [u32], v: Verdict) -> Result<(), Untaken>
    ensures taken { result_err result ≡ untaken (verdict_of v) numbers.old }
    ensures numbers { numbers.new ≡ numbers_after (verdict_of v) numbers.old }
{
    if numbers.len() < NUMBERS {
        return Err(Untaken::TooFew);
    }
    match tally_from(numbers).added(v) {
        Some(tally) => {
            put_tally(tally, numbers);
            Ok(())
        }
        None => Err(Untaken::Full),
    }
}
