// Reads the numbers of a job and of the members of a certificate, each held to its range.
#![tactic(auto)]

ghost use Rattle.std.specs.Prelude.{[], ◌≡◌, ℕ, ◌+◌, ◌≤◌, ◌<◌, ◌↔◌, EachIndex, IsTrue, IfSome, length, get_or};
ghost use Rattle.format.specs.Certificate.{read_member};
ghost use Rattle.format.specs.Job.{read_facts, read_located, read_transition};
ghost use Rattle.format.specs.JobBytes.{last_kind};
ghost use Rattle.format.specs.Parser.{Parser, onward, job_buffer, certificate_buffer, many, ranged};
ghost use Rattle.layout.specs.Entries.{version_of};
ghost use Rattle.verdict.specs.Verdict.{reason_of, reached_of};
ghost use Rattle.reader.specs.Job.{RestAnswered, JobAnswered};
ghost use Rattle.reader.specs.Members.{places_read, member_places, with_places, tested, MembersAnswered};
ghost use Rattle.reader.specs.Number.{buffer_in, ranged_of, without_value};

use crate::start::{may_refuse, test_members};
use jobreader::{Preamble, Reader, read_preamble};
use kinds::{least_a, least_b, most_b};
use layout::version_of;
use number::{Numeral, read_number};
use verdict::{Refusal, Refused};

mod factlist;
mod start;

// Which buffer is read: it decides the refusals.
#[derive(Clone, Copy)]
enum Input {
    Job,
    Certificate,
}

// Where numbers are read: the bytes of a buffer, and which buffer it is.
#[derive(Clone, Copy)]
pub(crate) struct Source<'a> {
    input: Input,
    bytes: &'a [u8],
}

// The numbers of a job, and where its transitions and its forbidden shapes start.
#[derive(Clone, Copy)]
pub struct Header {
    pub variables: usize,
    pub states: usize,
    pub start: usize,
    pub transitions: usize,
    pub transitions_at: usize,
    pub bads: usize,
    pub bads_at: usize,
}

// How many members there are, and the place after them.
#[derive(Clone, Copy)]
pub struct Members {
    pub count: usize,
    pub end: usize,
}

// So many values, one after the other: `each` reads the one at a place and gives the place after it.
fn read_many<F: Fn(usize) -> Result<usize, Refused>>(
    count: usize,
    first: usize,
    each: F,
) -> Result<usize, Refused>
    requires { F.IsAlwaysCallable each }
    ensures { (p : Parser (Unit {0})) → ((at : ℕ) (r : _) → F.post each at r → reached_of r ≡ p at) → reached_of result ≡ without_value (many count p first) }
{
    let mut at = first;
    for _i in 0..count {
        at = each(at)?;
    }
    Ok(at)
}

// The last kind that a job's version has.
fn last_kind(job: &[u8]) -> usize
    ensures { result ≡ last_kind (version_of job.now) }
{
    if version_of(job) == 2 { 13 } else { 7 }
}

impl<'a> Source<'a> {
    // The bytes of a job.
    fn job(bytes: &'a [u8]) -> Source<'a>
        ensures buffer { buffer_in result ≡ job_buffer bytes.now }
        ensures bytes { result.bytes ≡ bytes.entry }
    {
        Source {
            input: Input::Job,
            bytes,
        }
    }

    // The bytes of a certificate.
    pub(crate) fn certificate(bytes: &'a [u8]) -> Source<'a>
        ensures buffer { buffer_in result ≡ certificate_buffer bytes.now }
        ensures bytes { result.bytes ≡ bytes.entry }
    {
        Source {
            input: Input::Certificate,
            bytes,
        }
    }

    // The refusal of a number that can't be read.
    fn unreadable(&self) -> Refusal
        ensures { reason_of result ≡ (buffer_in self.now).unreadable }
    {
        match self.input {
            Input::Job => Refusal::JobUnreadable,
            Input::Certificate => Refusal::CertificateUnreadable,
        }
    }

    // The refusal of a number that breaks its range.
    fn outside(&self) -> Refusal
        ensures { reason_of result ≡ (buffer_in self.now).outside }
    {
        match self.input {
            Input::Job => Refusal::JobRange,
            Input::Certificate => Refusal::CertificateRange,
        }
    }

    // The number at a place, from `low` on and below `limit`.
    pub(crate) fn ranged(&self, at: usize, low: usize, limit: usize) -> Result<Numeral, Refused>
        ensures { ranged_of result ≡ ranged (buffer_in self.now) low limit at }
    {
        let Ok(n) = read_number(self.bytes, at) else {
            return Err(Refused {
                refusal: self.unreadable(),
                place: at,
            });
        };
        if n.value < low || limit <= n.value {
            return Err(Refused {
                refusal: self.outside(),
                place: at,
            });
        }
        Ok(n)
    }

    // So many numbers below a limit.
    fn codes(&self, first: usize, count: usize, limit: usize) -> Result<usize, Refused>
        ensures { reached_of result ≡ without_value (many count (ranged (buffer_in self.now) 0 limit) first) }
    {
        read_many(count, first, |at| Ok(self.ranged(at, 0, limit)?.next))
    }

    // A state and a shape: state, n, the places of the variables, n links, and in version 2 facts.
    fn entry(&self, first: usize, variables: usize, states: usize) -> Result<usize, Refused>
        ensures { reached_of result ≡ without_value (read_located (version_of self.now.bytes.now) (buffer_in self.now) variables states first) }
    {
        let state = self.ranged(first, 0, states)?;
        let size = self.ranged(state.next, 0, 13)?;
        let n = size.value;
        let links_at = self.codes(size.next, variables, 3 + n)?;
        let facts_at = self.codes(links_at, n, 3 + n)?;
        self.facts(facts_at, n)
    }

    // One transition: from, kind, a, b, to.
    fn transition(&self, first: usize, variables: usize, states: usize) -> Result<usize, Refused>
        requires { variables ≤ 8 }
        ensures { reached_of result ≡ without_value (read_transition (version_of self.now.bytes.now) (buffer_in self.now) variables states first) }
    {
        let from = self.ranged(first, 0, states)?;
        let kind = self.ranged(from.next, 1, 1 + last_kind(self.bytes))?;
        let least = least_a(kind.value);
        let a = self.ranged(kind.next, least, variables + 1)?;
        let least = least_b(kind.value);
        let most = most_b(kind.value, variables);
        let b = self.ranged(a.next, least, most + 1)?;
        let to = self.ranged(b.next, 0, states)?;
        Ok(to.next)
    }

    // The transitions of a job.
    fn transitions(
        &self,
        first: usize,
        count: usize,
        variables: usize,
        states: usize,
    ) -> Result<usize, Refused>
        requires { variables ≤ 8 }
        ensures { reached_of result ≡ without_value (many count (read_transition (version_of self.now.bytes.now) (buffer_in self.now) variables states) first) }
    {
        read_many(count, first, |at| self.transition(at, variables, states))
    }

    // The forbidden shapes of a job.
    fn forbidden(
        &self,
        first: usize,
        count: usize,
        variables: usize,
        states: usize,
    ) -> Result<usize, Refused>
        ensures { reached_of result ≡ without_value (many count (read_located (version_of self.now.bytes.now) (buffer_in self.now) variables states) first) }
    {
        read_many(count, first, |at| self.entry(at, variables, states))
    }
}

// What stands in a job after its transitions, and nothing behind it.
fn read_rest(job: &[u8], preamble: Preamble, at: usize) -> Result<Header, Refused>
    ensures { RestAnswered job.now preamble at result }
{
    let mut rest = Reader::new(job, at);
    let bads = rest.next(1, 65)?;
    let bads_at = rest.at;
    let end = Source::job(job).forbidden(bads_at, bads, preamble.variables, preamble.states)?;
    if end < job.len() {
        return Err(Refused {
            refusal: Refusal::JobLeft,
            place: end,
        });
    }
    Ok(Header {
        variables: preamble.variables,
        states: preamble.states,
        start: preamble.start,
        transitions: preamble.transitions,
        transitions_at: preamble.at,
        bads,
        bads_at,
    })
}

// Reads a job, and nothing behind it.
pub fn read_job(job: &[u8]) -> Result<Header, Refused>
    ensures { JobAnswered job.now result }
{
    let preamble = read_preamble(job)?;
    let at = Source::job(job).transitions(
        preamble.at,
        preamble.transitions,
        preamble.variables,
        preamble.states,
    )?;
    read_rest(job, preamble, at)
}

// Whether all bytes are below a limit.
fn all_below(bytes: &[u8], limit: u8) -> bool
    ensures { IsTrue result ↔ EachIndex bytes.now (λ i. get_or bytes.now i 0 < limit) }
{
    bytes.iter().all(|byte| *byte < limit)
}

// The place after the links of a member's entry, if each of its numbers up to there is one byte and in range; else the exact reader decides.
fn quick_entry(cert: &[u8], at: usize, variables: usize, states: usize) -> Option<usize>
    ensures { IfSome result (λ end. (at + 1 < length cert.now) × (get_or cert.now (at + 1) 0 ≤ 12) × (without_value (read_located (version_of cert.now) (certificate_buffer cert.now) variables states at) ≡ without_value (read_facts (certificate_buffer cert.now) (get_or cert.now (at + 1) 0) (version_of cert.now) end))) }
{
    if cert.len() <= at {
        return None;
    }
    let left = cert.len() - at;
    if left < 2 {
        return None;
    }
    let state = cert[at];
    if 127 < state || states <= state as usize {
        return None;
    }
    let n = cert[at + 1];
    if 12 < n {
        return None;
    }
    let cells = n as usize;
    if left - 2 < cells || left - 2 - cells < variables {
        return None;
    }
    let end = at + 2 + variables + cells;
    if !all_below(&cert[at + 2..end], 3 + n) {
        return None;
    }
    Some(end)
}

// A member's entry.
fn read_member(cert: &[u8], at: usize, variables: usize, states: usize) -> Result<usize, Refused>
    ensures { reached_of result ≡ without_value (read_located (version_of cert.now) (certificate_buffer cert.now) variables states at) }
{
    let Some(links_end) = quick_entry(cert, at, variables, states) else {
        return Source::certificate(cert).entry(at, variables, states);
    };
    // here too, so that version 1 makes no call
    if version_of(cert) != 2 {
        return Ok(links_end);
    }
    Source::certificate(cert).facts(links_end, cert[at + 1] as usize)
}

// The members of a certificate, all of them read and then tested at the start state; the place where each starts goes to the table. The walk that
// tests them is needed only where a member was seen that may be refused.
fn read_entries(
    cert: &[u8],
    first: usize,
    count: usize,
    variables: usize,
    states: usize,
    start: usize,
    starts: &mut [u16],
) -> Result<usize, Refused>
    requires { count ≤ length starts.old }
    ensures answer { reached_of result ≡ without_value (onward (many count (read_member (certificate_buffer cert.now) (version_of cert.now) variables states) first) (tested start)) }
    ensures starts { starts.new ≡ with_places (places_read count (read_member (certificate_buffer cert.now) (version_of cert.now) variables states) first) starts.old }
{
    let mut at = first;
    let mut seen = false;
    for i in 0..count {
        // every place of a certificate of up to 65,536 bytes fits
        starts[i] = (at % 65536) as u16;
        let next = read_member(cert, at, variables, states)?;
        if may_refuse(cert, at, variables, start) {
            seen = true;
        }
        at = next;
    }
    if seen {
        return test_members(cert, first, count, variables, states, start);
    }
    Ok(at)
}

// Reads the members of a certificate for a job of a version, and then tests them at the start state.
pub fn read_members(
    cert: &[u8],
    version: u8,
    variables: usize,
    states: usize,
    start: usize,
    starts: &mut [u16; 512],
) -> Result<Members, Refused>
    ensures answer { MembersAnswered cert.now version variables states start starts.new result }
    ensures starts { starts.new ≡ with_places (member_places (certificate_buffer cert.now) version variables states) starts.old }
{
    let source = Source::certificate(cert);
    let own = source.ranged(0, 1, 3)?;
    if version_of(cert) != version {
        return Err(Refused {
            refusal: Refusal::VersionsDiffer,
            place: 0,
        });
    }
    let number = source.ranged(own.next, 1, 513)?;
    let count = number.value;
    let end = read_entries(cert, number.next, count, variables, states, start, starts)?;
    Ok(Members { count, end })
}
