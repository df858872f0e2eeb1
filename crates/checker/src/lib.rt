// The checker: one verdict for the bytes of a job and of a certificate.
#![tactic(auto)]

ghost use Rattle.std.specs.Prelude.{List, Ok, ◌↔◌, ◌≡◌, ℕ, ◌≤◌, length, IfOk};
ghost use Rattle.checker.specs.Jobs.{file_in, read_covers};
ghost use Rattle.checker.specs.Pairs.{tested_if, pair_of, MembersKept, placed, places_after};
ghost use Rattle.format.specs.Conditions.{Conditions, ConditionsAt};
ghost use Rattle.format.specs.JobBytes.{SafeBytes};
ghost use Rattle.format.specs.Parser.{certificate_buffer, within};
ghost use Rattle.format.specs.Verdict.{Counts as CountsDue, accepted, conclude, read_certificate, verdict_at, verdict};
ghost use Rattle.layout.specs.Entries.{members_at, Table};
ghost use Rattle.reader.specs.Job.{JobRead};
ghost use Rattle.verdict.specs.Verdict.{verdict_of};
ghost use Rattle.verdict.specs.declared.Counts.{Counts as CountsAnswer};

use crate::checked::COVER;
use crate::owed::check_owed;
use layout::version_of;
use reader::{Header, read_job, read_members};
use verdict::{Counts, Refusal, Refused, Verdict};

mod change;
mod checked;
mod choices;
mod owed;
mod quickly;
mod removal;
mod single;
mod wanted;

// An accepted pair: its counts, and where each part of its job stands.
#[derive(Clone, Copy)]
pub struct AcceptedPair {
    pub counts: Counts,
    pub header: Header,
}

// Whether a buffer of this length is judged at all.
fn fits(len: usize) -> bool
    ensures { result ≡ within 1 65537 len }
{
    if len == 0 {
        return false;
    }
    len <= 65536
}

// Checks the covers and sees that nothing is left after them.
fn check_covers(job: &[u8], h: Header, cert: &[u8], starts: &[u16], at: usize) -> Verdict
    requires { (JobRead job.now h) × (Table cert.now h.variables starts.now) × (at ≤ length cert.now) × (length cert.now ≤ 65536) }
    ensures { verdict_of result ≡ conclude (read_covers cert.now (file_in job.now h).job (members_at cert.now h.variables starts.now) at) }
{
    let t = check_owed(job, h, cert, starts, at)?;
    if t.at < cert.len() {
        return Err(Refused {
            refusal: Refusal::CertificateLeft,
            place: t.at,
        });
    }
    Ok(Counts {
        bads: h.bads as u32,
        members: starts.len() as u32,
        covers: (t.counted / COVER) as u32,
        links: (t.counted % COVER) as u32,
    })
}

// Checks a certificate for a job that was read; 8 is judged at the state `tested`. The places of its members go into a table.
fn check_certificate(
    job: &[u8],
    h: Header,
    tested: usize,
    cert: &[u8],
    starts: &mut [u16; 512],
) -> Verdict
    requires { (JobRead job.now h) × (length cert.now ≤ 65536) }
    ensures verdict { verdict_of result ≡ conclude (read_certificate tested (certificate_buffer cert.now) (file_in job.now h) 0) }
    ensures kept { IfOk result (λ c. MembersKept job.now cert.now h tested c.members starts.new) }
    ensures starts { starts.new ≡ placed cert.now (file_in job.now h) starts.old }
{
    let version = version_of(job);
    let members = read_members(cert, version, h.variables, h.states, tested, starts)?;
    let all = &starts[..];
    check_covers(job, h, cert, &all[..members.count], members.end)
}

// The verdict on a certificate for a job that was read. The table stands here, since a function fills its tables where it begins: what is refused ahead of it
// does not pay for one.
fn check_read(job: &[u8], h: Header, cert: &[u8]) -> Verdict
    requires { (JobRead job.now h) × (length cert.now ≤ 65536) }
    ensures { verdict_of result ≡ conclude (read_certificate h.start (certificate_buffer cert.now) (file_in job.now h) 0) }
{
    let mut starts = [0u16; 512];
    check_certificate(job, h, h.start, cert, &mut starts)
}

// The verdict on a job and a certificate: accepted with these counts exactly if the conditions of document 01 hold with them. An accepted job is
// safe.
pub fn check(job: &[u8], cert: &[u8]) -> Verdict
    ensures exact { verdict_of result ≡ verdict job.now cert.now }
    ensures accepted { (c : CountsDue) → (verdict_of result ≡ accepted c) ↔ Conditions job.now cert.now c }
    ensures safe { (c : CountsAnswer) → result ≡ Ok c → SafeBytes job.now }
{
    if !fits(job.len()) {
        return Err(Refused {
            refusal: Refusal::JobLength,
            place: 0,
        });
    }
    if !fits(cert.len()) {
        return Err(Refused {
            refusal: Refusal::CertificateLength,
            place: 0,
        });
    }
    let h = read_job(job)?;
    check_read(job, h, cert)
}

// The state at which 8 is judged: the start, or the first number that is no state, where no member is.
fn tested_state(h: Header, judged: bool) -> usize
    ensures { (job : List ℕ) → result ≡ tested_if judged (file_in job h) }
{
    if judged {
        return h.start;
    }
    h.states
}

// The verdict with 8 judged or not, and what was read of an accepted pair: where each part of the job stands, and the places of the members.
pub fn check_pair(
    job: &[u8],
    cert: &[u8],
    judged: bool,
    starts: &mut [u16; 512],
) -> Result<AcceptedPair, Refused>
    ensures exact { pair_of result ≡ verdict_at (tested_if judged) job.now cert.now }
    ensures accepted { (c : CountsDue) → (pair_of result ≡ accepted c) ↔ ConditionsAt (tested_if judged) job.now cert.now c }
    ensures kept { IfOk result (λ p. JobRead job.now p.header × MembersKept job.now cert.now p.header (tested_if judged (file_in job.now p.header)) p.counts.members starts.new) }
    ensures starts { starts.new ≡ places_after job.now cert.now starts.old }
{
    if !fits(job.len()) {
        return Err(Refused {
            refusal: Refusal::JobLength,
            place: 0,
        });
    }
    if !fits(cert.len()) {
        return Err(Refused {
            refusal: Refusal::CertificateLength,
            place: 0,
        });
    }
    let header = read_job(job)?;
    let tested = tested_state(header, judged);
    let counts = check_certificate(job, header, tested, cert, starts)?;
    Ok(AcceptedPair { counts, header })
}
