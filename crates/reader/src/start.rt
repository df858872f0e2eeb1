// Refusal 8: a member at the start state that the empty heap satisfies.
ghost use Rattle.std.specs.Prelude.{false, List, ◌≡◌, ℕ, ◌+◌, ◌≤◌, length};
ghost use Rattle.run.specs.Run.{Located};
ghost use Rattle.format.specs.Certificate.{Member, read_member, test_start};
ghost use Rattle.format.specs.Job.{read_located};
ghost use Rattle.format.specs.Parser.{parsed, onward, certificate_buffer, many};
ghost use Rattle.layout.specs.Entries.{version_of};
ghost use Rattle.verdict.specs.Verdict.{reached_of};
ghost use Rattle.reader.specs.Members.{empty_at, tested};
ghost use Rattle.reader.specs.Number.{without_value};

use crate::Source;
use place::{Place, none_at};
use verdict::{Refusal, Refused};

// Whether the empty heap satisfies the shape whose number of cells is at a place: no cells, and no variable at #.
fn empty_at(cert: &[u8], at: usize, variables: usize) -> bool
    requires { at + 1 + variables ≤ length cert.now }
    ensures { result ≡ empty_at cert.now variables at }
{
    if cert[at] != 0 {
        return false;
    }
    let null = Place::NULL;
    let first = at + 1;
    let end = first + variables;
    none_at(&cert[first..end], null.code)
}

// Whether the member at a place, which was read, may be refused. Where its state is one byte, it says so exactly.
pub(crate) fn may_refuse(cert: &[u8], at: usize, variables: usize, start: usize) -> bool
    requires { (states : ℕ) × (l : Located) × (next : ℕ) × (read_located (version_of cert.now) (certificate_buffer cert.now) variables states at ≡ parsed l next) }
    ensures { (states : ℕ) (l : Located) (next : ℕ) → read_located (version_of cert.now) (certificate_buffer cert.now) variables states at ≡ parsed l next → result ≡ false → parsed tt next ≡ test_start start (record { first = at; located = l }) next }
{
    let state = cert[at];
    if 127 < state {
        return true;
    }
    if state as usize != start {
        return false;
    }
    empty_at(cert, at + 1, variables)
}

// Tests the member at a place, which was read: refused if it is at the start state and the empty heap satisfies it.
fn test_member(
    cert: &[u8],
    at: usize,
    variables: usize,
    states: usize,
    start: usize,
) -> Result<usize, Refused>
    requires { (l : Located) × (next : ℕ) × (read_located (version_of cert.now) (certificate_buffer cert.now) variables states at ≡ parsed l next) }
    ensures { (l : Located) (next : ℕ) → read_located (version_of cert.now) (certificate_buffer cert.now) variables states at ≡ parsed l next → reached_of result ≡ test_start start (record { first = at; located = l }) next }
{
    let source = Source::certificate(cert);
    let state = source.ranged(at, 0, states)?;
    let n_at = state.next;
    if state.value == start && empty_at(cert, n_at, variables) {
        return Err(Refused {
            refusal: Refusal::StartSatisfied,
            place: at,
        });
    }
    let cells = cert[n_at] as usize;
    source.facts(n_at + 1 + variables + cells, cells)
}

// Tests so many members that were read, the first of them at a place.
pub(crate) fn test_members(
    cert: &[u8],
    first: usize,
    count: usize,
    variables: usize,
    states: usize,
    start: usize,
) -> Result<usize, Refused>
    requires { (ms : List Member) × (end : ℕ) × (many count (read_member (certificate_buffer cert.now) (version_of cert.now) variables states) first ≡ parsed ms end) }
    ensures { reached_of result ≡ without_value (onward (many count (read_member (certificate_buffer cert.now) (version_of cert.now) variables states) first) (tested start)) }
{
    // a loop, for what is asked of the reader of a member is that it was read before, which goes from each to the next
    let mut at = first;
    for _i in 0..count {
        at = test_member(cert, at, variables, states, start)?;
    }
    Ok(at)
}
