// Transitions in the bytes of a job: each is five bytes, from, kind, a, b, to.
#![tactic(auto)]

ghost use Rattle.std.specs.Prelude.{◌≡◌, ◌+◌, ◌*◌, ◌≤◌, ◌<◌, MatchOption, drop, length, take};
ghost use Rattle.transitions.specs.Transitions.{transition_from, transition_bytes, transition_ending, transition_named, to_byte, index_with, indexed};

// A transition by its bytes.
#[derive(Clone, Copy)]
pub struct Transition {
    pub from: u8,
    pub kind: u8,
    pub a: u8,
    pub b: u8,
    pub to: u8,
}

impl Transition {
    // Five zeros.
    const NONE: Self = Self {
        from: 0,
        kind: 0,
        a: 0,
        b: 0,
        to: 0,
    };

    // The last five of these bytes; five zeros where there are fewer.
    fn ending(bytes: &[u8]) -> Self
        ensures { result ≡ transition_ending bytes.now }
    {
        match bytes {
            &[.., from, kind, a, b, to] => Self::from([from, kind, a, b, to]),
            _ => Self::NONE,
        }
    }
}

impl From<[u8; 5]> for Transition {
    ghost from_gives = { λ bytes result. result ≡ transition_from bytes 0 };

    fn from([from, kind, a, b, to]: [u8; 5]) -> Self {
        Self {
            from,
            kind,
            a,
            b,
            to,
        }
    }
}

// So many bytes from a place on, if they are there.
fn bytes_at(job: &[u8], at: usize, size: usize) -> Option<&[u8]>
    ensures { MatchOption result (length job.now < at + size) (λ bytes. (at + size ≤ length job.now) × (bytes.now ≡ take size (drop at job.now))) }
{
    job.get(at..)?.get(..size)
}

// The transition at a place; five zeros where it is not whole.
pub fn transition_at(job: &[u8], at: usize) -> Transition
    ensures { result ≡ transition_bytes job.now at }
{
    match bytes_at(job, at, 5) {
        Some(&[from, kind, a, b, to, ..]) => Transition::from([from, kind, a, b, to]),
        _ => Transition::NONE,
    }
}

// The transition that an index names by k, one more than its number, of those from a place on; five zeros for 0, or where it is not whole.
pub fn transition_named(job: &[u8], first: usize, k: u16) -> Transition
    ensures { result ≡ transition_named job.now first k }
{
    match bytes_at(job, first, 5 * k as usize) {
        Some(bytes) => Transition::ending(bytes),
        None => Transition::NONE,
    }
}

// Puts the transitions from a place on in front of those of the index, last to first. A state that has no slot has no transitions.
fn index_all(job: &[u8], first: usize, count: usize, index: &mut [u16])
    requires { (first + 5 * count ≤ length job.now) × (count ≤ 256) × (length index.old ≡ 320) }
    ensures { index.new ≡ index_with (to_byte job.now first) count index.old }
{
    for i in (0..count).rev() {
        let to = job[first + 5 * i + 4] as usize;
        if to < 64 {
            index[64 + i] = index[to];
            index[to] = i as u16 + 1;
        } else {
            index[64 + i] = 0;
        }
    }
}

// Links the transitions into each state, first to last: slot s of the index is one more than the number of the first into state s, slot 64 + i
// one more than that of the next after the i-th, 0 for none. Where there are more than 256 or they are not all there, the index stays as it is.
pub fn index_transitions(job: &[u8], first: usize, count: usize, index: &mut [u16; 320])
    ensures { index.new ≡ indexed job.now first count index.old }
{
    if count <= 256 && bytes_at(job, first, 5 * count).is_some() {
        index_all(job, first, count, index);
    }
}
