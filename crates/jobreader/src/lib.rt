// A reader that keeps a job together with the place it has reached, and the numbers of a job that are read by it.
#![tactic(auto)]

ghost use Rattle.std.specs.Prelude.{◌≡◌, Some, None, Err, OnErr};
ghost use Rattle.std.specs.Result.{result_err};
ghost use Rattle.format.specs.Parser.{job_buffer, ranged};
ghost use Rattle.jobreader.specs.Reader.{last_read_of, read_on, preamble_of, preamble_read, numbers_of, preamble_numbers};

use number::read_number;
use verdict::{Refusal, Refused};

// A job and the place reached in it; and once a number is refused, that refusal: the reader stays there and reads nothing more.
#[derive(Clone, Copy)]
pub struct Reader<'a> {
    pub src: &'a [u8],
    pub at: usize,
    pub refused: Option<Refused>,
}

// The numbers of a job before its transitions, and the place after them.
#[derive(Clone, Copy)]
pub struct Preamble {
    pub variables: usize,
    pub states: usize,
    pub start: usize,
    pub transitions: usize,
    pub at: usize,
}

// The same where one of them is refused: it and those after it are 0, and `at` is its place.
#[derive(Clone, Copy)]
pub struct Unfinished {
    pub read: Preamble,
    pub refused: Refused,
}

impl From<Unfinished> for Refused {
    ghost from_gives = { λ unfinished r. r ≡ unfinished.refused };

    fn from(unfinished: Unfinished) -> Refused {
        unfinished.refused
    }
}

impl<'a> Reader<'a> {
    // A reader at a place of a job.
    pub fn new(src: &'a [u8], at: usize) -> Reader<'a>
        ensures { (result.src ≡ src.entry) × (result.at ≡ at) × (result.refused ≡ None) }
    {
        Reader {
            src,
            at,
            refused: None,
        }
    }

    // Refuses the number at the place reached, and so each later one.
    fn refuse(&mut self, refusal: Refusal) -> Refused
        ensures refusal { (result.refusal ≡ refusal) × (result.place ≡ self.old.at) }
        ensures kept { self.new ≡ record self.old { refused = Some result } }
    {
        let refused = Refused {
            refusal,
            place: self.at,
        };
        self.refused = Some(refused);
        refused
    }

    // The number at the place reached, from `low` on and below `limit`. The reader moves on behind it; where it is refused, the reader stays, and
    // gives that refusal from then on.
    pub fn next(&mut self, low: usize, limit: usize) -> Result<usize, Refused>
        ensures job { self.new.src ≡ self.old.src }
        ensures number { last_read_of result self.new.at ≡ read_on self.old.refused (ranged (job_buffer self.old.src.now) low limit) self.old.at }
        ensures refused { OnErr result (self.new.at ≡ self.old.at) }
        ensures kept { self.new.refused ≡ result_err result }
    {
        if let Some(refused) = self.refused {
            return Err(refused);
        }
        let Ok(n) = read_number(self.src, self.at) else {
            return Err(self.refuse(Refusal::JobUnreadable));
        };
        if n.value < low || limit <= n.value {
            return Err(self.refuse(Refusal::JobRange));
        }
        self.at = n.next;
        Ok(n.value)
    }
}

// The numbers of a job before its transitions: version, V, S, start, T. Where one is refused, those before it are told with the refusal.
pub fn read_preamble(job: &[u8]) -> Result<Preamble, Unfinished>
    ensures answer { preamble_of result ≡ preamble_read (job_buffer job.now) 0 }
    ensures numbers { numbers_of result ≡ preamble_numbers (job_buffer job.now) 0 }
{
    let mut reader = Reader::new(job, 0);
    let _version = reader.next(1, 3);
    let variables = reader.next(1, 9).unwrap_or(0);
    let states = reader.next(1, 65).unwrap_or(0);
    let start = reader.next(0, states).unwrap_or(0);
    let transitions = reader.next(0, 257).unwrap_or(0);
    let read = Preamble {
        variables,
        states,
        start,
        transitions,
        at: reader.at,
    };
    match reader.refused {
        None => Ok(read),
        Some(refused) => Err(Unfinished { read, refused }),
    }
}
