// The names of a listing: its letters, numbered from 1 as first met.
ghost use Rattle.std.specs.Prelude.{MatchOption, true, ◌≡◌, ◌≤◌, ◌<◌, ◌==◌, length, take, position};
ghost use Rattle.translating.specs.Reading.{LettersMet, Numbers};

use lines::Operation;

// An operand's number, and how many names there are once it is met.
#[derive(Clone, Copy)]
pub struct Met {
    pub met: usize,
    pub number: u8,
}

// An operation with its operands numbered, and how many names there are once it is met.
#[derive(Clone, Copy)]
pub struct Numbered {
    pub met: usize,
    pub operation: Operation,
}

// The index of a letter among the names.
fn find(letters: &[u8; 8], met: usize, letter: u8) -> Option<usize>
    requires { (met ≤ 8) × (length letters.now ≡ 8) }
    ensures { result ≡ position (λ name. name == letter) (take met letters.now) }
{
    letters[..met].iter().position(|name| *name == letter)
}

// Numbers an operand. A letter that is no name yet becomes the next one; there is no room for a ninth.
fn number_operand(letters: &mut [u8; 8], met: usize, operand: u8) -> Option<Met>
    requires { (met ≤ 8) × (length letters.old ≡ 8) }
    ensures { LettersMet letters.old met operand result letters.new }
{
    if operand == 0 {
        return Some(Met { met, number: 0 });
    }
    if let Some(i) = find(letters, met, operand) {
        return Some(Met {
            met,
            number: (i + 1) as u8,
        });
    }
    if 8 <= met {
        return None;
    }
    letters[met] = operand;
    Some(Met {
        met: met + 1,
        number: (met + 1) as u8,
    })
}

// Numbers the operands of an operation, unless there are more than 8 names then.
#[tactic(auto, using(crate::proofs::Naming::numbers_both))]
pub(crate) fn number_operation(
    letters: &mut [u8; 8],
    met: usize,
    operation: Operation,
) -> Option<Numbered>
    requires { (met ≤ 8) × (length letters.old ≡ 8) }
    ensures { Numbers letters.old met operation result letters.new }
{
    let a = number_operand(letters, met, operation.a)?;
    let b = number_operand(letters, a.met, operation.b)?;
    Some(Numbered {
        met: b.met,
        operation: Operation {
            kind: operation.kind,
            a: a.number,
            b: b.number,
        },
    })
}
