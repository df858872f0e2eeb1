// A block holds statements, and a statement may hold a block: each is read by a function of its own, and they call each other.
ghost use Rattle.std.specs.Prelude.{MatchOption, ◌≡◌, ◌∷◌, ◌+◌, ◌≤◌, ◌<◌, ◌==◌, length, drop, position};
ghost use Rattle.lines.specs.Line.{line_of};
ghost use Rattle.listing.specs.Text.{last_line, lines_of};
ghost use Rattle.translating.specs.Work.{WorkWithin};
ghost use Rattle.translating.specs.Reading.{MarkIn, BlockRead, StatementRead};

use crate::steps::{Begun, Progress, Work, begin, close};
use crate::{Fault, Refusal};
use lines::{Line, read_line};

// How a block ends: with the text; with a line `end`, which is passed in the text only.
#[derive(Clone, Copy)]
pub enum Block {
    Over(Progress),
    Ended(Progress),
}

// What was read for a statement: one with all its lines; a line `end`, which is passed in the text only.
#[derive(Clone, Copy)]
pub enum Statement {
    On(Progress),
    Ended(Progress),
}

// How many bytes stand before the first byte 10.
fn line_length(rest: &[u8]) -> Option<usize>
    ensures { result ≡ position (λ byte. byte == 10) rest.now }
{
    rest.iter().position(|byte| *byte == b'\n')
}

// The line at a place in the text, without the byte 10 that ends it; none where no byte 10 follows.
#[tactic(auto, using(crate::proofs::Cutting::cut_last, crate::proofs::Cutting::cut_line))]
fn line_at(text: &[u8], at: usize) -> Option<&[u8]>
    requires { at ≤ length text.now }
    ensures { MatchOption result (lines_of (drop at text.now) ≡ last_line (drop at text.now)) (λ line. (at + length line.now < length text.now) × (lines_of (drop at text.now) ≡ line_of line.now ∷ lines_of (drop (at + length line.now + 1) text.now))) }
{
    let rest = &text[at..];
    let end = line_length(rest)?;
    Some(&rest[..end])
}

// Reads statements up to an `end` or the end of the text.
#[cycle(read_block_read_statement)]
pub(crate) fn read_block(
    text: &[u8],
    p: Progress,
    depth: usize,
    work: &mut Work,
) -> Result<Block, Refusal>
    requires { (WorkWithin p work.old) × (p.at ≤ length text.now) × (depth ≤ 16) }
    ensures { BlockRead text.now depth p work.old result work.new }
{
    let mut reached = p;
    while reached.at < text.len() {
        let Some(bytes) = line_at(text, reached.at) else {
            return Err(reached.refused(Fault::Grammar));
        };
        let line = read_line(bytes);
        let next = Progress {
            at: reached.at + bytes.len() + 1,
            ..reached
        };
        match read_statement(text, line, next, depth, work)? {
            Statement::On(q) => reached = q,
            Statement::Ended(q) => return Ok(Block::Ended(q)),
        }
    }
    Ok(Block::Over(reached))
}

// Reads one statement, whose first line has been read.
#[cycle(read_block_read_statement)]
fn read_statement(
    text: &[u8],
    line: Line,
    p: Progress,
    depth: usize,
    work: &mut Work,
) -> Result<Statement, Refusal>
    requires { (MarkIn line) × (WorkWithin p work.old) × (p.at ≤ length text.now) × (depth ≤ 16) }
    ensures { StatementRead text.now line depth p work.old result work.new }
{
    match begin(line, p, depth, work)? {
        Begun::On(q) => Ok(Statement::On(q)),
        Begun::Ended => Ok(Statement::Ended(p)),
        Begun::Opened(q, open) => match read_block(text, q, depth + 1, work)? {
            Block::Over(r) => Err(r.refused(Fault::Grammar)),
            Block::Ended(r) => Ok(Statement::On(close(r, open, work)?)),
        },
    }
}
