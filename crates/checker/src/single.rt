// Checking one cover.
ghost use Rattle.std.specs.Prelude.{[], ◌∷◌};
ghost use Rattle.checker.specs.Checking.{Within, Checks};
ghost use Rattle.undoing.specs.Rowed.{rowed};
ghost use Rattle.layout.specs.ShapeArray.{shape_in};
ghost use Rattle.layout.specs.Members.{members_from};

use crate::checked::{COVER, Position};
use covering::exact_cover;
use verdict::Refused;

// Checks the cover of a shape, with the rows of its facts, and counts it and its links, by the exact test.
pub(crate) fn check_cover(
    cert: &[u8],
    starts: &[u16],
    variables: usize,
    state: u8,
    s: &[u8; 28],
    facts: &[u16; 28],
    t: Position,
) -> Result<Position, Refused>
    requires { Within cert.now t }
    ensures { Checks cert.now (members_from cert.now variables starts.now) state (rowed facts.now (shape_in variables s.now) ∷ []) t result }
{
    let cover = exact_cover(cert, starts, variables, t.at, state, s, facts)?;
    Ok(Position {
        at: cover.next,
        counted: t.counted + COVER + cover.links as u64,
    })
}
