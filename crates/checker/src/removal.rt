// Kinds 6 (new) and 7 (delete): covers of the predecessors.
ghost use Rattle.std.specs.Prelude.{cond, not, ◌&&◌, ◌≡◌, ◌≤◌, ◌<◌};
ghost use Rattle.factrows.specs.Rows.{has_fact};
ghost use Rattle.checker.specs.Checking.{Within, Checks, OwnVersion};
ghost use Rattle.undoing.specs.Before.{is_taken_out, rows_before, cases_rowed};
ghost use Rattle.layout.specs.Members.{members_from};
ghost use Rattle.layout.specs.ShapeArray.{cell_count, ShapeArray};

use crate::checked::Position;
use crate::single::check_cover;
use kinds::NEW;
use layout::version_of;
use number::wide;
use shapes::{prepare_cases, undo_case};
use transitions::Transition;
use undoing::take_out;
use verdict::Refused;

// Makes the rows those before, by case k of a prepared array: the cell that was new goes, if it is in no fact. Whether it is in none. There are no facts
// where the certificate is of version 1.
#[tactic(auto, unfolding(undoing::specs::Before::rows_before))]
fn undo_rows(cert: &[u8], kind: u8, prepared: &[u8; 28], k: usize, rows: &mut [u16; 28]) -> bool
    requires { OwnVersion cert.now rows.old }
    ensures is { result ≡ not (is_taken_out kind prepared.now k && has_fact rows.old 1 k k) }
    ensures rows { rows.new ≡ cond result (rows_before kind prepared.now rows.old k) rows.old }
{
    if version_of(cert) != 2 {
        return true;
    }
    if kind != NEW {
        return true;
    }
    if wide(prepared[0]) <= k {
        return true;
    }
    take_out(rows, k)
}

// Covers of the predecessors, by each case: which cell was the new one, or where the variables stood before the deleted one went.
pub(crate) fn check_cases(
    cert: &[u8],
    starts: &[u16],
    variables: usize,
    by: Transition,
    s: &[u8; 28],
    facts: &[u16; 28],
    from: Position,
) -> Result<Position, Refused>
    requires { (ShapeArray variables s.now) × (cell_count s.now ≤ 12) × (1 ≤ by.a) × (by.a ≤ variables) × (5 < by.kind) × (by.kind ≤ 7) × (OwnVersion cert.now facts.now) × (Within cert.now from) }
    ensures { Checks cert.now (members_from cert.now variables starts.now) by.from (cases_rowed variables by.kind by.a s.now facts.now) from result }
{
    let mut prepared = *s;
    let cases = prepare_cases(variables, by.kind, by.a, &mut prepared);
    let mut t = from;
    for case in cases.first..cases.end {
        let mut v = prepared;
        if undo_case(variables, by.kind, cases.end, case, &mut v) {
            let mut rows = *facts;
            if undo_rows(cert, by.kind, &prepared, case, &mut rows) {
                t = check_cover(cert, starts, variables, by.from, &v, &rows, t)?;
            }
        }
    }
    Ok(t)
}
