//! Checking a whole job, before any cell is written.
ghost use Rattle.std.specs.Prelude.{◌≡◌, ◌≤◌, IfOk, length, drop};
ghost use Rattle.boards.specs.Answers.{BoardFound};
ghost use Rattle.lattice.specs.Starts.{height_of};
ghost use Rattle.jobs.specs.Jobs.{board_in};
ghost use Rattle.jobs.specs.Steps.{ScriptFound, BelowFound, JobFound};

use crate::map_line::find_map;
use crate::opening::Opening;
use boards::check::check_board;
use faults::line_number::LineNumber;
use faults::record::RecordFault;
use lattice::start::Start;
use named_maps::named::NamedMap;
use scripts::check::check;
use text::whole::check_whole;

// Only the map line comes before the board.
pub(crate) const LINES_BEFORE_BOARD: u32 = 1;

// The text from this place on.
pub(crate) fn below(text: &[u8], at: usize) -> &[u8]
    requires { at ≤ length text.now }
    ensures { result.now ≡ drop at text.now }
{
    &text[at..]
}

// Checks the board that the text begins with, and that its cells have room. Returns its start record, and its length in bytes.
#[tactic(auto, using(crate::proofs::BoardsFound::no_room, crate::proofs::BoardsFound::board_fits, boards::proofs::RoundTrips::board_inside))]
fn find_board(text: &[u8], room: usize) -> Result<(Start, usize), RecordFault>
    ensures found { BoardFound (board_in room text.now) result }
    ensures inside { IfOk result (λ x. x.1 ≤ length text.now) }
{
    let (start, len) = check_board(text, LineNumber::after(LINES_BEFORE_BOARD))?;
    if room < start.cell_count() {
        return Err(RecordFault::CellsTooShort);
    }
    Ok((start, len))
}

// Checks the script from this place on, and returns the number of its first line.
#[tactic(auto, using(crate::proofs::JobsFound::counted_fault, crate::proofs::JobsFound::counted))]
fn find_script(text: &[u8], at: usize, start: &Start) -> Result<LineNumber, RecordFault>
    requires { at ≤ length text.now }
    ensures { ScriptFound (height_of start.now) (drop at text.now) result }
{
    let first_line = LineNumber::after(LINES_BEFORE_BOARD + 1 + start.height() as u32);
    check(below(text, at), first_line)?;
    Ok(first_line)
}

// What a job over this map opens with, if its board begins at this place; or the first fault after the map line.
#[tactic(auto, using(crate::proofs::JobsFound::board_not_found, crate::proofs::JobsFound::script_not_found, crate::proofs::JobsFound::found_below))]
fn find_below(map: NamedMap, text: &[u8], at: usize, room: usize) -> Result<Opening, RecordFault>
    requires { at ≤ length text.now }
    ensures { BelowFound room map at text.now result }
{
    let (start, len) = find_board(below(text, at), room)?;
    let script_at = at + len;
    let script_line = find_script(text, script_at, &start)?;
    Ok(Opening {
        map,
        start,
        script_at,
        script_line,
    })
}

// What the job opens with, and where its board begins; or its first fault.
#[tactic(auto, using(crate::proofs::JobsFound::not_whole, crate::proofs::JobsFound::map_not_found, crate::proofs::JobsFound::below_not_found, crate::proofs::JobsFound::job_there))]
pub(crate) fn find_job(text: &[u8], room: usize) -> Result<(Opening, usize), RecordFault>
    ensures { JobFound room text.now result }
{
    check_whole(text, LineNumber::first())?;
    let (map, board_at) = find_map(text)?;
    let opening = find_below(map, text, board_at, room)?;
    Ok((opening, board_at))
}
