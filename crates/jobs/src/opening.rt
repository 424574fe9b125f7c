//! Opening a job: checking all of it, and reading its board.
ghost use Rattle.std.specs.Prelude.{◌≡◌, ◌≤◌, ◌↔◌, length, Ok, Err, IfOk};
ghost use Rattle.faults.specs.declared.record.RecordFault.{RecordFault};
ghost use Rattle.jobs.specs.Answers.{Filled, Opens, JobOpened};
ghost use Rattle.jobs.specs.Faults.{JobFault};
ghost use Rattle.jobs.specs.Jobs.{Job, job};
ghost use Rattle.jobs.specs.Laws.{IsJob};

use crate::find::{LINES_BEFORE_BOARD, below, find_job};
use boards::read::read_board;
use faults::line_number::LineNumber;
use faults::record::RecordFault;
use lattice::start::Start;
use named_maps::named::NamedMap;

/// What a job opens with: its map, and the start record of its board, whose cells are in the memory.
#[derive(Clone, Copy, PartialEq, Eq, Debug)]
pub struct Opening {
    pub map: NamedMap,
    pub start: Start,
    /// The place in the job's text, in bytes, where the script begins.
    pub script_at: usize,
    /// The number of the script's first line; the map line is line 1.
    pub script_line: LineNumber,
}

// Checks the whole job, and only then reads its board.
#[tactic(auto, using(crate::proofs::JobParts::not_refused, crate::proofs::JobParts::opened))]
fn open_into(text: &[u8], cells: &mut [u8]) -> Result<Opening, RecordFault>
    ensures { JobOpened (job (length cells.old) text.now) text.now cells.old cells.new result }
{
    let (opening, board_at) = find_job(text, cells.len())?;
    read_board(
        below(text, board_at),
        LineNumber::after(LINES_BEFORE_BOARD),
        cells,
    )?;
    Ok(opening)
}

/// Checks a job, and reads its board into the first bytes of `cells`. Fails with the first fault of the text, and then no byte is written. Room for the
/// cells is checked (`CellsTooShort`) after the board and before the script.
#[tactic(auto, using(crate::proofs::JobLaws::written_is_opened, crate::proofs::JobLaws::opened_was))]
pub fn open_job(text: &[u8], cells: &mut [u8]) -> Result<Opening, RecordFault>
    ensures answer { JobOpened (job (length cells.old) text.now) text.now cells.old cells.new result }
    // the text of a job is opened as that job
    ensures written { (j : Job) → IsJob j text.now → length j.lattice.cells ≤ length cells.old → JobOpened (Ok j) text.now cells.old cells.new result }
    // nothing is opened but the text of a job, byte for byte
    ensures only { IfOk result (λ o. (j : Job) × IsJob j text.now × Opens j text.now o × Filled j.lattice.cells cells.old cells.new) }
    // a fault is reported exactly where it is the first one
    ensures first { (e : RecordFault) → (result ≡ Err e) ↔ JobFault (length cells.old) text.now e }
{
    open_into(text, cells)
}
