//! The check of a board, before any cell is written.
ghost use Rattle.std.specs.Prelude.{◌≡◌, ◌≤◌, ◌↔◌, ℕ, List, take, Ok, Err, IfErr, IfOk};
ghost use Rattle.faults.specs.Reports.{NamesLineFrom};
ghost use Rattle.faults.specs.declared.record.RecordFault.{RecordFault};
ghost use Rattle.lattice.specs.Lattice.{Lattice};
ghost use Rattle.lattice.specs.Starts.{held};
ghost use Rattle.text.specs.Readers.{fields_read_of};
ghost use Rattle.boards.specs.Answers.{BoardFound, BeginsWith};
ghost use Rattle.boards.specs.Boards.{board_text};
ghost use Rattle.boards.specs.Laws.{BoardFault};
ghost use Rattle.boards.specs.Reading.{board};
ghost use Rattle.boards.specs.Steps.{RowsChecked, BoardChecked};

use crate::lines::{read_row, read_start};
use faults::line_number::LineNumber;
use faults::record::RecordFault;
use lattice::start::Start;
use text::reader::Reader;
use text::whole::check_whole;

// Checks the lines of `height` rows.
#[tactic(auto, using(crate::proofs::Rows::no_row, crate::proofs::Rows::bad_row, crate::proofs::Rows::all_rows))]
fn check_rows(reader: &mut Reader<'_>, width: usize, height: usize) -> Result<(), RecordFault>
    requires begins { fields_read_of reader.old ≡ 0 }
    requires narrow { width ≤ 256 }
    ensures { RowsChecked width height reader.old result reader.new }
{
    for checked in 0..height {
        read_row(reader, width)?;
    }
    Ok(())
}

// Checks the lines of a board.
fn check_lines(reader: &mut Reader<'_>) -> Result<Start, RecordFault>
    requires { fields_read_of reader.old ≡ 0 }
    ensures { BoardChecked reader.old result reader.new }
{
    let start = read_start(reader)?;
    check_rows(reader, start.width(), start.height())?;
    Ok(start)
}

// Checks the text as a whole, and then the board at its beginning.
#[tactic(auto, unfolding(crate::specs::Reading::board))]
fn find_board(text: &[u8], first_line: LineNumber) -> Result<(Start, usize), RecordFault>
    ensures { BoardFound (board first_line text.now) result }
{
    check_whole(text, first_line)?;
    let mut reader = Reader::new(text, first_line);
    let start = check_lines(&mut reader)?;
    Ok((start, reader.position()))
}

/// The start record of the board at the beginning of the text, and the board's length in bytes; or the first fault. More text may follow.
#[tactic(auto, using(crate::proofs::RoundTrips::written_is_found, crate::proofs::FirstFaults::found_bytes, crate::proofs::FirstFaults::found_first, crate::proofs::FaultLines::found_named))]
pub fn check_board(text: &[u8], first_line: LineNumber) -> Result<(Start, usize), RecordFault>
    ensures answer { BoardFound (board first_line text.now) result }
    // the text of a board is found as that board
    ensures written { (l : Lattice) → BeginsWith l text.now → BoardFound (Ok l) result }
    // what is found is a board within the limits, whose text is just these bytes
    ensures bytes { IfOk result (λ x. (cells : List ℕ) × BeginsWith (held x.0 cells) text.now × (take x.1 text.now ≡ board_text (held x.0 cells))) }
    // a fault is reported exactly where it is the first one
    ensures first { (e : RecordFault) → (result ≡ Err e) ↔ BoardFault first_line text.now e }
    // no line before the first has a fault
    ensures lines { IfErr result (λ e. NamesLineFrom first_line e) }
{
    find_board(text, first_line)
}
