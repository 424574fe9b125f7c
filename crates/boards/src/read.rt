//! Reading a board into memory.
ghost use Rattle.std.specs.Prelude.{◌≡◌, ◌+◌, ◌*◌, ◌≤◌, ◌↔◌, ℕ, List, length, take, Ok, Err, IfErr, IfOk, IsOkAnd};
ghost use Rattle.faults.specs.Reports.{NamesLineFrom};
ghost use Rattle.faults.specs.declared.record.RecordFault.{RecordFault};
ghost use Rattle.lattice.specs.Lattice.{Lattice};
ghost use Rattle.lattice.specs.Starts.{width_of, height_of, held};
ghost use Rattle.text.specs.Readers.{line_of, fields_read_of};
ghost use Rattle.boards.specs.Answers.{BoardRead, BeginsWith};
ghost use Rattle.boards.specs.Boards.{board_text};
ghost use Rattle.boards.specs.Laws.{ReadFault};
ghost use Rattle.boards.specs.Reading.{rows_from, board};
ghost use Rattle.boards.specs.Steps.{lines_left};

use crate::check::check_board;
use crate::digits::fill_row;
use crate::lines::{read_row, read_start};
use faults::line_number::LineNumber;
use faults::record::RecordFault;
use lattice::start::Start;
use text::reader::Reader;

// Fills in the cells of rows that were checked.
fn fill_rows(
    reader: &mut Reader<'_>,
    width: usize,
    height: usize,
    cells: &mut [u8],
) -> Result<(), RecordFault>
    requires begins { fields_read_of reader.old ≡ 0 }
    requires narrow { width ≤ 256 }
    requires low { height ≤ 256 }
    requires count { length cells.old ≡ height * width }
    requires checked { (cs : List ℕ) × (rows_from width height (line_of reader.old) (lines_left reader.old) ≡ Ok cs) }
    ensures { IsOkAnd result (λ _. rows_from width height (line_of reader.old) (lines_left reader.old) ≡ Ok cells.new) }
{
    for row in 0..height {
        let digits = read_row(reader, width)?;
        fill_row(digits, &mut cells[row * width..(row + 1) * width]);
    }
    Ok(())
}

// Fills in the cells of a board that was checked.
#[tactic(auto, unfolding(crate::specs::Reading::board))]
fn fill_cells(text: &[u8], first_line: LineNumber, cells: &mut [u8]) -> Result<(), RecordFault>
    requires { (l : Lattice) × (board first_line text.now ≡ Ok l) × (length cells.old ≡ length l.cells) }
    ensures { IsOkAnd result (λ _. (l : Lattice) → board first_line text.now ≡ Ok l → cells.new ≡ l.cells) }
{
    let mut reader = Reader::new(text, first_line);
    let start = read_start(&mut reader)?;
    fill_rows(&mut reader, start.width(), start.height(), cells)
}

// Reads the board at the beginning of the text.
#[tactic(auto, using(crate::proofs::Found::read_refused, crate::proofs::Found::read_short, crate::proofs::Found::read_whole, crate::proofs::Found::read_asked))]
fn read_into(
    text: &[u8],
    first_line: LineNumber,
    cells: &mut [u8],
) -> Result<(Start, usize), RecordFault>
    ensures { BoardRead (board first_line text.now) cells.old cells.new result }
{
    let (start, end) = check_board(text, first_line)?;
    let count = start.cell_count();
    if cells.len() < count {
        return Err(RecordFault::CellsTooShort);
    }
    fill_cells(text, first_line, &mut cells[..count])?;
    Ok((start, end))
}

/// Reads the board at the beginning of the text into the memory, and returns its start record and its length in bytes. More text may follow.
/// A memory with too few cells is reported only if nothing is wrong with the text.
#[tactic(auto, using(crate::proofs::RoundTrips::written_is_read, crate::proofs::RoundTrips::read_is_written, crate::proofs::FirstFaults::read_first, crate::proofs::FaultLines::read_named))]
pub fn read_board(
    text: &[u8],
    first_line: LineNumber,
    cells: &mut [u8],
) -> Result<(Start, usize), RecordFault>
    ensures answer { BoardRead (board first_line text.now) cells.old cells.new result }
    // reading undoes writing
    ensures written { (l : Lattice) → BeginsWith l text.now → BoardRead (Ok l) cells.old cells.new result }
    // and writing undoes reading
    ensures bytes { IfOk result (λ x. take x.1 text.now ≡ board_text (held x.0 (take (width_of x.0 * height_of x.0) cells.new))) }
    // a fault is reported exactly where it is the first one
    ensures first { (e : RecordFault) → (result ≡ Err e) ↔ ReadFault first_line (length cells.old) text.now e }
    // no line before the first has a fault
    ensures lines { IfErr result (λ e. NamesLineFrom first_line e) }
{
    read_into(text, first_line, cells)
}
