//! The lines of a board.
ghost use Rattle.std.specs.Prelude.{◌≡◌, ◌≤◌, ℕ, List, OnOk};
ghost use Rattle.text.specs.Fields.{bytes_of};
ghost use Rattle.text.specs.FieldsOfLines.{Stands, HasFields, StandsFrom};
ghost use Rattle.text.specs.Readers.{line_of, fields_read_of};
ghost use Rattle.boards.specs.Reading.{numbers_at, start_at, digits_at, row_at, on_first};
ghost use Rattle.boards.specs.Steps.{StartIs, DigitsAre, LineGiven, LineDown, lines_left};

use crate::digits::are_hex;
use faults::field::FieldFault;
use faults::record::RecordFault;
use lattice::start::Start;
use text::field::Field;
use text::line::Line;
use text::reader::Reader;

const BOARD: &[u8] = b"board";

const ROW: &[u8] = b"row";

// The start record with these numbers.
fn start(width: Field<'_>, height: Field<'_>, phase: Field<'_>) -> Result<Start, RecordFault>
    ensures { (n : ℕ) → Stands width.entry n 2 → Stands height.entry n 3 → Stands phase.entry n 4 → StartIs (numbers_at n (bytes_of width.entry) (bytes_of height.entry) (bytes_of phase.entry)) result }
{
    let line = width.place().line;
    match Start::new(width.number()?, height.number()?, phase.number()?) {
        Ok(start) => Ok(start),
        Err(cause) => Err(RecordFault::Start { cause, line }),
    }
}

// The start record on the first line of a board, or the line's first fault.
fn start_of(line: Line<'_>) -> Result<Start, RecordFault>
    ensures { (n : ℕ) (fs : List (List ℕ)) → HasFields line.entry fs → StandsFrom line.entry n 1 → StartIs (start_at n fs) result }
{
    let at = line.word().place().line;
    if line.word().bytes() != BOARD {
        return Err(RecordFault::UnknownWord { line: at });
    }
    let Line::Four(_, width, height, phase) = line else {
        return Err(RecordFault::FieldCount { line: at });
    };
    start(width, height, phase)
}

// The digits of a row of `width` cells.
fn row(digits: Field<'_>, width: usize) -> Result<&[u8], RecordFault>
    requires { width ≤ 256 }
    ensures { (n : ℕ) → Stands digits.entry n 2 → DigitsAre width (digits_at width n (bytes_of digits.entry)) result }
{
    let bytes = digits.bytes();
    if bytes.len() != 2 * width || !are_hex(bytes) {
        return Err(FieldFault::WrongDigits(digits.place()).into());
    }
    Ok(bytes)
}

// The digits on the line of a row, or the line's first fault.
fn digits_of(line: Line<'_>, width: usize) -> Result<&[u8], RecordFault>
    requires { width ≤ 256 }
    ensures { (n : ℕ) (fs : List (List ℕ)) → HasFields line.entry fs → StandsFrom line.entry n 1 → DigitsAre width (row_at width n fs) result }
{
    let at = line.word().place().line;
    if line.word().bytes() != ROW {
        return Err(RecordFault::UnknownWord { line: at });
    }
    let Line::Two(_, digits) = line else {
        return Err(RecordFault::FieldCount { line: at });
    };
    row(digits, width)
}

// The next line, or the fault that it is missing.
#[tactic(auto, using(crate::proofs::NextLines::line_given))]
fn next_line<'t>(reader: &mut Reader<'t>) -> Result<Line<'t>, RecordFault>
    requires { fields_read_of reader.old ≡ 0 }
    ensures { LineGiven reader.old result reader.new }
{
    let number = reader.line();
    match reader.next_line() {
        Some(line) => Ok(line),
        None => Err(RecordFault::MissingLine { line: number }),
    }
}

// Reads the first line of a board.
pub(crate) fn read_start(reader: &mut Reader<'_>) -> Result<Start, RecordFault>
    requires { fields_read_of reader.old ≡ 0 }
    ensures given { StartIs (on_first start_at (line_of reader.old) (lines_left reader.old)) result }
    ensures moved { OnOk result (LineDown reader.old reader.new) }
{
    start_of(next_line(reader)?)
}

// Reads the line of a row, and returns its digits.
pub(crate) fn read_row<'t>(reader: &mut Reader<'t>, width: usize) -> Result<&'t [u8], RecordFault>
    requires begins { fields_read_of reader.old ≡ 0 }
    requires narrow { width ≤ 256 }
    ensures given { DigitsAre width (on_first (row_at width) (line_of reader.old) (lines_left reader.old)) result }
    ensures moved { OnOk result (LineDown reader.old reader.new) }
{
    digits_of(next_line(reader)?, width)
}
