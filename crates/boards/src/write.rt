//! Writing a board.
ghost use Rattle.std.specs.Prelude.{◌≡◌, ◌+◌, ◌*◌, ◌≤◌, ℕ, length, take, IfOk, Ok};
ghost use Rattle.lattice.specs.Lattice.{Whole};
ghost use Rattle.lattice.specs.Starts.{width_of, height_of, phase_of, held};
ghost use Rattle.boards.specs.Answers.{BoardWritten};
ghost use Rattle.boards.specs.Boards.{start_line, row_line, rows_text};
ghost use Rattle.text.specs.Puts.{put_at};
ghost use Rattle.boards.specs.Reading.{board};

use crate::put::{put, put_cells, put_number};
use crate::refusal::BoardRefusal;
use lattice::start::Start;

// The first line of a board has at most 16 bytes. While it is written, each number needs room for three digits.
const LINE_ROOM: usize = 18;

// Writes the line of a row, and returns the place after it.
#[tactic(auto, using(crate::proofs::Puts::row_put))]
fn put_row(cells: &[u8], memory: &mut [u8], at: usize) -> usize
    requires { at + 2 * length cells.now + 5 ≤ length memory.old }
    ensures memory { memory.new ≡ put_at memory.old at (row_line cells.now) }
    ensures after { result ≡ at + 2 * length cells.now + 5 }
{
    let digits = put(b"row\t", memory, at);
    let end = put_cells(cells, memory, digits);
    put(b"\n", memory, end)
}

// Writes the lines of `height` rows.
fn put_rows(width: usize, height: usize, cells: &[u8], memory: &mut [u8], at: usize)
    requires narrow { width ≤ 256 }
    requires low { height ≤ 256 }
    requires count { length cells.now ≡ height * width }
    requires room { at + height * (2 * width + 5) ≤ length memory.old }
    ensures { memory.new ≡ put_at memory.old at (rows_text width height cells.now) }
{
    let mut end = at;
    for row in 0..height {
        end = put_row(&cells[row * width..(row + 1) * width], memory, end);
    }
}

// Writes the first line of a board, and returns its length.
fn put_start(start: &Start, line: &mut [u8]) -> usize
    requires { LINE_ROOM ≤ length line.old }
    ensures memory { line.new ≡ put_at line.old 0 (start_line (width_of start.now) (height_of start.now) (phase_of start.now)) }
    ensures after { result ≡ length (start_line (width_of start.now) (height_of start.now) (phase_of start.now)) }
    ensures short { result ≤ LINE_ROOM }
{
    let width_at = put(b"board\t", line, 0);
    let width_end = put_number(start.width(), line, width_at);
    let height_at = put(b"\t", line, width_end);
    let height_end = put_number(start.height(), line, height_at);
    let phase_at = put(b"\t", line, height_end);
    let phase_end = put_number(start.phase() as usize, line, phase_at);
    put(b"\n", line, phase_end)
}

// Writes a whole lattice, if there is room for it.
#[tactic(auto, using(crate::proofs::WholeBoards::board_too_long, crate::proofs::WholeBoards::board_put))]
fn write_whole(start: &Start, cells: &[u8], memory: &mut [u8]) -> Result<usize, BoardRefusal>
    requires { Whole (held start.now cells.now) }
    ensures { BoardWritten start.now cells.now memory.old memory.new result }
{
    let (width, height) = (start.width(), start.height());
    let mut line = [0; LINE_ROOM];
    let rows_at = put_start(start, &mut line);
    let len = rows_at + height * (2 * width + 5);
    if memory.len() < len {
        return Err(BoardRefusal::MemoryTooShort);
    }
    put(&line[..rows_at], memory, 0);
    put_rows(width, height, cells, memory, rows_at);
    Ok(len)
}

/// Writes the board at the beginning of the memory, and returns its length in bytes.
#[tactic(auto, using(crate::proofs::ReadBack::written_reads_back, crate::proofs::ReadBack::written_is_short))]
pub fn write_board(start: &Start, cells: &[u8], memory: &mut [u8]) -> Result<usize, BoardRefusal>
    ensures answer { BoardWritten start.now cells.now memory.old memory.new result }
    // a reader gets this lattice back, with any number for the first line
    ensures read_back { IfOk result (λ len. (n : ℕ) → board n (take len memory.new) ≡ Ok (held start.now cells.now)) }
    // at most 18 bytes for the first line, and those of the rows
    ensures short { IfOk result (λ len. len ≤ 18 + height_of start.now * (2 * width_of start.now + 5)) }
{
    if !start.is_whole(cells) {
        return Err(BoardRefusal::Cells);
    }
    write_whole(start, cells, memory)
}
