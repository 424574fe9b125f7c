//! The text of a board, in memory of its own.
ghost use Rattle.std.specs.Prelude.{◌≡◌, ◌+◌, ◌*◌, ◌≤◌, length, take, IfOk, MatchOption};
ghost use Rattle.boards.specs.Boards.{board_text};
ghost use Rattle.lattice.specs.Lattice.{Whole};
ghost use Rattle.lattice.specs.Starts.{width_of, height_of, held};

use crate::write::write_board;
use lattice::start::Start;
use std::alloc::{AllocError, Allocator};

// Room for the text of any board with this start record: the first line has at most 18 bytes.
fn room_for(start: &Start) -> usize
    ensures { result ≡ 18 + height_of start.now * (2 * width_of start.now + 5) }
{
    18 + start.height() * (2 * start.width() + 5)
}

// Writes the board into the memory, and returns its length in bytes.
#[tactic(auto, using(crate::proofs::BoardLengths::board_short))]
fn put_board(start: &Start, cells: &[u8], memory: &mut [u8]) -> usize
    requires whole { Whole (held start.now cells.now) }
    requires room { length memory.old ≡ 18 + height_of start.now * (2 * width_of start.now + 5) }
    ensures inside { result ≤ length memory.new }
    ensures text { take result memory.new ≡ board_text (held start.now cells.now) }
{
    write_board(start, cells, memory).unwrap()
}

/// The text of the board, in allocated memory. `None` if the cells do not make a whole lattice; an error if memory runs out.
pub fn board_text<A: Allocator>(
    start: &Start,
    cells: &[u8],
    heap: A,
) -> Result<Option<Vec<u8, A>>, AllocError>
    ensures { IfOk result (λ text. MatchOption text (Whole (held start.now cells.now) → ⊥) (λ v. Whole (held start.now cells.now) × (v.items ≡ board_text (held start.now cells.now)))) }
{
    if !start.is_whole(cells) {
        return Ok(None);
    }
    let mut text = vec![in heap; 0u8; room_for(start)]?;
    let len = put_board(start, cells, &mut text);
    text.truncate(len);
    Ok(Some(text))
}
