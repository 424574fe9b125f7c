//! A lattice as text: a line for each row, `#` for a present cell and `.` for an absent one.
ghost use Rattle.std.specs.Prelude.{◌≡◌, map, IfOk, string_bytes};
ghost use Rattle.there_and_back.specs.Drawings.{sign};

use lattice::start::Start;
use std::alloc::{AllocError, Allocator};

fn sign_of(cell: u8) -> char
    ensures { result ≡ sign cell }
{
    if cell % 2 == 1 { '#' } else { '.' }
}

#[tactic(auto, using(crate::proofs::Signs::signs_encoded))]
fn line_of<A: Allocator>(heap: A, row: &[u8]) -> Result<String<A>, AllocError>
    ensures { IfOk result (λ s. string_bytes s ≡ map sign row.now) }
{
    row.iter().map(|&cell| sign_of(cell)).collect(heap)
}

pub(crate) fn draw(
    rt: &(impl Print + Alloc),
    which: &str,
    start: &Start,
    cells: &[u8],
) -> anyhow::Result<()> {
    let phase = start.phase();
    println!(rt; "{which} lattice, phase {phase}")?;
    for row in cells.chunks(start.width()) {
        let line = line_of(rt.alloc(), row)?;
        println!(rt; "{line}")?;
    }
    Ok(())
}
