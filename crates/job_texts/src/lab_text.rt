//! What the program `lab` prints.
ghost use Rattle.std.specs.Prelude.{◌≡◌, ◌++◌, length, IfOk};
ghost use Rattle.boards.specs.Boards.{board_text};
ghost use Rattle.job_texts.specs.Texts.{fault_line, printed_for, lab_text};
ghost use Rattle.jobs.specs.Texts.{done_text};
ghost use Rattle.text.specs.Lines.{ended};
ghost use Rattle.lattice.specs.Lattice.{Whole};
ghost use Rattle.lattice.specs.Starts.{held};

use boards::board_text::board_text;
use faults::report::Report;
use faults::run::RunFault;
use jobs::done::Done;
use jobs::job::run_job;
use lattice::start::max_cells;
use std::alloc::{AllocError, Allocator};

// The line that reports a fault.
fn fault_line<A: Allocator>(fault: RunFault, heap: A) -> Result<Vec<u8, A>, AllocError>
    ensures { IfOk result (λ v. v.items ≡ fault_line fault) }
{
    Ok(format!(in heap; "{}\n", Report::from(fault))?.into_bytes())
}

// The line of a job whose records were all made, and the board that is held in the end.
fn made_text<A: Allocator + Copy>(
    done: &Done,
    cells: &[u8],
    heap: A,
) -> Result<Vec<u8, A>, AllocError>
    requires { Whole (held done.now.start cells.now) }
    ensures { IfOk result (λ v. v.items ≡ ended (done_text done.now.made done.now.counts) ++ board_text (held done.now.start cells.now)) }
{
    let mut text = format!(in heap; "{done}\n")?.into_bytes();
    let board = board_text(&done.start, cells, heap)?.unwrap();
    text.extend_from_slice(&board)?;
    Ok(text)
}

// What is printed for a job that is run in this memory.
#[tactic(auto, using(crate::proofs::Printed::cells_inside, crate::proofs::Printed::whole_held, crate::proofs::Printed::text_is))]
fn text_in<A: Allocator + Copy>(
    job: &[u8],
    cells: &mut [u8],
    heap: A,
) -> Result<Vec<u8, A>, AllocError>
    ensures { IfOk result (λ v. v.items ≡ printed_for (length cells.old) job.now) }
{
    match run_job(job, cells) {
        Ok(done) => made_text(&done, &cells[..done.start.cell_count()], heap),
        Err(fault) => fault_line(fault, heap),
    }
}

/// All that the program `lab` prints for this job. The only error is that memory runs out.
pub fn lab_text<A: Allocator + Copy>(job: &[u8], heap: A) -> Result<Vec<u8, A>, AllocError>
    ensures { IfOk result (λ v. v.items ≡ lab_text job.now) }
{
    let mut cells = vec![in heap; 0u8; max_cells()]?;
    text_in(job, &mut cells, heap)
}
