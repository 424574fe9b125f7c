//! The program `lab`, over any input and output.
ghost use Rattle.std.specs.Prelude.{◌≡◌, IfErr, IfSome, OnOk};
ghost use Rattle.std.specs.Io.KnownBytes.{Appends};
ghost use Rattle.job_texts.specs.Outputs.{OutputAfter};
ghost use Rattle.job_texts.specs.Texts.{lab_text};
ghost use Rattle.job_texts.specs.declared.carry.CarryError.TheVariants.{OutOfMemory};

use crate::lab_text::lab_text;
use crate::read_job::read_job;
use crate::write_text::write_text;
use std::alloc::{AllocError, Allocator};
use std::io;
use std::io::{Read, Write};
use thiserror::Error;

/// Why a job was not carried from an input to an output.
#[derive(Debug, Drop, Error)]
pub enum CarryError {
    /// The input failed, or memory ran out while the job was read.
    #[error("the job was not read: {0}")]
    Read(io::Error),
    /// Memory ran out after the job was read, and before anything was written.
    #[error("out of memory")]
    OutOfMemory,
    /// The output failed, or takes no more bytes.
    #[error("not all was written: {0}")]
    Write(io::Error),
}

impl From<AllocError> for CarryError {
    ghost from_gives = { λ _ e. e ≡ OutOfMemory };

    fn from(_error: AllocError) -> CarryError {
        CarryError::OutOfMemory
    }
}

/// Reads a job and writes all that is printed for it, and nothing else.
///
/// Fails if the input fails, the output fails or memory runs out; [`CarryError`] says which. The contract does not say when that happens, but it does
/// say what the output holds afterwards.
pub fn carry<R: Read + Drop, W: Write, A: Allocator + Copy>(
    input: R,
    output: &mut W,
    heap: A,
) -> Result<(), CarryError>
    ensures ok { OnOk result (IfSome (R.remaining input) (λ job. Appends (W.contents output.old) (W.contents output.new) (lab_text job))) }
    ensures err { IfErr result (λ e. OutputAfter e (R.remaining input) (W.contents output.old) (W.contents output.new)) }
{
    let job = read_job(input, heap).map_err(CarryError::Read)?;
    let text = lab_text(&job, heap)?;
    write_text(output, &text).map_err(CarryError::Write)
}
