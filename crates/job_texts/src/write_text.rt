//! Writing a text.
ghost use Rattle.std.specs.Prelude.{◌≢◌, ◌<◌, ◌≤◌, IfOk, IfErr, OnErr, OnOk, length, take};
ghost use Rattle.std.specs.Io.KnownBytes.{Appends, Keeps};
ghost use Rattle.std.specs.IoError.{error_kind};
ghost use Rattle.job_texts.specs.Outputs.{AppendsProperPrefix};

use std::io;
use std::io::{ErrorKind, Write};

// Writes some of the text, and returns how many bytes. An interrupted write is retried, and one that takes nothing is an error.
fn write_some<W: Write>(output: &mut W, text: &[u8]) -> io::Result<usize>
    ensures some { IfOk result (λ n. 0 < n) }
    ensures within { IfOk result (λ n. n ≤ length text.now) }
    ensures ok { IfOk result (λ n. Appends (W.contents output.old) (W.contents output.new) (take n text.now)) }
    ensures err { OnErr result (Keeps (W.contents output.old) (W.contents output.new)) }
    ensures retried { IfErr result (λ e. error_kind e ≢ ErrorKind.Interrupted) }
{
    for _ in 0..u64::MAX {
        match output.write(text) {
            Ok(0) => return Err(io::Error::from(ErrorKind::WriteZero)),
            Ok(taken) => return Ok(taken),
            Err(e) => {
                if e.kind() != ErrorKind::Interrupted {
                    return Err(e);
                }
            }
        }
    }
    Err(io::Error::from(ErrorKind::TimedOut))
}

/// Writes all of the text.
///
/// An interrupted write is retried. Fails if the output fails or takes no more bytes; the contract does not say when.
#[tactic(auto, using(crate::proofs::PartsWritten::one_part_more))]
pub fn write_text<W: Write>(output: &mut W, text: &[u8]) -> io::Result<()>
    ensures ok { OnOk result (Appends (W.contents output.old) (W.contents output.new) text.now) }
    ensures err { OnErr result (AppendsProperPrefix (W.contents output.old) (W.contents output.new) text.now) }
    ensures retried { IfErr result (λ e. error_kind e ≢ ErrorKind.Interrupted) }
{
    let mut rest = text;
    while !rest.is_empty() {
        let taken = write_some(output, rest)?;
        rest = &rest[taken..];
    }
    Ok(())
}
