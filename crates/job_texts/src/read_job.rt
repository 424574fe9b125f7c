//! Reading a job.
ghost use Rattle.std.specs.Prelude.{◌≡◌, ◌≢◌, ◌+◌, IfOk, IfErr, IfSome, take};
ghost use Rattle.std.specs.IoError.{error_kind};
ghost use Rattle.text.specs.Wholes.{max_text};

use std::alloc::Allocator;
use std::io;
use std::io::{ErrorKind, Read};

// One byte more than a job may have, so that a longer text is seen to be too long.
const MAX_READ: u64 = 65_537;

/// Reads a job to its end, or, if the text is longer than a job may be, only the first 65,537 bytes.
///
/// An interrupted read is retried. Fails if the input fails or memory runs out; the contract does not say when. Nothing but the input is changed.
pub fn read_job<R: Read + Drop, A: Allocator>(input: R, heap: A) -> io::Result<Vec<u8, A>>
    ensures job { IfOk result (λ v. IfSome (R.remaining input) (λ job. v.items ≡ take (max_text + 1) job)) }
    ensures retried { IfErr result (λ e. error_kind e ≢ ErrorKind.Interrupted) }
{
    let mut job = Vec::new(heap);
    input.take(MAX_READ).read_to_end(&mut job)?;
    Ok(job)
}
