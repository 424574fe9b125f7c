//! What a run of a script checks before its first record.
ghost use Rattle.std.specs.Prelude.{◌≡◌};
ghost use Rattle.scripts.specs.Runs.{run_check};

use crate::check::check;
use faults::line_number::LineNumber;
use faults::run::{BenchRefusal, RunFault};
use lattice::start::Start;

/// Checks that there are as many cells as the lattice has, and then that the text is a script. Returns how many records it has.
pub fn check_run(
    start: &Start,
    cells: &[u8],
    text: &[u8],
    first_line: LineNumber,
) -> Result<usize, RunFault>
    ensures { result ≡ run_check start.now cells.now first_line text.now }
{
    if !start.is_whole(cells) {
        return Err(RunFault::Bench {
            cause: BenchRefusal::Cells,
            line: 0,
        });
    }
    Ok(check(text, first_line)?)
}
