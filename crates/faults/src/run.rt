//! Faults of the run of a script.
ghost use Rattle.std.specs.Prelude.{◌≡◌};
ghost use Rattle.faults.specs.Reports.{bench_number};
ghost use Rattle.faults.specs.declared.run.RunFault.TheVariants.{Record};

use crate::record::RecordFault;
use thiserror::Error;

/// Why a bench refuses a call. Each cause has the number that docs/REFUSALS.md gives it.
#[derive(Clone, Copy, PartialEq, Eq, Debug, Error)]
pub enum BenchRefusal {
    #[error("the cells are not as many as the lattice has")]
    Cells = 10,
    #[error("the step count is 0, or beyond 10,000 either way")]
    StepCount = 11,
    #[error("no action stands")]
    NothingToUndo = 12,
    #[error("no action was undone")]
    NothingToRedo = 13,
    #[error("column or row off the lattice")]
    OffLattice = 15,
    #[error("the mask is 0, or above 255")]
    Mask = 16,
    #[error("the journal is full")]
    JournalFull = 17,
}

// The number of the cause.
impl From<BenchRefusal> for u8 {
    ghost from_gives = { λ cause n. n ≡ bench_number cause };

    fn from(cause: BenchRefusal) -> u8 {
        cause as u8
    }
}

/// Why a run of a script stops before its end.
#[derive(Clone, Copy, PartialEq, Eq, Debug, Error)]
pub enum RunFault {
    /// The text is not a script, so no record was made.
    #[error("{0}")]
    Record(RecordFault),
    /// The bench refused the record on this line; or, with line 0, the cells, which are checked before the first record.
    #[error("line {line}: {cause}")]
    Bench { cause: BenchRefusal, line: usize },
}

impl From<RecordFault> for RunFault {
    ghost from_gives = { λ fault r. r ≡ Record fault };

    fn from(fault: RecordFault) -> RunFault {
        RunFault::Record(fault)
    }
}
