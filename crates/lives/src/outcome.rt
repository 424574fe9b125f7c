//! How a life ends.
use bench::bench::Counts;
use faults::run::RunFault;
use lattice::start::Start;
use reverse_script::refusal::ScriptRefusal;

/// A way back that was made: the reverse script, and the outcome of its run on a third bench.
#[derive(Clone, Copy, PartialEq, Eq, Debug)]
pub struct Journey {
    /// The length of the script in bytes.
    pub script_len: usize,
    /// The result of the run.
    pub answer: Result<usize, RunFault>,
    /// The third bench's start record after the run.
    pub start: Start,
    /// The third bench's counts after the run.
    pub counts: Counts,
}

/// The way back, or why there is none.
#[derive(Clone, Copy, PartialEq, Eq, Debug)]
pub enum WayBack {
    /// A session is open when the life ends.
    InSession,
    /// The script was not written.
    Refused(ScriptRefusal),
    /// The script was written, and was run on a third bench.
    Gone(Journey),
}

/// What a life ends with: start record and counts of the bench, those of its mirror, and the way back.
#[derive(Clone, Copy, PartialEq, Eq, Debug)]
pub struct Outcome {
    pub start: Start,
    pub counts: Counts,
    pub mirror_start: Start,
    pub mirror_counts: Counts,
    pub way_back: WayBack,
}
