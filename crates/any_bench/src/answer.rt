//! The answer to a call that is passed as a value.
use faults::run::BenchRefusal;

/// The outcome of a call.
#[derive(Clone, Copy, PartialEq, Eq, Debug)]
pub enum Answer {
    /// The call was skipped: the state does not permit it, or it is an event that is not a call of the life.
    Skipped,
    /// The call was `open` or `close`, which are never refused and return the bench alone.
    Given,
    /// The call was accepted; this many actions stand now.
    Standing(usize),
    /// The call was refused, for this cause.
    Refused(BenchRefusal),
}
