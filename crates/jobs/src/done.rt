//! The outcome of a job whose records were all made.
ghost use Rattle.std.specs.Prelude.{Some};
ghost use Rattle.jobs.specs.Texts.{done_text};

use bench::bench::Counts;
use lattice::start::Start;
use std::fmt;

/// The outcome of a job whose records were all made. It is displayed as the first line that `lab` prints, without the newline.
#[derive(Clone, Copy, PartialEq, Eq, Debug)]
pub struct Done {
    /// The start record of the lattice that is held in the end.
    pub start: Start,
    /// How many records were made.
    pub made: usize,
    /// The counts of the bench in the end.
    pub counts: Counts,
}

impl fmt::Display for Done {
    ghost output = { λ d. Some (done_text d.made d.counts) };

    fn fmt<W: fmt::Write>(&self, f: &mut fmt::Formatter<W>) -> fmt::Result {
        let (standing, undone, clock, _) = self.counts;
        write!(f, "done\t{}\t{clock}\t{standing}\t{undone}", self.made)
    }
}
