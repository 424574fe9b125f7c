//! Comparing the ends of a life: the way back with the opening, and the mirror with the bench.
ghost use Rattle.std.specs.Prelude.{◌≡◌, Some, neg_ℤ};
ghost use Rattle.std.specs.Bool.{Decides};
ghost use Rattle.home_and_mirror.specs.Alike.{yes_or_no, home_lines, mirror_lines};

use bench::bench::Counts;
use lattice::start::Start;
use std::fmt;

fn word_of(holds: bool) -> &'static str
    ensures { result.now ≡ yes_or_no holds }
{
    if holds { "yes" } else { "no" }
}

fn are_opposite(clock: i32, other: i32) -> bool
    ensures { Decides result (other ≡ neg_ℤ clock) }
{
    clock.checked_neg() == Some(other)
}

fn are_same(start: &Start, other: &Start) -> bool
    ensures { Decides result (start.now ≡ other.now) }
{
    start == other
}

// Whether the way back ends as it should, given where the life began.
#[derive(Clone, Copy)]
pub(crate) struct HomeAlike {
    board: bool,
    clock: bool,
}

impl HomeAlike {
    pub(crate) fn of(
        start: &Start,
        home: &[u8],
        opening: &Start,
        first: &[u8],
        clock: i32,
        clock_before: i32,
    ) -> HomeAlike
        ensures board { Decides result.board ((start.now ≡ opening.now) × (home.now ≡ first.now)) }
        ensures clock { Decides result.clock (clock ≡ neg_ℤ clock_before) }
    {
        HomeAlike {
            board: are_same(start, opening) && home == first,
            clock: are_opposite(clock_before, clock),
        }
    }
}

impl fmt::Display for HomeAlike {
    ghost output = { λ a. Some (home_lines a.board a.clock) };

    fn fmt<W: fmt::Write>(&self, f: &mut fmt::Formatter<W>) -> fmt::Result {
        let (board, clock) = (word_of(self.board), word_of(self.clock));
        write!(f, "the opening board\t{board}\nthe clock negated\t{clock}")
    }
}

// Whether the mirror ends as it should, given where the bench ends.
#[derive(Clone, Copy)]
pub(crate) struct MirrorAlike {
    cells: bool,
    phase: bool,
    counts: bool,
    clock: bool,
}

impl MirrorAlike {
    pub(crate) fn of(
        cells: &[u8],
        mirror: &[u8],
        counts: Counts,
        mirror_counts: Counts,
    ) -> MirrorAlike
        ensures cells { Decides result.cells (mirror.now ≡ cells.now) }
        ensures phase { Decides result.phase (mirror_counts.3 ≡ counts.3) }
        ensures counts { Decides result.counts ((mirror_counts.0 ≡ counts.0) × (mirror_counts.1 ≡ counts.1)) }
        ensures clock { Decides result.clock (mirror_counts.2 ≡ neg_ℤ counts.2) }
    {
        MirrorAlike {
            cells: mirror == cells,
            phase: mirror_counts.3 == counts.3,
            counts: mirror_counts.0 == counts.0 && mirror_counts.1 == counts.1,
            clock: are_opposite(counts.2, mirror_counts.2),
        }
    }
}

impl fmt::Display for MirrorAlike {
    ghost output = { λ a. Some (mirror_lines a.cells a.phase a.counts a.clock) };

    fn fmt<W: fmt::Write>(&self, f: &mut fmt::Formatter<W>) -> fmt::Result {
        let (cells, phase) = (word_of(self.cells), word_of(self.phase));
        let (counts, clock) = (word_of(self.counts), word_of(self.clock));
        write!(
            f,
            "the same cells\t{cells}\nthe same phase\t{phase}\nthe same counts\t{counts}\nthe clock negated\t{clock}"
        )
    }
}
