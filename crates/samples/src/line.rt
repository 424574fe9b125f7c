//! One printed line: what a map makes of the sample cells, under its name.
ghost use Rattle.std.specs.Prelude.{◌≡◌, IfOk, Some};
ghost use Rattle.samples.specs.Outcomes.{IsOutcome};

use crate::outcome::Outcome;
use lattice::map::Map;
use lattice::start::Start;
use std::alloc::{AllocError, Allocator};
use std::fmt;

/// What a map makes of the sample with this opening, and the kind and the name under which it is printed.
#[derive(Clone, Copy)]
pub struct Line<'a> {
    pub kind: &'a str,
    pub name: &'a str,
    pub opening: Start,
    pub outcome: Outcome,
}

impl<'a> Line<'a> {
    /// The line of a map, under this kind and name. The only error is running out of memory.
    pub fn of<M: Map, A: Allocator>(
        kind: &'a str,
        name: &'a str,
        map: &M,
        opening: Start,
        heap: &A,
    ) -> Result<Line<'a>, AllocError>
        ensures kind { IfOk result (λ l. l.kind.now ≡ kind.now) }
        ensures name { IfOk result (λ l. l.name.now ≡ name.now) }
        ensures opening { IfOk result (λ l. l.opening ≡ opening) }
        ensures outcome { IfOk result (λ l. IsOutcome (M.forward map.now) (M.backward map.now) opening l.outcome) }
    {
        let outcome = Outcome::of(map, opening, heap)?;
        Ok(Line {
            kind,
            name,
            opening,
            outcome,
        })
    }
}

impl fmt::Display for Line<'_> {
    ghost use Rattle.samples.specs.Texts.{line_text};

    ghost output = { λ l. Some (line_text l) };

    fn fmt<W: fmt::Write>(&self, f: &mut fmt::Formatter<W>) -> fmt::Result {
        let (width, height) = (self.opening.width(), self.opening.height());
        let phase = self.opening.phase();
        write!(
            f,
            "{} {} {width} {height} {phase} {}",
            self.kind, self.name, self.outcome
        )
    }
}
