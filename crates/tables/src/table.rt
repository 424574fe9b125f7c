//! Tables: permutations of the numbers below N, with their inverses.
ghost use Rattle.std.specs.Prelude.{◌≡◌, ◌≤◌};
ghost use Rattle.tables.specs.Inverses.{InvertedBy};

use crate::inverting::inverted;
use crate::refusal::TableRefusal;
use std::str::FromStr;

/// A permutation of the numbers below `N`, together with its inverse. That the two undo each other is part of the type.
#[derive(Clone, Copy)]
pub struct Table<const N: usize> {
    pub(crate) entries: [u8; N],
    pub(crate) inverse: [u8; N],
    ghost back: { InvertedBy N entries inverse },
    ghost forth: { InvertedBy N inverse entries },
    // While the inverse is computed, a free place holds N, so N has to be a byte.
    ghost few: { N ≤ 255 },
}

// What belongs to one size, the identity and the built-in tables, is in block.rt and cell.rt. An identity for every N would have to require
// N ≤ 255, and a public call requires nothing.
impl<const N: usize> Table<N> {
    ghost use Rattle.tables.specs.Refusals.{Filled};
    ghost use Rattle.tables.specs.Tables.{entries_of, inverse_of};
    ghost use Rattle.tables.specs.Names.{Written};

    /// Takes these entries in place of all that are there. If one of `Entries`, `TooLarge` and `Repeated` applies, it takes none and returns the
    /// first of these that does.
    pub fn fill(&mut self, entries: &[u8]) -> Result<(), TableRefusal>
        ensures { Filled N entries.now (entries_of self.new) (self.new ≡ self.old) result }
    {
        let entries: [u8; N] = entries.try_into().map_err(|_| TableRefusal::Entries)?;
        let inverse = inverted(&entries)?;
        *self = Table { entries, inverse };
        Ok(())
    }

    /// Replaces the whole table by the built-in one with this name, or changes nothing. Refused with `UnknownName` alone.
    pub fn fill_named(&mut self, name: &str) -> Result<(), TableRefusal>
    where
        Self: FromStr<Err = TableRefusal>,
        ensures { Written (⟦<Self as FromStr>⟧.from_str_gives name.now) self.old self.new result }
    {
        *self = name.parse()?;
        Ok(())
    }

    /// The entries, in the order of the numbers that they replace.
    pub fn entries(&self) -> &[u8; N]
        ensures { result.now ≡ entries_of self.now }
    {
        &self.entries
    }

    /// The entries of the inverse permutation.
    pub fn inverse(&self) -> &[u8; N]
        ensures { result.now ≡ inverse_of self.now }
    {
        &self.inverse
    }
}
