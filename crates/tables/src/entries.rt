//! The entries that a table is to be filled with.
ghost use Rattle.std.specs.Prelude.{MatchBool};
ghost use Rattle.tables.specs.Refusals.{Below, LargeIn};

/// Whether every entry is below the limit.
pub fn all_below(entries: &[u8], limit: usize) -> bool
    ensures { MatchBool result (Below limit entries.now) (LargeIn limit entries.now) }
{
    entries.iter().all(|&e| usize::from(e) < limit)
}
