//! Stacks of the row shift with block maps.
ghost use Rattle.std.specs.Prelude.{◌≡◌};
ghost use Rattle.lattice.specs.Maps.{repeated};
ghost use Rattle.lattice.specs.Overlays.{laid_over};
ghost use Rattle.lattice.specs.Starts.{held, StartOf};
ghost use Rattle.tables.specs.Tables.{entries_of, inverse_of};
ghost use Rattle.row_shift.specs.Stacks.{staggered_forward, staggered_backward, drifting_forward, drifting_backward};

use crate::map::RowShift;
use block_map::map::BlockMap;
use lattice::map::Map;
use lattice::round_trip::round_trip;
use lattice::start::Start;
use layers::conjugate::Conjugate;
use layers::reverse::Reverse;
use layers::then::Then;
use tables::block::BlockTable;

/// The block map of a table, conjugated by the shift: its blocks are moved by one column.
pub fn staggered(table: BlockTable) -> Conjugate<BlockMap, RowShift>
    ensures forward { ⟦<Conjugate<BlockMap, RowShift> as Map>⟧.forward result ≡ staggered_forward (entries_of table) }
    ensures backward { ⟦<Conjugate<BlockMap, RowShift> as Map>⟧.backward result ≡ staggered_backward (inverse_of table) }
{
    Conjugate::new(BlockMap::new(table), RowShift::new())
}

/// The block map of a table, in a frame of reference that moves one cell east with each move.
pub fn drifting(table: BlockTable) -> Then<BlockMap, Reverse<RowShift>>
    ensures forward { ⟦<Then<BlockMap, Reverse<RowShift>> as Map>⟧.forward result ≡ drifting_forward (entries_of table) }
    ensures backward { ⟦<Then<BlockMap, Reverse<RowShift>> as Map>⟧.backward result ≡ drifting_backward (inverse_of table) }
{
    Then::new(BlockMap::new(table), Reverse::new(RowShift::new()))
}

/// Makes `count` moves forward by the drifting block map of a table.
pub fn drift_by(table: BlockTable, count: u32, start: &mut Start, cells: &mut [u8])
    ensures { held start.new cells.new ≡ repeated count (drifting_forward (entries_of table)) (held start.old cells.old) }
{
    drifting(table).advance_by(count, start, cells);
}

/// Makes `count` moves forward and as many back by the staggered block map of a table: a call of `round_trip`.
pub fn staggered_round_trip(
    table: BlockTable,
    count: u32,
    start: &mut Start,
    cells: &mut [u8],
    far: &mut [u8],
) -> Start
    ensures home { held start.new cells.new ≡ held start.old cells.old }
    ensures turning { StartOf (repeated count (staggered_forward (entries_of table)) (held start.old cells.old)) result }
    ensures far { far.new ≡ laid_over (repeated count (staggered_forward (entries_of table)) (held start.old cells.old)).cells far.old }
{
    round_trip(&staggered(table), count, start, cells, far)
}
