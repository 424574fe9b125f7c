//! A cell table as a map.
ghost use Rattle.std.specs.Prelude.{◌≡◌};
ghost use Rattle.lattice.specs.Cells.{OnlyBelow};
ghost use Rattle.lattice.specs.Starts.{held};
ghost use Rattle.tables.specs.Tables.{entries_of, inverse_of};
ghost use Rattle.cell_map.specs.Maps.{cell_moved, table_of};
ghost use Rattle.tables.proofs.Tables.{back, forth};
ghost use Rattle.cell_map.specs.Laws.{cell_laws};

use crate::cells::replace_cells;
use lattice::map::Map;
use lattice::start::Start;
use tables::cell::CellTable;

/// The cell map of a table. It has no neighbourhood: a cell's new present and past depend on its old ones alone.
#[derive(Clone, Copy)]
pub struct CellMap {
    table: CellTable,
}

impl CellMap {
    /// The map of this table.
    pub fn new(table: CellTable) -> CellMap
        ensures { table_of result ≡ table }
    {
        CellMap { table }
    }
}

impl Map for CellMap {
    ghost forward = { λ m. cell_moved (entries_of (table_of m)) };

    ghost backward = { λ m. cell_moved (inverse_of (table_of m)) };

    ghost laws = { λ m. cell_laws (entries_of m.table) (inverse_of m.table) (back m.table) (forth m.table) };

    // In a cell only present and past change; the phase stays.
    fn advance(&self, start: &mut Start, cells: &mut [u8])
        ensures moved { held start.new cells.new ≡ cell_moved (entries_of (table_of self.now)) (held start.old cells.old) }
        ensures low { OnlyBelow 4 cells.old cells.new }
    {
        if start.is_whole(cells) {
            replace_cells(self.table.entries(), cells);
        }
    }

    fn retreat(&self, start: &mut Start, cells: &mut [u8])
        ensures moved { held start.new cells.new ≡ cell_moved (inverse_of (table_of self.now)) (held start.old cells.old) }
        ensures low { OnlyBelow 4 cells.old cells.new }
    {
        if start.is_whole(cells) {
            replace_cells(self.table.inverse(), cells);
        }
    }
}
