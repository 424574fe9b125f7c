//! A block table as a map on the Margolus neighbourhood: blocks of two by two cells, which shift by a column and a row as the phase turns.
ghost use Rattle.std.specs.Prelude.{◌≡◌};
ghost use Rattle.lattice.specs.Cells.{OnlyBelow};
ghost use Rattle.lattice.specs.Starts.{held};
ghost use Rattle.tables.specs.Tables.{entries_of, inverse_of};
ghost use Rattle.block_map.specs.Maps.{block_forward, block_backward, table_of};
ghost use Rattle.tables.proofs.Tables.{back, forth};
ghost use Rattle.block_map.specs.Laws.{block_laws};

use crate::blocks::rewrite_blocks;
use lattice::map::Map;
use lattice::start::Start;
use tables::block::BlockTable;

/// The block map of a table.
///
/// Such block rules, among them the billiard ball model, Critters and Tron, are described in Cellular Automata Machines by T. Toffoli and
/// N. Margolus (1987) and in Physics-like Models of Computation by N. Margolus (1984). If one of these has another table under a name, the
/// table of the crate `tables` applies.
#[derive(Clone, Copy)]
pub struct BlockMap {
    table: BlockTable,
}

impl BlockMap {
    /// The map of this table.
    pub fn new(table: BlockTable) -> BlockMap
        ensures { table_of result ≡ table }
    {
        BlockMap { table }
    }
}

impl Map for BlockMap {
    ghost forward = { λ m. block_forward (entries_of (table_of m)) };

    ghost backward = { λ m. block_backward (inverse_of (table_of m)) };

    ghost laws = { λ m. block_laws (entries_of m.table) (inverse_of m.table) (back m.table) (forth m.table) };

    // In a cell only the present changes.
    fn advance(&self, start: &mut Start, cells: &mut [u8])
        ensures moved { held start.new cells.new ≡ block_forward (entries_of (table_of self.now)) (held start.old cells.old) }
        ensures presents { OnlyBelow 2 cells.old cells.new }
    {
        if start.is_whole(cells) {
            rewrite_blocks(self.table.entries(), start, cells);
            *start = start.turned();
        }
    }

    fn retreat(&self, start: &mut Start, cells: &mut [u8])
        ensures moved { held start.new cells.new ≡ block_backward (inverse_of (table_of self.now)) (held start.old cells.old) }
        ensures presents { OnlyBelow 2 cells.old cells.new }
    {
        if start.is_whole(cells) {
            let turned = start.turned();
            rewrite_blocks(self.table.inverse(), &turned, cells);
            *start = turned;
        }
    }
}
