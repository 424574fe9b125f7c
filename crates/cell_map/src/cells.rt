//! Looking up each cell's present and past in a table, in place.
ghost use Rattle.std.specs.Prelude.{◌≡◌, ℕ, ◌<◌, map, slice_index};
ghost use Rattle.lattice.specs.Cells.{OnlyBelow};
ghost use Rattle.cell_map.specs.Maps.{replaced};

fn replace(table: &[u8; 4], cell: u8) -> u8
    requires small { (v : ℕ) → v < 4 → slice_index table.now v < 4 }
    ensures { result ≡ replaced table.now cell }
{
    cell / 4 * 4 + table[(cell % 4) as usize]
}

pub(crate) fn replace_cells(table: &[u8; 4], cells: &mut [u8])
    requires small { (v : ℕ) → v < 4 → slice_index table.now v < 4 }
    ensures cells { cells.new ≡ map (replaced table.now) cells.old }
    ensures low { OnlyBelow 4 cells.old cells.new }
{
    for cell in cells.iter_mut() {
        *cell = replace(table, *cell);
    }
}
