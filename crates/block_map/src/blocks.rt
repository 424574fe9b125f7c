//! Rewriting the blocks of one phase in place.
ghost use Rattle.std.specs.Prelude.{◌≡◌, ◌<◌, length};
ghost use Rattle.lattice.specs.Cells.{OnlyBelow};
ghost use Rattle.lattice.specs.Lattice.{Whole};
ghost use Rattle.lattice.specs.Starts.{width_of, height_of, phase_of, held};
ghost use Rattle.lattice.specs.Torus.{after};
ghost use Rattle.block_map.specs.Maps.{blocks_rewritten};
ghost use Rattle.block_map.specs.Progress.{RewroteAt, IsCorner, only, in_row};
ghost use Rattle.block_map.specs.Writes.{block_written};

use lattice::start::Start;

// Rewrites the four cells of a block at these places: a is the corner, b is to the right of it, c is below it, and d is to the right of c.
fn rewrite_cells(table: &[u8; 16], cells: &mut [u8], a: usize, b: usize, c: usize, d: usize)
    requires a { a < length cells.old }
    requires b { b < length cells.old }
    requires c { c < length cells.old }
    requires d { d < length cells.old }
    ensures { cells.new ≡ block_written table.now cells.old a b c d }
{
    let (ca, cb, cc, cd) = (cells[a], cells[b], cells[c], cells[d]);
    let number = ca % 2 + 2 * (cb % 2) + 4 * (cc % 2) + 8 * (cd % 2);
    let entry = table[number as usize];
    cells[a] = ca / 2 * 2 + entry % 2;
    cells[b] = cb / 2 * 2 + entry / 2 % 2;
    cells[c] = cc / 2 * 2 + entry / 4 % 2;
    cells[d] = cd / 2 * 2 + entry / 8 % 2;
}

// Rewrites the block with its corner in column x and row y. The column `right` comes after x, and the row `below` after y.
fn rewrite_block(
    table: &[u8; 16],
    start: &Start,
    cells: &mut [u8],
    x: usize,
    right: usize,
    y: usize,
    below: usize,
)
    requires whole { Whole (held start.now cells.old) }
    requires column { IsCorner (width_of start.now) (phase_of start.now) x }
    requires right { right ≡ after (width_of start.now) x }
    requires row { IsCorner (height_of start.now) (phase_of start.now) y }
    requires below { below ≡ after (height_of start.now) y }
    ensures { RewroteAt table.now start.now (only x y) cells.old cells.new }
{
    let width = start.width();
    let (top, bottom) = (y * width, below * width);
    rewrite_cells(
        table,
        cells,
        top + x,
        top + right,
        bottom + x,
        bottom + right,
    );
}

// Rewrites the blocks whose upper cells are in row y, and whose lower ones are in the row `below`.
// At phase 1 the last block wraps round the end of the row, and is done separately.
fn rewrite_row(table: &[u8; 16], start: &Start, cells: &mut [u8], y: usize, below: usize)
    requires whole { Whole (held start.now cells.old) }
    requires row { IsCorner (height_of start.now) (phase_of start.now) y }
    requires below { below ≡ after (height_of start.now) y }
    ensures { RewroteAt table.now start.now (in_row y) cells.old cells.new }
{
    let width = start.width();
    let phase = usize::from(start.phase());
    for x in (phase..width - 1).step_by(2) {
        rewrite_block(table, start, cells, x, x + 1, y, below);
    }
    if phase == 1 {
        rewrite_block(table, start, cells, width - 1, 0, y, below);
    }
}

// Rewrites all blocks of the start record's phase.
pub(crate) fn rewrite_blocks(table: &[u8; 16], start: &Start, cells: &mut [u8])
    requires whole { Whole (held start.now cells.old) }
    ensures cells { held start.now cells.new ≡ blocks_rewritten table.now (held start.now cells.old) }
    ensures presents { OnlyBelow 2 cells.old cells.new }
{
    let height = start.height();
    for y in (usize::from(start.phase())..height).step_by(2) {
        let below = if y + 1 == height { 0 } else { y + 1 };
        rewrite_row(table, start, cells, y, below);
    }
}
