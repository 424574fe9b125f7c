//! The worked examples, made with the maps themselves.
ghost use Rattle.std.specs.Prelude.{◌≡◌, true};
ghost use Rattle.lattice.specs.Maps.{repeated};
ghost use Rattle.named_maps.specs.Examples.{ExamplesComeOut, Lands, complement_forward};

use crate::blocks::{bbm, critters};
use crate::life2::life2;
use cell_map::map::CellMap;
use lattice::map::Map;
use lattice::start::Start;
use layers::reverse::Reverse;

// Whether `count` moves forward lead from a square lattice with these cells to one with the cells `far` at the phase `after`.
fn lands<M: Map>(
    map: &M,
    count: u32,
    side: u32,
    phase: u32,
    cells: &mut [u8],
    after: u32,
    far: &[u8],
) -> bool
    ensures { Lands (repeated count (M.forward map.now)) side phase cells.old after far.now result }
{
    let Ok(mut start) = Start::new(side, side, phase) else {
        return false;
    };
    map.advance_by(count, &mut start, cells);
    u32::from(start.phase()) == after && *cells == *far
}

fn bbm_lands() -> bool
    ensures { result ≡ true }
{
    let map = bbm();
    let across = lands(&map, 1, 2, 0, &mut [1, 0, 0, 0], 1, &[0, 0, 0, 1]);
    let round = lands(&map, 2, 2, 0, &mut [1, 0, 0, 0], 0, &[1, 0, 0, 0]);
    let marked = lands(&map, 1, 2, 0, &mut [0xf1, 0, 0, 0], 1, &[0xf0, 0, 0, 1]);
    across & round & marked
}

fn critters_lands() -> bool
    ensures { result ≡ true }
{
    let map = critters();
    let forward = lands(&map, 1, 2, 0, &mut [1, 0, 0, 0], 1, &[0, 1, 1, 1]);
    let reverse = Reverse::new(map);
    let back = lands(&reverse, 1, 2, 0, &mut [1, 0, 0, 0], 1, &[1, 1, 1, 0]);
    forward & back
}

// Four by four cells with a block in one corner: each cell of the block is only present, only past, or both.
const PRESENT: [u8; 16] = [1, 1, 0, 0, 1, 1, 0, 0, 0, 0, 0, 0, 0, 0, 0, 0];

const PAST: [u8; 16] = [2, 2, 0, 0, 2, 2, 0, 0, 0, 0, 0, 0, 0, 0, 0, 0];

const BOTH: [u8; 16] = [3, 3, 0, 0, 3, 3, 0, 0, 0, 0, 0, 0, 0, 0, 0, 0];

fn life2_lands() -> bool
    ensures { result ≡ true }
{
    let map = life2();
    let mut cells = PRESENT;
    let one = lands(&map, 1, 4, 0, &mut cells, 0, &BOTH);
    cells = PRESENT;
    let two = lands(&map, 2, 4, 0, &mut cells, 0, &PAST);
    cells = PRESENT;
    let three = lands(&map, 3, 4, 1, &mut cells, 1, &PRESENT);
    one & two & three
}

fn complement() -> CellMap
    ensures { ⟦<CellMap as Map>⟧.forward result ≡ complement_forward }
{
    CellMap::new("complement".parse().unwrap())
}

fn complement_lands() -> bool
    ensures { result ≡ true }
{
    lands(
        &complement(),
        1,
        2,
        1,
        &mut [0x02, 0xff, 0x00, 0x01],
        1,
        &[0x03, 0xfe, 0x01, 0x00],
    )
}

/// Makes the worked examples with the maps, and returns whether each result is the one that was worked out by hand.
pub fn examples_come_out() -> bool
    ensures definitions { ExamplesComeOut }
    ensures maps { result ≡ true }
{
    bbm_lands() && critters_lands() && life2_lands() && complement_lands()
}
