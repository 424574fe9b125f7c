//! Moves of small lattices.
use block_map::map::BlockMap;
use cell_map::map::CellMap;
use lattice::map::Map;
use lattice::round_trip::round_trip;
use lattice::start::Start;
use samples::cells::ALL_KINDS;
use samples::without_symmetry::{CYCLE, lopsided};
use std::process::Abort;
use std::test::Fail;
use tables::block::BlockTable;
use tables::cell::CellTable;

fn named_block(name: &str) -> Result<BlockMap, Fail> {
    let mut table = BlockTable::identity();
    table.fill_named(name)?;
    Ok(BlockMap::new(table))
}

fn cell_map_of(entries: &[u8]) -> Result<CellMap, Fail> {
    let mut table = CellTable::identity();
    table.fill(entries)?;
    Ok(CellMap::new(table))
}

#[test]
fn billiard_ball_on_two_by_two(rt: HostRuntime) -> Result<(), Fail> {
    let map = named_block("bbm")?;
    let mut held = Start::new(2, 2, 0)?;
    let mut cells = [1, 0, 0, 0];
    map.advance(&mut held, &mut cells);
    assert!(rt; cells == [0, 0, 0, 1]);
    assert_eq!(rt; held.phase(), 1);
    map.advance(&mut held, &mut cells);
    assert!(rt; cells == [1, 0, 0, 0]);
    assert_eq!(rt; held.phase(), 0);
    let mut marked = [0xf1, 0, 0, 0];
    map.advance(&mut held, &mut marked);
    assert!(rt; marked == [0xf0, 0, 0, 1]);
    assert_eq!(rt; held.phase(), 1);
    Ok(())
}

#[test]
fn critters_forward_and_back_on_two_by_two(rt: HostRuntime) -> Result<(), Fail> {
    let map = named_block("critters")?;
    for phase in 0..2u32 {
        let mut held = Start::new(2, 2, phase)?;
        let mut cells = [1, 0, 0, 0];
        map.advance(&mut held, &mut cells);
        assert!(rt; cells == [0, 1, 1, 1]);
        assert_eq!(rt; u32::from(held.phase()), 1 - phase);
        let mut before = [1, 0, 0, 0];
        map.retreat(&mut held, &mut before);
        assert!(rt; before == [1, 1, 1, 0]);
        assert_eq!(rt; u32::from(held.phase()), phase);
    }
    Ok(())
}

#[test]
fn a_table_without_symmetry_from_phase_0(rt: HostRuntime) -> Result<(), Fail> {
    let map = BlockMap::new(lopsided());
    let mut held = Start::new(4, 4, 0)?;
    let mut cells = ALL_KINDS;
    map.advance(&mut held, cells.as_flattened_mut());
    assert!(rt;
        cells
            == [
                [0xf0, 0x03, 0x05, 0x08],
                [0x10, 0x20, 0x40, 0x80],
                [0x02, 0x06, 0x0f, 0xfe],
                [0x55, 0xaa, 0x5a, 0xa4],
            ]
    );
    map.advance_by(2, &mut held, cells.as_flattened_mut());
    assert!(rt;
        cells
            == [
                [0xf1, 0x02, 0x05, 0x09],
                [0x11, 0x20, 0x41, 0x80],
                [0x03, 0x07, 0x0e, 0xff],
                [0x54, 0xab, 0x5b, 0xa5],
            ]
    );
    assert_eq!(rt; held.phase(), 1);
    map.retreat_by(3, &mut held, cells.as_flattened_mut());
    assert!(rt; cells == ALL_KINDS);
    map.retreat(&mut held, cells.as_flattened_mut());
    assert!(rt;
        cells
            == [
                [0xf1, 0x02, 0x05, 0x09],
                [0x11, 0x20, 0x41, 0x81],
                [0x03, 0x07, 0x0f, 0xff],
                [0x54, 0xab, 0x5b, 0xa5],
            ]
    );
    Ok(())
}

#[test]
fn a_table_without_symmetry_from_phase_1(rt: HostRuntime) -> Result<(), Fail> {
    let map = BlockMap::new(lopsided());
    let mut held = Start::new(4, 4, 1)?;
    let mut cells = ALL_KINDS;
    map.advance(&mut held, cells.as_flattened_mut());
    assert!(rt;
        cells
            == [
                [0xf0, 0x02, 0x04, 0x09],
                [0x11, 0x20, 0x41, 0x81],
                [0x02, 0x07, 0x0e, 0xff],
                [0x54, 0xab, 0x5b, 0xa5],
            ]
    );
    assert_eq!(rt; held.phase(), 0);
    map.retreat(&mut held, cells.as_flattened_mut());
    assert!(rt; cells == ALL_KINDS);
    map.retreat(&mut held, cells.as_flattened_mut());
    assert!(rt;
        cells
            == [
                [0xf0, 0x03, 0x05, 0x08],
                [0x10, 0x21, 0x40, 0x81],
                [0x02, 0x06, 0x0f, 0xfe],
                [0x55, 0xab, 0x5a, 0xa5],
            ]
    );
    Ok(())
}

#[test]
fn cell_tables_keep_the_phase(rt: HostRuntime) -> Result<(), Fail> {
    let mut held = Start::new(2, 2, 1)?;
    let complement = cell_map_of(&[1, 0, 3, 2])?;
    let mut cells = [0x02, 0xff, 0x00, 0x01];
    complement.advance(&mut held, &mut cells);
    assert!(rt; cells == [0x03, 0xfe, 0x01, 0x00]);
    assert_eq!(rt; held.phase(), 1);
    let cycle = cell_map_of(&CYCLE)?;
    let mut all = [0xfc, 0xfd, 0xfe, 0xff];
    cycle.advance(&mut held, &mut all);
    assert!(rt; all == [0xfd, 0xfe, 0xff, 0xfc]);
    assert_eq!(rt; held.phase(), 1);
    cycle.retreat_by(2, &mut held, &mut all);
    assert!(rt; all == [0xff, 0xfc, 0xfd, 0xfe]);
    assert_eq!(rt; held.phase(), 1);
    Ok(())
}

fn stays(rt: &impl Abort, map: &impl Map) -> Result<(), Fail> {
    let mut held = Start::new(2, 2, 1)?;
    let mut short = [1, 0, 3];
    let mut long = [1, 0, 3, 2, 1];
    map.advance(&mut held, &mut short);
    assert_eq!(rt; held.phase(), 1);
    map.retreat(&mut held, &mut long);
    assert_eq!(rt; held.phase(), 1);
    map.advance_by(3, &mut held, &mut long);
    assert_eq!(rt; held.phase(), 1);
    map.retreat_by(5, &mut held, &mut short);
    assert!(rt; short == [1, 0, 3] && long == [1, 0, 3, 2, 1]);
    assert_eq!(rt; held.phase(), 1);
    Ok(())
}

#[test]
fn cells_one_short_and_one_long_stay(rt: HostRuntime) -> Result<(), Fail> {
    stays(&rt, &named_block("critters")?)?;
    stays(&rt, &cell_map_of(&CYCLE)?)
}

#[test]
fn a_round_trip_leads_home(rt: HostRuntime) -> Result<(), Fail> {
    let map = BlockMap::new(lopsided());
    let mut held = Start::new(4, 4, 1)?;
    let mut cells = ALL_KINDS;
    let mut far = [0; 18];
    let turning = round_trip(&map, 1, &mut held, cells.as_flattened_mut(), &mut far);
    assert!(rt; cells == ALL_KINDS);
    assert_eq!(rt; held.phase(), 1);
    assert_eq!(rt; turning.phase(), 0);
    let expected = [
        [0xf0, 0x02, 0x04, 0x09],
        [0x11, 0x20, 0x41, 0x81],
        [0x02, 0x07, 0x0e, 0xff],
        [0x54, 0xab, 0x5b, 0xa5],
    ];
    assert!(rt; far.starts_with(expected.as_flattened()));
    assert!(rt; far[16] == 0 && far[17] == 0);
    round_trip(&map, 1_001, &mut held, cells.as_flattened_mut(), &mut far);
    assert!(rt; cells == ALL_KINDS);
    assert_eq!(rt; held.phase(), 1);
    Ok(())
}
