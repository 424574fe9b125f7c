//! The map, the rule and the stacks of the crate `row_shift`, worked out by hand.
use lattice::map::Map;
use lattice::start::Start;
use row_shift::map::RowShift;
use row_shift::stacks::{drift_by, staggered_round_trip};
use row_shift::wind::blow;
use std::test::Fail;

#[test]
fn rows_go_east_and_west(rt: HostRuntime) -> Result<(), Fail> {
    let map = RowShift::new();
    let mut held = Start::new(4, 2, 1)?;
    let mut cells = [1, 2, 3, 4, 0xf5, 6, 7, 0xf8];
    map.advance(&mut held, &mut cells);
    assert!(rt; cells == [4, 1, 2, 3, 0xf8, 0xf5, 6, 7]);
    assert_eq!(rt; held.phase(), 1);
    map.retreat_by(2, &mut held, &mut cells);
    assert!(rt; cells == [2, 3, 4, 1, 6, 7, 0xf8, 0xf5]);
    assert_eq!(rt; held.phase(), 1);
    Ok(())
}

// Here east and west are the same cell.
#[test]
fn rows_of_two_change_ends(rt: HostRuntime) -> Result<(), Fail> {
    let map = RowShift::new();
    let mut held = Start::new(2, 2, 0)?;
    let mut cells = [1, 2, 3, 0xff];
    map.advance(&mut held, &mut cells);
    assert!(rt; cells == [2, 1, 0xff, 3]);
    map.retreat(&mut held, &mut cells);
    assert!(rt; cells == [1, 2, 3, 0xff]);
    let mut short = [1, 2, 3];
    map.advance(&mut held, &mut short);
    map.retreat_by(2, &mut held, &mut short);
    assert!(rt; short == [1, 2, 3]);
    Ok(())
}

#[test]
fn the_wind_blows_from_the_west(rt: HostRuntime) -> Result<(), Fail> {
    let mut held = Start::new(4, 2, 0)?;
    let mut cells = [0, 1, 0, 0, 0, 0, 0, 0];
    blow(1, &mut held, &mut cells);
    assert!(rt; cells == [0, 0, 2, 1, 0, 0, 0, 0]);
    assert_eq!(rt; held.phase(), 0);
    Ok(())
}

#[test]
fn blocks_in_a_moving_frame(rt: HostRuntime) -> Result<(), Fail> {
    let mut held = Start::new(4, 2, 0)?;
    let mut cells = [1, 0, 0, 0, 0, 0, 0, 0];
    drift_by("bbm".parse()?, 1, &mut held, &mut cells);
    assert!(rt; cells == [0, 0, 0, 0, 1, 0, 0, 0]);
    assert_eq!(rt; held.phase(), 1);
    Ok(())
}

#[test]
fn staggered_blocks_out_and_home(rt: HostRuntime) -> Result<(), Fail> {
    let mut held = Start::new(4, 2, 0)?;
    let mut cells = [1, 0, 0, 0, 0, 0, 0, 0];
    let mut far = [0; 8];
    let turning = staggered_round_trip("bbm".parse()?, 1, &mut held, &mut cells, &mut far);
    assert!(rt; far == [0, 0, 0, 0, 0, 0, 0, 1]);
    assert_eq!(rt; turning.phase(), 1);
    assert!(rt; cells == [1, 0, 0, 0, 0, 0, 0, 0]);
    assert_eq!(rt; held.phase(), 0);
    Ok(())
}
