//! The layers, over maps without symmetry.
use crate::runs::{Run, cells_of, check_runs};
use block_map::map::BlockMap;
use cell_map::map::CellMap;
use lattice::map::Map;
use lattice::start::Start;
use layers::conjugate::Conjugate;
use layers::count::Count;
use layers::reverse::Reverse;
use layers::then::Then;
use layers::times::Times;
use lift::map::Lift;
use samples::cells::ALL_KINDS;
use samples::without_symmetry::{crooked, cycle, lopsided};
use std::test::Fail;

#[test]
fn one_map_and_then_another(rt: HostRuntime) -> Result<(), Fail> {
    let map = Then::new(BlockMap::new(lopsided()), Lift::new(crooked()));
    check_runs(
        &rt,
        &map,
        [
            Run {
                phase: 0,
                one: (1, [0xf0020609, 0x11204080, 0x00040ffc, 0x57a858a4]),
                three: (1, [0xf202040b, 0x11214382, 0x03070cfd, 0x57ab59a6]),
                back: (1, [0xf303070a, 0x13234183, 0x03070dfd, 0x55a85aa5]),
            },
            Run {
                phase: 1,
                one: (0, [0xf101050b, 0x12204282, 0x01070dff, 0x54ab5ba6]),
                three: (0, [0xf1000408, 0x12234281, 0x01050dfe, 0x57a959a6]),
                back: (0, [0xf302070b, 0x12234083, 0x02060cfc, 0x54a95ba5]),
            },
        ],
    )
}

#[test]
fn the_reverse_of_a_stack(rt: HostRuntime) -> Result<(), Fail> {
    let map = Reverse::new(Then::new(BlockMap::new(lopsided()), Lift::new(crooked())));
    check_runs(
        &rt,
        &map,
        [
            Run {
                phase: 0,
                one: (1, [0xf303070a, 0x13234183, 0x03070dfd, 0x55a85aa5]),
                three: (1, [0xf0010608, 0x12234382, 0x01070eff, 0x57a858a6]),
                back: (1, [0xf0020609, 0x11204080, 0x00040ffc, 0x57a858a4]),
            },
            Run {
                phase: 1,
                one: (0, [0xf302070b, 0x12234083, 0x02060cfc, 0x54a95ba5]),
                three: (0, [0xf1010408, 0x10234382, 0x00070cfd, 0x55a95aa7]),
                back: (0, [0xf101050b, 0x12204282, 0x01070dff, 0x54ab5ba6]),
            },
        ],
    )
}

#[test]
fn a_map_seen_through_another(rt: HostRuntime) -> Result<(), Fail> {
    let map = Conjugate::new(Lift::new(crooked()), CellMap::new(cycle()));
    check_runs(
        &rt,
        &map,
        [
            Run {
                phase: 0,
                one: (0, [0xf001060b, 0x12234281, 0x00040efc, 0x54a959a5]),
                three: (0, [0xf002070b, 0x13234381, 0x03040ffc, 0x56ab59a5]),
                back: (0, [0xf2000708, 0x11204381, 0x01050cff, 0x56aa58a7]),
            },
            Run {
                phase: 1,
                one: (1, [0xf001060b, 0x12234281, 0x00040efc, 0x54a959a5]),
                three: (1, [0xf002070b, 0x13234381, 0x03040ffc, 0x56ab59a5]),
                back: (1, [0xf2000708, 0x11204381, 0x01050cff, 0x56aa58a7]),
            },
        ],
    )
}

#[test]
fn three_times_and_no_time(rt: HostRuntime) -> Result<(), Fail> {
    let then = Then::new(BlockMap::new(lopsided()), Lift::new(crooked()));
    let mut held = Start::new(4, 4, 0)?;
    let mut cells = ALL_KINDS;
    Times::new(then, Count::new(3)?).advance(&mut held, cells.as_flattened_mut());
    assert!(rt; cells == cells_of([0xf202040b, 0x11214382, 0x03070cfd, 0x57ab59a6]));
    assert_eq!(rt; held.phase(), 1);
    Times::new(then, Count::new(0)?).advance(&mut held, cells.as_flattened_mut());
    assert!(rt; cells == cells_of([0xf202040b, 0x11214382, 0x03070cfd, 0x57ab59a6]));
    assert_eq!(rt; held.phase(), 1);
    Times::new(then, Count::new(0)?).retreat(&mut held, cells.as_flattened_mut());
    Times::new(then, Count::new(3)?).retreat(&mut held, cells.as_flattened_mut());
    assert!(rt; cells == ALL_KINDS);
    assert_eq!(rt; held.phase(), 0);
    Ok(())
}

#[test]
fn counts_up_to_a_thousand(rt: HostRuntime) -> Result<(), Fail> {
    assert_eq!(rt; Count::new(0)?.number(), 0);
    assert_eq!(rt; Count::new(1_000)?.number(), 1_000);
    assert_eq!(rt; Count::new(1_001).err().map(u8::from), Some(8));
    Ok(())
}
