//! The named maps.
use crate::runs::{Run, check_runs};
use lattice::map::Map;
use lattice::start::Start;
use named_maps::blocks::{bbm, critters, tron};
use named_maps::examples::examples_come_out;
use named_maps::life2::life2;
use named_maps::mixed::mixed;
use named_maps::named::NamedMap;
use samples::openings::OPENINGS;
use samples::outcome::Outcome;
use std::process::Abort;
use std::test::Fail;

#[test]
fn life_lifted(rt: HostRuntime) -> Result<(), Fail> {
    let map = life2();
    check_runs(
        &rt,
        &map,
        [
            Run {
                phase: 0,
                one: (0, [0xf300040b, 0x10234080, 0x03060cfe, 0x56a958a4]),
                three: (0, [0xf103060b, 0x10214083, 0x01040cff, 0x56aa58a6]),
                back: (0, [0xf203060a, 0x10224082, 0x01070dfd, 0x56a959a4]),
            },
            Run {
                phase: 1,
                one: (1, [0xf300040b, 0x10234080, 0x03060cfe, 0x56a958a4]),
                three: (1, [0xf103060b, 0x10214083, 0x01040cff, 0x56aa58a6]),
                back: (1, [0xf203060a, 0x10224082, 0x01070dfd, 0x56a959a4]),
            },
        ],
    )
}

#[test]
fn a_mixed_stack(rt: HostRuntime) -> Result<(), Fail> {
    let map = mixed();
    check_runs(
        &rt,
        &map,
        [
            Run {
                phase: 0,
                one: (1, [0xf1030508, 0x11204282, 0x03050dfd, 0x55ab58a6]),
                three: (1, [0xf1020508, 0x10234383, 0x02060cff, 0x54a85aa4]),
                back: (1, [0xf0030509, 0x10214082, 0x02060efc, 0x57aa58a6]),
            },
            Run {
                phase: 1,
                one: (0, [0xf0000408, 0x13224083, 0x03060cfd, 0x54ab5ba6]),
                three: (0, [0xf1010509, 0x10224181, 0x02070cff, 0x55ab5ba7]),
                back: (0, [0xf0030408, 0x11224280, 0x00040cff, 0x54ab58a4]),
            },
        ],
    )
}

// A block of four cells, each with these bits.
fn block(bits: u8) -> [[u8; 4]; 4] {
    [[bits, bits, 0, 0], [bits, bits, 0, 0], [0; 4], [0; 4]]
}

// The block of present cells after `steps` moves; the phase stays.
fn block_after(rt: &impl Abort, steps: u32, phase: u32) -> Result<[[u8; 4]; 4], Fail> {
    let mut held = Start::new(4, 4, phase)?;
    let mut cells = block(1);
    life2().advance_by(steps, &mut held, cells.as_flattened_mut());
    assert_eq!(rt; u32::from(held.phase()), phase);
    Ok(cells)
}

#[test]
fn a_block_under_the_lift_of_life(rt: HostRuntime) -> Result<(), Fail> {
    for phase in 0..2u32 {
        assert!(rt; block_after(&rt, 1, phase)? == block(3));
        assert!(rt; block_after(&rt, 2, phase)? == block(2));
        assert!(rt; block_after(&rt, 3, phase)? == block(1));
    }
    Ok(())
}

#[test]
fn worked_examples_run(rt: HostRuntime) {
    assert!(rt; examples_come_out());
}

// Two by two cells after one move forward and after one back. Both turn the phase.
fn moved(rt: &impl Abort, map: &impl Map, cells: [u8; 4]) -> Result<([u8; 4], [u8; 4]), Fail> {
    let (mut ahead, mut behind) = (cells, cells);
    let mut held = Start::new(2, 2, 0)?;
    map.advance(&mut held, &mut ahead);
    assert_eq!(rt; held.phase(), 1);
    held = Start::new(2, 2, 0)?;
    map.retreat(&mut held, &mut behind);
    assert_eq!(rt; held.phase(), 1);
    Ok((ahead, behind))
}

#[test]
fn block_maps_by_their_names(rt: HostRuntime) -> Result<(), Fail> {
    let (ahead, behind) = moved(&rt, &bbm(), [1, 0, 0, 0])?;
    assert!(rt; ahead == [0, 0, 0, 1] && behind == [0, 0, 0, 1]);
    let (ahead, behind) = moved(&rt, &critters(), [1, 0, 0, 0])?;
    assert!(rt; ahead == [0, 1, 1, 1] && behind == [1, 1, 1, 0]);
    let (ahead, behind) = moved(&rt, &tron(), [0, 2, 4, 8])?;
    assert!(rt; ahead == [1, 3, 5, 9] && behind == [1, 3, 5, 9]);
    let (ahead, behind) = moved(&rt, &NamedMap::Critters, [1, 0, 0, 0])?;
    assert!(rt; ahead == [0, 1, 1, 1] && behind == [1, 1, 1, 0]);
    Ok(())
}

// The map that a call makes treats the sample as the choice with its name does, which `map_vectors` compares with the model.
fn as_chosen(rt: &(impl Abort + Alloc), map: &impl Map, choice: NamedMap) -> Result<(), Fail> {
    for (width, height, phase) in OPENINGS {
        let opening = Start::new(width, height, phase)?;
        let outcome = Outcome::of(map, opening, &rt.alloc())?;
        assert!(rt; outcome == Outcome::of(&choice, opening, &rt.alloc())?);
        assert!(rt; outcome.home);
    }
    Ok(())
}

#[test]
fn calls_and_choices_are_the_same_maps(rt: HostRuntime) -> Result<(), Fail> {
    as_chosen(&rt, &bbm(), NamedMap::Bbm)?;
    as_chosen(&rt, &critters(), NamedMap::Critters)?;
    as_chosen(&rt, &tron(), NamedMap::Tron)?;
    as_chosen(&rt, &life2(), NamedMap::Life2)?;
    as_chosen(&rt, &mixed(), NamedMap::Mixed)
}
