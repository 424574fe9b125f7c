//! The lift, of an outer totalistic rule and of one without symmetry.
use crate::runs::{Run, check_runs};
use lattice::map::Map;
use lattice::start::Start;
use lift::map::Lift;
use rules::count::CountRule;
use samples::without_symmetry::crooked;
use std::test::Fail;

#[test]
fn a_rule_that_counts(rt: HostRuntime) -> Result<(), Fail> {
    let map = Lift::new(CountRule::new(74, 300)?);
    check_runs(
        &rt,
        &map,
        [
            Run {
                phase: 0,
                one: (0, [0xf300040b, 0x11234080, 0x03060cfe, 0x57a958a4]),
                three: (0, [0xf1010609, 0x11204080, 0x02070cfc, 0x56ab59a5]),
                back: (0, [0xf2030608, 0x10224082, 0x01070dfd, 0x56ab5ba4]),
            },
            Run {
                phase: 1,
                one: (1, [0xf300040b, 0x11234080, 0x03060cfe, 0x57a958a4]),
                three: (1, [0xf1010609, 0x11204080, 0x02070cfc, 0x56ab59a5]),
                back: (1, [0xf2030608, 0x10224082, 0x01070dfd, 0x56ab5ba4]),
            },
        ],
    )
}

#[test]
fn a_rule_without_symmetry(rt: HostRuntime) -> Result<(), Fail> {
    let map = Lift::new(crooked());
    check_runs(
        &rt,
        &map,
        [
            Run {
                phase: 0,
                one: (0, [0xf301050a, 0x11234080, 0x02060cff, 0x56a859a4]),
                three: (0, [0xf001070b, 0x10214082, 0x00050ffe, 0x56aa5ba5]),
                back: (0, [0xf203060a, 0x12224082, 0x03070dfd, 0x54a95ba4]),
            },
            Run {
                phase: 1,
                one: (1, [0xf301050a, 0x11234080, 0x02060cff, 0x56a859a4]),
                three: (1, [0xf001070b, 0x10214082, 0x00050ffe, 0x56aa5ba5]),
                back: (1, [0xf203060a, 0x12224082, 0x03070dfd, 0x54a95ba4]),
            },
        ],
    )
}

// Here a cell has some of its neighbours on both sides.
#[test]
fn on_a_side_of_two(rt: HostRuntime) -> Result<(), Fail> {
    let map = Lift::new(crooked());
    let mut held = Start::new(2, 2, 0)?;
    let mut small = [0xf1, 0x02, 0x10, 0x21];
    map.advance(&mut held, &mut small);
    assert!(rt; small == [0xf2, 0x00, 0x11, 0x22]);
    map.advance_by(2, &mut held, &mut small);
    assert!(rt; small == [0xf2, 0x01, 0x11, 0x20]);
    map.retreat_by(4, &mut held, &mut small);
    assert!(rt; small == [0xf0, 0x01, 0x10, 0x22]);
    let mut held = Start::new(2, 4, 0)?;
    let mut narrow = [0xf1, 0x02, 0x10, 0x21, 0x03, 0x07, 0x55, 0xaa];
    map.advance(&mut held, &mut narrow);
    assert!(rt; narrow == [0xf3, 0x01, 0x11, 0x23, 0x03, 0x07, 0x57, 0xa8]);
    map.advance_by(2, &mut held, &mut narrow);
    assert!(rt; narrow == [0xf2, 0x01, 0x10, 0x23, 0x02, 0x04, 0x57, 0xaa]);
    map.retreat_by(4, &mut held, &mut narrow);
    assert!(rt; narrow == [0xf2, 0x03, 0x12, 0x22, 0x03, 0x07, 0x54, 0xab]);
    Ok(())
}

#[test]
fn cells_one_short_and_one_long_stay(rt: HostRuntime) -> Result<(), Fail> {
    let map = Lift::new(crooked());
    let mut held = Start::new(2, 2, 1)?;
    let mut short = [1, 2, 3];
    let mut long = [1, 0, 3, 2, 1];
    map.advance(&mut held, &mut short);
    assert_eq!(rt; held.phase(), 1);
    map.retreat(&mut held, &mut long);
    assert_eq!(rt; held.phase(), 1);
    assert!(rt; short == [1, 2, 3] && long == [1, 0, 3, 2, 1]);
    Ok(())
}
