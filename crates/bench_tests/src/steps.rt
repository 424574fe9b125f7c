//! Steps, undone and redone.
use bench::bench::Bench;
use faults::run::BenchRefusal;
use lattice::start::Start;
use named_maps::blocks::{bbm, critters};
use std::test::Fail;

#[test]
fn step_counts_at_their_limits(rt: HostRuntime) -> Result<(), Fail> {
    let map = bbm();
    let mut cells = [1, 0, 0, 0];
    let mut bench = Bench::new(&map, Start::new(2, 2, 0)?);
    for count in [0, 10_001, -10_001, i32::MAX, i32::MIN] {
        assert_eq!(rt; bench.step(count, &mut cells), Err(BenchRefusal::StepCount));
    }
    assert_eq!(rt; bench.counts(), (0, 0, 0, 0));
    assert!(rt; cells == [1, 0, 0, 0]);
    assert_eq!(rt; bench.step(10_000, &mut cells), Ok(1));
    assert_eq!(rt; bench.step(-10_000, &mut cells), Ok(2));
    assert_eq!(rt; bench.counts(), (2, 0, 0, 0));
    assert!(rt; cells == [1, 0, 0, 0]);
    Ok(())
}

#[test]
fn a_ball_goes_and_comes_back(rt: HostRuntime) -> Result<(), Fail> {
    let map = bbm();
    let mut cells = [1, 0, 0, 0];
    let mut bench = Bench::new(&map, Start::new(2, 2, 0)?);
    assert_eq!(rt; bench.undo(&mut cells), Err(BenchRefusal::NothingToUndo));
    assert_eq!(rt; bench.redo(&mut cells), Err(BenchRefusal::NothingToRedo));
    assert_eq!(rt; bench.step(1, &mut cells), Ok(1));
    assert!(rt; cells == [0, 0, 0, 1]);
    assert_eq!(rt; bench.counts(), (1, 0, 1, 1));
    assert_eq!(rt; bench.step(-3, &mut cells), Ok(2));
    assert!(rt; cells == [1, 0, 0, 0]);
    assert_eq!(rt; bench.counts(), (2, 0, -2, 0));
    assert_eq!(rt; bench.undo(&mut cells), Ok(1));
    assert!(rt; cells == [0, 0, 0, 1]);
    assert_eq!(rt; bench.counts(), (1, 1, 1, 1));
    // a step forgets what was undone
    assert_eq!(rt; bench.step(2, &mut cells), Ok(2));
    assert_eq!(rt; bench.redo(&mut cells), Err(BenchRefusal::NothingToRedo));
    assert_eq!(rt; bench.counts(), (2, 0, 3, 1));
    Ok(())
}

#[test]
fn all_is_undone_and_all_is_redone(rt: HostRuntime) -> Result<(), Fail> {
    let map = critters();
    let opening = [1, 0xf0, 3, 0, 1, 1, 0, 2];
    let mut cells = opening;
    let mut bench = Bench::new(&map, Start::new(4, 2, 1)?);
    for count in 1..=5 {
        bench.step(count, &mut cells)?;
    }
    let far = cells;
    for left in 0..5 {
        assert_eq!(rt; bench.undo(&mut cells), Ok(4 - left));
    }
    assert!(rt; cells == opening);
    assert_eq!(rt; bench.counts(), (0, 5, 0, 1));
    assert_eq!(rt; bench.undo(&mut cells), Err(BenchRefusal::NothingToUndo));
    for standing in 1..=5 {
        assert_eq!(rt; bench.redo(&mut cells), Ok(standing));
    }
    assert!(rt; cells == far);
    assert_eq!(rt; bench.counts(), (5, 0, 15, 0));
    assert_eq!(rt; bench.redo(&mut cells), Err(BenchRefusal::NothingToRedo));
    Ok(())
}

#[test]
fn one_map_stands_under_several_benches(rt: HostRuntime) -> Result<(), Fail> {
    let map = bbm();
    let mut first_cells = [1, 0, 0, 0];
    let mut second_cells = [0, 1, 0, 0];
    let mut first = Bench::new(&map, Start::new(2, 2, 0)?);
    let mut second = Bench::new(&map, Start::new(2, 2, 0)?);
    assert_eq!(rt; first.step(1, &mut first_cells), Ok(1));
    assert_eq!(rt; second.step(1, &mut second_cells), Ok(1));
    assert_eq!(rt; first.step(1, &mut first_cells), Ok(2));
    assert!(rt; first_cells == [1, 0, 0, 0]);
    assert!(rt; second_cells == [0, 0, 1, 0]);
    Ok(())
}

#[test]
fn each_cause_has_its_number(rt: HostRuntime) {
    let causes = [
        (BenchRefusal::Cells, 10),
        (BenchRefusal::StepCount, 11),
        (BenchRefusal::NothingToUndo, 12),
        (BenchRefusal::NothingToRedo, 13),
        (BenchRefusal::OffLattice, 15),
        (BenchRefusal::Mask, 16),
        (BenchRefusal::JournalFull, 17),
    ];
    for (cause, number) in causes {
        assert_eq!(rt; u8::from(cause), number);
    }
}
