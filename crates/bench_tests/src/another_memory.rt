//! Calls with a memory that is too short or too long.
use bench::bench::Bench;
use faults::run::BenchRefusal;
use lattice::start::Start;
use named_maps::blocks::bbm;
use std::test::Fail;

#[test]
fn cells_one_short_and_one_long_are_refused(rt: HostRuntime) -> Result<(), Fail> {
    let map = bbm();
    let refused = Err(BenchRefusal::Cells);
    let mut cells = [1, 0, 0, 0];
    let mut short = [1, 2, 3];
    let mut long = [1, 2, 3, 4, 5];
    let mut bench = Bench::new(&map, Start::new(2, 2, 0)?);
    bench.step(1, &mut cells)?;
    bench.step(1, &mut cells)?;
    bench.undo(&mut cells)?;
    assert_eq!(rt; bench.step(1, &mut short), refused);
    assert_eq!(rt; bench.step(0, &mut long), refused);
    assert_eq!(rt; bench.undo(&mut short), refused);
    assert_eq!(rt; bench.undo(&mut long), refused);
    assert_eq!(rt; bench.redo(&mut short), refused);
    assert_eq!(rt; bench.redo(&mut long), refused);
    assert_eq!(rt; bench.counts(), (1, 1, 1, 1));
    let mut session = bench.open();
    session.flip(0, 0, 1, &mut cells)?;
    assert_eq!(rt; session.flip(0, 0, 1, &mut short), refused);
    assert_eq!(rt; session.flip(9, 9, 0, &mut long), refused);
    assert_eq!(rt; session.clear(&mut short), refused);
    assert_eq!(rt; session.clear(&mut long), refused);
    assert_eq!(rt; session.close().counts(), (2, 0, 1, 1));
    assert!(rt; short == [1, 2, 3]);
    assert!(rt; long == [1, 2, 3, 4, 5]);
    assert!(rt; cells == [1, 0, 0, 1]);
    Ok(())
}
