//! Sessions and their flips.
use bench::bench::Bench;
use faults::run::BenchRefusal;
use lattice::start::Start;
use named_maps::blocks::bbm;
use std::test::Fail;

#[test]
fn a_session_stands_as_one_edit(rt: HostRuntime) -> Result<(), Fail> {
    let map = bbm();
    let mut cells = [0, 0, 0, 0];
    let bench = Bench::new(&map, Start::new(2, 2, 0)?);
    let mut session = bench.open();
    assert_eq!(rt; session.flip(0, 0, 1, &mut cells), Ok(0));
    assert_eq!(rt; session.flip(1, 1, 0xf2, &mut cells), Ok(0));
    assert_eq!(rt; session.flip(0, 0, 3, &mut cells), Ok(0));
    assert!(rt; cells == [2, 0, 0, 0xf2]);
    assert_eq!(rt; session.counts(), (0, 0, 0, 0));
    let mut bench = session.close();
    assert_eq!(rt; bench.counts(), (1, 0, 0, 0));
    assert_eq!(rt; bench.undo(&mut cells), Ok(0));
    assert!(rt; cells == [0, 0, 0, 0]);
    assert_eq!(rt; bench.redo(&mut cells), Ok(1));
    assert!(rt; cells == [2, 0, 0, 0xf2]);
    Ok(())
}

#[test]
fn an_empty_session_books_nothing_and_forgets_what_was_undone(rt: HostRuntime) -> Result<(), Fail> {
    let map = bbm();
    let mut cells = [1, 0, 0, 0];
    let mut bench = Bench::new(&map, Start::new(2, 2, 0)?);
    bench.step(1, &mut cells)?;
    bench.step(1, &mut cells)?;
    bench.undo(&mut cells)?;
    assert_eq!(rt; bench.counts(), (1, 1, 1, 1));
    let session = bench.open();
    assert_eq!(rt; session.counts(), (1, 0, 1, 1));
    let mut bench = session.close();
    assert_eq!(rt; bench.counts(), (1, 0, 1, 1));
    assert_eq!(rt; bench.redo(&mut cells), Err(BenchRefusal::NothingToRedo));
    Ok(())
}

#[test]
fn a_session_is_cleared_twice(rt: HostRuntime) -> Result<(), Fail> {
    let map = bbm();
    let mut cells = [5, 6, 7, 8];
    let mut session = Bench::new(&map, Start::new(2, 2, 1)?).open();
    session.flip(1, 0, 255, &mut cells)?;
    session.flip(1, 0, 9, &mut cells)?;
    assert_eq!(rt; session.clear(&mut cells), Ok(0));
    assert!(rt; cells == [5, 6, 7, 8]);
    assert_eq!(rt; session.clear(&mut cells), Ok(0));
    assert!(rt; cells == [5, 6, 7, 8]);
    assert_eq!(rt; session.close().counts(), (0, 0, 0, 1));
    Ok(())
}

#[test]
fn flips_are_refused_in_the_order_of_the_causes(rt: HostRuntime) -> Result<(), Fail> {
    let map = bbm();
    let mut cells = [0, 0, 0, 0];
    let mut session = Bench::new(&map, Start::new(2, 2, 0)?).open();
    for (col, row) in [(2, 0), (0, 2), (u32::MAX, 0), (0, u32::MAX)] {
        assert_eq!(rt;
            session.flip(col, row, 0, &mut cells),
            Err(BenchRefusal::OffLattice)
        );
    }
    for mask in [0, 256, u32::MAX] {
        assert_eq!(rt;
            session.flip(1, 1, mask, &mut cells),
            Err(BenchRefusal::Mask)
        );
    }
    assert_eq!(rt;
        session.flip(2, 2, 0, &mut cells[..3]),
        Err(BenchRefusal::Cells)
    );
    assert!(rt; cells == [0, 0, 0, 0]);
    assert_eq!(rt; session.close().counts(), (0, 0, 0, 0));
    Ok(())
}
