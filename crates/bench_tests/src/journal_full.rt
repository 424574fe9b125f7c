//! A journal that has no room left.
use bench::bench::Bench;
use faults::run::BenchRefusal;
use lattice::map::Map;
use lattice::start::Start;
use named_maps::blocks::bbm;
use std::test::Fail;

// Makes this many steps, by 1 and -1 in turn.
fn make_steps<M: Map>(bench: &mut Bench<'_, M>, count: u32, cells: &mut [u8]) -> Result<(), Fail> {
    for made in 0..count {
        bench.step(if made % 2 == 0 { 1 } else { -1 }, cells)?;
    }
    Ok(())
}

#[test]
fn entry_256_is_taken_and_the_next_is_not(rt: HostRuntime) -> Result<(), Fail> {
    let map = bbm();
    let mut cells = [1, 0, 0, 0];
    let mut bench = Bench::new(&map, Start::new(2, 2, 0)?);
    make_steps(&mut bench, 255, &mut cells)?;
    assert_eq!(rt; bench.counts(), (255, 0, 1, 1));
    assert_eq!(rt; bench.step(-1, &mut cells), Ok(256));
    assert_eq!(rt; bench.step(1, &mut cells), Err(BenchRefusal::JournalFull));
    // the count is checked first
    assert_eq!(rt; bench.step(0, &mut cells), Err(BenchRefusal::StepCount));
    assert_eq!(rt; bench.counts(), (256, 0, 0, 0));
    assert!(rt; cells == [1, 0, 0, 0]);
    assert_eq!(rt; bench.undo(&mut cells), Ok(255));
    assert_eq!(rt; bench.step(10_000, &mut cells), Ok(256));
    assert_eq!(rt; bench.step(1, &mut cells), Err(BenchRefusal::JournalFull));
    Ok(())
}

#[test]
fn flips_are_entries_too(rt: HostRuntime) -> Result<(), Fail> {
    let map = bbm();
    let mut cells = [0, 0, 0, 0];
    let mut bench = Bench::new(&map, Start::new(2, 2, 0)?);
    make_steps(&mut bench, 6, &mut cells)?;
    let mut session = bench.open();
    for made in 0..250u32 {
        assert_eq!(rt; session.flip(made % 2, made / 2 % 2, 1, &mut cells), Ok(6));
    }
    assert_eq!(rt;
        session.flip(0, 0, 1, &mut cells),
        Err(BenchRefusal::JournalFull)
    );
    let mut bench = session.close();
    assert_eq!(rt; bench.counts(), (7, 0, 0, 0));
    assert_eq!(rt; bench.step(1, &mut cells), Err(BenchRefusal::JournalFull));
    // undoing the edit frees all its entries
    assert_eq!(rt; bench.undo(&mut cells), Ok(6));
    assert_eq!(rt; bench.step(1, &mut cells), Ok(7));
    Ok(())
}
