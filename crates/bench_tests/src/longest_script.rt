//! The longest script that a bench can write.
use bench::bench::Bench;
use faults::line_number::LineNumber;
use lattice::map::Map;
use lattice::start::Start;
use named_maps::mixed::mixed;
use reverse_script::refusal::ScriptRefusal;
use runs::run::run;
use std::test::Fail;

const LONGEST: usize = 7168;

const CELLS: usize = 128 * 128;

// Fills the journal with the edits whose text is longest.
fn make_edits<'m, M: Map>(bench: Bench<'m, M>, cells: &mut [u8]) -> Result<Bench<'m, M>, Fail> {
    let mut bench = bench;
    for made in 0..256u32 {
        let mut session = bench.open();
        session.flip(100 + made % 28, 127 - made % 25, 100 + made % 156, cells)?;
        bench = session.close();
    }
    Ok(bench)
}

// The first `len` bytes, or all where there are fewer.
fn front(bytes: &[u8], len: usize) -> &[u8] {
    let end = len.min(bytes.len());
    &bytes[..end]
}

#[test]
fn the_longest_script_is_written_read_back_and_run(rt: HostRuntime) -> Result<(), Fail> {
    let map = mixed();
    let start = Start::new(128, 128, 1)?;
    let mut cells = [0x51; CELLS];
    let bench = make_edits(Bench::new(&map, start), &mut cells)?;
    assert_eq!(rt; bench.counts(), (256, 0, 0, 1));
    let mut short = [b'.'; LONGEST - 1];
    assert_eq!(rt;
        bench.reverse_script(&mut short),
        Err(ScriptRefusal::MemoryTooShort)
    );
    assert!(rt; short == [b'.'; LONGEST - 1]);
    let mut script = [b'.'; LONGEST + 1];
    assert_eq!(rt; bench.reverse_script(&mut script), Ok(LONGEST));
    assert!(rt; script[LONGEST] == b'.');
    assert!(rt; front(&script, 28) == b"open\nflip\t103\t122\t199\nclose\n".as_slice());
    let third = Bench::new(&map, bench.start());
    let (third, answer) = run(
        third,
        &mut cells,
        front(&script, LONGEST),
        LineNumber::first(),
    );
    assert_eq!(rt; answer, Ok(768));
    assert_eq!(rt; third.counts(), (256, 0, 0, 1));
    assert!(rt; cells == [0x51; CELLS]);
    Ok(())
}

#[test]
fn a_bench_that_did_nothing_writes_nothing(rt: HostRuntime) -> Result<(), Fail> {
    let map = mixed();
    let bench = Bench::new(&map, Start::new(2, 2, 0)?);
    assert_eq!(rt; bench.reverse_script(&mut []), Ok(0));
    assert_eq!(rt; u8::from(ScriptRefusal::MemoryTooShort), 30);
    Ok(())
}
