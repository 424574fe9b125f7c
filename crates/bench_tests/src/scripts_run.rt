//! Scripts that are run on a bench.
use bench::bench::Bench;
use faults::line_number::LineNumber;
use faults::report::Report;
use faults::run::RunFault;
use lattice::start::Start;
use named_maps::blocks::bbm;
use runs::run::run;
use std::test::Fail;

// Layer, number, line and field.
fn numbers(fault: RunFault) -> (u8, u8, usize, usize) {
    let report = Report::from(fault);
    (report.layer, report.number, report.line, report.field)
}

#[test]
fn a_script_is_run(rt: HostRuntime) -> Result<(), Fail> {
    let map = bbm();
    let mut cells = [1, 0, 0, 0];
    let bench = Bench::new(&map, Start::new(2, 2, 0)?);
    let text = b"step\t1\nopen\nflip\t0\t0\t1\nclose\nstep\t-1\n";
    let (bench, answer) = run(bench, &mut cells, text, LineNumber::first());
    assert_eq!(rt; answer, Ok(5));
    assert_eq!(rt; bench.counts(), (3, 0, 0, 0));
    // two balls that meet leave by the other corners
    assert!(rt; cells == [0, 1, 1, 0]);
    let (bench, answer) = run(bench, &mut cells, b"", LineNumber::first());
    assert_eq!(rt; answer, Ok(0));
    assert_eq!(rt; bench.counts(), (3, 0, 0, 0));
    Ok(())
}

#[test]
fn a_script_that_is_refused_in_session_leaves_no_flip(rt: HostRuntime) -> Result<(), Fail> {
    let map = bbm();
    let mut cells = [1, 0, 0, 0];
    let bench = Bench::new(&map, Start::new(2, 2, 0)?);
    let text = b"step\t1\nopen\nflip\t0\t0\t1\nflip\t2\t0\t1\nclose\nstep\t1\n";
    let (bench, answer) = run(bench, &mut cells, text, LineNumber::after(6));
    assert_eq!(rt; answer.err().map(numbers), Some((3, 15, 10, 0)));
    assert_eq!(rt; bench.counts(), (1, 0, 1, 1));
    assert!(rt; cells == [0, 0, 0, 1]);
    Ok(())
}

#[test]
fn the_records_before_a_refused_one_stay(rt: HostRuntime) -> Result<(), Fail> {
    let map = bbm();
    let mut cells = [1, 0, 0, 0];
    let bench = Bench::new(&map, Start::new(2, 2, 0)?);
    let (bench, answer) = run(
        bench,
        &mut cells,
        b"step\t1\nstep\t2\nundo\nstep\t0\nundo\n",
        LineNumber::first(),
    );
    assert_eq!(rt; answer.err().map(numbers), Some((3, 11, 4, 0)));
    assert_eq!(rt; bench.counts(), (1, 1, 1, 1));
    Ok(())
}

#[test]
fn nothing_is_made_of_a_text_with_a_fault(rt: HostRuntime) -> Result<(), Fail> {
    let map = bbm();
    let mut cells = [1, 0, 0, 0];
    let bench = Bench::new(&map, Start::new(2, 2, 0)?);
    let (bench, answer) = run(
        bench,
        &mut cells,
        b"step\t1\nstep\tx\n",
        LineNumber::first(),
    );
    assert_eq!(rt; answer.err().map(numbers), Some((1, 22, 2, 2)));
    let (bench, answer) = run(bench, &mut cells, b"step\t1\nopen\n", LineNumber::first());
    assert_eq!(rt; answer.err().map(numbers), Some((2, 26, 3, 0)));
    let (bench, answer) = run(bench, &mut cells[..3], b"nonsense", LineNumber::first());
    assert_eq!(rt; answer.err().map(numbers), Some((3, 10, 0, 0)));
    assert_eq!(rt; bench.counts(), (0, 0, 0, 0));
    assert!(rt; cells == [1, 0, 0, 0]);
    Ok(())
}
