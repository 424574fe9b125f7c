//! What a run checks before its first record.
use faults::line_number::LineNumber;
use faults::report::Report;
use lattice::start::Start;
use scripts::run::check_run;
use std::test::Fail;

fn fault(start: &Start, cells: &[u8], text: &[u8]) -> Option<(u8, u8, usize, usize)> {
    let report = Report::from(check_run(start, cells, text, LineNumber::first()).err()?);
    Some((report.layer, report.number, report.line, report.field))
}

#[test]
fn cells_are_asked_for_first(rt: HostRuntime) -> Result<(), Fail> {
    let start = Start::new(2, 2, 0)?;
    assert_eq!(rt;
        check_run(&start, &[0; 4], b"undo\n", LineNumber::first()).ok(),
        Some(1)
    );
    assert_eq!(rt; fault(&start, &[0; 3], b"undo\n"), Some((3, 10, 0, 0)));
    assert_eq!(rt; fault(&start, &[0; 5], b"nonsense"), Some((3, 10, 0, 0)));
    // the fault of a field is reported as it is
    assert_eq!(rt;
        fault(&start, &[0; 4], b"undo\nstep\tx\n"),
        Some((1, 22, 2, 2))
    );
    assert_eq!(rt;
        fault(&start, &[0; 4], b"undo\nopen\n"),
        Some((2, 26, 3, 0))
    );
    Ok(())
}
