//! Texts at the limit of their length.
use boards::check::check_board;
use faults::line_number::LineNumber;
use faults::record::RecordFault;
use scripts::check::check;
use std::test::Fail;

// 65,536 bytes: `undo` 13,101 times, and then 31 more bytes.
fn long_text(rt: &HostRuntime) -> Result<Vec<u8>, Fail> {
    let mut text = Vec::new(rt.alloc());
    for _ in 0..13_101 {
        text.extend_from_slice(b"undo\n")?;
    }
    text.extend_from_slice(b"open\nclear\nclose\nstep\t1\nstep\t2\n")?;
    Ok(text)
}

#[test]
fn the_longest_script_passes(rt: HostRuntime) -> Result<(), Fail> {
    let text = long_text(&rt)?;
    assert_eq!(rt; text.len(), 65_536);
    assert_eq!(rt; check(&text, LineNumber::first()).ok(), Some(13_106));
    Ok(())
}

#[test]
fn one_byte_more_is_refused(rt: HostRuntime) -> Result<(), Fail> {
    let mut text = long_text(&rt)?;
    text.extend_from_slice(b"\n")?;
    assert_eq!(rt; text.len(), 65_537);
    assert_eq!(rt;
        check(&text, LineNumber::first()).err(),
        Some(RecordFault::TooLong)
    );
    assert_eq!(rt;
        check_board(&text, LineNumber::first()).err(),
        Some(RecordFault::TooLong)
    );
    Ok(())
}

// Far more than the limit, and nothing in it is a record.
#[test]
fn length_is_told_before_all_else(rt: HostRuntime) -> Result<(), Fail> {
    let mut text = Vec::new(rt.alloc());
    for _ in 0..100_000 {
        text.push(b'x')?;
    }
    assert_eq!(rt;
        check(&text, LineNumber::first()).err(),
        Some(RecordFault::TooLong)
    );
    Ok(())
}

// A fault on the last line of a long text.
#[test]
fn the_last_line_counts(rt: HostRuntime) -> Result<(), Fail> {
    let mut text = long_text(&rt)?;
    text.truncate(65_536 - 7);
    text.extend_from_slice(b"step\tx\n")?;
    assert_eq!(rt; text.len(), 65_536);
    let report = check(&text, LineNumber::first())
        .err()
        .map(faults::report::Report::from);
    assert_eq!(rt;
        report.map(|r| (r.layer, r.number, r.line, r.field)),
        Some((1, 22, 13_106, 2))
    );
    Ok(())
}
