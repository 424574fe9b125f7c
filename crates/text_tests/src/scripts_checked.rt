//! Scripts: how many records they have, or their first fault.
use faults::line_number::LineNumber;
use faults::report::Report;
use scripts::check::check;
use scripts::record::Record;
use scripts::records::Records;
use scripts::state::State;
use std::process::Abort;
use std::test::Fail;

// Layer, number, line and field of the fault.
fn fault(text: &[u8], first_line: u32) -> Option<(u8, u8, usize, usize)> {
    let lines_before = first_line.checked_sub(1)?;
    let report = Report::from(check(text, LineNumber::after(lines_before)).err()?);
    Some((report.layer, report.number, report.line, report.field))
}

#[test]
fn scripts_that_are_accepted(rt: HostRuntime) {
    let cases: [(&[u8], usize); 10] = [
        (b"", 0),
        (b"undo\n", 1),
        (b"step\t1\nstep\t-1\n", 2),
        (b"step\t0\nstep\t999999\nstep\t-999999\n", 3),
        (b"undo\nredo\nundo\n", 3),
        (b"open\nclose\n", 2),
        (b"open\nflip\t0\t0\t1\nclear\nclose\nundo\n", 5),
        (b"open\nflip\t999999\t0\t999999\nclose\n", 3),
        (b"open\nclear\nclear\nclose\nopen\nclose\n", 6),
        (
            b"step\t10\nopen\nflip\t7\t12\t255\nflip\t0\t10\t0\nclose\nstep\t-3\n",
            6,
        ),
    ];
    for (text, count) in cases {
        assert_eq!(rt; check(text, LineNumber::first()).ok(), Some(count));
    }
}

#[test]
fn faults_of_words_and_counts(rt: HostRuntime) {
    let cases: [(&[u8], (u8, u8, usize, usize)); 22] = [
        // no newline at the end
        (b"u", (2, 21, 1, 0)),
        (b"undo", (2, 21, 1, 0)),
        (b"step\t", (2, 21, 1, 0)),
        (b"nonsense", (2, 21, 1, 0)),
        // unknown words
        (b"\n", (2, 23, 1, 1)),
        (b"\tundo\n", (2, 23, 1, 1)),
        (b"Undo\n", (2, 23, 1, 1)),
        (b"undo \n", (2, 23, 1, 1)),
        (b"undo\r\n", (2, 23, 1, 1)),
        (b"und\n", (2, 23, 1, 1)),
        (b"undoo\n", (2, 23, 1, 1)),
        (b"undo\x00\n", (2, 23, 1, 1)),
        (b"\xc3\xa9\n", (2, 23, 1, 1)),
        (b"step 1\n", (2, 23, 1, 1)),
        (b"board\t2\t2\t0\n", (2, 23, 1, 1)),
        // wrong numbers of fields
        (b"step\n", (2, 24, 1, 0)),
        (b"step\t1\t2\n", (2, 24, 1, 0)),
        (b"undo\t\n", (2, 24, 1, 0)),
        (b"step\t1\t\n", (2, 24, 1, 0)),
        (b"flip\t1\t2\n", (2, 24, 1, 0)),
        (b"flip\t1\t2\t3\t4\n", (2, 24, 1, 0)),
        (b"close\tx\n", (2, 24, 1, 0)),
    ];
    for (text, numbers) in cases {
        assert_eq!(rt; fault(text, 1), Some(numbers));
    }
}

#[test]
fn faults_of_states_and_numbers(rt: HostRuntime) {
    let cases: [(&[u8], (u8, u8, usize, usize)); 12] = [
        // not permitted
        (b"close\n", (2, 25, 1, 0)),
        (b"clear\n", (2, 25, 1, 0)),
        (b"flip\t0\t0\t1\n", (2, 25, 1, 0)),
        (b"flip\tx\ty\tz\n", (2, 25, 1, 0)),
        // fields that are not numbers
        (b"step\t\n", (1, 22, 1, 2)),
        (b"step\t01\n", (1, 22, 1, 2)),
        (b"step\t-0\n", (1, 22, 1, 2)),
        (b"step\t-\n", (1, 22, 1, 2)),
        (b"step\t+1\n", (1, 22, 1, 2)),
        (b"step\t1000000\n", (1, 22, 1, 2)),
        (b"step\t1\r\n", (1, 22, 1, 2)),
        (b"step\t\xb2\n", (1, 22, 1, 2)),
    ];
    for (text, numbers) in cases {
        assert_eq!(rt; fault(text, 1), Some(numbers));
    }
}

#[test]
fn faults_below_other_lines(rt: HostRuntime) {
    let cases: [(&[u8], u32, (u8, u8, usize, usize)); 19] = [
        (b"undo\nredo\nundo", 1, (2, 21, 3, 0)),
        (b"undo\n\nredo", 1, (2, 21, 3, 0)),
        (b"undo\n\n", 1, (2, 23, 2, 1)),
        (b"undo\nstep\t5\nwait\n", 1, (2, 23, 3, 1)),
        (b"undo\nstep\t5\nstep\n", 1, (2, 24, 3, 0)),
        (b"open\nstep\t5\n", 1, (2, 25, 2, 0)),
        (b"open\nundo\n", 1, (2, 25, 2, 0)),
        (b"open\nredo\n", 1, (2, 25, 2, 0)),
        (b"open\nopen\n", 1, (2, 25, 2, 0)),
        (b"open\nclose\nclose\n", 1, (2, 25, 3, 0)),
        (b"open\nflip\t0\t00\tx\n", 1, (1, 22, 2, 3)),
        (b"open\nflip\t-1\t0\t1\n", 1, (1, 22, 2, 2)),
        (b"open\nflip\t0\t0\t-1\n", 1, (1, 22, 2, 4)),
        (b"open\nflip\t0\t0\t1\nclose\nstep\t1x\n", 1, (1, 22, 4, 2)),
        // the text ends in session
        (b"open\n", 1, (2, 26, 2, 0)),
        (b"undo\nopen\nflip\t0\t0\t1\n", 1, (2, 26, 4, 0)),
        // the first of several
        (b"step\nwait\n", 1, (2, 24, 1, 0)),
        (b"undo\nwait\n", 7, (2, 23, 8, 1)),
        (b"open\n", 4_294_967_295, (2, 26, 4_294_967_296, 0)),
    ];
    for (text, first_line, numbers) in cases {
        assert_eq!(rt; fault(text, first_line), Some(numbers));
    }
}

// The next record is this one.
fn next_is(rt: &impl Abort, records: &mut Records<'_>, record: Record) -> Result<(), Fail> {
    assert_eq!(rt; records.next_record()?, Some(record));
    Ok(())
}

#[test]
fn records_come_one_after_another(rt: HostRuntime) -> Result<(), Fail> {
    let text = b"step\t-12\nundo\nopen\nflip\t3\t250\t9\nclear\nclose\nredo\n";
    let mut records = Records::new(text, LineNumber::after(4));
    next_is(&rt, &mut records, Record::Step(-12))?;
    assert_eq!(rt; records.line(), 6);
    next_is(&rt, &mut records, Record::Undo)?;
    assert_eq!(rt; records.state(), State::Rest);
    next_is(&rt, &mut records, Record::Open)?;
    assert_eq!(rt; records.state(), State::Session);
    let flip = Record::Flip {
        col: 3,
        row: 250,
        mask: 9,
    };
    next_is(&rt, &mut records, flip)?;
    next_is(&rt, &mut records, Record::Clear)?;
    next_is(&rt, &mut records, Record::Close)?;
    next_is(&rt, &mut records, Record::Redo)?;
    assert_eq!(rt; records.line(), 12);
    assert_eq!(rt; records.next_record()?, None);
    assert_eq!(rt; records.next_record()?, None);
    Ok(())
}

// A record that is refused is read again.
#[test]
fn a_fault_leaves_the_records_where_they_are(rt: HostRuntime) -> Result<(), Fail> {
    let mut records = Records::new(b"undo\nclose\nundo\n", LineNumber::first());
    next_is(&rt, &mut records, Record::Undo)?;
    for _again in 0..2 {
        let report = records.next_record().err().map(Report::from);
        assert_eq!(rt; report.map(|r| (r.number, r.line)), Some((25, 2)));
    }
    assert_eq!(rt; records.line(), 2);
    Ok(())
}
