//! Fields of texts, one after another, also of texts that no check would accept.
use faults::line_number::LineNumber;
use std::process::Abort;
use std::test::Fail;
use text::field::Field;
use text::line::Line;
use text::reader::Reader;

// The next field has these bytes and this place, and is ended by what is named: a tab, a newline or the end of the text.
fn next_is(
    rt: &impl Abort,
    reader: &mut Reader<'_>,
    bytes: &[u8],
    place: (usize, usize),
    end: &str,
) -> Result<(), Fail> {
    let field = reader.next_field().ok_or("there is no field")?;
    assert!(rt; *field.bytes() == *bytes);
    assert_eq!(rt; (field.place().line, field.place().field), place);
    assert_eq!(rt; end_of(field), end);
    Ok(())
}

#[test]
fn fields_of_finished_lines(rt: HostRuntime) -> Result<(), Fail> {
    let mut reader = Reader::new(b"ab\t\tc\n\n\t\nd\n", LineNumber::first());
    next_is(&rt, &mut reader, b"ab", (1, 1), "tab")?;
    assert_eq!(rt; reader.position(), 3);
    next_is(&rt, &mut reader, b"", (1, 2), "tab")?;
    next_is(&rt, &mut reader, b"c", (1, 3), "newline")?;
    assert_eq!(rt; reader.line(), 2);
    next_is(&rt, &mut reader, b"", (2, 1), "newline")?;
    next_is(&rt, &mut reader, b"", (3, 1), "tab")?;
    next_is(&rt, &mut reader, b"", (3, 2), "newline")?;
    next_is(&rt, &mut reader, b"d", (4, 1), "newline")?;
    assert!(rt; reader.next_field().is_none());
    assert!(rt; reader.next_field().is_none());
    assert_eq!(rt; reader.position(), 11);
    Ok(())
}

#[test]
fn fields_of_an_unfinished_line(rt: HostRuntime) -> Result<(), Fail> {
    let mut reader = Reader::new(b"a\nb\t", LineNumber::after(8));
    next_is(&rt, &mut reader, b"a", (9, 1), "newline")?;
    next_is(&rt, &mut reader, b"b", (10, 1), "tab")?;
    next_is(&rt, &mut reader, b"", (10, 2), "end")?;
    assert!(rt; reader.next_field().is_none());
    let mut empty = Reader::new(b"", LineNumber::first());
    assert!(rt; empty.next_field().is_none());
    Ok(())
}

#[test]
fn other_bytes_are_ordinary(rt: HostRuntime) -> Result<(), Fail> {
    let mut reader = Reader::new(b"\r\x00\xff\t\x0b \n", LineNumber::first());
    next_is(&rt, &mut reader, b"\r\x00\xff", (1, 1), "tab")?;
    next_is(&rt, &mut reader, b"\x0b ", (1, 2), "newline")?;
    Ok(())
}

// What ends a field.
fn end_of(field: Field<'_>) -> &'static str {
    match field {
        Field::Inner { .. } => "tab",
        Field::Last { .. } => "newline",
        Field::Unfinished { .. } => "end",
    }
}

// How many fields a line has; 0 stands for any number but 1, 2 and 4.
fn kind(line: Line<'_>) -> usize {
    match line {
        Line::One(_) => 1,
        Line::Two(_, _) => 2,
        Line::Four(_, _, _, _) => 4,
        Line::Other(_) => 0,
    }
}

#[test]
fn lines_by_the_number_of_their_fields(rt: HostRuntime) -> Result<(), Fail> {
    let mut reader = Reader::new(
        b"a\nb\tc\nd\te\tf\ng\th\ti\tj\nk\tl\tm\tn\to\tp\nq",
        LineNumber::first(),
    );
    let kinds: [(usize, &[u8]); 6] = [
        (1, b"a"),
        (2, b"b"),
        (0, b"d"),
        (4, b"g"),
        (0, b"k"),
        (1, b"q"),
    ];
    for (count, word) in kinds {
        let line = reader.next_line().ok_or("there is no line")?;
        assert_eq!(rt; kind(line), count);
        assert!(rt; *line.word().bytes() == *word);
    }
    assert!(rt; reader.next_line().is_none());
    Ok(())
}

#[test]
fn what_ends_the_fields_of_a_line(rt: HostRuntime) -> Result<(), Fail> {
    let mut reader = Reader::new(b"a\tb\nc\td\te\tf\ng\nh\ti\tj\nk\t", LineNumber::first());
    let ends: [(&str, &str); 5] = [
        ("tab", "newline"),
        ("tab", "newline"),
        ("newline", "newline"),
        ("tab", "tab"),
        ("tab", "end"),
    ];
    for (first, last) in ends {
        let line = reader.next_line().ok_or("there is no line")?;
        assert_eq!(rt; end_of(line.word()), first);
        let kept = match line {
            Line::One(field)
            | Line::Two(_, field)
            | Line::Four(_, _, _, field)
            | Line::Other(field) => field,
        };
        assert_eq!(rt; end_of(kept), last);
    }
    Ok(())
}

#[test]
fn numbers_of_fields(rt: HostRuntime) -> Result<(), Fail> {
    let cases: [(&[u8], Option<u32>, Option<i32>); 14] = [
        (b"0", Some(0), Some(0)),
        (b"7", Some(7), Some(7)),
        (b"10", Some(10), Some(10)),
        (b"999999", Some(999_999), Some(999_999)),
        (b"-1", None, Some(-1)),
        (b"-999999", None, Some(-999_999)),
        (b"-0", None, None),
        (b"-", None, None),
        (b"\t", None, None),
        (b"00", None, None),
        (b"-07", None, None),
        (b"1000000", None, None),
        (b"1a", None, None),
        (b"--1", None, None),
    ];
    for (bytes, number, signed) in cases {
        let mut reader = Reader::new(bytes, LineNumber::first());
        let field = reader.next_field().ok_or("there is no field")?;
        assert_eq!(rt; field.number().ok(), number);
        assert_eq!(rt; field.signed().ok(), signed);
    }
    Ok(())
}
