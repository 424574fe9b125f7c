//! Boards that are read: what is returned, and what the memory holds.
use boards::check::check_board;
use boards::read::read_board;
use faults::line_number::LineNumber;
use faults::report::Report;
use lattice::start::Start;
use std::process::Abort;
use std::test::Fail;

const BOARD: &[u8] = b"board\t4\t2\t1\nrow\t00010203\nrow\tf0a5ff7e\n";

#[test]
fn a_board_fills_its_cells_and_no_more(rt: HostRuntime) -> Result<(), Fail> {
    let mut cells = [9; 10];
    let (start, len) = read_board(BOARD, LineNumber::first(), &mut cells)?;
    assert_eq!(rt; start, Start::new(4, 2, 1)?);
    assert_eq!(rt; len, 38);
    assert_eq!(rt; cells, [0, 1, 2, 3, 240, 165, 255, 126, 9, 9]);
    let mut exact = [9; 8];
    read_board(BOARD, LineNumber::first(), &mut exact)?;
    assert_eq!(rt; exact, [0, 1, 2, 3, 240, 165, 255, 126]);
    Ok(())
}

#[test]
fn text_may_follow(rt: HostRuntime) -> Result<(), Fail> {
    let text = b"board\t2\t2\t0\nrow\t0100\nrow\t0000\nstep\t1\nnonsense\n";
    let mut cells = [9; 4];
    let (start, len) = read_board(text, LineNumber::first(), &mut cells)?;
    assert_eq!(rt; start, Start::new(2, 2, 0)?);
    assert_eq!(rt; len, 30);
    assert_eq!(rt; cells, [1, 0, 0, 0]);
    Ok(())
}

// Layer, number, line and field of the fault. The memory is as it was.
fn fault(
    rt: &impl Abort,
    text: &[u8],
    first_line: u32,
    room: usize,
) -> Option<(u8, u8, usize, usize)> {
    let mut memory = [5; 9];
    let lent = memory.get_mut(..room)?;
    let lines_before = first_line.checked_sub(1)?;
    let answer = read_board(text, LineNumber::after(lines_before), lent);
    assert_eq!(rt; memory, [5; 9]);
    let report = Report::from(answer.err()?);
    Some((report.layer, report.number, report.line, report.field))
}

#[test]
fn faults_of_the_first_line(rt: HostRuntime) {
    let cases: [(&[u8], (u8, u8, usize, usize)); 20] = [
        (b"", (2, 32, 1, 0)),
        (b"board\t2\t2\t0", (2, 21, 1, 0)),
        (b"\n", (2, 23, 1, 1)),
        (b"Board\t2\t2\t0\n", (2, 23, 1, 1)),
        (b"row\t0000\n", (2, 23, 1, 1)),
        (b"board\n", (2, 24, 1, 0)),
        (b"board\t2\t2\n", (2, 24, 1, 0)),
        (b"board\t2\t2\t0\t\n", (2, 24, 1, 0)),
        (b"board\t2\t2\t0\t1\n", (2, 24, 1, 0)),
        (b"board\t02\tx\t0\n", (1, 22, 1, 2)),
        (b"board\t2\t-2\t0\n", (1, 22, 1, 3)),
        (b"board\t2\t2\t\n", (1, 22, 1, 4)),
        (b"board\t2\t2\t0\r\n", (1, 22, 1, 4)),
        (b"board\t1000000\t2\t0\n", (1, 22, 1, 2)),
        (b"board\t3\t2\t0\n", (2, 1, 1, 0)),
        (b"board\t2\t0\t0\n", (2, 1, 1, 0)),
        (b"board\t258\t2\t9\n", (2, 1, 1, 0)),
        (b"board\t256\t66\t2\n", (2, 2, 1, 0)),
        (b"board\t2\t2\t2\n", (2, 3, 1, 0)),
        (b"board\t2\t2\t0\n", (2, 32, 2, 0)),
    ];
    for (text, numbers) in cases {
        assert_eq!(rt; fault(&rt, text, 1, 9), Some(numbers));
    }
}

#[test]
fn faults_of_the_rows(rt: HostRuntime) {
    let cases: [(&[u8], (u8, u8, usize, usize)); 18] = [
        (b"board\t2\t2\t0\n\nrow\t0000\n", (2, 23, 2, 1)),
        (b"board\t2\t2\t0\nRow\t0000\nrow\t0000\n", (2, 23, 2, 1)),
        (b"board\t2\t2\t0\nrow\t0000\nstep\t1\n", (2, 23, 3, 1)),
        (b"board\t2\t2\t0\nrow\nrow\t0000\n", (2, 24, 2, 0)),
        (b"board\t2\t2\t0\nrow\t0000\t\nrow\t0000\n", (2, 24, 2, 0)),
        (b"board\t2\t2\t0\nrow\t0000\nrow\t00\t00\n", (2, 24, 3, 0)),
        (b"board\t2\t2\t0\nrow\t\nrow\t0000\n", (1, 31, 2, 2)),
        (b"board\t2\t2\t0\nrow\t000\nrow\t0000\n", (1, 31, 2, 2)),
        (b"board\t2\t2\t0\nrow\t00000\nrow\t0000\n", (1, 31, 2, 2)),
        (b"board\t2\t2\t0\nrow\t0000\nrow\t000\n", (1, 31, 3, 2)),
        (b"board\t2\t2\t0\nrow\t0000\nrow\t000000\n", (1, 31, 3, 2)),
        (b"board\t2\t2\t0\nrow\t000A\nrow\t0000\n", (1, 31, 2, 2)),
        (b"board\t2\t2\t0\nrow\t0000\nrow\t00g0\n", (1, 31, 3, 2)),
        (b"board\t2\t2\t0\nrow\t0000\nrow\t000\xb2\n", (1, 31, 3, 2)),
        (b"board\t2\t2\t0\nrow\t0000\nrow\t 000\n", (1, 31, 3, 2)),
        (b"board\t2\t2\t0\nrow\t0000\nrow\t0000\r\n", (1, 31, 3, 2)),
        (b"board\t2\t2\t0\nrow\t0000\n", (2, 32, 3, 0)),
        (
            b"board\t2\t4\t0\nrow\t0000\nrow\t0000\nrow\t0000\n",
            (2, 32, 5, 0),
        ),
    ];
    for (text, numbers) in cases {
        assert_eq!(rt; fault(&rt, text, 1, 9), Some(numbers));
    }
}

// A memory that is too short is reported last.
#[test]
fn memory_is_asked_for_last(rt: HostRuntime) {
    let cases: [(&[u8], usize, (u8, u8, usize, usize)); 4] = [
        (b"board\t2\t2\t0\nrow\t0000\nrow\t0000\n", 3, (2, 30, 0, 0)),
        (b"board\t2\t2\t0\nrow\t0000\nrow\t0000\n", 0, (2, 30, 0, 0)),
        (b"board\t2\t2\t0\nrow\t0000\nrow\t000x\n", 3, (1, 31, 3, 2)),
        (
            b"board\t2\t2\t0\nrow\t0000\nrow\t0000\nundo",
            3,
            (2, 21, 4, 0),
        ),
    ];
    for (text, room, numbers) in cases {
        assert_eq!(rt; fault(&rt, text, 1, room), Some(numbers));
    }
}

#[test]
fn lines_count_from_the_first(rt: HostRuntime) -> Result<(), Fail> {
    let short = b"board\t2\t2\t0\nrow\t0000\n";
    assert_eq!(rt; fault(&rt, short, 2, 9), Some((2, 32, 4, 0)));
    assert_eq!(rt; fault(&rt, b"", 2, 9), Some((2, 32, 2, 0)));
    assert_eq!(rt; fault(&rt, b"row\t1\n", 40, 9), Some((2, 23, 40, 1)));
    Ok(())
}

#[test]
fn a_check_answers_the_same_without_memory(rt: HostRuntime) -> Result<(), Fail> {
    assert_eq!(rt;
        check_board(BOARD, LineNumber::after(2))?,
        (Start::new(4, 2, 1)?, 38)
    );
    let report = check_board(b"board\t2\t2\t0\nrow\t0000\n", LineNumber::after(2))
        .err()
        .map(Report::from);
    assert_eq!(rt; report.map(|r| (r.number, r.line)), Some((32, 5)));
    Ok(())
}
