//! Boards that are written, and read again.
use boards::read::read_board;
use boards::write::write_board;
use faults::line_number::LineNumber;
use lattice::start::Start;
use std::test::Fail;

const TEXT: &[u8] = b"board\t2\t4\t1\nrow\t0001\nrow\t0f10\nrow\tfe09\nrow\ta0ff\n";

// The same text, and after it twelve bytes that were there before.
const WITH_REST: &[u8] =
    b"board\t2\t4\t1\nrow\t0001\nrow\t0f10\nrow\tfe09\nrow\ta0ff\n\x07\x07\x07\x07\x07\x07\x07\x07\x07\x07\x07\x07";

const CELLS: [u8; 8] = [0, 1, 15, 16, 254, 9, 160, 255];

#[test]
fn a_board_is_written_and_the_rest_is_kept(rt: HostRuntime) -> Result<(), Fail> {
    let start = Start::new(2, 4, 1)?;
    let mut memory = [7; 60];
    let len = write_board(&start, &CELLS, &mut memory)?;
    assert_eq!(rt; len, 48);
    assert!(rt; *memory.as_slice() == *WITH_REST);
    let mut exact = [7; 48];
    assert_eq!(rt; write_board(&start, &CELLS, &mut exact)?, 48);
    assert!(rt; *exact.as_slice() == *TEXT);
    Ok(())
}

#[test]
fn refused_writing_writes_nothing(rt: HostRuntime) -> Result<(), Fail> {
    let start = Start::new(2, 4, 1)?;
    let mut memory = [7; 47];
    let answer = write_board(&start, &CELLS, &mut memory);
    assert_eq!(rt; answer.err().map(u8::from), Some(30));
    let answer = write_board(&start, &CELLS[..7], &mut memory);
    assert_eq!(rt; answer.err().map(u8::from), Some(10));
    // wrong cells are reported first
    let answer = write_board(&start, &[0; 9], &mut memory[..0]);
    assert_eq!(rt; answer.err().map(u8::from), Some(10));
    assert_eq!(rt; memory, [7; 47]);
    Ok(())
}

#[test]
fn what_was_written_is_read(rt: HostRuntime) -> Result<(), Fail> {
    let mut cells = [1; 8];
    let (start, len) = read_board(TEXT, LineNumber::first(), &mut cells)?;
    assert_eq!(rt; (start, len), (Start::new(2, 4, 1)?, 48));
    assert_eq!(rt; cells, CELLS);
    Ok(())
}

// The largest boards, the longest of 34,063 bytes, are read again.
#[test]
fn the_largest_boards_go_round(rt: HostRuntime) -> Result<(), Fail> {
    let cases = [(256, 64, 33_103), (64, 256, 34_063), (128, 128, 33_424)];
    for (width, height, len) in cases {
        let start = Start::new(width, height, 1)?;
        let mut cells = Vec::new(rt.alloc());
        for place in 0..16_384u32 {
            cells.push((place * 7 % 256) as u8)?;
        }
        let mut memory = Vec::new(rt.alloc());
        for _ in 0..34_064 {
            memory.push(1)?;
        }
        assert_eq!(rt; write_board(&start, &cells, &mut memory)?, len);
        let mut again = Vec::new(rt.alloc());
        for _ in 0..16_384 {
            again.push(1)?;
        }
        let mut text = Vec::new(rt.alloc());
        if len <= memory.len() {
            text.extend_from_slice(&memory[..len])?;
        }
        assert_eq!(rt;
            read_board(&text, LineNumber::first(), &mut again)?,
            (start, len)
        );
        assert!(rt; again == cells);
    }
    Ok(())
}
