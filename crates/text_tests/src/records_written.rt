//! Records that are written.
use scripts::record::Record;
use scripts::write::write_record;

const FLIP: Record = Record::Flip {
    col: 7,
    row: 12,
    mask: 255,
};

const LARGEST: Record = Record::Flip {
    col: u32::MAX,
    row: u32::MAX,
    mask: u32::MAX,
};

#[test]
fn a_record_is_written_in_the_middle(rt: HostRuntime) {
    let cases: [(Record, usize, &[u8]); 5] = [
        (Record::Step(12), 11, b"...step\t12\n........."),
        (Record::Step(-3), 11, b"...step\t-3\n........."),
        (Record::Step(0), 10, b"...step\t0\n.........."),
        (FLIP, 17, b"...flip\t7\t12\t255\n..."),
        (Record::Undo, 8, b"...undo\n............"),
    ];
    for (record, end, text) in cases {
        let mut memory = [b'.'; 20];
        assert_eq!(rt; write_record(record, &mut memory, 3), Some(end));
        assert!(rt; *memory.as_slice() == *text);
    }
}

#[test]
fn the_largest_numbers_are_written(rt: HostRuntime) {
    let mut line = [0; 38];
    assert_eq!(rt; write_record(LARGEST, &mut line, 0), Some(38));
    assert_eq!(rt; line, *b"flip\t4294967295\t4294967295\t4294967295\n");
    let mut line = [0; 17];
    assert_eq!(rt;
        write_record(Record::Step(i32::MIN), &mut line, 0),
        Some(17)
    );
    assert_eq!(rt; line, *b"step\t-2147483648\n");
}

#[test]
fn nothing_is_written_where_there_is_no_room(rt: HostRuntime) {
    let mut memory = [7; 20];
    for at in [7, 19, 20, 21, usize::MAX] {
        assert_eq!(rt; write_record(FLIP, &mut memory, at), None);
    }
    assert_eq!(rt; memory, [7; 20]);
    assert_eq!(rt; write_record(FLIP, &mut memory, 6), Some(20));
}
