//! Fills of tables, from numbers and by name.
use samples::without_symmetry::{LOPSIDED, lopsided};
use std::process::Abort;
use tables::block::BlockTable;
use tables::cell::CellTable;
use tables::table::Table;

const LOPSIDED_INVERSE: [u8; 16] = [11, 2, 9, 0, 7, 14, 5, 12, 3, 10, 1, 8, 15, 6, 13, 4];

// The number of the cause. A refused fill leaves the table as it was, with these entries and this inverse.
fn refusal<const N: usize>(
    rt: &impl Abort,
    mut table: Table<N>,
    held: (&[u8], &[u8]),
    entries: &[u8],
) -> Option<u8> {
    let answer = table.fill(entries);
    assert!(rt; *table.entries().as_slice() == *held.0);
    assert!(rt; *table.inverse().as_slice() == *held.1);
    answer.err().map(u8::from)
}

fn block_refusal(rt: &impl Abort, entries: &[u8]) -> Option<u8> {
    refusal(rt, lopsided(), (&LOPSIDED, &LOPSIDED_INVERSE), entries)
}

fn cell_refusal(rt: &impl Abort, entries: &[u8]) -> Option<u8> {
    let identity = CellTable::identity();
    refusal(rt, identity, (&[0, 1, 2, 3], &[0, 1, 2, 3]), entries)
}

#[test]
fn block_fills_that_are_refused(rt: HostRuntime) {
    let cases: [(&[u8], u8); 9] = [
        (&[], 4),
        (&[0, 1, 2, 3, 4, 5, 6, 7, 8, 9, 10, 11, 12, 13, 14], 4),
        (
            &[0, 1, 2, 3, 4, 5, 6, 7, 8, 9, 10, 11, 12, 13, 14, 15, 16],
            4,
        ),
        (&[0, 1, 2, 3, 4, 5, 6, 7, 8, 9, 10, 11, 12, 13, 14, 16], 5),
        (&[255, 1, 2, 3, 4, 5, 6, 7, 8, 9, 10, 11, 12, 13, 14, 15], 5),
        (&[0, 0, 2, 3, 4, 5, 6, 7, 8, 9, 10, 11, 12, 13, 14, 16], 5),
        (&[16, 1, 2, 3, 4, 5, 6, 7, 8, 9, 10, 11, 12, 13, 15, 15], 5),
        (&[0, 1, 2, 3, 4, 5, 6, 7, 8, 9, 10, 11, 12, 13, 14, 0], 6),
        (&[7, 7, 7, 7, 7, 7, 7, 7, 7, 7, 7, 7, 7, 7, 7, 7], 6),
    ];
    for (entries, number) in cases {
        assert_eq!(rt; block_refusal(&rt, entries), Some(number), "at {entries:?}");
    }
}

#[test]
fn cell_fills_that_are_refused(rt: HostRuntime) {
    assert_eq!(rt; cell_refusal(&rt, &[0, 1, 2]), Some(4));
    assert_eq!(rt; cell_refusal(&rt, &[0, 1, 2, 3, 4]), Some(4));
    assert_eq!(rt; cell_refusal(&rt, &[0, 1, 2, 4]), Some(5));
    assert_eq!(rt; cell_refusal(&rt, &[1, 1, 2, 200]), Some(5));
    assert_eq!(rt; cell_refusal(&rt, &[3, 0, 2, 3]), Some(6));
}

#[test]
fn names_of_block_tables(rt: HostRuntime) {
    let mut table = BlockTable::identity();
    assert!(rt; *table.entries() == [0, 1, 2, 3, 4, 5, 6, 7, 8, 9, 10, 11, 12, 13, 14, 15]);
    assert_eq!(rt; table.fill_named("bbm").err().map(u8::from), None);
    assert!(rt; *table.entries() == [0, 8, 4, 3, 2, 5, 9, 7, 1, 6, 10, 11, 12, 13, 14, 15]);
    assert_eq!(rt; table.fill_named("critters").err().map(u8::from), None);
    assert!(rt; *table.entries() == [15, 14, 13, 3, 11, 5, 6, 1, 7, 9, 10, 2, 12, 4, 8, 0]);
    assert!(rt; *table.inverse() == [15, 7, 11, 3, 13, 5, 6, 8, 14, 9, 10, 4, 12, 2, 1, 0]);
    assert_eq!(rt; table.fill_named("tron").err().map(u8::from), None);
    assert!(rt; *table.entries() == [15, 1, 2, 3, 4, 5, 6, 7, 8, 9, 10, 11, 12, 13, 14, 0]);
}

#[test]
fn near_misses_of_names(rt: HostRuntime) {
    let mut table = BlockTable::identity();
    for name in [
        "",
        "bb",
        "bbmm",
        "BBM",
        " bbm",
        "Critters",
        "critters ",
        "critter",
        "tron\n",
        "exchange",
    ] {
        assert_eq!(rt; table.fill_named(name).err().map(u8::from), Some(9));
        assert!(rt; *table.entries() == [0, 1, 2, 3, 4, 5, 6, 7, 8, 9, 10, 11, 12, 13, 14, 15]);
    }
}

#[test]
fn names_of_cell_tables(rt: HostRuntime) {
    let mut table = CellTable::identity();
    assert_eq!(rt; table.fill_named("bbm").err().map(u8::from), Some(9));
    assert_eq!(rt; table.fill_named("Exchange").err().map(u8::from), Some(9));
    assert!(rt; *table.entries() == [0, 1, 2, 3]);
    assert_eq!(rt; table.fill_named("exchange").err().map(u8::from), None);
    assert!(rt; *table.entries() == [0, 2, 1, 3]);
    assert_eq!(rt; table.fill_named("complement").err().map(u8::from), None);
    assert!(rt; *table.entries() == [1, 0, 3, 2]);
    assert_eq!(rt; table.fill_named("complemen").err().map(u8::from), Some(9));
    assert!(rt; *table.entries() == [1, 0, 3, 2]);
}
