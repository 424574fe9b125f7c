//! What a map has to make of four by four cells.
use lattice::map::Map;
use lattice::start::Start;
use samples::cells::ALL_KINDS;
use std::process::Abort;
use std::test::Fail;

// From the sample at a phase: phase and rows after one move forward, after three, and after one move back.
#[derive(Clone, Copy)]
pub(crate) struct Run {
    pub(crate) phase: u32,
    pub(crate) one: (u8, [u32; 4]),
    pub(crate) three: (u8, [u32; 4]),
    pub(crate) back: (u8, [u32; 4]),
}

// The cells of these rows.
pub(crate) fn cells_of(rows: [u32; 4]) -> [[u8; 4]; 4] {
    rows.map(u32::to_be_bytes)
}

fn check_at(rt: &impl Abort, held: &Start, cells: &[[u8; 4]; 4], expected: (u8, [u32; 4])) {
    assert_eq!(rt; held.phase(), expected.0);
    assert!(rt; *cells == cells_of(expected.1));
}

fn check_moves(rt: &impl Abort, map: &impl Map, run: Run) -> Result<(), Fail> {
    let mut held = Start::new(4, 4, run.phase)?;
    let mut cells = ALL_KINDS;
    map.advance(&mut held, cells.as_flattened_mut());
    check_at(rt, &held, &cells, run.one);
    map.advance_by(2, &mut held, cells.as_flattened_mut());
    check_at(rt, &held, &cells, run.three);
    map.retreat_by(2, &mut held, cells.as_flattened_mut());
    check_at(rt, &held, &cells, run.one);
    map.retreat(&mut held, cells.as_flattened_mut());
    assert!(rt; cells == ALL_KINDS && u32::from(held.phase()) == run.phase);
    map.retreat(&mut held, cells.as_flattened_mut());
    check_at(rt, &held, &cells, run.back);
    Ok(())
}

// The runs from both phases.
pub(crate) fn check_runs(rt: &impl Abort, map: &impl Map, runs: [Run; 2]) -> Result<(), Fail> {
    for run in runs {
        check_moves(rt, map, run)?;
    }
    Ok(())
}
