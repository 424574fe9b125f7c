//! A walk on a bench, and the way back.
use crate::calls::{clear, flip, redo, step, undo};
use crate::shown::{show_board, show_counts, show_given};
use anyhow::Context;
use bench::bench::Bench;
use faults::line_number::LineNumber;
use lattice::map::Map;
use lattice::start::Start;
use runs::run::run;
use samples::cells::sown;
use std::io;
use std::io::Write;

const WIDTH: u32 = 12;

const HEIGHT: u32 = 8;

// Enough for any reverse script.
const MAX_SCRIPT: usize = 7_168;

fn go_out<'m, M: Map>(
    rt: &impl Print,
    bench: Bench<'m, M>,
    cells: &mut [u8],
) -> anyhow::Result<Bench<'m, M>> {
    let mut bench = bench;
    undo(rt, &mut bench, cells)?;
    step(rt, &mut bench, 0, cells)?;
    step(rt, &mut bench, 10_001, cells)?;
    step(rt, &mut bench, 100, cells)?;
    let mut session = bench.open();
    show_given(rt, "open", session.counts())?;
    flip(rt, &mut session, (0, 0, 1), cells)?;
    flip(rt, &mut session, (11, 7, 3), cells)?;
    flip(rt, &mut session, (5, 4, 255), cells)?;
    let mut bench = session.close();
    show_given(rt, "close", bench.counts())?;
    step(rt, &mut bench, -7, cells)?;
    redo(rt, &mut bench, cells)?;
    undo(rt, &mut bench, cells)?;
    undo(rt, &mut bench, cells)?;
    redo(rt, &mut bench, cells)?;
    let mut session = bench.open();
    show_given(rt, "open", session.counts())?;
    flip(rt, &mut session, (12, 0, 1), cells)?;
    flip(rt, &mut session, (11, 0, 256), cells)?;
    flip(rt, &mut session, (11, 0, 2), cells)?;
    clear(rt, &mut session, cells)?;
    let mut bench = session.close();
    show_given(rt, "close", bench.counts())?;
    redo(rt, &mut bench, cells)?;
    Ok(bench)
}

// Runs the bench's reverse script on another bench over `map`, with the same cells. Returns the start record that it ends with.
fn go_home<M: Map>(
    rt: &(impl Print + Alloc),
    map: &M,
    bench: &Bench<'_, M>,
    cells: &mut [u8],
) -> anyhow::Result<Start> {
    let mut script = vec![in rt.alloc(); 0u8; MAX_SCRIPT]?;
    let len = bench.reverse_script(&mut script)?;
    println!(rt; "script\t{len}")?;
    io::writer(rt).write_all(&script[..len])?;
    let (home, answer) = run(
        Bench::new(map, bench.start()),
        cells,
        &script[..len],
        LineNumber::first(),
    );
    let made = answer.context("the script is refused")?;
    print!(rt; "made\t{made}")?;
    show_counts(rt, home.counts())?;
    Ok(home.start())
}

pub(crate) fn walk<M: Map>(rt: &(impl Print + Alloc), name: &str, map: &M) -> anyhow::Result<()> {
    let opening = Start::new(WIDTH, HEIGHT, 0).context("the start record is refused")?;
    let first = sown(opening.cell_count(), rt.alloc())?;
    let mut cells = first.clone()?;
    println!(rt; "map\t{name}")?;
    show_board(rt, &opening, &cells)?;
    let bench = go_out(rt, Bench::new(map, opening), &mut cells)?;
    show_board(rt, &bench.start(), &cells)?;
    let start = go_home(rt, map, &bench, &mut cells)?;
    show_board(rt, &start, &cells)?;
    let home = if cells == first && start == opening {
        "yes"
    } else {
        "no"
    };
    println!(rt; "the opening board\t{home}")?;
    Ok(())
}
