//! What is printed for a call, and for a lattice.
use anyhow::Context;
use bench::bench::Counts;
use boards::board_text::board_text;
use faults::run::BenchRefusal;
use lattice::start::Start;
use std::io;
use std::io::Write;

pub(crate) fn show_board(
    rt: &(impl Print + Alloc),
    start: &Start,
    cells: &[u8],
) -> anyhow::Result<()> {
    let text = board_text(start, cells, rt.alloc())?.context("the cells are no whole lattice")?;
    io::writer(rt).write_all(&text)?;
    Ok(())
}

pub(crate) fn show_counts(rt: &impl Print, counts: Counts) -> anyhow::Result<()> {
    let (standing, undone, clock, phase) = counts;
    println!(rt; "\t{standing}\t{undone}\t{clock}\t{phase}")?;
    Ok(())
}

// What comes after the call on its line: the result, and the counts.
pub(crate) fn show_answer(
    rt: &impl Print,
    answer: Result<usize, BenchRefusal>,
    counts: Counts,
) -> anyhow::Result<()> {
    match answer {
        Ok(standing) => print!(rt; "\t{standing} stand")?,
        Err(cause) => print!(rt; "\trefused {}", u8::from(cause))?,
    }
    show_counts(rt, counts)
}

// The line of an `open` or a `close`.
pub(crate) fn show_given(rt: &impl Print, call: &str, counts: Counts) -> anyhow::Result<()> {
    print!(rt; "{call}\tgiven")?;
    show_counts(rt, counts)
}
