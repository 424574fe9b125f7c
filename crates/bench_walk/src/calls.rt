//! The calls of a bench that need cells, each made and printed.
use crate::shown::show_answer;
use bench::bench::Bench;
use bench::session::Session;
use lattice::map::Map;

pub(crate) fn step<M: Map>(
    rt: &impl Print,
    bench: &mut Bench<'_, M>,
    count: i32,
    cells: &mut [u8],
) -> anyhow::Result<()> {
    let answer = bench.step(count, cells);
    print!(rt; "step {count}")?;
    show_answer(rt, answer, bench.counts())
}

pub(crate) fn undo<M: Map>(
    rt: &impl Print,
    bench: &mut Bench<'_, M>,
    cells: &mut [u8],
) -> anyhow::Result<()> {
    let answer = bench.undo(cells);
    print!(rt; "undo")?;
    show_answer(rt, answer, bench.counts())
}

pub(crate) fn redo<M: Map>(
    rt: &impl Print,
    bench: &mut Bench<'_, M>,
    cells: &mut [u8],
) -> anyhow::Result<()> {
    let answer = bench.redo(cells);
    print!(rt; "redo")?;
    show_answer(rt, answer, bench.counts())
}

pub(crate) fn flip<M: Map>(
    rt: &impl Print,
    session: &mut Session<'_, M>,
    (col, row, mask): (u32, u32, u32),
    cells: &mut [u8],
) -> anyhow::Result<()> {
    let answer = session.flip(col, row, mask, cells);
    print!(rt; "flip {col} {row} {mask}")?;
    show_answer(rt, answer, session.counts())
}

pub(crate) fn clear<M: Map>(
    rt: &impl Print,
    session: &mut Session<'_, M>,
    cells: &mut [u8],
) -> anyhow::Result<()> {
    let answer = session.clear(cells);
    print!(rt; "clear")?;
    show_answer(rt, answer, session.counts())
}
