//! What is printed for a call, and for a lattice.
use any_bench::answer::Answer;
use anyhow::Context;
use bench::bench::Counts;
use boards::board_text::board_text;
use lattice::start::Start;
use lives::event::{Event, Lent, Reply, Seen};
use scripts::record::Record;
use scripts::write::write_record;
use std::io;
use std::io::Write;

// How long the line of a record can be.
const MAX_RECORD: usize = 38;

fn show_answer(rt: &impl Print, answer: Answer) -> anyhow::Result<()> {
    match answer {
        Answer::Skipped => print!(rt; "passed over")?,
        Answer::Given => print!(rt; "given")?,
        Answer::Standing(count) => print!(rt; "{count} stand")?,
        Answer::Refused(cause) => print!(rt; "refused {}", u8::from(cause))?,
    }
    Ok(())
}

pub(crate) fn show_counts(rt: &impl Print, counts: Counts) -> anyhow::Result<()> {
    let (standing, undone, clock, phase) = counts;
    print!(rt; "\t{standing}\t{undone}\t{clock}\t{phase}")?;
    Ok(())
}

fn show_reply(rt: &impl Print, reply: Reply) -> anyhow::Result<()> {
    show_answer(rt, reply.answer)?;
    show_counts(rt, reply.counts)
}

fn show_lent(rt: &impl Print, lent: Lent) -> anyhow::Result<()> {
    match lent {
        Lent::Own => print!(rt; "own")?,
        Lent::Part(len) => print!(rt; "part {len}")?,
    }
    Ok(())
}

fn show_record(rt: &impl Print, record: Record) -> anyhow::Result<()> {
    let mut line = [0u8; MAX_RECORD];
    let end = write_record(record, &mut line, 0).context("the record is not written")?;
    io::writer(rt).write_all(&line[..end])?;
    Ok(())
}

// One line: what bench and mirror report, the memory that the call gets, and the call.
pub(crate) fn show_event(rt: &impl Print, event: Event, seen: Seen) -> anyhow::Result<()> {
    show_reply(rt, seen.bench)?;
    print!(rt; "\t")?;
    show_reply(rt, seen.mirror)?;
    print!(rt; "\t")?;
    show_lent(rt, event.lent)?;
    print!(rt; "\t")?;
    show_record(rt, event.call)
}

pub(crate) fn show_board(
    rt: &(impl Print + Alloc),
    start: &Start,
    cells: &[u8],
) -> anyhow::Result<()> {
    let text = board_text(start, cells, rt.alloc())?.context("the cells are no whole lattice")?;
    io::writer(rt).write_all(&text)?;
    Ok(())
}
