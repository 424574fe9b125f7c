//! All that is printed for a life.
use crate::shown::{show_board, show_counts, show_event};
use any_bench::answer::Answer;
use anyhow::Context;
use faults::report::Report;
use lattice::map::Map;
use lattice::start::Start;
use lives::event::{Event, Reply, Seen};
use lives::life::live;
use lives::memories::Memories;
use lives::outcome::{Journey, WayBack};
use reverse_script::refusal::ScriptRefusal;
use samples::cells::sown;
use std::io;
use std::io::Write;

const WIDTH: u32 = 12;

const HEIGHT: u32 = 8;

// The memory `second` is longer than the cells.
const SECOND: usize = 100;

// Enough for any reverse script.
const MAX_SCRIPT: usize = 7_168;

const UNTOLD: Reply = Reply {
    answer: Answer::Skipped,
    counts: (0, 0, 0, 0),
};

const UNSEEN: Seen = Seen {
    bench: UNTOLD,
    mirror: UNTOLD,
};

fn show_events(rt: &impl Print, events: &[Event], seen: &[Seen]) -> anyhow::Result<()> {
    for (event, reply) in events.iter().zip(seen) {
        show_event(rt, *event, *reply)?;
    }
    Ok(())
}

fn show_journey(
    rt: &(impl Print + Alloc),
    journey: &Journey,
    home: &[u8],
    script: &[u8],
) -> anyhow::Result<()> {
    println!(rt; "script\t{}", journey.script_len)?;
    let text = script
        .get(..journey.script_len)
        .context("the script is cut off")?;
    io::writer(rt).write_all(text)?;
    match journey.answer {
        Ok(made) => print!(rt; "made\t{made}")?,
        Err(fault) => print!(rt; "{}", Report::from(fault))?,
    }
    show_counts(rt, journey.counts)?;
    println!(rt; "")?;
    show_board(rt, &journey.start, home)
}

fn show_way_back(
    rt: &(impl Print + Alloc),
    way_back: &WayBack,
    home: &[u8],
    script: &[u8],
) -> anyhow::Result<()> {
    match way_back {
        WayBack::InSession => println!(rt; "in session")?,
        WayBack::Refused(ScriptRefusal::MemoryTooShort) => println!(rt; "no room for the script")?,
        WayBack::Gone(journey) => show_journey(rt, journey, home, script)?,
    }
    Ok(())
}

pub(crate) fn show_life<M: Map>(
    rt: &(impl Print + Alloc),
    name: &str,
    map: &M,
    events: &[Event],
) -> anyhow::Result<()> {
    let opening = Start::new(WIDTH, HEIGHT, 0).context("the start record is refused")?;
    let mut cells = sown(opening.cell_count(), rt.alloc())?;
    let mut mirror = vec![in rt.alloc(); 0u8; opening.cell_count()]?;
    let mut home = vec![in rt.alloc(); 0u8; opening.cell_count()]?;
    let mut second = vec![in rt.alloc(); 0u8; SECOND]?;
    let mut script = vec![in rt.alloc(); 0u8; MAX_SCRIPT]?;
    let mut seen = vec![in rt.alloc(); UNSEEN; events.len()]?;
    println!(rt; "map\t{name}")?;
    show_board(rt, &opening, &cells)?;
    let mut memories = Memories {
        cells: &mut cells,
        mirror: &mut mirror,
        home: &mut home,
        second: &mut second,
        script: &mut script,
        seen: &mut seen,
    };
    let outcome = live(map, opening, events, &mut memories)?;
    show_events(rt, events, &seen)?;
    show_board(rt, &outcome.start, &cells)?;
    show_board(rt, &outcome.mirror_start, &mirror)?;
    show_way_back(rt, &outcome.way_back, &home, &script)
}
