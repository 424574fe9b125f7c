//! What is printed for one text.
use crate::case::{Case, Kind};
use anyhow::Context;
use boards::board_text::board_text;
use boards::read::read_board;
use faults::record::RecordFault;
use faults::report::Report;
use lattice::start::Start;
use samples::cells::{digest, sevens};
use scripts::check::check;

// The numbers of a fault, followed by `rest`.
fn show_fault(rt: &HostRuntime, fault: RecordFault, rest: &str) -> anyhow::Result<()> {
    let report = Report::from(fault);
    let (layer, number) = (report.layer, report.number);
    println!(rt;
        "fault {layer} {number} {} {}{rest}",
        report.line, report.field
    )?;
    Ok(())
}

fn show_script(rt: &HostRuntime, case: &Case) -> anyhow::Result<()> {
    match check(&case.text, case.first_line) {
        Ok(count) => println!(rt; "ok {count}")?,
        Err(fault) => show_fault(rt, fault, "")?,
    }
    Ok(())
}

// How many bytes are written back, and whether they are those that were read.
fn written_back(
    rt: &HostRuntime,
    case: &Case,
    start: &Start,
    mut cells: Vec<u8>,
) -> anyhow::Result<(usize, bool)> {
    cells.truncate(start.cell_count());
    let written = board_text(start, &cells, rt.alloc())?.context("the cells are no whole lattice")?;
    let same = case.text.get(..written.len()) == Some(written.as_slice());
    Ok((written.len(), same))
}

fn show_board(rt: &HostRuntime, case: &Case) -> anyhow::Result<()> {
    let mut cells = sevens(case.room, rt.alloc())?;
    let answer = read_board(&case.text, case.first_line, &mut cells);
    let sum = digest(&cells);
    match answer {
        Ok((start, len)) => {
            let (width, height, phase) = (start.width(), start.height(), start.phase());
            let (written, same) = written_back(rt, case, &start, cells)?;
            let end = if same { "" } else { " other" };
            println!(rt; "ok {width} {height} {phase} {len} {sum} {written}{end}")?;
        }
        Err(fault) => {
            let rest = format!(in rt.alloc(); " {sum}")?;
            show_fault(rt, fault, rest.as_str())?;
        }
    }
    Ok(())
}

pub(crate) fn show(rt: &HostRuntime, case: &Case) -> anyhow::Result<()> {
    match case.kind {
        Kind::Script => show_script(rt, case),
        Kind::Board => show_board(rt, case),
    }
}
