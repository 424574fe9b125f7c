//! What is printed for one text.
use anyhow::Context;
use boards::board_text::board_text;
use boards::read::read_board;
use faults::line_number::LineNumber;
use faults::report::Report;
use lattice::start::max_cells;
use scripts::check::check;
use std::io;
use std::io::Write;

pub(crate) fn show_script(rt: &HostRuntime, name: &str, text: &[u8]) -> anyhow::Result<()> {
    match check(text, LineNumber::first()) {
        Ok(count) => println!(rt; "{name}\tscript\t{count}")?,
        Err(fault) => println!(rt; "{name}\t{}", Report::from(fault))?,
    }
    Ok(())
}

// A board that was read is written back, and what was written is printed.
pub(crate) fn show_board(rt: &HostRuntime, name: &str, text: &[u8]) -> anyhow::Result<()> {
    let mut cells = vec![in rt.alloc(); 0u8; max_cells()]?;
    let (start, len) = match read_board(text, LineNumber::first(), &mut cells) {
        Ok(found) => found,
        Err(fault) => {
            println!(rt; "{name}\t{}", Report::from(fault))?;
            return Ok(());
        }
    };
    let (width, height) = (start.width(), start.height());
    println!(rt;
        "{name}\tboard\t{width}\t{height}\t{}\t{len}",
        start.phase()
    )?;
    cells.truncate(start.cell_count());
    let written = board_text(&start, &cells, rt.alloc())?.context(
        "the cells are no whole lattice",
    )?;
    io::writer(rt).write_all(&written)?;
    Ok(())
}
