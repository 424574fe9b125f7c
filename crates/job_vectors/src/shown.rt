//! What is printed for one job.
use crate::case::Case;
use faults::report::Report;
use job_texts::lab_text::lab_text;
use jobs::done::Done;
use jobs::job::run_job;
use samples::cells::{digest, sevens};

fn show_done(rt: &HostRuntime, done: &Done) -> anyhow::Result<()> {
    let (standing, undone, clock, phase) = done.counts;
    let (width, height) = (done.start.width(), done.start.height());
    print!(rt;
        "done {} {clock} {standing} {undone} {width} {height} {phase}",
        done.made
    )?;
    Ok(())
}

fn show_fault(rt: &HostRuntime, report: &Report) -> anyhow::Result<()> {
    let (layer, number) = (report.layer, report.number);
    print!(rt; "fault {layer} {number} {} {}", report.line, report.field)?;
    Ok(())
}

// The outcome of the job, and digests of the memory and of what `lab` prints for it.
pub(crate) fn show(rt: &HostRuntime, case: &Case) -> anyhow::Result<()> {
    let mut cells = sevens(case.room, rt.alloc())?;
    match run_job(&case.job, &mut cells) {
        Ok(done) => show_done(rt, &done)?,
        Err(fault) => show_fault(rt, &Report::from(fault))?,
    }
    let text = lab_text(&case.job, rt.alloc())?;
    println!(rt; " {} {} {}", digest(&cells), text.len(), digest(&text))?;
    Ok(())
}
