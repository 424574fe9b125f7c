//! A job with its way back and its mirror, all from one call that lives its whole life.
ghost use Rattle.std.specs.Prelude.{◌≡◌, List, IfOk, drop, map};
ghost use Rattle.home_and_mirror.specs.Events.{own_event};
ghost use Rattle.scripts.specs.Laws.{Reads};
ghost use Rattle.scripts.specs.declared.record.Record.{Record};
ghost use Rattle.scripts.specs.declared.state.State.TheVariants.{Rest};

use crate::shown::{show_home, show_mirror};
use anyhow::bail;
use job_texts::lab_text::lab_text;
use jobs::job::run_job;
use jobs::opening::{Opening, open_job};
use lattice::start::max_cells;
use lives::event::{Event, Lent};
use lives::life::live;
use lives::memories::Memories;
use scripts::records::Records;
use std::alloc::Global;
use std::io;
use std::io::Write;

// Enough for any reverse script.
const MAX_SCRIPT: usize = 7_168;

// The records of the job as events, each with the cells of its own bench.
fn events_of(job: &[u8], opening: &Opening, heap: Global) -> anyhow::Result<Vec<Event>>
    ensures { IfOk result (λ v. (rs : List Record) → Reads Rest rs Rest (drop opening.now.script_at job.now) → v.items ≡ map own_event rs) }
{
    if job.len() < opening.script_at {
        bail!("there is no script");
    }
    let script = &job[opening.script_at..];
    let mut records = Records::new(script, opening.script_line);
    let mut events = Vec::new(heap);
    while let Some(record) = records.next_record()? {
        events.push(Event {
            call: record,
            lent: Lent::Own,
        })?;
    }
    Ok(events)
}

// Prints what `lab` prints and then, if all records were made, the way back and the mirror.
pub(crate) fn try_job(rt: &HostRuntime, job: &[u8]) -> anyhow::Result<()> {
    io::writer(rt).write_all(&lab_text(job, rt.alloc())?)?;
    let mut cells = vec![in rt.alloc(); 0u8; max_cells()]?;
    if run_job(job, &mut cells).is_err() {
        return Ok(());
    }
    let opening = open_job(job, &mut cells)?;
    cells.truncate(opening.start.cell_count());
    let first = cells.clone()?;
    let mut mirror = vec![in rt.alloc(); 0u8; cells.len()]?;
    let mut home = vec![in rt.alloc(); 0u8; cells.len()]?;
    let mut script = vec![in rt.alloc(); 0u8; MAX_SCRIPT]?;
    let events = events_of(job, &opening, rt.alloc())?;
    let mut memories = Memories {
        cells: &mut cells,
        mirror: &mut mirror,
        home: &mut home,
        second: &mut [],
        script: &mut script,
        seen: &mut [],
    };
    let outcome = live(&opening.map, opening.start, &events, &mut memories)?;
    show_home(rt, &outcome, (&opening.start, &first), &home)?;
    show_mirror(rt, &outcome, &cells, &mirror)
}
