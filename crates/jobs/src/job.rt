//! Running a job.
ghost use Rattle.std.specs.Prelude.{◌≡◌, ◌≤◌, ◌↔◌, length, Err};
ghost use Rattle.faults.specs.declared.run.RunFault.{RunFault};
ghost use Rattle.jobs.specs.Answers.{Opens, JobRun, JobMade};
ghost use Rattle.jobs.specs.Faults.{JobRunFault};
ghost use Rattle.jobs.specs.Jobs.{Job, job};
ghost use Rattle.jobs.specs.Laws.{IsJob, StandsOn};
ghost use Rattle.jobs.specs.Steps.{OpenedOn};

use crate::done::Done;
use crate::opening::{Opening, open_job};
use bench::bench::Bench;
use faults::run::RunFault;
use runs::run::run;

// Makes the records of a job that was opened.
#[tactic(auto, using(crate::proofs::JobsMade::job_made, crate::proofs::JobsMade::job_stopped))]
fn make_job(opening: &Opening, text: &[u8], cells: &mut [u8]) -> Result<Done, RunFault>
    requires { OpenedOn text.now opening.now cells.old }
    ensures { (j : Job) → Opens j text.now opening.now → cells.old ≡ j.lattice.cells → JobMade j cells.new result }
{
    let bench = Bench::new(&opening.map, opening.start);
    let script = &text[opening.script_at..];
    let (bench, answer) = run(bench, cells, script, opening.script_line);
    match answer {
        Ok(made) => Ok(Done {
            start: bench.start(),
            made,
            counts: bench.counts(),
        }),
        Err(fault) => Err(fault),
    }
}

// Opens the job in the first bytes of the memory, and makes its records there.
#[tactic(auto, using(crate::proofs::JobsRun::asks, crate::proofs::JobsRun::job_ran))]
fn run_opened(text: &[u8], cells: &mut [u8]) -> Result<Done, RunFault>
    ensures { JobRun (job (length cells.old) text.now) cells.old cells.new result }
{
    let opening = open_job(text, cells)?;
    make_job(&opening, text, &mut cells[..opening.start.cell_count()])
}

/// Runs a job on a new bench, in the first bytes of `cells`, which may be longer than the board. Fails with the first fault of the text
/// (`RunFault::Record`), before anything is written; or with the first refusal of a record (`RunFault::Bench`), which ends the run as in `runs::run`.
#[tactic(auto, using(crate::proofs::JobsStand::job_stands))]
pub fn run_job(text: &[u8], cells: &mut [u8]) -> Result<Done, RunFault>
    ensures answer { JobRun (job (length cells.old) text.now) cells.old cells.new result }
    // in the end the job's board is held, changed by the actions that stand, and no session is open
    ensures held { (j : Job) → IsJob j text.now → length j.lattice.cells ≤ length cells.old → StandsOn j cells.old cells.new result }
    // a fault is reported exactly where it is the first one
    ensures first { (e : RunFault) → (result ≡ Err e) ↔ JobRunFault (length cells.old) text.now e }
{
    run_opened(text, cells)
}
