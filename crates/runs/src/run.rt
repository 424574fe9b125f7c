//! Running a script on a bench.
ghost use Rattle.std.specs.Prelude.{◌≡◌, List, Ok, length};
ghost use Rattle.any_bench.specs.AnyBenches.{any_map};
ghost use Rattle.any_bench.specs.Scenes.{scene_of};
ghost use Rattle.bench.specs.Benches.{map_of};
ghost use Rattle.lattice.specs.Lattice.{Lattice, Within};
ghost use Rattle.runs.specs.Runs.{first_refused, answer_of, at_rest, run_answer, run_of, run_scene};
ghost use Rattle.runs.specs.Scenes.{rest_scene};
ghost use Rattle.runs.specs.Standing.{HasLived, RestsOn};
ghost use Rattle.runs.specs.Steps.{fault_in, ran, ran_answer};
ghost use Rattle.scripts.specs.Judgements.{script, count_of};
ghost use Rattle.scripts.specs.Reading.{left_of, reader_of};
ghost use Rattle.scripts.specs.declared.record.Record.{Record as ScriptRecord};
ghost use Rattle.text.specs.Readers.{line_of};

use any_bench::answer::Answer;
use any_bench::call::AnyBench;
use bench::bench::Bench;
use faults::line_number::LineNumber;
use faults::run::RunFault;
use lattice::map::Map;
use scripts::records::Records;
use scripts::run::check_run;

// The fault of the run, if `answer`, given to the record on this line, is a refusal.
fn fault_of(answer: Answer, line: usize) -> Option<RunFault>
    ensures { result ≡ fault_in answer line }
{
    match answer {
        Answer::Refused(cause) => Some(RunFault::Bench { cause, line }),
        _ => None,
    }
}

// Makes the next `count` records, and stops at the first that is refused.
fn make_records<'m, M: Map>(
    bench: AnyBench<'m, M>,
    cells: &mut [u8],
    records: Records<'_>,
    count: usize,
) -> (AnyBench<'m, M>, Result<usize, RunFault>)
    requires { (rs : List ScriptRecord) × (left_of records ≡ Ok rs) × (length rs ≡ count) }
    ensures scene { (rs : List ScriptRecord) → left_of records.entry ≡ Ok rs → scene_of result.0 cells.new ≡ ran (M.forward (any_map bench.entry)) (M.backward (any_map bench.entry)) (scene_of bench.entry cells.old) rs }
    ensures answer { (rs : List ScriptRecord) → left_of records.entry ≡ Ok rs → result.1 ≡ ran_answer (M.forward (any_map bench.entry)) (M.backward (any_map bench.entry)) (line_of (reader_of records.entry)) 0 (scene_of bench.entry cells.old) rs }
    ensures map { any_map result.0 ≡ any_map bench.entry }
{
    let mut bench = bench;
    let mut records = records;
    for made in 0..count {
        let line = records.line();
        let Ok(Some(record)) = records.next_record() else {
            return (bench, Ok(made));
        };
        let (after, answer) = bench.call(record, cells);
        bench = after;
        if let Some(fault) = fault_of(answer, line) {
            return (bench, Err(fault));
        }
    }
    (bench, Ok(count))
}

// Brings the bench to rest. Nothing is left of a session that is open.
fn come_to_rest<'m, M: Map>(bench: AnyBench<'m, M>, cells: &mut [u8]) -> Bench<'m, M>
    ensures scene { rest_scene result cells.new ≡ at_rest (M.forward (any_map bench.entry)) (M.backward (any_map bench.entry)) (scene_of bench.entry cells.old) }
    ensures map { map_of result ≡ any_map bench.entry }
{
    match bench {
        AnyBench::Rest(bench) => bench,
        AnyBench::Session(mut session) => {
            let _ = session.clear(cells);
            session.close()
        }
    }
}

/// Runs a script on the bench, and gives the bench back at rest. The first line of `text` has the number `first_line`.
/// Returns how many records were made. None is made if `cells` has the wrong length (`Cells`, with line 0) or anything in the text is at fault
/// (`RunFault::Record`). Otherwise the first refusal ends the run, with its cause and line: what was made before it stays, except for the flips of a
/// session that it interrupts.
pub fn run<'m, M: Map>(
    bench: Bench<'m, M>,
    cells: &mut [u8],
    text: &[u8],
    first_line: LineNumber,
) -> (Bench<'m, M>, Result<usize, RunFault>)
    ensures answer { result.1 ≡ run_answer (M.forward (map_of bench.entry)) (M.backward (map_of bench.entry)) (rest_scene bench.entry cells.old) first_line text.now }
    ensures scene { rest_scene result.0 cells.new ≡ run_scene (M.forward (map_of bench.entry)) (M.backward (map_of bench.entry)) (rest_scene bench.entry cells.old) first_line text.now }
    ensures map { map_of result.0 ≡ map_of bench.entry }
    // of a bench that was opened on l, and to which nothing but the cells that it held was ever lent: it rests on the lattice that comes of l by
    // the standing actions
    ensures stands { (l : Lattice) → Within l → HasLived (M.forward (map_of bench.entry)) (M.backward (map_of bench.entry)) l (rest_scene bench.entry cells.old) → RestsOn (M.forward (map_of bench.entry)) (M.backward (map_of bench.entry)) l (rest_scene result.0 cells.new) }
    // the calls of the run are further calls of the same life
    ensures lived { (l : Lattice) → HasLived (M.forward (map_of bench.entry)) (M.backward (map_of bench.entry)) l (rest_scene bench.entry cells.old) → HasLived (M.forward (map_of bench.entry)) (M.backward (map_of bench.entry)) l (rest_scene result.0 cells.new) }
{
    run_checked(bench, cells, text, first_line)
}

// Runs the script if the check of cells and text accepts it.
fn run_checked<'m, M: Map>(
    bench: Bench<'m, M>,
    cells: &mut [u8],
    text: &[u8],
    first_line: LineNumber,
) -> (Bench<'m, M>, Result<usize, RunFault>)
    ensures answer { result.1 ≡ run_answer (M.forward (map_of bench.entry)) (M.backward (map_of bench.entry)) (rest_scene bench.entry cells.old) first_line text.now }
    ensures scene { rest_scene result.0 cells.new ≡ run_scene (M.forward (map_of bench.entry)) (M.backward (map_of bench.entry)) (rest_scene bench.entry cells.old) first_line text.now }
    ensures map { map_of result.0 ≡ map_of bench.entry }
{
    match check_run(&bench.start(), cells, text, first_line) {
        Ok(count) => run_records(bench, cells, text, first_line, count),
        Err(fault) => (bench, Err(fault)),
    }
}

// Runs a script that was checked.
fn run_records<'m, M: Map>(
    bench: Bench<'m, M>,
    cells: &mut [u8],
    text: &[u8],
    first_line: LineNumber,
    count: usize,
) -> (Bench<'m, M>, Result<usize, RunFault>)
    requires { count_of (script first_line text.now) ≡ Ok count }
    ensures answer { (rs : List ScriptRecord) → script first_line text.now ≡ Ok rs → result.1 ≡ answer_of first_line (first_refused (M.forward (map_of bench.entry)) (M.backward (map_of bench.entry)) (rest_scene bench.entry cells.old) rs) rs }
    ensures scene { (rs : List ScriptRecord) → script first_line text.now ≡ Ok rs → rest_scene result.0 cells.new ≡ run_of (M.forward (map_of bench.entry)) (M.backward (map_of bench.entry)) (rest_scene bench.entry cells.old) (Ok rs) }
    ensures map { map_of result.0 ≡ map_of bench.entry }
{
    let records = Records::new(text, first_line);
    let (bench, answer) = make_records(AnyBench::Rest(bench), cells, records, count);
    (come_to_rest(bench, cells), answer)
}
