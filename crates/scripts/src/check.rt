//! The check of a whole script.
ghost use Rattle.std.specs.Prelude.{◌≡◌, ◌↔◌, List, IfErr, IfOk, Ok, Err, length};
ghost use Rattle.faults.specs.Reports.{NamesLineFrom};
ghost use Rattle.faults.specs.declared.record.RecordFault.{RecordFault};
ghost use Rattle.scripts.specs.Judgements.{script, count_of};
ghost use Rattle.scripts.specs.Laws.{IsScript, TextFault};
ghost use Rattle.scripts.specs.declared.record.Record.{Record};

use crate::records::Records;
use faults::line_number::LineNumber;
use faults::record::RecordFault;
use text::whole::check_whole;

// Reads all records and counts them.
fn count_records(text: &[u8], first_line: LineNumber) -> Result<usize, RecordFault>
    ensures { result ≡ count_of (script first_line text.now) }
{
    check_whole(text, first_line)?;
    let mut records = Records::new(text, first_line);
    let mut count = 0;
    while records.next_record()?.is_some() {
        count += 1;
    }
    Ok(count)
}

/// How many records the script has, or its first fault. Its first line has the number `first_line`.
#[tactic(auto, using(crate::proofs::ScriptLaws::accepted_count, crate::proofs::ScriptLaws::taken, crate::proofs::ScriptRefused::check_first, crate::proofs::FaultLines::fault_named))]
pub fn check(text: &[u8], first_line: LineNumber) -> Result<usize, RecordFault>
    ensures answer { result ≡ count_of (script first_line text.now) }
    // nothing is accepted but the text of as many records
    ensures accepted { IfOk result (λ count. (rs : List Record) × IsScript rs text.now × (count ≡ length rs)) }
    // the text of a list that can be a script is accepted, and gives that list
    ensures taken { (rs : List Record) → IsScript rs text.now → (script first_line text.now ≡ Ok rs) × (result ≡ Ok (length rs)) }
    // a fault is reported exactly where it is the first one
    ensures first { (e : RecordFault) → (result ≡ Err e) ↔ TextFault first_line text.now e }
    // no line before the first has a fault
    ensures lines { IfErr result (λ e. NamesLineFrom first_line e) }
{
    count_records(text, first_line)
}
