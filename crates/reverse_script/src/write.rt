//! Writing the reverse script of a journal.
ghost use Rattle.std.specs.Prelude.{◌≡◌, ◌≤◌, length, IsOk};
ghost use Rattle.journal.specs.Journals.{standing_of};
ghost use Rattle.ledger.specs.Homes.{home_script};
ghost use Rattle.reverse_script.specs.Written.{ScriptWritten, max_script};
ghost use Rattle.text.specs.Puts.{put_at};

use crate::put::put_reversed;
use crate::refusal::ScriptRefusal;
use journal::backwards::Backwards;
use journal::journal::Journal;

// An entry takes at most 28 bytes: an edit of one flip with three digits each for column, row and mask.
const MAX_SCRIPT: usize = 28 * 256;

// Writes the script, and returns its length.
fn put_all(journal: &Journal, script: &mut [u8]) -> usize
    requires { max_script ≤ length script.old }
    ensures memory { script.new ≡ put_at script.old 0 (home_script (standing_of journal.now)) }
    ensures len { result ≡ length (home_script (standing_of journal.now)) }
    ensures short { result ≤ max_script }
{
    let mut end = 0;
    let mut actions = Backwards::new(journal);
    while let Some(action) = actions.next() {
        end = put_reversed(action, script, end);
    }
    end
}

/// Writes the records that undo the standing actions of the journal, from the last to the first, as text. Returns the length of the text in bytes.
/// Refused with `MemoryTooShort` if the memory has fewer bytes.
pub fn write_reverse_script(journal: &Journal, memory: &mut [u8]) -> Result<usize, ScriptRefusal>
    ensures answer { ScriptWritten (standing_of journal.now) memory.old memory.new result }
    // a memory of 7,168 bytes is never too short
    ensures enough { max_script ≤ length memory.old → IsOk result }
{
    let mut script = [0; MAX_SCRIPT];
    let end = put_all(journal, &mut script);
    if memory.len() < end {
        return Err(ScriptRefusal::MemoryTooShort);
    }
    memory[..end].copy_from_slice(&script[..end]);
    Ok(end)
}
