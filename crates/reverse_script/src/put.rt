//! Writing records one after another.
ghost use Rattle.std.specs.Prelude.{◌≡◌, ◌+◌, ◌*◌, ◌≤◌, length, reverse};
ghost use Rattle.actions.specs.Actions.{Edit, action_of, reversed};
ghost use Rattle.text.specs.Puts.{put_at};
ghost use Rattle.reverse_script.specs.FlipTexts.{back_text};
ghost use Rattle.scripts.specs.Records.{script_of, written};
ghost use Rattle.journal.specs.Kept.{IsKept};
ghost use Rattle.ledger.specs.Ledgers.{size};
ghost use Rattle.ledger.specs.Homes.{flip_record, making};

use actions::action::ActionRef;
use actions::flip::Flip;
use scripts::record::Record;
use scripts::write::write_record;

// Writes a record at this place, and returns the place after it.
fn put(record: Record, script: &mut [u8], at: usize) -> usize
    requires { at + length (written «record») ≤ length script.old }
    ensures memory { script.new ≡ put_at script.old at (written «record») }
    ensures after { result ≡ at + length (written «record») }
{
    write_record(record, script, at).unwrap_or(at)
}

// A byte as a number of a record.
fn wide(byte: u8) -> u32
    ensures value { result ≡ byte }
    ensures small { result ≤ 255 }
{
    u32::from(byte)
}

// The record of a flip. Each of its numbers fits a byte.
#[tactic(auto, using(ledger::proofs::WrittenLengths::flip_length))]
fn record_of(flip: Flip) -> Record
    ensures is { result ≡ flip_record flip }
    ensures short { length (written result) ≤ 17 }
{
    Record::Flip {
        col: wide(flip.col),
        row: wide(flip.row),
        mask: wide(flip.mask),
    }
}

// Writes the records of flips, the last one first, and returns the place after them.
fn put_flips(flips: &[Flip], script: &mut [u8], at: usize) -> usize
    requires { at + 17 * length flips.now ≤ length script.old }
    ensures memory { script.new ≡ put_at script.old at (back_text flips.now) }
    ensures after { result ≡ at + length (back_text flips.now) }
    ensures short { result ≤ at + 17 * length flips.now }
{
    let mut end = at;
    let mut left = flips;
    while let Some((last, rest)) = left.split_last() {
        end = put(record_of(*last), script, end);
        left = rest;
    }
    end
}

// Writes a session that takes flips back, and returns the place after it.
#[tactic(auto, using(crate::proofs::FlipsBack::session_text))]
fn put_session(flips: &[Flip], script: &mut [u8], at: usize) -> usize
    requires { at + 17 * length flips.now + 11 ≤ length script.old }
    ensures memory { script.new ≡ put_at script.old at (script_of (making (Edit (reverse flips.now)))) }
    ensures after { result ≡ at + length (script_of (making (Edit (reverse flips.now)))) }
    ensures short { result ≤ at + 17 * length flips.now + 11 }
{
    let opened = put(Record::Open, script, at);
    let flipped = put_flips(flips, script, opened);
    put(Record::Close, script, flipped)
}

// Writes the records that take an action back, and returns the place after them.
#[tactic(auto, using(ledger::proofs::WrittenLengths::step_length))]
pub(crate) fn put_reversed(action: ActionRef<'_>, script: &mut [u8], at: usize) -> usize
    requires known { IsKept (action_of action) }
    requires room { at + 28 * size (action_of action) ≤ length script.old }
    ensures memory { script.new ≡ put_at script.old at (script_of (making (reversed (action_of action.entry)))) }
    ensures after { result ≡ at + length (script_of (making (reversed (action_of action.entry)))) }
    ensures short { result ≤ at + 28 * size (action_of action.entry) }
{
    match action {
        ActionRef::Step(count) => put(Record::Step(count.opposite().get()), script, at),
        ActionRef::Edit(flips) => put_session(flips, script, at),
    }
}
