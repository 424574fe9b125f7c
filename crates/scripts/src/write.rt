//! Writing a record.
ghost use Rattle.std.specs.Prelude.{◌≡◌, ◌+◌, ◌≤◌, ◌∷◌, ◌++◌};
ghost use Rattle.arrayvec.specs.ArrayString.{array_string_len};
ghost use Rattle.scripts.specs.Records.{written};
ghost use Rattle.scripts.specs.Writing.{RecordPut};

use crate::record::Record;
use arrayvec::ArrayString;
use itoa::{Buffer, Integer};

// The bytes of the longest line, a flip with three numbers of ten digits.
const MAX_LINE: usize = 38;

// Appends the number as one more field.
fn push_number<I: Integer>(line: &mut ArrayString<MAX_LINE>, number: I)
    requires { array_string_len line.old + 1 + I.MAX_STR_LEN ≤ MAX_LINE }
    ensures bytes { line.new.bytes ≡ line.old.bytes ++ 9 ∷ I.text number }
    ensures len { array_string_len line.new ≤ array_string_len line.old + 1 + I.MAX_STR_LEN }
{
    line.push('\t');
    line.push_str(Buffer::new().format(number));
}

// The line of the record, with the newline.
fn written(record: Record) -> ArrayString<MAX_LINE>
    ensures { result.bytes ≡ written «record» }
{
    let mut line = ArrayString::new();
    line.push_str(record.word().spelling());
    match record {
        Record::Step(count) => push_number(&mut line, count),
        Record::Flip { col, row, mask } => {
            push_number(&mut line, col);
            push_number(&mut line, row);
            push_number(&mut line, mask);
        }
        Record::Undo | Record::Redo | Record::Open | Record::Clear | Record::Close => {}
    }
    line.push('\n');
    line
}

/// Writes the record's line, newline included, into the memory from place `at` on. Returns the place after it; `None` if there is no room for it.
pub fn write_record(record: Record, memory: &mut [u8], at: usize) -> Option<usize>
    ensures { RecordPut «record» at memory.old memory.new result }
{
    let line = written(record);
    let end = at.checked_add(line.len())?;
    if memory.len() < end {
        return None;
    }
    memory[at..end].copy_from_slice(line.as_bytes());
    Some(end)
}
