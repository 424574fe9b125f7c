//! The limits on a text as a whole.
ghost use Rattle.std.specs.Prelude.{◌≡◌, ◌+◌};
ghost use Rattle.std.specs.List.{count_by};
ghost use Rattle.text.specs.Lines.{is_newline};
ghost use Rattle.text.specs.Wholes.{whole};

use faults::line_number::LineNumber;
use faults::record::RecordFault;

const MAX_TEXT: usize = 65_536;

// The number of newlines.
fn newlines(text: &[u8]) -> usize
    ensures { result ≡ count_by is_newline text.now }
{
    let mut count = 0;
    for byte in text {
        if *byte == b'\n' {
            count += 1;
        }
    }
    count
}

/// Checks that a text has at most 65,536 bytes (`TooLong`), and then that it is empty or ends with a newline (`Unfinished`, at its last line).
pub fn check_whole(text: &[u8], first_line: LineNumber) -> Result<(), RecordFault>
    ensures { result ≡ whole first_line text.now }
{
    if text.len() > MAX_TEXT {
        return Err(RecordFault::TooLong);
    }
    if !text.is_empty() && text[text.len() - 1] != b'\n' {
        let line = first_line.number() + newlines(text);
        return Err(RecordFault::Unfinished { line });
    }
    Ok(())
}
