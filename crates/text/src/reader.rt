//! Reading a text field by field, without copying it.
ghost use Rattle.std.specs.Prelude.{◌≡◌, ◌+◌, ◌≤◌, ◌<◌, ◌^◌, length};
ghost use Rattle.std.specs.List.{position_or_len};
ghost use Rattle.text.specs.Lines.{is_separator};

use crate::field::Field;
use faults::line_number::LineNumber;
use faults::place::Place;

/// A position in a borrowed text, and the line and field that come next there.
#[derive(Clone, Copy, Debug)]
pub struct Reader<'t> {
    text: &'t [u8],
    // the number of bytes read
    position: usize,
    // the line of the next field
    line: usize,
    // the number of fields of that line that were read
    fields_read: usize,
    ghost within: { position ≤ length text.now },
    ghost countable: { line + fields_read ≤ position + 2 ^ 32 },
}

// The number of bytes before the first tab or newline, or of all bytes if there is none.
#[tactic(auto, using(std::proofs::lemmas::List::Sums::position_or_len_is, crate::proofs::Separators::no_separator))]
fn field_len(bytes: &[u8]) -> usize
    ensures value { result ≡ position_or_len is_separator bytes.now }
    ensures within { result ≤ length bytes.now }
{
    for (index, byte) in bytes.iter().enumerate() {
        if *byte == b'\t' || *byte == b'\n' {
            return index;
        }
    }
    bytes.len()
}

impl<'t> Reader<'t> {
    ghost use Rattle.std.specs.Prelude.{IfNone, IfSome, IsNone, ◌↔◌};
    ghost use Rattle.text.specs.Fields.{FirstOf};
    ghost use Rattle.text.specs.Readers.{lent_of, position_of, line_of, fields_read_of, rest_of, AtEnd, Gives};

    /// A reader at the beginning of the text, whose lines are numbered from `first_line` on.
    pub fn new(text: &'t [u8], first_line: LineNumber) -> Reader<'t>
        ensures lent { lent_of result ≡ text.entry }
        ensures position { position_of result ≡ 0 }
        ensures line { line_of result ≡ first_line }
        ensures fields { fields_read_of result ≡ 0 }
    {
        Reader {
            text,
            position: 0,
            line: first_line.number(),
            fields_read: 0,
        }
    }

    /// The number of bytes read so far.
    pub fn position(&self) -> usize
        ensures { result ≡ position_of self.now }
    {
        self.position
    }

    /// The line of the next field.
    pub fn line(&self) -> usize
        ensures { result ≡ line_of self.now }
    {
        self.line
    }

    /// The next field. `None` at the end of the text, however often it is called there.
    #[tactic(auto, using(crate::proofs::FirstFields::first_field))]
    pub fn next_field(&mut self) -> Option<Field<'t>>
        ensures given { IfSome result (λ f. Gives self.old f self.new) }
        ensures first { IfSome result (λ f. FirstOf f (rest_of self.old) (rest_of self.new)) }
        ensures end { IsNone result ↔ AtEnd self.old }
        ensures same { IfNone result (self.new ≡ self.old) }
    {
        self.take_field()
    }

    fn take_field(&mut self) -> Option<Field<'t>>
        ensures given { IfSome result (λ f. Gives self.old f self.new) }
        ensures end { IsNone result ↔ AtEnd self.old }
        ensures same { IfNone result (self.new ≡ self.old) }
    {
        let rest = &self.text[self.position..];
        if rest.is_empty() && self.fields_read == 0 {
            return None;
        }
        let len = field_len(rest);
        let bytes = &rest[..len];
        let place = Place {
            line: self.line,
            field: self.fields_read + 1,
        };
        self.position += len;
        if len == rest.len() {
            self.line += 1;
            self.fields_read = 0;
            return Some(Field::Unfinished { bytes, place });
        }
        self.position += 1;
        if rest[len] == b'\t' {
            self.fields_read += 1;
            return Some(Field::Inner { bytes, place });
        }
        self.line += 1;
        self.fields_read = 0;
        Some(Field::Last { bytes, place })
    }
}
