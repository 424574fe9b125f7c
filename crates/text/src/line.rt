//! A line by the number of its fields.
use crate::field::Field;
use crate::reader::Reader;

/// The fields of a line. Each line of a script, a board or a job has one, two or four.
#[derive(Clone, Copy, Debug)]
pub enum Line<'t> {
    /// A line with one field, such as an undo.
    One(Field<'t>),
    /// A line with two fields, such as a step, a row of a board or the map line of a job.
    Two(Field<'t>, Field<'t>),
    /// A line with four fields: a flip, or the first line of a board.
    Four(Field<'t>, Field<'t>, Field<'t>, Field<'t>),
    /// The first field of a line with any other number of fields.
    Other(Field<'t>),
}

impl<'t> Line<'t> {
    ghost use Rattle.std.specs.Prelude.{◌≡◌};
    ghost use Rattle.text.specs.FieldsOfLines.{word_field};

    /// The first field.
    pub fn word(&self) -> Field<'t>
        ensures { result ≡ word_field self.now }
    {
        match *self {
            Line::One(word) | Line::Two(word, _) | Line::Four(word, _, _, _) | Line::Other(word) =>
                { word }
        }
    }
}

impl<'t> Reader<'t> {
    ghost use Rattle.std.specs.Prelude.{◌≡◌, ◌+◌, ◌<◌, ◌↔◌, IfNone, IfSome, IsNone, length};
    ghost use Rattle.text.specs.FieldsOfLines.{GivesLine};
    ghost use Rattle.text.specs.Lines.{first_line, below_first, fields};
    ghost use Rattle.text.specs.Readers.{AtEnd, lent_of, rest_of, line_of, fields_read_of};

    // Skips to the beginning of the next line, from just after a tab.
    #[tactic(auto, using(crate::proofs::FirstFields::stays_on_line, crate::proofs::FirstFields::leaves_line, crate::proofs::LineFields::some_field))]
    fn skip_line(&mut self)
        requires { 0 < fields_read_of self.old }
        ensures lent { lent_of self.new ≡ lent_of self.old }
        ensures rest { rest_of self.new ≡ below_first (rest_of self.old) }
        ensures line { line_of self.new ≡ line_of self.old + 1 }
        ensures some { 0 < length (fields (first_line (rest_of self.old))) }
        ensures fields { fields_read_of self.new ≡ 0 }
    {
        while let Some(field) = self.next_field() {
            if field.ends_line() {
                return;
            }
        }
    }

    /// The rest of the current line, or the whole next line if none of its fields was read yet. `None` at the end of the text.
    #[tactic(auto, using(crate::proofs::FirstFields::stays_on_line, crate::proofs::FirstFields::leaves_line, crate::proofs::LineFields::longer))]
    pub fn next_line(&mut self) -> Option<Line<'t>>
        ensures given { IfSome result (λ l. GivesLine self.old l self.new) }
        ensures end { IsNone result ↔ AtEnd self.old }
        ensures same { IfNone result (self.new ≡ self.old) }
    {
        let word = self.next_field()?;
        if word.ends_line() {
            return Some(Line::One(word));
        }
        let second = self.next_field()?;
        if second.ends_line() {
            return Some(Line::Two(word, second));
        }
        let third = self.next_field()?;
        if third.ends_line() {
            return Some(Line::Other(word));
        }
        let fourth = self.next_field()?;
        if fourth.ends_line() {
            return Some(Line::Four(word, second, third, fourth));
        }
        self.skip_line();
        Some(Line::Other(word))
    }
}
