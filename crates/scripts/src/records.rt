//! The records of a text, one after another.
ghost use Rattle.std.specs.Prelude.{◌≡◌, ℕ, List, [], ◌∷◌};
ghost use Rattle.text.specs.Fields.{bytes_of};
ghost use Rattle.text.specs.FieldsOfLines.{Stands, HasFields, StandsFrom};
ghost use Rattle.text.specs.Readers.{fields_read_of};
ghost use Rattle.scripts.specs.declared.word.Word.TheVariants.{Step, Flip};
ghost use Rattle.scripts.specs.Judgements.{read_as, judged};

use crate::record::Record;
use crate::state::State;
use crate::word::Word;
use faults::line_number::LineNumber;
use faults::record::RecordFault;
use text::field::Field;
use text::line::Line;
use text::reader::Reader;

// A step with the count in this field.
fn step(count: Field<'_>) -> Result<Record, RecordFault>
    ensures { (n : ℕ) → Stands count.entry n 2 → result ≡ read_as Step n (bytes_of count.entry ∷ []) }
{
    Ok(Record::Step(count.signed()?))
}

// A flip with the numbers in these fields.
fn flip(col: Field<'_>, row: Field<'_>, mask: Field<'_>) -> Result<Record, RecordFault>
    ensures { (n : ℕ) → Stands col.entry n 2 → Stands row.entry n 3 → Stands mask.entry n 4 → result ≡ read_as Flip n (bytes_of col.entry ∷ bytes_of row.entry ∷ bytes_of mask.entry ∷ []) }
{
    Ok(Record::Flip {
        col: col.number()?,
        row: row.number()?,
        mask: mask.number()?,
    })
}

// The record that a line is in this state, or the line's first fault.
fn judge(line: Line<'_>, state: State) -> Result<Record, RecordFault>
    ensures { (n : ℕ) (fs : List (List ℕ)) → HasFields line.entry fs → StandsFrom line.entry n 1 → result ≡ judged state n fs }
{
    let at = line.word().place().line;
    let Some(word) = Word::of(line.word().bytes()) else {
        return Err(RecordFault::UnknownWord { line: at });
    };
    let permitted = if state.permits(word) {
        Ok(())
    } else {
        Err(RecordFault::NotPermitted { line: at })
    };
    match (word, line) {
        (Word::Step, Line::Two(_, count)) => permitted.and(step(count)),
        (Word::Flip, Line::Four(_, col, row, mask)) => permitted.and(flip(col, row, mask)),
        (Word::Undo, Line::One(_)) => permitted.and(Ok(Record::Undo)),
        (Word::Redo, Line::One(_)) => permitted.and(Ok(Record::Redo)),
        (Word::Open, Line::One(_)) => permitted.and(Ok(Record::Open)),
        (Word::Clear, Line::One(_)) => permitted.and(Ok(Record::Clear)),
        (Word::Close, Line::One(_)) => permitted.and(Ok(Record::Close)),
        _ => Err(RecordFault::FieldCount { line: at }),
    }
}

/// A reader of records, always at the beginning of a line, and the state that they have led to.
#[derive(Clone, Copy, Debug)]
pub struct Records<'t> {
    reader: Reader<'t>,
    state: State,
    ghost begins: { fields_read_of reader ≡ 0 },
}

impl<'t> Records<'t> {
    ghost use Rattle.text.specs.Readers.{text_of, line_of, position_of};
    ghost use Rattle.scripts.specs.Reading.{reader_of, state_of, left_of, next_of, MovedBy, LeftAfter};
    ghost use Rattle.scripts.specs.Laws.{Reads};
    ghost use Rattle.scripts.specs.declared.record.Record.{Record};
    ghost use Rattle.scripts.specs.declared.state.State.TheVariants.{Rest};

    /// A reader at the beginning of the text and at rest. The first line has the number `first_line`.
    #[tactic(auto, using(crate::proofs::ScriptLaws::reads_itself))]
    pub fn new(text: &'t [u8], first_line: LineNumber) -> Records<'t>
        ensures text { text_of (reader_of result) ≡ text.now }
        ensures position { position_of (reader_of result) ≡ 0 }
        ensures line { line_of (reader_of result) ≡ first_line }
        ensures state { state_of result ≡ Rest }
        // the written form of a list of records is read as that list
        ensures written { (rs : List Record) → Reads Rest rs Rest text.now → left_of result ≡ Ok rs }
    {
        Records {
            reader: Reader::new(text, first_line),
            state: State::Rest,
        }
    }

    /// The line of the next record.
    pub fn line(&self) -> usize
        ensures { result ≡ line_of (reader_of self.now) }
    {
        self.reader.line()
    }

    /// The state after the records read so far.
    pub fn state(&self) -> State
        ensures { result ≡ state_of self.now }
    {
        self.state
    }

    /// The next record, or the first fault of its line. At the end of the text, `None` at rest and a fault in session. Only a record moves the reader.
    #[tactic(auto, using(crate::proofs::Lefts::left_after))]
    pub fn next_record(&mut self) -> Result<Option<Record>, RecordFault>
        ensures answer { result ≡ next_of self.old }
        ensures moved { MovedBy self.old result self.new }
        ensures left { LeftAfter self.old result self.new }
    {
        self.take_record()
    }

    fn take_record(&mut self) -> Result<Option<Record>, RecordFault>
        ensures answer { result ≡ next_of self.old }
        ensures moved { MovedBy self.old result self.new }
    {
        let mut ahead = self.reader;
        let Some(line) = ahead.next_line() else {
            return match self.state {
                State::Rest => Ok(None),
                State::Session => Err(RecordFault::EndsInSession {
                    line: self.reader.line(),
                }),
            };
        };
        let record = judge(line, self.state)?;
        self.state = self.state.after(record.word());
        self.reader = ahead;
        Ok(Some(record))
    }
}
