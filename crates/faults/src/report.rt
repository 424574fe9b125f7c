//! What is reported of a fault: the four numbers that docs/TEXT.md lists for each kind.
ghost use Rattle.std.specs.Prelude.{◌≡◌, Some};
ghost use Rattle.faults.specs.Reports.{field_report, record_report, run_report};

use crate::field::FieldFault;
use crate::record::RecordFault;
use crate::run::RunFault;
use std::fmt;

/// The four numbers of a fault. Printed, they follow the word `fault` on one line, in this order and separated by tabs; no newline is added.
#[derive(Clone, Copy, PartialEq, Eq, Debug)]
pub struct Report {
    /// Which layer found it: a field (1), a record or a whole text (2), or the bench (3).
    pub layer: u8,
    /// The cause, as docs/REFUSALS.md numbers it.
    pub number: u8,
    /// 0 for a fault that is on no line.
    pub line: usize,
    /// 0 for a fault of no single field.
    pub field: usize,
}

impl From<FieldFault> for Report {
    ghost from_gives = { λ fault r. r ≡ field_report fault };

    fn from(fault: FieldFault) -> Report {
        let (number, place) = match fault {
            FieldFault::NotANumber(place) => (22, place),
            FieldFault::WrongDigits(place) => (31, place),
        };
        Report {
            layer: 1,
            number,
            line: place.line,
            field: place.field,
        }
    }
}

// A fault of the second layer.
fn of_record(number: u8, line: usize, field: usize) -> Report
    ensures { result ≡ record { layer = 2; number = number; line = line; field = field } }
{
    Report {
        layer: 2,
        number,
        line,
        field,
    }
}

impl From<RecordFault> for Report {
    ghost from_gives = { λ fault r. r ≡ record_report fault };

    fn from(fault: RecordFault) -> Report {
        match fault {
            RecordFault::Field(below) => Report::from(below),
            RecordFault::TooLong => of_record(20, 0, 0),
            RecordFault::Unfinished { line } => of_record(21, line, 0),
            RecordFault::UnknownWord { line } => of_record(23, line, 1),
            RecordFault::FieldCount { line } => of_record(24, line, 0),
            RecordFault::NotPermitted { line } => of_record(25, line, 0),
            RecordFault::EndsInSession { line } => of_record(26, line, 0),
            RecordFault::Start { cause, line } => of_record(u8::from(cause), line, 0),
            RecordFault::MissingLine { line } => of_record(32, line, 0),
            RecordFault::UnknownMap { line } => of_record(9, line, 2),
            RecordFault::CellsTooShort => of_record(30, 0, 0),
        }
    }
}

impl From<RunFault> for Report {
    ghost from_gives = { λ fault r. r ≡ run_report fault };

    fn from(fault: RunFault) -> Report {
        match fault {
            RunFault::Record(below) => Report::from(below),
            RunFault::Bench { cause, line } => Report {
                layer: 3,
                number: u8::from(cause),
                line,
                field: 0,
            },
        }
    }
}

impl fmt::Display for Report {
    ghost use Rattle.faults.specs.Texts.{report_text};

    ghost output = { λ r. Some (report_text r) };

    fn fmt<W: fmt::Write>(&self, f: &mut fmt::Formatter<W>) -> fmt::Result {
        write!(
            f,
            "fault\t{}\t{}\t{}\t{}",
            self.layer, self.number, self.line, self.field
        )
    }
}
