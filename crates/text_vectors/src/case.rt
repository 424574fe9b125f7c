//! One line of the input.
use anyhow::{Context, bail};
use faults::line_number::LineNumber;
use std::alloc::Global;

#[derive(Clone, Copy, PartialEq, Eq)]
pub(crate) enum Kind {
    Script,
    Board,
}

// A text, what to read it as, the number of its first line, and how many cells the memory has.
#[derive(Drop)]
pub(crate) struct Case {
    pub kind: Kind,
    pub first_line: LineNumber,
    pub room: usize,
    pub text: Vec<u8>,
}

// A single `-` stands for no bytes.
fn bytes_of(alloc: Global, digits: &str) -> anyhow::Result<Vec<u8>> {
    if digits == "-" {
        return Ok(Vec::new(alloc));
    }
    Ok(hex::decode(alloc, digits)?)
}

// Lines count from 1.
fn line_of(digits: &str) -> anyhow::Result<LineNumber> {
    let number: usize = digits.parse()?;
    let lines_before = number.checked_sub(1).context("line 0")?;
    Ok(LineNumber::after(u32::try_from(lines_before)?))
}

impl Case {
    pub(crate) fn parse(alloc: Global, line: &str) -> anyhow::Result<Case> {
        let mut fields = line.split(' ');
        let kind = match fields.next() {
            Some("board") => Kind::Board,
            Some("script") => Kind::Script,
            _ => bail!("neither board nor script"),
        };
        let first_line = line_of(fields.next().context("no first line")?)?;
        let room = fields.next().context("no size of a memory")?.parse()?;
        let text = bytes_of(alloc, fields.next().context("no text")?)?;
        Ok(Case {
            kind,
            first_line,
            room,
            text,
        })
    }
}
