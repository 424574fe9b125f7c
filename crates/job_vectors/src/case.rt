//! One line of the input.
use anyhow::Context;
use std::alloc::Global;

// A job, and how many bytes the cells memory has.
#[derive(Drop)]
pub(crate) struct Case {
    pub room: usize,
    pub job: Vec<u8>,
}

// A single `-` stands for no bytes.
fn bytes_of(alloc: Global, digits: &str) -> anyhow::Result<Vec<u8>> {
    if digits == "-" {
        return Ok(Vec::new(alloc));
    }
    Ok(hex::decode(alloc, digits)?)
}

impl Case {
    pub(crate) fn parse(alloc: Global, line: &str) -> anyhow::Result<Case> {
        let mut fields = line.split(' ');
        let room = fields.next().context("no size of a memory")?.parse()?;
        let job = bytes_of(alloc, fields.next().context("no job")?)?;
        Ok(Case { room, job })
    }
}
