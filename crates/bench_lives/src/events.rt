//! The events of the lives.
use lives::event::{Event, Lent};
use scripts::record::Record;
use std::alloc::{AllocError, Allocator};

fn own(call: Record) -> Event {
    Event {
        call,
        lent: Lent::Own,
    }
}

fn part(len: usize, call: Record) -> Event {
    Event {
        call,
        lent: Lent::Part(len),
    }
}

fn flip(col: u32, row: u32, mask: u32) -> Record {
    Record::Flip { col, row, mask }
}

fn at_rest() -> [Event; 19] {
    [
        own(Record::Undo),
        own(Record::Redo),
        own(Record::Step(0)),
        own(Record::Step(i32::MIN)),
        own(Record::Step(i32::MAX)),
        own(Record::Step(-10_001)),
        own(Record::Step(100)),
        own(Record::Step(-7)),
        part(95, Record::Step(3)),
        part(96, Record::Step(3)),
        part(1_000, Record::Step(0)),
        own(flip(0, 0, 1)),
        own(Record::Clear),
        own(Record::Close),
        own(Record::Undo),
        part(0, Record::Undo),
        part(97, Record::Redo),
        own(Record::Redo),
        own(Record::Undo),
    ]
}

fn in_session() -> [Event; 19] {
    [
        part(96, Record::Open),
        own(Record::Undo),
        own(Record::Redo),
        own(Record::Step(1)),
        own(Record::Open),
        own(flip(3, 2, 5)),
        own(flip(11, 7, 255)),
        own(flip(12, 0, 1)),
        own(flip(0, 8, 0)),
        own(flip(0, 0, 0)),
        own(flip(0, 0, 256)),
        part(95, flip(0, 0, 1)),
        own(Record::Clear),
        part(95, Record::Clear),
        own(Record::Clear),
        own(flip(3, 2, 5)),
        own(flip(3, 2, 4)),
        own(flip(0, 0, 3)),
        part(0, Record::Close),
    ]
}

fn at_the_end() -> [Event; 10] {
    [
        own(Record::Redo),
        own(Record::Step(20)),
        own(Record::Undo),
        own(Record::Undo),
        own(Record::Redo),
        own(Record::Open),
        own(Record::Close),
        own(Record::Step(1)),
        own(Record::Step(2)),
        own(Record::Undo),
    ]
}

// Every call, every cause of a refusal but 17, and events that are skipped.
pub(crate) fn long_life<A: Allocator>(heap: A) -> Result<Vec<Event, A>, AllocError> {
    let mut events = Vec::new(heap);
    events.extend_from_slice(&at_rest())?;
    events.extend_from_slice(&in_session())?;
    events.extend_from_slice(&at_the_end())?;
    Ok(events)
}

// A life that ends in session.
pub(crate) fn open_end() -> [Event; 4] {
    [
        own(Record::Step(5)),
        own(Record::Open),
        own(flip(1, 1, 1)),
        own(Record::Step(1)),
    ]
}
