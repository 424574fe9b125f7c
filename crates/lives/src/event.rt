//! The events of a life, and what is reported of each.
use any_bench::answer::Answer;
use bench::bench::Counts;
use scripts::record::Record;

/// The memory that a call gets as its cells.
#[derive(Clone, Copy, PartialEq, Eq, Debug)]
pub enum Lent {
    /// The cells of its own bench.
    Own,
    /// This many of the first bytes of `Memories::second`, or all of them if it has fewer.
    Part(usize),
}

/// A call, and which memory it gets. For `open` and `close`, which need no cells, `lent` is ignored.
#[derive(Clone, Copy, PartialEq, Eq, Debug)]
pub struct Event {
    pub call: Record,
    pub lent: Lent,
}

/// What a bench reports of an event: the answer to its call, and the counts after it.
#[derive(Clone, Copy, PartialEq, Eq, Debug)]
pub struct Reply {
    pub answer: Answer,
    pub counts: Counts,
}

/// What the bench and its mirror report of the same event.
#[derive(Clone, Copy, PartialEq, Eq, Debug)]
pub struct Seen {
    pub bench: Reply,
    pub mirror: Reply,
}
