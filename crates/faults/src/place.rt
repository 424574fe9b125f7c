//! Where a field stands in a text.

/// The line of a field, and its number on that line. Fields are counted from 1, and lines from the number of the text's first line, a `LineNumber`, so
/// a reader never gives a 0. A report has 0 where a fault concerns no single field or no line.
#[derive(Clone, Copy, PartialEq, Eq, Debug)]
pub struct Place {
    pub line: usize,
    pub field: usize,
}
