//! The number of a line.
ghost use Rattle.std.specs.Prelude.{◌≡◌, ℕ, ◌+◌, ◌-◌, ◌≤◌, ◌^◌};

use std::marker::Model;

/// The number that the first line of a text has: 1, or more where the text is part of another and lines come before it. It is never 0, which a report
/// has where a fault concerns no line.
#[derive(Clone, Copy, PartialEq, Eq, Debug)]
pub struct LineNumber {
    // how many lines come before
    before: u32,
}

impl Model for LineNumber {
    ghost Value = { ℕ };

    ghost view = { λ l. l.before + 1 };

    ghost inverse = { λ n. record { before = n - 1 } };
}

impl LineNumber {
    /// The number of a line with no other before it.
    pub fn first() -> LineNumber
        ensures { result ≡ 1 }
    {
        LineNumber { before: 0 }
    }

    /// The number of the line after this many others.
    pub fn after(lines: u32) -> LineNumber
        ensures { result ≡ lines + 1 }
    {
        LineNumber { before: lines }
    }

    /// The number, at most 2³².
    pub fn number(self) -> usize
        ensures value { result ≡ self }
        ensures some { 1 ≤ result }
        ensures limit { result ≤ 2 ^ 32 }
    {
        self.before as usize + 1
    }
}
