//! How many moves the layer `Times` makes for one: 0 to 1,000.
ghost use Rattle.std.specs.Prelude.{◌≡◌, ◌≤◌};
ghost use Rattle.layers.specs.Limits.{max_count};

use crate::refusal::CountRefusal;

const MAX_COUNT: u32 = 1_000;

/// A number of moves. The limit on it is part of the type.
#[derive(Clone, Copy)]
pub struct Count {
    number: u32,
    ghost few: { number ≤ max_count },
}

impl Count {
    ghost use Rattle.layers.specs.Refusals.{Counted};
    ghost use Rattle.layers.specs.Counts.{number_of};

    /// A count of this many moves; refused above 1,000.
    pub fn new(number: u32) -> Result<Count, CountRefusal>
        ensures { Counted number result }
    {
        if number > MAX_COUNT {
            return Err(CountRefusal::TooLarge);
        }
        Ok(Count { number })
    }

    /// The number of moves.
    pub fn number(&self) -> u32
        ensures { result ≡ number_of self.now }
    {
        self.number
    }
}
