//! The trait of a local rule.
//!
//! An implementation consists of the ghost function `answer`, which says what the rule's value is for each neighbourhood number, the proof that
//! this is 0 or 1, and the method `answer_to`, which computes it.
ghost use Rattle.std.specs.Prelude.{◌≡◌, ℕ};
ghost use Rattle.rules.specs.Neighbourhoods.{number_of};
ghost use Rattle.rules.specs.Rules.{Binary};

use crate::neighbourhood::Neighbourhood;

/// A local rule, which may be any function from neighbourhoods to 0 or 1. It need not be reversible: its lift always is.
pub trait LocalRule {
    /// The rule's value for each neighbourhood number.
    ghost answer: { Self → ℕ → ℕ };

    /// The rule's value for this neighbourhood. It is a number, 0 or 1, since the lift XORs it into a past.
    fn answer_to(&self, around: Neighbourhood) -> u8
        ensures { result ≡ answer self.now (number_of around) };

    /// Each value is 0 or 1.
    ghost binary: { (r : Self) → Binary (answer r) };
}
