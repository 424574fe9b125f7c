//! Count rules, known as outer totalistic: of the neighbours only the number of those that are present matters.
ghost use Rattle.std.specs.Prelude.{◌≤◌};
ghost use Rattle.rules.specs.Limits.{max_mask};
ghost use Rattle.std.proofs.Common.{rules};

use crate::neighbourhood::Neighbourhood;
use crate::refusal::RuleRefusal;
use crate::rule::LocalRule;

const MAX_MASK: u32 = 511;

/// An outer totalistic rule: a set of neighbour counts at which an absent cell is born, and one at which a present cell survives. Each set is a
/// mask with a bit for each count from 0 to 8. Life, written B3/S23, has birth 8 and survival 12.
#[derive(Clone, Copy)]
pub struct CountRule {
    birth: u16,
    survival: u16,
    ghost births: { birth ≤ max_mask },
    ghost survivals: { survival ≤ max_mask },
}

impl CountRule {
    ghost use Rattle.rules.specs.Refusals.{Masked};

    /// The rule with these masks. Refused if one of them is above 511, and so has a bit for a count above 8.
    pub fn new(birth: u32, survival: u32) -> Result<CountRule, RuleRefusal>
        ensures { Masked birth survival result }
    {
        if birth > MAX_MASK || survival > MAX_MASK {
            return Err(RuleRefusal::Mask);
        }
        Ok(CountRule {
            birth: birth as u16,
            survival: survival as u16,
        })
    }
}

impl LocalRule for CountRule {
    ghost use Rattle.rules.specs.Rules.{count_answer, birth_of, survival_of};

    ghost answer = { λ r. count_answer (birth_of r) (survival_of r) };

    ghost binary = { Prim.search rules };

    fn answer_to(&self, around: Neighbourhood) -> u8 {
        let mask = if around.centre() == 1 {
            self.survival
        } else {
            self.birth
        };
        ((mask >> around.neighbours()) % 2) as u8
    }
}
