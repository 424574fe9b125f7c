//! The table rule: an entry for each neighbourhood number.
ghost use Rattle.std.specs.Prelude.{◌≡◌, replicate};
ghost use Rattle.rules.specs.Bits.{AllBits};
ghost use Rattle.std.proofs.Common.{rules};

pub mod life;

use crate::neighbourhood::Neighbourhood;
use crate::refusal::RuleRefusal;
use crate::rule::LocalRule;
use tables::entries::all_below;

/// A local rule by its values, one for each neighbourhood number in order.
#[derive(Clone, Copy)]
pub struct TableRule {
    entries: [u8; 512],
    ghost bits: { AllBits entries },
}

fn zeros() -> [u8; 512]
    ensures entries { result ≡ replicate 512 0 }
    ensures bits { AllBits result }
{
    [0; 512]
}

impl TableRule {
    ghost use Rattle.rules.specs.Refusals.{TableFilled};
    ghost use Rattle.rules.specs.Rules.{entries_of};

    /// The rule whose value is always 0.
    pub fn new() -> TableRule
        ensures { entries_of result ≡ replicate 512 0 }
    {
        TableRule { entries: zeros() }
    }

    /// Takes these answers in place of all that are there, or none of them: if there are not 512 (`Entries`), or else if one is above 1 (`TooLarge`).
    pub fn fill(&mut self, entries: &[u8]) -> Result<(), RuleRefusal>
        ensures { TableFilled entries.now (entries_of self.new) (self.new ≡ self.old) result }
    {
        let entries: [u8; 512] = entries.try_into().map_err(|_| RuleRefusal::Entries)?;
        if !all_below(&entries, 2) {
            return Err(RuleRefusal::TooLarge);
        }
        *self = TableRule { entries };
        Ok(())
    }

    /// The values, in the order of the neighbourhood numbers.
    pub fn entries(&self) -> &[u8; 512]
        ensures { result.now ≡ entries_of self.now }
    {
        &self.entries
    }
}

impl LocalRule for TableRule {
    ghost use Rattle.rules.specs.Rules.{table_answer};

    ghost answer = { table_answer };

    ghost binary = { Prim.search rules };

    fn answer_to(&self, around: Neighbourhood) -> u8 {
        self.entries[usize::from(around.number())]
    }
}
