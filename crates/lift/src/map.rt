//! A local rule as a map, by the second-order construction.
ghost use Rattle.std.specs.Prelude.{◌≡◌};
ghost use Rattle.lattice.specs.Cells.{OnlyBelow};
ghost use Rattle.lattice.specs.Starts.{held};
ghost use Rattle.lift.specs.Maps.{lift_forward, lift_backward, rule_of};
ghost use Rattle.lift.specs.Laws.{lift_laws};

use crate::passes::{backward_cells, forward_cells};
use lattice::map::Map;
use lattice::start::Start;
use rules::rule::LocalRule;

/// The second-order map of a local rule: a cell's next state is its past XOR the rule's value for the present neighbourhood.
///
/// The construction is E. Fredkin's, as Cellular Automata Machines by T. Toffoli and N. Margolus (1987) describes it. If the book differs from
/// docs/MAPS.md, that page applies.
#[derive(Clone, Copy, Drop)]
pub struct Lift<R> {
    rule: R,
}

impl<R> Lift<R> {
    /// The lift of this rule.
    pub fn new(rule: R) -> Lift<R>
        ensures { rule_of result ≡ rule }
    {
        Lift { rule }
    }
}

impl<R: LocalRule> Map for Lift<R> {
    ghost forward = { λ m. lift_forward (R.LocalRule.answer (rule_of m)) };

    ghost backward = { λ m. lift_backward (R.LocalRule.answer (rule_of m)) };

    ghost laws = { λ m. lift_laws (R.LocalRule.answer (rule_of m)) };

    // In a cell only present and past change; the phase stays.
    fn advance(&self, start: &mut Start, cells: &mut [u8])
        ensures moved { held start.new cells.new ≡ lift_forward (R.LocalRule.answer (rule_of self.now)) (held start.old cells.old) }
        ensures low { OnlyBelow 4 cells.old cells.new }
    {
        if start.is_whole(cells) {
            forward_cells(&self.rule, start, cells);
        }
    }

    fn retreat(&self, start: &mut Start, cells: &mut [u8])
        ensures moved { held start.new cells.new ≡ lift_backward (R.LocalRule.answer (rule_of self.now)) (held start.old cells.old) }
        ensures low { OnlyBelow 4 cells.old cells.new }
    {
        if start.is_whole(cells) {
            backward_cells(&self.rule, start, cells);
        }
    }
}
