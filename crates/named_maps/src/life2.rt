//! Life, lifted.
ghost use Rattle.std.specs.Prelude.{◌≡◌};
ghost use Rattle.rules.specs.Rules.{SameAnswers, table_answer, life};
ghost use Rattle.named_maps.specs.Named.{life2_forward, life2_backward};

use lattice::map::Map;
use lift::map::Lift;
use rules::table::TableRule;

// Any table with the values of Life has the lift of Life.
fn lift_of(rule: TableRule) -> Lift<TableRule>
    requires { SameAnswers (table_answer rule) life }
    ensures forward { ⟦<Lift<TableRule> as Map>⟧.forward result ≡ life2_forward }
    ensures backward { ⟦<Lift<TableRule> as Map>⟧.backward result ≡ life2_backward }
{
    Lift::new(rule)
}

/// The lift of Life, which is a second-order rule.
pub fn life2() -> Lift<TableRule>
    ensures forward { ⟦<Lift<TableRule> as Map>⟧.forward result ≡ life2_forward }
    ensures backward { ⟦<Lift<TableRule> as Map>⟧.backward result ≡ life2_backward }
{
    lift_of(TableRule::life())
}
