//! Two tables and a rule without symmetry, which reveal mistakes that symmetry would hide.
ghost use Rattle.std.specs.Prelude.{◌≡◌, map};
ghost use Rattle.std.specs.List.{range_with_len};
ghost use Rattle.rules.specs.Rules.{entries_of as rule_entries};
ghost use Rattle.samples.specs.WithoutSymmetry.{lopsided, cycle, crooked};
ghost use Rattle.tables.specs.Tables.{entries_of};

use rules::table::TableRule;
use tables::block::BlockTable;
use tables::cell::CellTable;

/// The entries of `lopsided`.
pub const LOPSIDED: [u8; 16] = [3, 10, 1, 8, 15, 6, 13, 4, 11, 2, 9, 0, 7, 14, 5, 12];

/// The entries of `cycle`.
pub const CYCLE: [u8; 4] = [1, 2, 3, 0];

/// A block table that is changed by each rotation and reflection of the square.
pub fn lopsided() -> BlockTable
    ensures { entries_of result ≡ map lopsided (range_with_len 0 16) }
{
    let mut table = BlockTable::identity();
    table.fill(&LOPSIDED).unwrap();
    table
}

/// A cell table that is not its own inverse.
pub fn cycle() -> CellTable
    ensures { entries_of result ≡ map cycle (range_with_len 0 4) }
{
    let mut table = CellTable::identity();
    table.fill(&CYCLE).unwrap();
    table
}

fn crooked_entries() -> [u8; 512]
    ensures { result ≡ map crooked (range_with_len 0 512) }
{
    std::array::from_fn(|n| ((n * n / 13 + n / 5) % 2) as u8)
}

/// A local rule that is changed by each exchange of two of its nine cells.
pub fn crooked() -> TableRule
    ensures { rule_entries result ≡ map crooked (range_with_len 0 512) }
{
    let mut rule = TableRule::new();
    rule.fill(&crooked_entries()).unwrap();
    rule
}
