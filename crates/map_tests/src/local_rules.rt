//! Local rules: neighbourhoods, masks, tables, Life.
use rules::count::CountRule;
use rules::neighbourhood::Neighbourhood;
use rules::rule::LocalRule;
use rules::table::TableRule;
use std::test::Fail;

#[test]
fn neighbourhoods_have_nine_bits(rt: HostRuntime) {
    assert_eq!(rt; Neighbourhood::from_bits(511).number(), 511);
    assert_eq!(rt; Neighbourhood::from_bits(512).number(), 0);
    assert_eq!(rt; Neighbourhood::from_bits(65_535).number(), 511);
    let all = Neighbourhood::from_bits(511);
    assert!(rt; all.centre() == 1 && all.neighbours() == 8);
    let corners = Neighbourhood::from_bits(0b101_000_101);
    assert!(rt; corners.centre() == 0 && corners.neighbours() == 4);
    let alone = Neighbourhood::from_bits(0b000_010_000);
    assert!(rt; alone.centre() == 1 && alone.neighbours() == 0);
}

#[test]
fn masks_above_511_are_refused(rt: HostRuntime) {
    assert_eq!(rt; CountRule::new(511, 511).err().map(u8::from), None);
    assert_eq!(rt; CountRule::new(512, 0).err().map(u8::from), Some(7));
    assert_eq!(rt; CountRule::new(0, 512).err().map(u8::from), Some(7));
    assert_eq!(rt;
        CountRule::new(4_294_967_295, 4_294_967_295)
            .err()
            .map(u8::from),
        Some(7)
    );
}

#[test]
fn masks_are_read_by_the_count_of_neighbours(rt: HostRuntime) -> Result<(), Fail> {
    let life = CountRule::new(8, 12)?;
    assert_eq!(rt; life.answer_to(Neighbourhood::from_bits(0b000_000_111)), 1);
    assert_eq!(rt; life.answer_to(Neighbourhood::from_bits(0b000_000_110)), 0);
    assert_eq!(rt; life.answer_to(Neighbourhood::from_bits(0b000_010_110)), 1);
    assert_eq!(rt; life.answer_to(Neighbourhood::from_bits(0b110_010_001)), 1);
    assert_eq!(rt; life.answer_to(Neighbourhood::from_bits(0b110_010_011)), 0);
    assert_eq!(rt; life.answer_to(Neighbourhood::from_bits(0b000_010_000)), 0);
    let full = CountRule::new(256, 0)?;
    assert_eq!(rt; full.answer_to(Neighbourhood::from_bits(0b111_101_111)), 1);
    assert_eq!(rt; full.answer_to(Neighbourhood::from_bits(0b111_111_111)), 0);
    assert_eq!(rt; full.answer_to(Neighbourhood::from_bits(0b111_101_110)), 0);
    Ok(())
}

#[test]
fn the_table_of_life_answers_as_its_masks_do(rt: HostRuntime) -> Result<(), Fail> {
    let (table, masks) = (TableRule::life(), CountRule::new(8, 12)?);
    for n in 0..512 {
        let around = Neighbourhood::from_bits(n);
        assert_eq!(rt; table.answer_to(around), masks.answer_to(around));
    }
    let ones = (0..512)
        .filter(|&n| table.answer_to(Neighbourhood::from_bits(n)) == 1)
        .count();
    // 56 where the cell is absent and 3 of 8 are present, and 28 + 56 where it is present and 2 or 3 of 8 are
    assert_eq!(rt; ones, 140);
    Ok(())
}

#[test]
fn fills_of_a_rule_table(rt: HostRuntime) {
    let mut rule = TableRule::new();
    assert!(rt; *rule.entries() == [0; 512]);
    let mut entries = [0; 513];
    entries[511] = 1;
    assert_eq!(rt; rule.fill(&entries[0..512]).err().map(u8::from), None);
    assert_eq!(rt; rule.answer_to(Neighbourhood::from_bits(511)), 1);
    assert_eq!(rt; rule.answer_to(Neighbourhood::from_bits(510)), 0);
    assert_eq!(rt; rule.fill(&[1; 512]).err().map(u8::from), None);
    entries[511] = 2;
    assert_eq!(rt; rule.fill(&entries[0..512]).err().map(u8::from), Some(5));
    assert_eq!(rt; rule.fill(&entries[0..511]).err().map(u8::from), Some(4));
    assert_eq!(rt; rule.fill(&entries).err().map(u8::from), Some(4));
    assert_eq!(rt; rule.fill(&[]).err().map(u8::from), Some(4));
    assert_eq!(rt; rule.fill(&[255; 512]).err().map(u8::from), Some(5));
    assert!(rt; *rule.entries() == [1; 512]);
}
