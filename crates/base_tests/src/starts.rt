//! The limits on a start record, at their edges.
use lattice::start::Start;
use std::test::Fail;

// Each with the number of the cause, or `None` if the start record is made.
#[test]
fn limits_at_their_edges(rt: HostRuntime) {
    let cases: [(u32, u32, u32, Option<u8>); 19] = [
        (2, 2, 0, None),
        (2, 2, 1, None),
        (256, 64, 1, None),
        (64, 256, 0, None),
        (128, 128, 0, None),
        (256, 2, 0, None),
        (0, 2, 0, Some(1)),
        (2, 0, 0, Some(1)),
        (3, 2, 0, Some(1)),
        (2, 255, 0, Some(1)),
        (258, 2, 0, Some(1)),
        (2, 258, 0, Some(1)),
        (4_294_967_295, 2, 0, Some(1)),
        (2, 4_294_967_294, 0, Some(1)),
        (256, 66, 0, Some(2)),
        (66, 256, 9, Some(2)),
        (256, 256, 0, Some(2)),
        (256, 64, 2, Some(3)),
        (255, 999, 7, Some(1)),
    ];
    for (width, height, phase, number) in cases {
        let answer = Start::new(width, height, phase);
        assert_eq!(rt; answer.err().map(u8::from), number);
    }
}

#[test]
fn a_start_record_is_read_and_turned(rt: HostRuntime) -> Result<(), Fail> {
    let start = Start::new(256, 62, 1)?;
    assert_eq!(rt; (start.width(), start.height()), (256, 62));
    assert_eq!(rt; start.cell_count(), 15_872);
    assert_eq!(rt; start.phase(), 1);
    assert_eq!(rt; start.turned().phase(), 0);
    assert_eq!(rt; start.turned().turned().phase(), 1);
    assert_eq!(rt;
        (start.turned().width(), start.turned().height()),
        (256, 62)
    );
    Ok(())
}
