//! How large a bench is.
use any_bench::call::AnyBench;
use bench::bench::Bench;
use bench::session::Session;
use named_maps::named::NamedMap;
use std::mem::size_of;
use std::test::Fail;

// The largest lattice has 16,384 cells.
const FAR_BELOW: usize = 3_000;

#[test]
fn a_bench_has_no_room_for_a_frame(rt: HostRuntime) -> Result<(), Fail> {
    assert!(rt; size_of::<Bench<'static, NamedMap>>() < FAR_BELOW);
    assert!(rt; size_of::<Session<'static, NamedMap>>() < FAR_BELOW);
    assert!(rt; size_of::<AnyBench<'static, NamedMap>>() < FAR_BELOW);
    Ok(())
}
