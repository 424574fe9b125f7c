//! The line that an outcome is printed as, as the model under tools/ prints it.
use lattice::start::Start;
use named_maps::named::NamedMap;
use samples::line::Line;
use std::test::Fail;

#[test]
fn an_outcome_as_a_line(rt: HostRuntime) -> Result<(), Fail> {
    let opening = Start::new(16, 10, 1)?;
    let line = Line::of("named", "mixed", &NamedMap::Mixed, opening, &rt.alloc())?;
    let text = format!(in rt.alloc(); "{line}")?;
    assert_eq!(rt;
        text.as_str(),
        "named mixed 16 10 1 30605 0 49320 1 54932 0 home"
    );
    Ok(())
}
