//! Moves lattices of many shapes by maps of every kind and prints digests of them, to be compared with an independent model.
#![tactic(auto)]

mod maps;

use anyhow::Context;
use lattice::start::Start;
use maps::show_all;
use samples::openings::OPENINGS;

fn main(rt: HostRuntime) -> anyhow::Result<()> {
    for (width, height, phase) in OPENINGS {
        let opening = Start::new(width, height, phase).context("a sample is refused")?;
        show_all(&rt, opening)?;
    }
    Ok(())
}
