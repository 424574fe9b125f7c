//! Everyday use of a bench over two maps: steps, sessions, undo and redo, refused calls, and the way back by the reverse script.
#![tactic(auto)]

mod calls;
mod shown;
mod walk;

use named_maps::blocks::critters;
use named_maps::mixed::mixed;
use walk::walk;

fn main(rt: HostRuntime) -> anyhow::Result<()> {
    walk(&rt, "critters", &critters())?;
    println!(rt; "")?;
    walk(&rt, "mixed", &mixed())
}
