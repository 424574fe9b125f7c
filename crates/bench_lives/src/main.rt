//! Whole lives over two maps, each with its mirror and the way back, and one that ends in session.
#![tactic(auto)]

mod events;
mod replies;
mod shown;

use events::{long_life, open_end};
use named_maps::blocks::critters;
use named_maps::mixed::mixed;
use replies::show_life;

fn main(rt: HostRuntime) -> anyhow::Result<()> {
    let events = long_life(rt.alloc())?;
    show_life(&rt, "critters", &critters(), &events)?;
    println!(rt; "")?;
    show_life(&rt, "mixed", &mixed(), &events)?;
    println!(rt; "")?;
    show_life(&rt, "critters", &critters(), &open_end())
}
