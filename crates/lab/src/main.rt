//! Runs the job on standard input, and prints its outcome.
#![tactic(auto)]

use job_texts::carry::carry;
use std::io;

fn main(rt: HostRuntime) -> anyhow::Result<()> {
    carry(rt.reader(), &mut io::writer(&rt), rt.alloc())?;
    Ok(())
}
