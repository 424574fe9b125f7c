//! Runs a job, and shows that its reverse script leads back to its board and that its mirror holds the same.
#![tactic(auto)]

mod alike;
mod shown;
mod trial;

use job_texts::read_job::read_job;
use std::{env, fs};
use trial::try_job;

// Tries the jobs in the files that the arguments name, or else the one on standard input.
fn main(rt: HostRuntime) -> anyhow::Result<()> {
    let mut named = false;
    for name in env::args(&rt)?.skip(1) {
        let job = fs::read(&rt, name.as_str())?;
        println!(rt; "job\t{}", name.as_str())?;
        try_job(&rt, &job)?;
        named = true;
    }
    if !named {
        try_job(&rt, &read_job(rt.reader(), rt.alloc())?)?;
    }
    Ok(())
}
