//! Reads the files that its arguments name, each as a script or as a board, and prints what they say or what is wrong with them.
#![tactic(auto)]

mod shown;

use shown::{show_board, show_script};
use std::{env, fs};

fn main(rt: HostRuntime) -> anyhow::Result<()> {
    for name in env::args(&rt)?.skip(1) {
        let text = fs::read(&rt, name.as_str())?;
        if name.as_str().ends_with(".script") {
            show_script(&rt, name.as_str(), &text)?;
        } else {
            show_board(&rt, name.as_str(), &text)?;
        }
    }
    Ok(())
}
