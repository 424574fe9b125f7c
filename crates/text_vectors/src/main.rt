//! Reads texts in hexadecimal digits, a line of standard input each, and prints what each is read as, to be compared with an independent model.
#![tactic(auto)]

mod case;
mod shown;

use case::Case;
use shown::show;
use std::io::{BufRead, BufReader};

fn main(rt: HostRuntime) -> anyhow::Result<()> {
    for line in BufReader::new(rt.alloc(), rt.reader())?.lines(rt.alloc()) {
        let case = Case::parse(rt.alloc(), line?.as_str())?;
        show(&rt, &case)?;
    }
    Ok(())
}
