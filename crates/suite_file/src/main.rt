//! Whether the file `cpc.eo`, which proofs may include, holds the suite byte for byte.
#![tactic(auto)]

use eo_cpc::is_suite;
use std::{fs, io};

fn main(rt: HostRuntime) -> io::Result<()> {
    let file = fs::read(&rt, "cpc.eo")?;
    println!(rt; "{}", answer(is_suite(&file)))
}

/// What is printed.
fn answer(same: bool) -> &'static str {
    if same {
        "cpc.eo holds the suite"
    } else {
        "cpc.eo holds another text"
    }
}
