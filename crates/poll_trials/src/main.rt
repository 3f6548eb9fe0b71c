// SPDX-License-Identifier: MIT OR Apache-2.0
//! Streams and polls as lines on standard input: builds each stream, polls it, and prints its answers.
#![tactic(auto)]

mod case;
mod outcome;
#[cfg(test)]
mod tests;

use case::parse;
use outcome::line;
use std::io::{BufRead, BufReader};

fn main(rt: HostRuntime) -> anyhow::Result<()> {
    let heap = rt.alloc();
    for read in BufReader::new(heap, rt.stdin())?.lines(heap) {
        let (case, polls) = parse(heap, read?.as_str())?;
        rt.println(line(heap, &case, polls.as_slice())?)?;
    }
    Ok(())
}
