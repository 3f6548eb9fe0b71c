// SPDX-License-Identifier: MIT OR Apache-2.0
//! Lists a post's log: reads its words on standard input, four bytes each and the highest first, and prints a line for each
//! record, or why there is none.
#![tactic(auto)]

use feed::{Failure, MOST_BYTES, list};
use std::io::Read;
use std::process::ExitCode;

fn main(rt: HostRuntime) -> anyhow::Result<ExitCode> {
    let heap = rt.alloc();
    let mut input = Vec::new(heap);
    // one byte more than is listed, so that a longer input shows
    rt.stdin()
        .take(MOST_BYTES as u64 + 1)
        .read_to_end(&mut input)?;
    match list(heap, input.as_slice()) {
        Ok(listing) => {
            rt.print(listing)?;
            return Ok(ExitCode::SUCCESS);
        }
        Err(failure @ Failure::Refused(_)) => rt.println(failure)?,
        Err(failure) => eprintln!(rt; "garage_feed: {failure}")?,
    }
    // all is said, but for the status; an `Err` of `main` would be printed as well
    Ok(ExitCode::FAILURE)
}
