// SPDX-License-Identifier: MIT OR Apache-2.0
//! From bytes to a listing: what the program does, but for its reading and printing.
#![tactic(auto)]

mod failure;
mod input;
mod line;
mod listing;

pub use failure::Failure;
pub use line::Line;
pub use listing::{MOST_BYTES, list};
