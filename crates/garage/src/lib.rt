// SPDX-License-Identifier: MIT OR Apache-2.0
//! What a garage's records are ordered by, and what they carry.
#![tactic(auto)]

mod amount;
mod instant;
mod limit;
mod line;
mod minute;
mod slot;

pub use amount::Amount;
pub use instant::Instant;
pub use limit::{AMOUNTS, INSTANTS, NUMBERS, POSTS, PastLimit};
pub use line::Line;
pub use minute::Minute;
pub use slot::Slot;
