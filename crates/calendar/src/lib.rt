// SPDX-License-Identifier: MIT OR Apache-2.0
//! The changes of a garage's tariffs, as a stream.
#![tactic(auto)]

mod calendar;
mod plan;

pub use calendar::Calendar;
pub use plan::Plan;
