// SPDX-License-Identifier: MIT OR Apache-2.0
//! Streams whose records come in order, by what they mean.
#![tactic(auto)]

mod answer;
mod function;
mod maybe;
mod order;
mod stream;

pub use answer::Answer;
pub use function::Function;
pub use order::{TotalOrder, reaches};
pub use stream::{FusedOrderedStream, OrderedStream};
