// SPDX-License-Identifier: MIT OR Apache-2.0
//! A post's checked log, read as an ordered stream.
#![tactic(auto)]

mod reader;

pub use reader::{Reader, floor_alone_stands};
