// SPDX-License-Identifier: MIT OR Apache-2.0
//! The words of a charging post's log, and the check that a list of words is a lawful log.
#![tactic(auto)]

mod checked;
mod class;
mod entries;
mod entry;
mod judge;
mod refusal;
mod word;

pub use checked::{CheckedLog, check};
pub use class::{Class, UnknownClass};
pub use entries::Entries;
pub use entry::Entry;
pub use refusal::Refusal;
pub use word::Word;
