// SPDX-License-Identifier: MIT OR Apache-2.0
//! The limits of what a record is made of, and the refusal of a value that is past one.
ghost use Rattle.std.specs.Prelude.{◌≡◌, Some};
ghost use Rattle.garage.specs.Refusals.{number, value, message};

use std::error::Error;
use std::fmt;

/// A slot's instant is below this.
pub const INSTANTS: u32 = 0x4000_0000;

/// A post is below this.
pub const POSTS: u32 = 1024;

/// A record's number is below this.
pub const NUMBERS: u32 = 0x10_0000;

/// An amount is below this.
pub const AMOUNTS: u32 = 0x1000_0000;

/// Nothing is made.
#[derive(Clone, Copy, Debug, PartialEq, Eq)]
pub struct PastLimit;

impl PastLimit {
    /// The number of this refusal.
    pub fn number(self) -> u32
        ensures { result ≡ number self }
    {
        6
    }

    /// What is returned in the place of what was to be made.
    pub fn value(self) -> u32
        ensures { result ≡ value self }
    {
        0
    }
}

impl fmt::Display for PastLimit {
    ghost output = { λ e. Some (message e) };

    fn fmt<W: fmt::Write>(&self, f: &mut fmt::Formatter<W>) -> fmt::Result {
        write!(f, "refused {} at {}", self.number(), self.value())
    }
}

impl Error for PastLimit {}
