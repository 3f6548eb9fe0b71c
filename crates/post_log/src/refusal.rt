// SPDX-License-Identifier: MIT OR Apache-2.0
//! Why a list of words is no log.
ghost use Rattle.std.specs.Prelude.{◌≡◌, Some};
ghost use Rattle.post_log.specs.Refusals.{number, place, message};

use std::error::Error;
use std::fmt;

/// What is wrong and, where it is a word of the body, at which place, counted from the log's first word.
#[derive(Clone, Copy, Debug, PartialEq, Eq)]
pub enum Refusal {
    /// fewer than two words
    TooShort,
    /// the first word is no header
    BadHeader,
    /// the second word is not the number of words in the body, or is above its limit
    BadCount,
    /// a word that cannot stand where it stands
    Misplaced { at: usize },
    /// an instant or a class that falls
    Falling { at: usize },
}

impl Refusal {
    /// The number of this kind of refusal.
    pub fn number(self) -> u32
        ensures { result ≡ number self }
    {
        match self {
            Refusal::TooShort => 1,
            Refusal::BadHeader => 2,
            Refusal::BadCount => 3,
            Refusal::Misplaced { .. } => 4,
            Refusal::Falling { .. } => 5,
        }
    }

    /// The place of the word that is refused, counted from the log's first.
    pub fn place(self) -> usize
        ensures { result ≡ place self }
    {
        match self {
            Refusal::TooShort | Refusal::BadHeader => 0,
            Refusal::BadCount => 1,
            Refusal::Misplaced { at } | Refusal::Falling { at } => at,
        }
    }
}

impl fmt::Display for Refusal {
    ghost output = { λ e. Some (message e) };

    fn fmt<W: fmt::Write>(&self, f: &mut fmt::Formatter<W>) -> fmt::Result {
        write!(f, "refused {} at {}", self.number(), self.place())
    }
}

impl Error for Refusal {}
