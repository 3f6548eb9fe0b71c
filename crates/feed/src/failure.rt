// SPDX-License-Identifier: MIT OR Apache-2.0
//! Why there is no listing.
ghost use Rattle.std.specs.Prelude.{◌≡◌, Some};
ghost use Rattle.feed.specs.declared.failure.Failure.TheVariants.{Refused, NoMemory};
ghost use Rattle.feed.specs.Failures.{message};

use post_log::Refusal;
use std::alloc::AllocError;
use std::error::Error;
use std::fmt;

/// What is said in place of a listing.
#[derive(Clone, Copy, Debug, PartialEq, Eq)]
pub enum Failure {
    /// the log is none
    Refused(Refusal),
    /// more bytes than are read
    TooLong,
    /// bytes that are no whole words
    NotWords,
    /// words after the first log
    MoreLogs,
    NoMemory,
}

impl From<Refusal> for Failure {
    ghost from_gives = { λ e r. r ≡ Refused e };

    fn from(refusal: Refusal) -> Failure {
        Self::Refused(refusal)
    }
}

impl From<AllocError> for Failure {
    ghost from_gives = { λ _ r. r ≡ NoMemory };

    fn from(_error: AllocError) -> Failure {
        Self::NoMemory
    }
}

// A text finds no room only for want of memory.
impl From<fmt::Error> for Failure {
    ghost from_gives = { λ _ r. r ≡ NoMemory };

    fn from(_error: fmt::Error) -> Failure {
        Failure::from(AllocError)
    }
}

impl fmt::Display for Failure {
    ghost output = { λ x. Some (message x) };

    fn fmt<W: fmt::Write>(&self, f: &mut fmt::Formatter<W>) -> fmt::Result {
        match self {
            Failure::Refused(refusal) => write!(f, "{refusal} of log 0"),
            Failure::TooLong => write!(f, "input above 65536 bytes is not read yet"),
            Failure::NotWords => write!(f, "input that is not in fours of bytes is not read yet"),
            Failure::MoreLogs => write!(f, "more than one log is not read yet"),
            Failure::NoMemory => write!(f, "out of memory"),
        }
    }
}

impl Error for Failure {}
