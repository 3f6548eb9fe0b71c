// SPDX-License-Identifier: MIT OR Apache-2.0
//! What a record tells of.
ghost use Rattle.std.specs.Prelude.{◌≡◌, Some};
ghost use Rattle.std.specs.Ordering.{nat_cmp};
ghost use Rattle.post_log.specs.declared.class.Class.{Class as ClassValue};
ghost use Rattle.post_log.specs.Classes.{code, rank, Decodes, unknown};

use std::error::Error;
use std::fmt;

/// In the order in which the records of one instant stand.
#[derive(Clone, Copy, Debug, PartialEq, Eq, PartialOrd, Ord)]
pub enum Class {
    Tariff,
    Reading,
    PlugEvent,
}

impl Class {
    /// The class that comes first among the records of one instant.
    pub const FIRST: Class = Class::Tariff;

    /// Does nothing: its contract is how classes compare, and that no two have one rank.
    pub fn meaning()
        ensures by_rank { (c d : ClassValue) → ⟦<Class as Ord>⟧.cmp c d ≡ nat_cmp (rank c) (rank d) }
        ensures apart { (c d : ClassValue) → rank c ≡ rank d → c ≡ d }
    {}
}

/// A code that no class has.
#[derive(Clone, Copy, Debug, PartialEq, Eq)]
pub struct UnknownClass(pub u32);

impl TryFrom<u32> for Class {
    type Error = UnknownClass;

    ghost try_from_gives = { Decodes };

    fn try_from(code: u32) -> Result<Self, UnknownClass> {
        match code {
            0 => Ok(Class::Tariff),
            1 => Ok(Class::Reading),
            2 => Ok(Class::PlugEvent),
            _ => Err(UnknownClass(code)),
        }
    }
}

// The number that words and listings have for a class.
impl From<Class> for u32 {
    ghost from_gives = { λ c n. n ≡ code c };

    fn from(class: Class) -> u32 {
        match class {
            Class::Tariff => 0,
            Class::Reading => 1,
            Class::PlugEvent => 2,
        }
    }
}

impl fmt::Display for UnknownClass {
    ghost output = { λ e. Some (unknown e) };

    fn fmt<W: fmt::Write>(&self, f: &mut fmt::Formatter<W>) -> fmt::Result {
        write!(f, "no class has code {}", self.0)
    }
}

impl Error for UnknownClass {}
