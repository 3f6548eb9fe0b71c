// SPDX-License-Identifier: MIT OR Apache-2.0
//! When tariffs change, and to what.
ghost use Rattle.std.specs.Prelude.{◌≡◌};
ghost use Rattle.garage.specs.Limits.{Makes};
ghost use Rattle.calendar.specs.Plans.{PlanWithin, instant_at, slot_at, amount_at};

use garage::{Amount, INSTANTS, POSTS, PastLimit, Slot};
use post_log::Class;

/// A day, the most that one change is after another.
const DAY: u32 = 86_400;

/// The most changes that a plan has.
const MOST: u32 = 1000;

/// A first change, equal steps between changes, and two rates in turn.
#[derive(Clone, Copy, Debug, PartialEq, Eq)]
pub struct Plan {
    /// the instant of the first change
    pub first: u32,
    /// how many seconds each change is after the one before
    pub step: u32,
    /// how many changes there are
    pub count: u32,
    /// the rates in turn, `even` first
    pub even: u32,
    pub odd: u32,
    /// whose tariffs they are
    pub post: u32,
}

impl Plan {
    /// The plan, if it is within its limits.
    pub(crate) fn checked(self) -> Result<Plan, PastLimit>
        ensures { Makes PlanWithin self result }
    {
        if !(1..=DAY).contains(&self.step) || self.count > MOST || self.post >= POSTS {
            return Err(PastLimit);
        }
        Amount::try_from(self.even)?;
        Amount::try_from(self.odd)?;
        // and so the first, which is no later
        if self.instant(self.count.saturating_sub(1)) >= INSTANTS {
            return Err(PastLimit);
        }
        Ok(self)
    }

    /// The instant of record i; it stays at the top of 32 bits, which no plan within its limits comes to.
    fn instant(&self, i: u32) -> u32
        ensures { result ≡ instant_at self.now i }
    {
        self.first.saturating_add(i.saturating_mul(self.step))
    }

    /// The slot of record i, counted from 0.
    pub(crate) fn slot(&self, i: u32) -> Slot
        ensures { result ≡ slot_at self.now i }
    {
        Slot {
            instant: self.instant(i),
            class: Class::Tariff,
            post: self.post,
            number: i,
        }
    }

    /// The amount of record i.
    pub(crate) fn amount(&self, i: u32) -> Amount
        ensures { result ≡ amount_at self.now i }
    {
        Amount {
            units: if i % 2 == 0 { self.even } else { self.odd },
        }
    }
}
