// SPDX-License-Identifier: MIT OR Apache-2.0
//! Where a record stands in a feed: by its instant, then its class, post and number.
ghost use Rattle.std.specs.Prelude.{◌≡◌, false};
ghost use Rattle.std.specs.Ordering.{is_gt};
ghost use Rattle.garage.specs.declared.slot.Slot.{Slot as SlotValue};
ghost use Rattle.garage.specs.Kinds.{slot_order, least};
ghost use Rattle.garage.specs.Limits.{Makes, SlotWithin};

use crate::limit::{INSTANTS, NUMBERS, POSTS, PastLimit};
use ordered_stream::TotalOrder;
use post_log::Class;

/// Two slots compare by their fields in turn.
#[derive(Clone, Copy, Debug, PartialEq, Eq, PartialOrd, Ord)]
pub struct Slot {
    pub instant: u32,
    pub class: Class,
    pub post: u32,
    /// how many records of its log or calendar stand before it
    pub number: u32,
}

impl Slot {
    /// Makes nothing where the instant, the post or the number is past a limit.
    pub fn new(instant: u32, class: Class, post: u32, number: u32) -> Result<Slot, PastLimit>
        ensures { Makes SlotWithin (record { instant = instant; class = class; post = post; number = number }) result }
    {
        if instant >= INSTANTS || post >= POSTS || number >= NUMBERS {
            return Err(PastLimit);
        }
        Ok(Slot {
            instant,
            class,
            post,
            number,
        })
    }

    /// The least slot of an instant.
    pub fn least_of(instant: u32) -> Result<Slot, PastLimit>
        ensures made { Makes SlotWithin (least instant) result }
        ensures lowest { (s : SlotValue) → s.instant ≡ instant → is_gt (slot_order (least instant) s) ≡ false }
    {
        Slot::new(instant, Class::FIRST, 0, 0)
    }
}

impl TotalOrder for Slot {
    ghost use Rattle.garage.specs.Kinds.{slots_by_rank, slot_by_rank, slot_laws};

    ghost order = { slots_by_rank };

    ghost compares = { slot_by_rank };

    ghost laws = { slot_laws };
}
