// SPDX-License-Identifier: MIT OR Apache-2.0
//! What stands beside an instant or a minute: a record without its place in time.
ghost use Rattle.garage.specs.Limits.{Makes, LineWithin};

use crate::amount::Amount;
use crate::limit::{POSTS, PastLimit};
use post_log::Class;

/// Of which class a record is, whose, and how much.
#[derive(Clone, Copy, Debug, PartialEq, Eq)]
pub struct Line {
    pub class: Class,
    pub post: u32,
    pub amount: Amount,
}

impl Line {
    /// Makes nothing where the post or the units are past a limit.
    pub fn new(class: Class, post: u32, units: u32) -> Result<Line, PastLimit>
        ensures { Makes LineWithin (record { class = class; post = post; amount = record { units = units } }) result }
    {
        let amount = Amount::try_from(units)?;
        if post >= POSTS {
            return Err(PastLimit);
        }
        Ok(Line {
            class,
            post,
            amount,
        })
    }
}
