// SPDX-License-Identifier: MIT OR Apache-2.0
//! What a record counts: a rate, a reading, or what a plug event tells.
ghost use Rattle.garage.specs.Limits.{Makes, AmountWithin};

use crate::limit::{AMOUNTS, PastLimit};

/// So many units. `try_from` makes one below `AMOUNTS`.
#[derive(Clone, Copy, Debug, PartialEq, Eq)]
pub struct Amount {
    pub units: u32,
}

impl TryFrom<u32> for Amount {
    type Error = PastLimit;

    ghost try_from_gives = { λ units made. Makes AmountWithin (record { units = units }) made };

    fn try_from(units: u32) -> Result<Amount, PastLimit> {
        if units >= AMOUNTS {
            return Err(PastLimit);
        }
        Ok(Amount { units })
    }
}
