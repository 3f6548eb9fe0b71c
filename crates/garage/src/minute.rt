// SPDX-License-Identifier: MIT OR Apache-2.0
//! A count of minutes.
ghost use Rattle.std.specs.Prelude.{refl};
ghost use Rattle.garage.specs.Kinds.{minute_order, minute_laws};

use ordered_stream::TotalOrder;

/// The earlier of two is the less.
#[derive(Clone, Copy, Debug, PartialEq, Eq, PartialOrd, Ord)]
pub struct Minute {
    pub minutes: u32,
}

impl TotalOrder for Minute {
    ghost order = { minute_order };

    ghost compares = { λ x y. refl };

    ghost laws = { minute_laws };
}
