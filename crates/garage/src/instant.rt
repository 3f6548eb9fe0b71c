// SPDX-License-Identifier: MIT OR Apache-2.0
//! A count of seconds.
ghost use Rattle.std.specs.Prelude.{refl};
ghost use Rattle.garage.specs.Kinds.{instant_order, instant_laws};

use ordered_stream::TotalOrder;

/// The earlier of two is the less.
#[derive(Clone, Copy, Debug, PartialEq, Eq, PartialOrd, Ord)]
pub struct Instant {
    pub seconds: u32,
}

impl TotalOrder for Instant {
    ghost order = { instant_order };

    ghost compares = { λ x y. refl };

    ghost laws = { instant_laws };
}
