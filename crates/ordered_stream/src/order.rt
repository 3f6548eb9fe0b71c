// SPDX-License-Identifier: MIT OR Apache-2.0
//! What records are ordered by.
ghost use Rattle.std.specs.Prelude.{◌≡◌};
ghost use Rattle.std.specs.declared.cmp.Ordering.{Ordering};
ghost use Rattle.ordered_stream.specs.Orders.{OrderLaws, reaches};

/// A total order: any two values compare, and equal means the same value.
pub trait TotalOrder: Ord + Copy {
    // which of two values is the less, in the words of their kind
    ghost order: { Self → Self → Ordering };

    // and so they compare
    ghost compares: { (x y : Self) → Self.cmp x y ≡ order x y };

    ghost laws: { OrderLaws Self.cmp };
}

/// Whether a position, if there is one, is not below a bound that is given.
pub fn reaches<O: TotalOrder>(position: Option<O>, before: Option<O>) -> bool
    ensures { result ≡ reaches O.cmp position before }
{
    position
        .zip(before)
        .is_some_and(|(position, bound)| position >= bound)
}
