// SPDX-License-Identifier: MIT OR Apache-2.0
//! A fixed function, where Rust passes a closure.
ghost use Rattle.std.specs.Prelude.{◌≡◌};

/// A function whose value its argument settles.
pub trait Function<X> {
    type Output;

    ghost image: { Self → X → Self.Output };

    fn apply(&self, x: X) -> Self::Output
        ensures { result ≡ image self.now x };
}
