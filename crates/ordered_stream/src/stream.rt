// SPDX-License-Identifier: MIT OR Apache-2.0
//! A stream by what it means: what is to come, how often it may keep its caller waiting, and what it may answer.
ghost use Rattle.std.specs.Prelude.{◌≡◌, ℕ, Bool, true, List, [], Option};
ghost use Rattle.ordered_stream.specs.declared.answer.Answer.{Answer};
ghost use Rattle.ordered_stream.specs.Meaning.{StreamLaws};

use crate::answer::Answer;
use crate::order::TotalOrder;

/// A stream that is asked for its records one at a time. Each has an ordering, which says where it belongs, and a datum.
pub trait OrderedStream {
    type Ordering: TotalOrder;

    type Data: Copy;

    // the records to come, each as often as it will come, in no order
    ghost records: { Self → List (Self.Ordering × Self.Data) };

    // how many polls may still be answered by Pending
    ghost waits: { Self → ℕ };

    // what a new stream is, and what every call keeps: it answers in order
    ghost sound: { Self → Type 0 };

    // what a poll under a bound may answer, and the stream after it
    ghost answers: { Self → Option Self.Ordering → Answer Self.Ordering Self.Data → Self → Type 0 };

    // where it stands, if it knows: nothing below is to come
    ghost hint: { Self → Option Self.Ordering };

    /// The next record, or what is known of those to come. A bound asks only for records below it, though one above may come.
    fn poll_next_before(
        &mut self,
        before: Option<Self::Ordering>,
    ) -> Answer<Self::Ordering, Self::Data>
        ensures { answers self.old before result self.new };

    /// An ordering below which nothing is to come, if one is known.
    fn position_hint(&self) -> Option<Self::Ordering>
        ensures { result ≡ hint self.now };

    /// Does nothing: its contract is what every answer and every hint means.
    fn meaning()
        ensures { StreamLaws Self.Ordering.cmp records waits sound answers hint };
}

/// A stream that can say that nothing is to come.
pub trait FusedOrderedStream: OrderedStream {
    // whether it says so
    ghost terminated: { Self → Bool };

    fn is_terminated(&self) -> bool
        ensures value { result ≡ terminated self.now }
        ensures told { Self.OrderedStream.sound self.now → result ≡ true → Self.OrderedStream.records self.now ≡ [] };
}
