// SPDX-License-Identifier: MIT OR Apache-2.0
//! A stream that may be absent: absent, it is at its end.
ghost use Rattle.ordered_stream.specs.Maybe.{option_records, option_waits, OptionSound, OptionAnswers, option_hint, option_terminated};

use crate::answer::Answer;
use crate::stream::{FusedOrderedStream, OrderedStream};

impl<S: OrderedStream> OrderedStream for Option<S> {
    type Ordering = S::Ordering;

    type Data = S::Data;

    ghost records = { option_records S.OrderedStream };

    ghost waits = { option_waits S.OrderedStream };

    ghost sound = { OptionSound S.OrderedStream };

    ghost answers = { OptionAnswers S.OrderedStream };

    ghost hint = { option_hint S.OrderedStream };

    fn poll_next_before(&mut self, before: Option<S::Ordering>) -> Answer<S::Ordering, S::Data>
        ensures { OptionAnswers S.OrderedStream self.old before result self.new }
    {
        match self {
            Some(s) => s.poll_next_before(before),
            None => Answer::Terminated,
        }
    }

    fn position_hint(&self) -> Option<S::Ordering> {
        self.as_ref()?.position_hint()
    }

    fn meaning() {
        S::meaning();
    }
}

impl<S: FusedOrderedStream> FusedOrderedStream for Option<S> {
    ghost terminated = { option_terminated S.FusedOrderedStream.terminated };

    fn is_terminated(&self) -> bool {
        self.as_ref().is_none_or(|s| s.is_terminated())
    }
}
