// SPDX-License-Identifier: MIT OR Apache-2.0
//! A plan of tariffs, some of whose records are handed out.
ghost use Rattle.ordered_stream.specs.Meaning.{HandsInTurn};
ghost use Rattle.ordered_stream.specs.Streams.{IsStream};
ghost use Rattle.garage.specs.Kinds.{slot_order};
ghost use Rattle.calendar.specs.Calendars.{Opens, calendar_stream, calendar_records, calendar_waits, CalendarSound, CalendarAnswers, calendar_hint, calendar_terminated};

use crate::plan::Plan;
use garage::{Amount, PastLimit, Slot};
use ordered_stream::{Answer, FusedOrderedStream, OrderedStream, reaches};

/// A plan's records, handed out one at a time. Not `Copy`: what it has handed out is not handed out again.
#[derive(Debug, Drop)]
pub struct Calendar {
    plan: Plan,
    /// how many records are handed out
    done: u32,
}

impl Calendar {
    /// The calendar of a plan, from its first record on.
    #[tactic(auto, using(crate::proofs::Tariffs::as_planned))]
    pub fn new(plan: Plan) -> Result<Calendar, PastLimit>
        ensures { Opens plan result }
    {
        let plan = plan.checked()?;
        Ok(Calendar { plan, done: 0 })
    }
}

impl OrderedStream for Calendar {
    type Ordering = Slot;

    type Data = Amount;

    ghost records = { calendar_records };

    ghost waits = { calendar_waits };

    ghost sound = { CalendarSound };

    ghost answers = { CalendarAnswers };

    ghost hint = { calendar_hint };

    fn poll_next_before(&mut self, before: Option<Slot>) -> Answer<Slot, Amount>
        ensures { CalendarAnswers self.old before result self.new }
    {
        if reaches(self.position_hint(), before) {
            return Answer::NoneBefore;
        }
        if self.done >= self.plan.count {
            return Answer::Terminated;
        }
        let ordering = self.plan.slot(self.done);
        let datum = self.plan.amount(self.done);
        self.done += 1;
        Answer::Item { ordering, datum }
    }

    /// The last ordering handed out.
    fn position_hint(&self) -> Option<Slot> {
        let last = self.done.checked_sub(1)?;
        Some(self.plan.slot(last))
    }

    #[tactic(auto, using(crate::proofs::Tariffs::calendar_laws, crate::proofs::Tariffs::calendar_in_turn))]
    fn meaning()
        ensures laws { IsStream slot_order calendar_stream }
        // and the records come in turn
        ensures in_turn { HandsInTurn calendar_records CalendarAnswers }
    {}
}

impl FusedOrderedStream for Calendar {
    ghost terminated = { calendar_terminated };

    fn is_terminated(&self) -> bool {
        self.done >= self.plan.count
    }
}
