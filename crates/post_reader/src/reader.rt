// SPDX-License-Identifier: MIT OR Apache-2.0
//! A log that is partly read, and how it answers.
ghost use Rattle.std.specs.Prelude.{◌≡◌, ◌+◌, ◌≤◌, length, drop};
ghost use Rattle.post_reader.specs.Cases.{FloorAlone};

use garage::{Amount, Slot};
use ordered_stream::{Answer, FusedOrderedStream, OrderedStream, reaches};
use post_log::{CheckedLog, Entry};

/// A log's records, handed out one at a time. Not `Copy`: what it has handed out is not handed out again.
#[derive(Debug, Drop)]
pub struct Reader<'a> {
    /// over the caller's words
    log: CheckedLog<'a>,
    /// of the first word that is not read yet
    place: usize,
    /// of the next record
    number: u32,
    /// how many polls stay unanswered
    silence: u32,
    /// no record to come has a lower slot
    floor: Option<Slot>,
    ghost within: { place ≤ length log.words.now },
    // no record ahead has a number that runs over
    ghost few: { number + length (drop place log.words.now) ≤ 16382 },
}

impl<'a> Reader<'a> {
    ghost use Rattle.std.specs.Prelude.{true, []};
    ghost use Rattle.std.specs.List.{AllByRecursion};
    ghost use Rattle.post_log.specs.Words.{post};
    ghost use Rattle.garage.specs.Kinds.{least};
    ghost use Rattle.garage.specs.Limits.{InstantWithin, RecordWithin};
    ghost use Rattle.post_reader.specs.Reading.{opened, raised};
    ghost use Rattle.post_reader.specs.Readers.{unread_of, state_of, reader_records, all_read, ReaderSound, AtPlace, Next, Passed, FloorsPassed, ByEntry};

    /// Reads a log from its body's first word.
    #[tactic(auto, using(crate::proofs::Opening::opened_log, crate::proofs::Opening::opened_within))]
    pub fn new(log: CheckedLog<'a>) -> Self
        ensures words { result.log.words ≡ log.entry.words }
        ensures state { state_of result ≡ opened (post log.entry.words.now) log.entry.words.now }
        ensures sound { ReaderSound result }
        ensures within { AllByRecursion RecordWithin (reader_records result) }
    {
        Entry::meaning();
        log.meaning();
        Reader {
            log,
            place: 2,
            number: 0,
            silence: 0,
            floor: None,
        }
    }

    /// The words that are not read yet, a part of the caller's.
    pub fn unread(&self) -> &'a [u32]
        ensures { result.now ≡ unread_of self.now }
    {
        &self.log.words()[self.place..]
    }

    /// Whether every word is read; then nothing is to come.
    #[tactic(auto, using(crate::proofs::Ahead::none_ahead))]
    fn all_read(&self) -> bool
        ensures value { result ≡ all_read self.now }
        ensures told { result ≡ true → reader_records self.now ≡ [] }
    {
        self.unread().is_empty()
    }

    /// The entry at the place.
    #[tactic(auto, using(crate::proofs::Ahead::next_by))]
    fn next_entry(&self) -> Option<Entry>
        ensures { Next self.now result }
    {
        Entry::meaning();
        Entry::first(self.unread(), self.number)
    }

    /// The greater of the floor and the least slot of an instant.
    fn raised(&self, instant: u32) -> Slot
        requires { InstantWithin instant }
        ensures { result ≡ raised self.now.floor (least instant) }
    {
        let least = Slot::least_of(instant).unwrap();
        match self.floor {
            Some(floor) => floor.max(least),
            None => least,
        }
    }

    /// Passes the entry at the place.
    fn pass(&mut self, entry: Entry)
        requires { AtPlace self.old entry }
        ensures { Passed entry self.old self.new }
    {
        self.place += entry.width();
        self.number += entry.records();
    }

    /// Passes each floor at the place.
    fn pass_floors(&mut self)
        ensures { FloorsPassed self.old self.new }
    {
        while let Some(entry @ Entry::Floor { instant }) = self.next_entry() {
            self.floor = Some(self.raised(instant));
            self.pass(entry);
        }
    }

    /// Answers by the entry at the place, which is no floor.
    fn answer_entry(&mut self) -> Answer<Slot, Amount>
        ensures { ByEntry self.old result self.new }
    {
        match self.next_entry() {
            None | Some(Entry::Floor { .. }) => Answer::Terminated,
            Some(entry @ Entry::Silence { polls }) => {
                self.pass(entry);
                self.silence = polls - 1;
                Answer::Pending
            }
            Some(
                entry @ Entry::Record {
                    instant,
                    class,
                    number,
                    amount,
                },
            ) => {
                let slot = Slot {
                    instant,
                    class,
                    post: self.log.post(),
                    number,
                };
                self.pass(entry);
                self.floor = Some(slot);
                Answer::Item {
                    ordering: slot,
                    datum: Amount { units: amount },
                }
            }
        }
    }
}

impl<'a> OrderedStream for Reader<'a> {
    ghost use Rattle.ordered_stream.specs.Meaning.{HandsInTurn};
    ghost use Rattle.ordered_stream.specs.Streams.{IsStream};
    ghost use Rattle.garage.specs.Kinds.{slot_order};
    ghost use Rattle.post_reader.specs.Readers.{reader_records, reader_waits, reader_floor, reader_stream, ReaderSound, ReaderAnswers};

    type Ordering = Slot;

    type Data = Amount;

    ghost records = { reader_records };

    ghost waits = { reader_waits };

    ghost sound = { ReaderSound };

    ghost answers = { ReaderAnswers };

    ghost hint = { reader_floor };

    /// The floor answers before a silence does: what is known to come later need not be waited for.
    fn poll_next_before(&mut self, before: Option<Slot>) -> Answer<Slot, Amount>
        ensures { ReaderAnswers self.old before result self.new }
    {
        if self.silence == 0 {
            self.pass_floors();
        }
        if reaches(self.floor, before) {
            return Answer::NoneBefore;
        }
        if self.silence > 0 {
            self.silence -= 1;
            return Answer::Pending;
        }
        self.answer_entry()
    }

    fn position_hint(&self) -> Option<Slot> {
        self.floor
    }

    #[tactic(auto, using(crate::proofs::Laws::reader_laws, crate::proofs::Laws::reader_in_turn))]
    fn meaning()
        ensures laws { IsStream slot_order reader_stream }
        // and the records come in the log's order
        ensures in_turn { HandsInTurn reader_records ReaderAnswers }
    {
        Entry::meaning();
    }
}

impl<'a> FusedOrderedStream for Reader<'a> {
    ghost use Rattle.post_reader.specs.Readers.{reader_terminated};

    ghost terminated = { reader_terminated };

    fn is_terminated(&self) -> bool {
        self.silence == 0 && self.all_read()
    }
}

/// Does nothing: its contract is what a log of one floor at instant 80 answers.
pub fn floor_alone_stands()
    ensures { FloorAlone }
{}
