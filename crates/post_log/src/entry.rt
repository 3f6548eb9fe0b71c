// SPDX-License-Identifier: MIT OR Apache-2.0
//! What the words of a log say: floors, silences and records.
ghost use Rattle.std.specs.Prelude.{◌≡◌, [], ◌∷◌, map, length};
ghost use Rattle.std.specs.List.{slice_get};
ghost use Rattle.post_log.specs.Entries.{entries, spelled, records, FirstBegins, EachSized};
ghost use Rattle.post_log.specs.Words.{word_of};

use crate::class::Class;
use crate::word::Word;

/// One thing that a log says.
#[derive(Clone, Copy, Debug, PartialEq, Eq)]
pub enum Entry {
    /// no floor or record after it has a lower instant
    Floor {
        instant: u32,
    },
    /// for how many polls the post does not answer
    Silence {
        polls: u32,
    },
    Record {
        instant: u32,
        class: Class,
        /// how many records stand before it in its log
        number: u32,
        amount: u32,
    },
}

impl Entry {
    /// Does nothing: its contract is what words begin with, and what each entry of a log is.
    #[tactic(auto, using(crate::proofs::Entering::each_sized, crate::proofs::Reading::first_begins))]
    pub fn meaning()
        ensures begins { FirstBegins }
        ensures sized { EachSized }
    {}

    /// The entry that the words begin with, if they begin with one; a record gets the number.
    pub fn first(words: &[u32], number: u32) -> Option<Entry>
        ensures { result ≡ slice_get (entries number (map word_of words.now)) 0 }
    {
        let mut words = words.iter().copied().map(Word::from);
        match (words.next()?, words.next()) {
            (Word::Floor { instant }, _) => Some(Entry::Floor { instant }),
            (Word::Silence { polls }, _) => Some(Entry::Silence { polls }),
            (
                Word::Head { instant },
                Some(
                    Word::Data {
                        class: Some(class),
                        amount,
                    },
                ),
            ) => Some(Entry::Record {
                instant,
                class,
                number,
                amount,
            }),
            _ => None,
        }
    }

    /// How many words the entry takes.
    pub fn width(self) -> usize
        ensures { result ≡ length (spelled self) }
    {
        match self {
            Entry::Floor { .. } | Entry::Silence { .. } => 1,
            Entry::Record { .. } => 2,
        }
    }

    /// One for a record, and else none.
    pub fn records(self) -> u32
        ensures { result ≡ records (self ∷ []) }
    {
        u32::from(matches!(self, Entry::Record { .. }))
    }
}
