// SPDX-License-Identifier: MIT OR Apache-2.0
//! A word of a log's body, taken apart by its kind, which is its two highest bits.
ghost use Rattle.std.specs.Prelude.{◌≡◌};
ghost use Rattle.post_log.specs.Words.{word_of, is_data};

use crate::class::Class;

/// What the 32 bits of a word say.
#[derive(Clone, Copy, Debug, PartialEq, Eq)]
pub enum Word {
    /// a floor: no floor or record after it has a lower instant
    Floor { instant: u32 },
    /// the head of a record, whose data word follows
    Head { instant: u32 },
    /// a silence: for how many polls the post does not answer
    Silence { polls: u32 },
    /// the data of a record; class 3 is none
    Data { class: Option<Class>, amount: u32 },
}

impl From<u32> for Word {
    ghost from_gives = { λ bits word. word ≡ word_of bits };

    fn from(bits: u32) -> Word {
        let low = bits % 0x4000_0000;
        match bits >> 30 {
            0 => Word::Floor { instant: low },
            1 => Word::Head { instant: low },
            2 => Word::Silence { polls: low },
            _ => Word::Data {
                class: Class::try_from(low >> 28).ok(),
                amount: low % 0x1000_0000,
            },
        }
    }
}

impl Word {
    pub(crate) fn is_data(self) -> bool
        ensures { result ≡ is_data self }
    {
        matches!(self, Word::Data { .. })
    }
}
