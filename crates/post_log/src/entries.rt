// SPDX-License-Identifier: MIT OR Apache-2.0
//! The entries of a log that are still to be read, one after the other.
ghost use Rattle.std.specs.Prelude.{◌+◌, ◌≤◌, length};

use crate::entry::Entry;

/// What the unread words of a log say.
#[derive(Debug, Drop)]
pub struct Entries<'a> {
    pub(crate) unread: &'a [u32],
    /// of the next record
    pub(crate) number: u32,
    ghost few: { number + length unread.now ≤ 16382 },
}

impl<'a> Iterator for Entries<'a> {
    ghost use Rattle.std.specs.Iterator.{at_most};
    ghost use Rattle.post_log.specs.Steps.{Steps, shown};

    type Item = Entry;

    ghost next_gives = { Steps };

    ghost remaining = { λ s. at_most (length (shown s)) };

    #[tactic(auto, using(crate::proofs::Reading::first_entry))]
    fn next(&mut self) -> Option<Entry> {
        let entry = Entry::first(self.unread, self.number)?;
        self.number += entry.records();
        self.unread = &self.unread[entry.width()..];
        Some(entry)
    }
}
