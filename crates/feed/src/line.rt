// SPDX-License-Identifier: MIT OR Apache-2.0
//! A line of a listing.
ghost use Rattle.std.specs.Prelude.{◌≡◌, Some};
ghost use Rattle.feed.specs.Lines.{line, line_of};

use post_log::{Class, Entry};
use std::fmt;

/// A record as a listing prints it: numbers with single spaces between.
#[derive(Clone, Copy, Debug, PartialEq, Eq)]
pub struct Line {
    pub instant: u32,
    pub class: Class,
    pub post: u32,
    pub number: u32,
    pub amount: u32,
}

impl Line {
    /// The line that a post's entry has: each record has one, and nothing else.
    pub fn of(post: u32, entry: Entry) -> Option<Line>
        ensures { result ≡ line_of post entry }
    {
        match entry {
            Entry::Record {
                instant,
                class,
                number,
                amount,
            } => Some(Line {
                instant,
                class,
                post,
                number,
                amount,
            }),
            Entry::Floor { .. } | Entry::Silence { .. } => None,
        }
    }
}

impl fmt::Display for Line {
    ghost output = { λ x. Some (line x) };

    fn fmt<W: fmt::Write>(&self, f: &mut fmt::Formatter<W>) -> fmt::Result {
        let Line {
            instant,
            class,
            post,
            number,
            amount,
        } = *self;
        let class = u32::from(class);
        write!(f, "{instant} {class} {post} {number} {amount}")
    }
}
