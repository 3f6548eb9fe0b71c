// SPDX-License-Identifier: MIT OR Apache-2.0
//! How a list of words is judged, from the left.
ghost use Rattle.std.specs.Prelude.{◌≡◌, ◌^◌, ◌<◌, ◌≤◌, map, length};
ghost use Rattle.std.specs.Result.{result_err};
ghost use Rattle.post_log.specs.Verdict.{judged, start, reached, passed, header_verdict, body_verdict, verdict, data_next};
ghost use Rattle.post_log.specs.Words.{word_of};

use crate::class::Class;
use crate::refusal::Refusal;
use crate::word::Word;

/// Bits 31 to 10 of a log's first word.
const HEADER: u32 = 0x30_0000;

/// The most words that a body has.
const MOST: u32 = 16_382;

/// How far a body is judged.
#[derive(Clone, Copy)]
struct Progress {
    /// the place of the next word, counted from the log's first
    place: usize,
    /// of the latest floor or record, at first 0
    instant: u32,
    /// of the latest record, if that record has this instant
    class: Option<Class>,
    /// whether the word before is a record's head
    headed: bool,
}

impl Progress {
    fn new() -> Progress
        ensures { result ≡ start }
    {
        Progress {
            place: 2,
            instant: 0,
            class: None,
            headed: false,
        }
    }

    /// One word further, at the same instant.
    fn pass(self, class: Option<Class>) -> Progress
        requires { self.place < 2 ^ 32 }
        ensures { result ≡ passed class self }
    {
        Progress {
            place: self.place + 1,
            class,
            headed: false,
            ..self
        }
    }

    /// One word further, at an instant; a new one has no record yet.
    fn reach(self, instant: u32, headed: bool) -> Progress
        requires { self.place < 2 ^ 32 }
        ensures { result ≡ reached instant headed self }
    {
        let class = self.class.filter(|_| instant == self.instant);
        Progress {
            instant,
            headed,
            ..self.pass(class)
        }
    }

    /// Judges a word, and a head by whether the words after it begin with data.
    fn judge(self, word: Word, after: &[u32]) -> Result<Progress, Refusal>
        requires { self.place < 2 ^ 32 }
        ensures { result ≡ judged word (data_next (map word_of after.now)) self }
    {
        let at = self.place;
        match word {
            Word::Head { .. } if !data_next(after) => Err(Refusal::Misplaced { at }),
            Word::Floor { instant } | Word::Head { instant } if instant < self.instant => {
                Err(Refusal::Falling { at })
            }
            Word::Floor { instant } => Ok(self.reach(instant, false)),
            Word::Head { instant } => Ok(self.reach(instant, true)),
            Word::Silence { polls: 0 } => Err(Refusal::Misplaced { at }),
            Word::Silence { .. } => Ok(self.pass(self.class)),
            Word::Data { class, .. } if !self.headed || class.is_none() => {
                Err(Refusal::Misplaced { at })
            }
            Word::Data { class, .. } if class < self.class => Err(Refusal::Falling { at }),
            Word::Data { class, .. } => Ok(self.pass(class)),
        }
    }
}

/// Whether the words begin with data.
fn data_next(words: &[u32]) -> bool
    ensures { result ≡ data_next (map word_of words.now) }
{
    words
        .first()
        .is_some_and(|&bits| Word::from(bits).is_data())
}

/// Judges the words of a body from the left.
fn judge_body(words: &[u32]) -> Result<(), Refusal>
    requires { length words.now ≤ 16382 }
    ensures { result_err result ≡ body_verdict start (map word_of words.now) }
{
    let mut progress = Progress::new();
    let mut rest = words;
    while let [bits, after @ ..] = rest {
        progress = progress.judge(Word::from(*bits), after)?;
        rest = after;
    }
    Ok(())
}

/// Judges the first two words, before a body of some length.
fn judge_header(head: u32, count: u32, len: usize) -> Result<(), Refusal>
    ensures { result_err result ≡ header_verdict head count len }
{
    if head >> 10 != HEADER {
        return Err(Refusal::BadHeader);
    }
    if count > MOST || count as usize != len {
        return Err(Refusal::BadCount);
    }
    Ok(())
}

/// Why the words are no log, if they are none.
pub(crate) fn judge_log(words: &[u32]) -> Result<(), Refusal>
    ensures { result_err result ≡ verdict words.now }
{
    let [head, count, body @ ..] = words else {
        return Err(Refusal::TooShort);
    };
    judge_header(*head, *count, body.len())?;
    judge_body(body)
}
