// SPDX-License-Identifier: MIT OR Apache-2.0
//! What a poll comes to: its answer, and what the stream tells of itself after it.
use crate::case::Case;
use calendar::Calendar;
use feed::Line;
use garage::{Amount, PastLimit, Slot};
use ordered_stream::{Answer, FusedOrderedStream, OrderedStream};
use post_log::{CheckedLog, Refusal};
use post_reader::Reader;
use std::alloc::{AllocError, Global};
use std::fmt::{self, Write};

/// A stream that may be one of words.
trait Tried: FusedOrderedStream + OrderedStream<Ordering = Slot, Data = Amount> {
    /// How many words are not read yet.
    fn left(&self) -> Option<usize>;
}

impl<'a> Tried for Reader<'a> {
    fn left(&self) -> Option<usize> {
        Some(self.unread().len())
    }
}

impl Tried for Calendar {
    fn left(&self) -> Option<usize> {
        None
    }
}

impl<S: Tried> Tried for Option<S> {
    fn left(&self) -> Option<usize> {
        self.as_ref()?.left()
    }
}

#[derive(Clone, Copy, Debug)]
struct Outcome {
    answer: Answer<Slot, Amount>,
    hint: Option<Slot>,
    over: bool,
    left: Option<usize>,
}

impl fmt::Display for Outcome {
    fn fmt<W: fmt::Write>(&self, f: &mut fmt::Formatter<W>) -> fmt::Result {
        match self.answer {
            Answer::Item { ordering, datum } => {
                let line = Line {
                    instant: ordering.instant,
                    class: ordering.class,
                    post: ordering.post,
                    number: ordering.number,
                    amount: datum.units,
                };
                write!(f, "item {line}")?;
            }
            Answer::NoneBefore => write!(f, "none")?,
            Answer::Terminated => write!(f, "end")?,
            Answer::Pending => write!(f, "pending")?,
        }
        match self.hint {
            Some(slot) => {
                let class = u32::from(slot.class);
                write!(
                    f,
                    " hint {}.{class}.{}.{}",
                    slot.instant, slot.post, slot.number
                )?;
            }
            None => write!(f, " hint -")?,
        }
        if self.over {
            write!(f, " over")?;
        }
        if let Some(words) = self.left {
            write!(f, " left {words}")?;
        }
        Ok(())
    }
}

fn polled<S: Tried>(stream: &mut S, before: Option<Slot>) -> Outcome {
    let answer = stream.poll_next_before(before);
    Outcome {
        answer,
        hint: stream.position_hint(),
        over: stream.is_terminated(),
        left: stream.left(),
    }
}

/// What each poll comes to, in turn, or why there is no stream to poll.
fn outcomes<S: Tried + Drop, E: fmt::Display + Drop>(
    heap: Global,
    stream: Result<S, E>,
    polls: &[Option<Slot>],
) -> Result<String, AllocError> {
    let mut stream = match stream {
        Ok(stream) => stream,
        Err(refusal) => return refusal.to_string(heap),
    };
    let mut text = String::new(heap);
    for before in polls {
        if !text.is_empty() {
            text.push_str("; ")?;
        }
        write!(text, "{}", polled(&mut stream, *before))?;
    }
    Ok(text)
}

fn reader(words: &[u32]) -> Result<Reader<'_>, Refusal> {
    CheckedLog::try_from(words).map(Reader::new)
}

/// What the polls of a case come to.
pub(crate) fn line(
    heap: Global,
    case: &Case,
    polls: &[Option<Slot>],
) -> Result<String, AllocError> {
    match case {
        Case::Log(words) => outcomes(heap, reader(words.as_slice()), polls),
        Case::Present(words) => outcomes(heap, reader(words.as_slice()).map(Some), polls),
        Case::Absent => outcomes::<Option<Calendar>, PastLimit>(heap, Ok(None), polls),
        Case::Tariffs(plan) => outcomes(heap, Calendar::new(*plan), polls),
    }
}
