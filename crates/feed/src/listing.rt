// SPDX-License-Identifier: MIT OR Apache-2.0
//! The listing of a log, and of the log in an input.
ghost use Rattle.std.specs.Prelude.{◌≡◌, string_bytes, MatchResult};
ghost use Rattle.std.specs.Result.{result_map_both};
ghost use Rattle.feed.specs.declared.failure.Failure.TheVariants.{NoMemory};
ghost use Rattle.feed.specs.Lines.{listing_of};
ghost use Rattle.feed.specs.Outcomes.{Gives, Lists, Ruled};

use crate::failure::Failure;
use crate::input::{first_log, words};
use crate::line::Line;
use post_log::CheckedLog;
use std::alloc::Global;
use std::fmt::Write;

/// The most bytes that are read.
pub const MOST_BYTES: usize = 65_536;

/// A line for each record, in turn.
fn list_log(heap: Global, log: &CheckedLog) -> Result<String, Failure>
    ensures { MatchResult result (λ s. string_bytes s ≡ listing_of log.now.words.now) (λ f. f ≡ NoMemory) }
{
    let mut text = String::new(heap);
    for entry in log.entries() {
        if let Some(line) = Line::of(log.post(), entry) {
            writeln!(text, "{line}")?;
        }
    }
    Ok(text)
}

/// The listing of a log, unless words follow it.
fn list_only(heap: Global, log: &CheckedLog, later: &[u32]) -> Result<String, Failure>
    ensures { Lists log.now.words.now later.now (result_map_both string_bytes (λ f. f) result) }
{
    if !later.is_empty() {
        return Err(Failure::MoreLogs);
    }
    list_log(heap, log)
}

/// The listing of the one log in the bytes.
pub fn list(heap: Global, input: &[u8]) -> Result<String, Failure>
    ensures value { Gives input.now (result_map_both string_bytes (λ f. f) result) }
    ensures ruled { Ruled input.now (result_map_both string_bytes (λ f. f) result) }
{
    if input.len() > MOST_BYTES {
        return Err(Failure::TooLong);
    }
    if input.len() % 4 != 0 {
        return Err(Failure::NotWords);
    }
    let words = words(heap, input)?;
    let (first, later) = first_log(words.as_slice());
    let log = CheckedLog::try_from(first)?;
    list_only(heap, &log, later)
}
