// SPDX-License-Identifier: MIT OR Apache-2.0
//! A line of the input: a stream, and the bounds that it is polled under.
use anyhow::{Context, bail};
use calendar::Plan;
use garage::Slot;
use post_log::Class;
use std::alloc::Global;
use std::str::SplitWhitespace;

#[derive(Debug, Drop)]
pub(crate) enum Case {
    /// the words of a log
    Log(Vec<u32>),
    /// the same, its reader in an `Option`
    Present(Vec<u32>),
    /// an `Option` with no reader
    Absent,
    /// the plan of a calendar
    Tariffs(Plan),
}

fn number(text: Option<&str>) -> anyhow::Result<u32> {
    let Some(digits) = text else {
        bail!("a number is missing");
    };
    Ok(digits.parse()?)
}

/// A slot by its instant, class, post and number; a bound may be past the limits of a record's.
fn slot(text: &str) -> anyhow::Result<Slot> {
    let mut parts = text.split('.');
    let instant = number(parts.next())?;
    let class = number(parts.next())?;
    let post = number(parts.next())?;
    let number = number(parts.next())?;
    match (Class::try_from(class), parts.next()) {
        (Ok(class), None) => Ok(Slot {
            instant,
            class,
            post,
            number,
        }),
        _ => bail!("no slot"),
    }
}

fn bound(word: &str) -> anyhow::Result<Option<Slot>> {
    match word {
        "-" => Ok(None),
        _ => Ok(Some(slot(word)?)),
    }
}

fn log_words(heap: Global, words: SplitWhitespace<'_>) -> anyhow::Result<Vec<u32>> {
    words
        .map(|word| u32::from_str_radix(word, 16).map_err(anyhow::Error::from))
        .try_collect(heap)
}

fn tariffs(mut words: SplitWhitespace<'_>) -> anyhow::Result<Plan> {
    let plan = Plan {
        first: number(words.next())?,
        step: number(words.next())?,
        count: number(words.next())?,
        even: number(words.next())?,
        odd: number(words.next())?,
        post: number(words.next())?,
    };
    match words.next() {
        None => Ok(plan),
        Some(_) => bail!("more than a plan"),
    }
}

fn stream(heap: Global, text: &str) -> anyhow::Result<Case> {
    let mut words = text.split_whitespace();
    match words.next() {
        Some("log") => Ok(Case::Log(log_words(heap, words)?)),
        Some("some") => Ok(Case::Present(log_words(heap, words)?)),
        Some("calendar") => Ok(Case::Tariffs(tariffs(words)?)),
        Some("absent") if words.next().is_none() => Ok(Case::Absent),
        _ => bail!("no stream"),
    }
}

/// The stream before the semicolon, and the bounds after it.
pub(crate) fn parse(heap: Global, line: &str) -> anyhow::Result<(Case, Vec<Option<Slot>>)> {
    let (before, after) = line.split_once(';').context("no polls")?;
    let case = stream(heap, before)?;
    let mut polls = Vec::new(heap);
    for word in after.split_whitespace() {
        polls.push(bound(word)?)?;
    }
    Ok((case, polls))
}
