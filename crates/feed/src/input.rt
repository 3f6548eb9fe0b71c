// SPDX-License-Identifier: MIT OR Apache-2.0
//! The words in bytes, and the logs in words.
ghost use Rattle.std.specs.Prelude.{◌≡◌, ◌%◌, length, IfOk};
ghost use Rattle.feed.specs.Inputs.{word, words_of, spelled, first_log, later_words};

use std::alloc::{AllocError, Global};

/// The word in four bytes, the highest first.
fn word(four: &[u8; 4]) -> u32
    ensures { result ≡ word four.now }
{
    u32::from_be_bytes(*four)
}

/// The words in bytes; fewer at the end make none.
pub(crate) fn words(heap: Global, bytes: &[u8]) -> Result<Vec<u32>, AllocError>
    ensures value { IfOk result (λ v. v.items ≡ words_of bytes.now) }
    ensures whole { IfOk result (λ v. length bytes.now % 4 ≡ 0 → spelled v.items ≡ bytes.now) }
{
    let (fours, _) = bytes.as_chunks::<4>();
    fours.iter().map(word).collect(heap)
}

/// The first log of the words, and the words after it: a log is its header and the body that its second word names, or all
/// that remains.
pub(crate) fn first_log(words: &[u32]) -> (&[u32], &[u32])
    ensures log { result.0.now ≡ first_log words.now }
    ensures later { result.1.now ≡ later_words words.now }
{
    let length = match words {
        [_, count, body @ ..] => 2 + body.len().min(*count as usize),
        _ => words.len(),
    };
    words.split_at(length)
}
