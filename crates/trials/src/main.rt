// SPDX-License-Identifier: MIT OR Apache-2.0
//! Logs as lines of hexadecimal words on standard input: prints what the check answers to each, and the records of those that
//! it accepts.
#![tactic(auto)]

use feed::Line;
use post_log::CheckedLog;
use std::alloc::{AllocError, Global};
use std::fmt::Write;
use std::io::{BufRead, BufReader};

fn parse(heap: Global, line: &str) -> anyhow::Result<Vec<u32>> {
    line.split_whitespace()
        .map(|word| u32::from_str_radix(word, 16).map_err(anyhow::Error::from))
        .try_collect(heap)
}

fn answer(heap: Global, words: &[u32]) -> Result<String, AllocError> {
    let log = match CheckedLog::try_from(words) {
        Ok(log) => log,
        Err(refusal) => return refusal.to_string(heap),
    };
    let mut text = String::from_str(heap, "ok")?;
    for entry in log.entries() {
        if let Some(line) = Line::of(log.post(), entry) {
            write!(text, "; {line}")?;
        }
    }
    Ok(text)
}

fn main(rt: HostRuntime) -> anyhow::Result<()> {
    let heap = rt.alloc();
    for line in BufReader::new(heap, rt.stdin())?.lines(heap) {
        let words = parse(heap, line?.as_str())?;
        rt.println(answer(heap, words.as_slice())?)?;
    }
    Ok(())
}

#[cfg(test)]
mod tests {
    use super::*;
    use feed::list;
    use post_log::{Refusal, check};
    use std::test::Fail;

    /// A refusal leaves the caller's log as it was.
    #[test]
    fn fills_the_callers_log(rt: HostRuntime) {
        let words = [0xC000_0005, 1, 7];
        let mut log = CheckedLog::empty();
        assert_eq!(rt; check(&words, &mut log), Ok(()));
        assert_eq!(rt; log.words(), words.as_slice());
        assert_eq!(rt; check(&words[..1], &mut log), Err(Refusal::TooShort));
        assert_eq!(rt; log.words(), words.as_slice());
    }

    /// What the check answers to a body of so many words: floors at instant 1, and at its end the given words.
    fn at_end(heap: Global, count: u32, end: &[u32]) -> Result<String, AllocError> {
        let mut words = vec![in heap; 0xC000_0005, count]?;
        words.resize(2 + (count as usize).saturating_sub(end.len()), 1)?;
        words.extend_from_slice(end)?;
        answer(heap, words.as_slice())
    }

    #[test]
    fn answers_at_the_last_places(rt: HostRuntime) -> Result<(), Fail> {
        let heap = rt.alloc();
        assert_eq!(rt; at_end(heap, 16_382, &[])?.as_str(), "ok");
        assert_eq!(rt;
            at_end(heap, 16_382, &[0x4000_0001, 0xE000_0007])?.as_str(),
            "ok; 1 2 5 0 7"
        );
        assert_eq!(rt; at_end(heap, 16_383, &[])?.as_str(), "refused 3 at 1");
        assert_eq!(rt;
            at_end(heap, 16_382, &[0x4000_0001])?.as_str(),
            "refused 4 at 16383"
        );
        assert_eq!(rt;
            at_end(heap, 16_382, &[0xC000_0001])?.as_str(),
            "refused 4 at 16383"
        );
        assert_eq!(rt;
            at_end(heap, 16_382, &[0x8000_0000])?.as_str(),
            "refused 4 at 16383"
        );
        assert_eq!(rt;
            at_end(heap, 16_382, &[0x4000_0001, 0xF000_0001])?.as_str(),
            "refused 4 at 16383"
        );
        assert_eq!(rt; at_end(heap, 16_382, &[0])?.as_str(), "refused 5 at 16383");
        assert_eq!(rt;
            at_end(heap, 16_382, &[0x4000_0000, 0xC000_0001])?.as_str(),
            "refused 5 at 16382"
        );
        let falls = [0x4000_0001, 0xD000_0001, 0x4000_0001, 0xC000_0001];
        assert_eq!(rt;
            at_end(heap, 16_382, &falls)?.as_str(),
            "refused 5 at 16383"
        );
        Ok(())
    }

    /// What the program says of bytes: its listing, or why there is none.
    fn said(heap: Global, bytes: &[u8]) -> Result<String, AllocError> {
        list(heap, bytes).or_else(|failure| failure.to_string(heap))
    }

    #[test]
    fn says_why_there_is_no_listing(rt: HostRuntime) -> Result<(), Fail> {
        let heap = rt.alloc();
        assert_eq!(rt; said(heap, &[])?.as_str(), "refused 1 at 0 of log 0");
        assert_eq!(rt; said(heap, &[0xC0, 0, 0, 5, 0, 0, 0, 0])?.as_str(), "");
        assert_eq!(rt;
            said(heap, &[0xC0, 0, 0, 5, 0, 0, 0])?.as_str(),
            "input that is not in fours of bytes is not read yet"
        );
        // a second log, which is no reason to pass over a fault of the first
        assert_eq!(rt;
            said(heap, &[0xC0, 0, 0, 5, 0, 0, 0, 0, 0xC0, 0, 0, 6])?.as_str(),
            "more than one log is not read yet"
        );
        assert_eq!(rt;
            said(
                heap,
                &[0xC0, 0, 0, 5, 0, 0, 0, 1, 0x80, 0, 0, 0, 0xC0, 0, 0, 6],
            )?
            .as_str(),
            "refused 4 at 2 of log 0"
        );
        // a header that names more words than there are
        assert_eq!(rt;
            said(heap, &[0xC0, 0, 0, 5, 0, 0, 0, 2, 0, 0, 0, 1])?.as_str(),
            "refused 3 at 1 of log 0"
        );
        Ok(())
    }

    #[test]
    fn reads_no_more_than_it_says(rt: HostRuntime) -> Result<(), Fail> {
        let heap = rt.alloc();
        let full = vec![in heap; 0u8; 65_536]?;
        assert_eq!(rt;
            said(heap, full.as_slice())?.as_str(),
            "refused 2 at 0 of log 0"
        );
        let over = vec![in heap; 0u8; 65_537]?;
        assert_eq!(rt;
            said(heap, over.as_slice())?.as_str(),
            "input above 65536 bytes is not read yet"
        );
        Ok(())
    }
}
