// SPDX-License-Identifier: MIT OR Apache-2.0
//! A list of words that is known to be a log, and the check that it is one.
ghost use Rattle.std.specs.Prelude.{◌≡◌, [], ◌∷◌, MatchResult, OnOk};
ghost use Rattle.std.specs.Result.{result_err};
ghost use Rattle.post_log.specs.Entries.{entries_of, Told};
ghost use Rattle.post_log.specs.Rules.{Decided, Lawful};
ghost use Rattle.post_log.specs.Steps.{shown};
ghost use Rattle.post_log.specs.Verdict.{verdict, Passes};
ghost use Rattle.post_log.specs.Words.{body, post, Narrow};

use crate::entries::Entries;
use crate::judge::judge_log;
use crate::refusal::Refusal;

/// Words that are a log. Not `Copy`: whoever a log is handed on to has it alone.
#[derive(Debug, Drop)]
pub struct CheckedLog<'a> {
    words: &'a [u32],
    ghost lawful: { Passes words.now },
    ghost narrow: { Narrow words.now },
}

impl<'a> CheckedLog<'a> {
    /// A log of post 0 with no body, for `check` to fill.
    pub fn empty() -> Self
        ensures { result.words.now ≡ 0xC000_0000 ∷ 0 ∷ [] }
    {
        CheckedLog {
            words: &[0xC000_0000, 0],
        }
    }

    /// Does nothing: its contract is what every checked log is.
    pub fn meaning(&self)
        ensures lawful { Lawful self.now.words.now }
        ensures told { Told (body self.now.words.now) }
    {}

    /// The post that wrote the log, 0 to 1,023.
    pub fn post(&self) -> u32
        ensures { result ≡ post self.now.words.now }
    {
        self.words[0] % 0x400
    }

    /// What the words say.
    pub fn entries(&self) -> Entries<'a>
        ensures { shown result ≡ entries_of (body self.now.words.now) }
    {
        Entries {
            unread: &self.words[2..],
            number: 0,
        }
    }

    /// The caller's words.
    pub fn words(&self) -> &'a [u32]
        ensures { result ≡ self.now.words }
    {
        self.words
    }

    /// Gives the log up for the caller's words.
    pub fn into_words(self) -> &'a [u32]
        ensures held { result ≡ self.entry.words }
        ensures passes { Passes result.now }
        ensures lawful { Lawful result.now }
        ensures told { Told (body result.now) }
    {
        self.meaning();
        self.words()
    }
}

// The check: a log of the words, or why they are none.
impl<'a> TryFrom<&'a [u32]> for CheckedLog<'a> {
    ghost use Rattle.post_log.specs.Checks.{Checks};

    type Error = Refusal;

    ghost try_from_gives = { Checks };

    #[tactic(auto, using(crate::proofs::Checking::refusing))]
    fn try_from(words: &'a [u32]) -> Result<Self, Refusal> {
        judge_log(words)?;
        Ok(CheckedLog { words })
    }
}

/// Fills `into` with the words if they are a log, and else leaves it as it was.
pub fn check<'a>(words: &'a [u32], into: &mut CheckedLog<'a>) -> Result<(), Refusal>
    // the refusal that the judgement from the left comes to, if any
    ensures value { result_err result ≡ verdict words.now }
    // and the one that the rules give
    ensures decided { Decided words.now (result_err result) }
    // what is accepted has entries that never fall, spelled by its words
    ensures told { OnOk result (Told (body words.now)) }
    ensures filled { MatchResult result (λ _. into.new.words ≡ words.entry) (λ _. into.new ≡ into.old) }
{
    *into = CheckedLog::try_from(words)?;
    Ok(())
}
