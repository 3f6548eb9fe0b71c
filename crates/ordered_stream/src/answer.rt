// SPDX-License-Identifier: MIT OR Apache-2.0
//! What a poll answers.
ghost use Rattle.std.specs.Prelude.{◌≡◌};
ghost use Rattle.ordered_stream.specs.Answers.{into_data, into_tuple, map_data, transpose_result, transpose_result_item};

use crate::function::Function;

/// What a stream says when it is asked for its next record.
#[derive(Clone, Copy, Debug, PartialEq, Eq)]
pub enum Answer<O, D> {
    /// a record
    Item { ordering: O, datum: D },
    /// no record below the bound is to come
    NoneBefore,
    /// no record is to come
    Terminated,
    /// nothing is known yet: ask again
    Pending,
}

impl<O: Drop, D: Drop> Answer<O, D> {
    /// The datum of a record.
    pub fn into_data(self) -> Option<D>
        ensures { result ≡ into_data self }
    {
        self.into_tuple().map(|(_, datum)| datum)
    }

    /// The record.
    pub fn into_tuple(self) -> Option<(O, D)>
        ensures { result ≡ into_tuple self }
    {
        match self {
            Answer::Item { ordering, datum } => Some((ordering, datum)),
            Answer::NoneBefore | Answer::Terminated | Answer::Pending => None,
        }
    }

    /// The same answer with the function's value for the datum.
    pub fn map_data<F: Function<D>>(self, f: &F) -> Answer<O, F::Output>
        ensures { result ≡ map_data (F.Function.image f.now) self }
    {
        match self {
            Answer::Item { ordering, datum } => Answer::Item {
                ordering,
                datum: f.apply(datum),
            },
            Answer::NoneBefore => Answer::NoneBefore,
            Answer::Terminated => Answer::Terminated,
            Answer::Pending => Answer::Pending,
        }
    }
}

impl<O: Drop, D: Drop, E: Drop> Answer<O, Result<D, E>> {
    /// The error of a record, with its ordering, and else the answer.
    pub fn transpose_result_item(self) -> Result<Answer<O, D>, (O, E)>
        ensures { result ≡ transpose_result_item self }
    {
        match self {
            Answer::Item { ordering, datum } => match datum {
                Ok(datum) => Ok(Answer::Item { ordering, datum }),
                Err(error) => Err((ordering, error)),
            },
            Answer::NoneBefore => Ok(Answer::NoneBefore),
            Answer::Terminated => Ok(Answer::Terminated),
            Answer::Pending => Ok(Answer::Pending),
        }
    }

    /// The error of a record, and else the answer.
    pub fn transpose_result(self) -> Result<Answer<O, D>, E>
        ensures { result ≡ transpose_result self }
    {
        self.transpose_result_item().map_err(|(_, error)| error)
    }
}
