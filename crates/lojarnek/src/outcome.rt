//! What commands on tables answer, of whichever kind.

ghost use Rattle.std.specs.Prelude.{◌≡◌};
ghost use Rattle.lojarnek.specs.Pending.{as_number, as_stored, as_there, outcome_of};

use crate::error::Error;
use crate::tables::{found, stored, was_there};
use shm_script::{Answer, Line};

/// What a command answered that was not refused.
#[derive(Clone, Copy, Debug, PartialEq, Eq, Drop)]
pub enum Outcome {
    /// Of a put: the number was stored.
    Stored,
    /// Of a get, a copy or a receive: the number that was found, or none.
    Number(Option<u64>),
    /// Of a removal or a send: whether the key was there.
    There(bool),
}

fn as_stored(answer: Result<(), Error>) -> Result<Outcome, Error>
    ensures { result ≡ as_stored answer }
{
    match answer {
        Ok(()) => Ok(Outcome::Stored),
        Err(error) => Err(error),
    }
}

fn as_number(answer: Result<Option<u64>, Error>) -> Result<Outcome, Error>
    ensures { result ≡ as_number answer }
{
    match answer {
        Ok(number) => Ok(Outcome::Number(number)),
        Err(error) => Err(error),
    }
}

fn as_there(answer: Result<bool, Error>) -> Result<Outcome, Error>
    ensures { result ≡ as_there answer }
{
    match answer {
        Ok(there) => Ok(Outcome::There(there)),
        Err(error) => Err(error),
    }
}

/// What the command of a line answered.
pub(crate) fn outcome_of(line: &Line, answer: Answer) -> Result<Outcome, Error>
    ensures { result ≡ outcome_of line.now answer }
{
    match *line {
        Line::Put { .. } => as_stored(stored(answer)),
        Line::Del { .. } => as_there(was_there(answer, 0)),
        Line::Get { .. } | Line::Copy { .. } | Line::Recv { .. } => as_number(found(answer)),
        Line::Send { to, .. } => as_there(was_there(answer, to)),
    }
}
