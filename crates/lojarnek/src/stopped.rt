//! An identity whose client, or recoverer, came to an end before it was done.

use crate::corpse::Corpse;
use crate::error::Error;
use std::{error, fmt};

/// A leaving or a recovery that was not done: the corpse, and why. Where it is dropped the corpse lies in its pool (`Pool::corpse`).
#[derive(Debug, Drop)]
pub struct Stopped<'p> {
    pub corpse: Corpse<'p>,
    pub error: Error,
}

impl<'p> From<Stopped<'p>> for Error {
    ghost use Rattle.std.specs.Prelude.{◌≡◌};

    ghost from_gives = { λ s e. e ≡ s.error };

    fn from(stopped: Stopped<'p>) -> Error {
        stopped.error
    }
}

impl fmt::Display for Stopped<'_> {
    fn fmt<W: fmt::Write>(&self, f: &mut fmt::Formatter<W>) -> fmt::Result {
        write!(f, "identity {}: {}", self.corpse.number(), self.error)
    }
}

impl error::Error for Stopped<'_> {}
