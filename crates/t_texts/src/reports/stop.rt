//! Why a line isn't told.

ghost use Rattle.std.specs.Prelude.{◌≡◌};
ghost use Rattle.t_texts.specs.declared.reports.stop.Stop.TheVariants.{Memory};

use std::alloc::{AllocError, AllocFailed};

/// Why a line isn't told.
#[derive(Drop)]
pub enum Stop {
    Memory,
    /// The line is no row, or doesn't fit those before it.
    NoRow,
}

impl From<AllocError> for Stop {
    ghost from_gives = { λ _ stop. stop ≡ Memory };

    fn from(_refused: AllocError) -> Stop {
        Stop::Memory
    }
}

impl<T: Drop> From<AllocFailed<T>> for Stop {
    ghost from_gives = { λ _ stop. stop ≡ Memory };

    fn from(_refused: AllocFailed<T>) -> Stop {
        Stop::Memory
    }
}
