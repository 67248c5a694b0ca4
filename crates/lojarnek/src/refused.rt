//! What operations on blocks are refused for, as errors.

ghost use Rattle.std.specs.Prelude.{◌≡◌, ◌≢◌};
ghost use Rattle.lojarnek.specs.Refusing.{alloc_error, is_death, send_error, set_error, share_error};

use crate::error::Error;
use shm_alloc::AllocFault;
use shm_queue::SendFault;
use shm_ref::{SetFault, ShareFault};

/// Whether the client died in the call.
pub(crate) fn is_death<T>(answer: &Result<T, Error>) -> bool
    ensures { result ≡ is_death answer.now }
{
    match answer {
        Err(Error::Died { .. }) => true,
        _ => false,
    }
}

/// Why no block was made.
pub(crate) fn alloc_error(fault: AllocFault) -> Error
    ensures { result ≡ alloc_error fault }
{
    match fault {
        AllocFault::EraSpent { era } => Error::EraSpent { era },
        AllocFault::RootsFull => Error::RootsFull,
        AllocFault::Full { segments, blocks } => Error::Full { segments, blocks },
    }
}

/// Why no other root names a block.
pub(crate) fn share_error(fault: ShareFault) -> Error
    ensures { result ≡ share_error fault }
{
    match fault {
        ShareFault::EraSpent { era } => Error::EraSpent { era },
        ShareFault::RootsFull => Error::RootsFull,
        ShareFault::CountFull { block, count } => Error::CountFull { block, count },
    }
}

/// Why a block wasn't sent to the client `to`.
pub(crate) fn send_error(fault: SendFault, to: u8) -> Error
    ensures { result ≡ send_error fault to }
{
    match fault {
        SendFault::QueueFull { .. } => Error::QueueFull { to },
        SendFault::EraSpent { era } => Error::EraSpent { era },
        SendFault::CountFull { block, count } => Error::CountFull { block, count },
    }
}

/// Why reference word `word` of a block wasn't set under the own latch.
pub(crate) fn set_error(fault: SetFault, word: u8) -> Error
    requires { fault ≢ SetFault.NotHeld }
    ensures { result ≡ set_error fault word }
{
    match fault {
        SetFault::NotAuthor { author } => Error::NotAuthor { author },
        SetFault::NoSuchRef { refs } => Error::NoSuchWord { word, words: refs },
        SetFault::NotHeld => unreachable!(),
        SetFault::EraSpent { era } => Error::EraSpent { era },
        SetFault::CountFull { block, count } => Error::CountFull { block, count },
    }
}
