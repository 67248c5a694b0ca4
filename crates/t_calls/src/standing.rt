//! What is known of the identities of a pool between two calls.

ghost use Rattle.std.specs.Prelude.{◌≡◌};
ghost use Rattle.t_calls.specs.Known.{dying, found, held, kept, received, released, seeing, settled, told, unsettled};

use shm_count::Made;
use shm_queue::PeekFault;
use shm_ref::{Busy, NotHeld};

/// What is known of an identity whose client is between two calls.
#[derive(Clone, Copy, Drop)]
pub struct Known {
    /// Whether it holds no latch.
    pub free: bool,
    /// Whether it holds one.
    pub held: bool,
    /// Whether no count came to 0, and no block waits for a tail and no item for a head.
    pub quiet: bool,
    /// A block that it found under a latch, or 0.
    pub found: u32,
    /// A block whose count it brought to 0, or 0.
    pub dying: u32,
}

/// A client and what is known of it.
#[derive(Clone, Copy, Drop)]
pub struct Client {
    pub who: u8,
    pub known: Known,
}

/// How an identity stands.
#[derive(Clone, Copy, Drop)]
pub enum Standing {
    /// Nobody has joined as it.
    New,
    /// Its client is between two calls.
    Works(Known),
    /// Its agent is dead.
    Fallen,
    /// Nothing is known of it.
    Lost,
}

/// What is known of an identity that has just joined.
pub const JOINED: Known = Known {
    free: true,
    held: false,
    quiet: true,
    found: 0,
    dying: 0,
};

/// What is known of one between two calls, whatever they were.
pub const BARE: Known = Known {
    free: false,
    held: false,
    quiet: false,
    found: 0,
    dying: 0,
};

impl Known {
    /// What stays known where neither the latch nor what waits has changed.
    pub fn kept(self) -> Known
        ensures { result ≡ kept self }
    {
        Known {
            found: 0,
            dying: 0,
            ..self
        }
    }

    /// What stays known where the latch hasn't changed.
    pub fn unsettled(self) -> Known
        ensures { result ≡ unsettled self }
    {
        Known {
            quiet: false,
            found: 0,
            dying: 0,
            ..self
        }
    }

    /// What is known where the latch was given back.
    pub fn released(self) -> Known
        ensures { result ≡ released self }
    {
        Known {
            free: true,
            held: false,
            ..self.kept()
        }
    }

    /// What stays known where something was read.
    pub fn seeing(self) -> Known
        ensures { result ≡ seeing self }
    {
        Known {
            quiet: false,
            dying: 0,
            ..self
        }
    }
}

/// What is known after a call that was answered, none where no word step was left.
pub fn told<A>(answer: &Option<A>, known: Known) -> Option<Known>
    ensures { result ≡ told answer.now known }
{
    match answer {
        Some(_) => Some(known),
        None => None,
    }
}

/// What is known after a call that leaves what waits as it was, where it was done.
pub fn settled<T, E>(answer: &Option<Result<T, E>>, known: Known) -> Option<Known>
    ensures { result ≡ settled answer.now known }
{
    match answer {
        Some(Ok(_)) => Some(known.kept()),
        Some(Err(_)) => Some(known.unsettled()),
        None => None,
    }
}

/// What is known after a latch was asked for by a client that held none.
pub fn held(answer: &Option<Result<(), Busy>>, known: Known) -> Option<Known>
    ensures { result ≡ held answer.now known }
{
    match answer {
        Some(Ok(())) => Some(Known {
            free: false,
            held: true,
            ..known.kept()
        }),
        Some(Err(_)) => Some(known.kept()),
        None => None,
    }
}

/// What is known after a home was read.
pub fn found(answer: &Option<Result<u32, NotHeld>>, known: Known) -> Option<Known>
    ensures { result ≡ found answer.now known }
{
    match answer {
        Some(Ok(block)) => Some(Known {
            found: *block,
            ..known.unsettled()
        }),
        Some(Err(_)) => Some(known.unsettled()),
        None => None,
    }
}

/// What is known after the first item of a queue was asked for.
pub fn received(answer: &Option<Result<Made, PeekFault>>, known: Known) -> Option<Known>
    ensures { result ≡ received answer.now known }
{
    match answer {
        Some(Ok(_)) | Some(Err(PeekFault::Empty { at: _ })) => Some(known.kept()),
        Some(Err(_)) => Some(known.unsettled()),
        None => None,
    }
}

/// What is known after the count of a block was lowered, which may have come to 0.
pub fn dying<E>(answer: &Option<Result<bool, E>>, block: u32) -> Option<Known>
    ensures { result ≡ dying answer.now block }
{
    match answer {
        Some(Ok(true)) => Some(Known {
            dying: block,
            ..BARE
        }),
        Some(_) => Some(BARE),
        None => None,
    }
}
