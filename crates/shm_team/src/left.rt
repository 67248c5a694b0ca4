//! The token of an identity that is given back.

use shm_pool::{Corpse, Vacant};

/// The token of an identity whose agents have nothing left to do: it is vacant, or its last agent died.
#[derive(Drop)]
pub enum Left {
    Vacant(Vacant),
    Corpse(Corpse),
}
