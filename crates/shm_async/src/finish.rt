//! A future that could not be made.

use shm_pool::Vacant;
use std::alloc::AllocError;

/// A future that could not be made: the token as it was, and why.
#[derive(Drop)]
pub struct NewStop {
    pub token: Vacant,
    pub cause: AllocError,
}
