//! Why an image isn't migrated.

use shm_audit::{ImageFault, Verdict};
use std::alloc::AllocError;

/// Why an image isn't migrated.
#[derive(Clone, Copy, Debug, Drop)]
pub enum MigrateStop {
    /// Memory was wanting, for the audit or for the new image.
    Memory(AllocError),
    /// The bytes are no image of a pool.
    Fault(ImageFault),
    /// The image is of format 2 already.
    Already,
    /// The verdict on the pool isn't that it is clean.
    NotClean(Verdict),
}
