//! Why an audit gives no verdict.

ghost use Rattle.std.specs.Prelude.{◌≡◌};
ghost use Rattle.shm_audit.specs.declared.stop.AuditStop.TheVariants.{Memory};

use crate::fault::ImageFault;
use std::alloc::AllocError;

/// Why an audit gives no verdict.
#[derive(Clone, Copy, Debug, PartialEq, Eq, Drop)]
pub enum AuditStop {
    /// Memory was wanting for what is found of each place.
    Memory(AllocError),
    /// The bytes are no image of a pool.
    Fault(ImageFault),
}

impl From<AllocError> for AuditStop {
    ghost from_gives = { λ e stop. stop ≡ Memory e };

    fn from(e: AllocError) -> Self {
        AuditStop::Memory(e)
    }
}
