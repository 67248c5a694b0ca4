//! Why a caller stopped before it was done.

use shm_alloc::{AllocFault, TooLarge};
use shm_count::EraSpent;
use shm_ref::{Busy, HomeFault, SetFault, ShareFault};
use std::alloc::AllocError;

/// Why a caller stopped before it was done.
#[derive(Debug, Drop)]
pub enum Stop {
    /// Memory was wanting for the pool: there is none.
    Memory(AllocError),
    /// No word step was left: the client is as one that has died, and whoever has the pool may recover it.
    Died,
    /// More words were asked for than a block has: nothing was done.
    TooLarge(TooLarge),
    /// No block was made.
    NotMade(AllocFault),
    /// The latch is another's.
    Busy(Busy),
    /// The reference wasn't set.
    NotSet(SetFault),
    /// The home wasn't set.
    NoHome(HomeFault),
    /// The block got no further root.
    NotShared(ShareFault),
    /// The own era is spent: a reference wasn't taken away.
    Spent(EraSpent),
}
