//! Another root for a block in reach.

use shm_count::parts::UpRoot;

/// The calls by which the least empty root of an identity comes to name a block.
///
/// It answers the root, or why none names the block: `EraSpent` where the own era is above 2^47 - 3, then `RootsFull`, then `CountFull`.
pub type Share = UpRoot;
