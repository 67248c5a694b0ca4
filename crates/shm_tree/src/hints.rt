//! Whether the search for a node's block begins near a hint.

/// Whether a forest keeps a hint for its next node.
#[derive(Clone, Copy, Debug, Drop)]
pub enum Hints {
    /// Each search begins at the pool's first block.
    Off,
    /// It begins where a free block is likely.
    On,
}
