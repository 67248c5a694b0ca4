//! Why a line stopped before it was done.

ghost use Rattle.std.specs.Prelude.{◌≡◌};
ghost use Rattle.shm_tree.specs.Forests.{is_over, turn_of};

use crate::line::{TreeAnswer, TreeTurn};

/// Why a line stopped before it was done.
#[derive(Clone, Copy, Debug, Drop)]
pub enum Stop {
    /// No word step was left.
    Died,
    /// No block was free for a node.
    Full { segments: u16, blocks: u32 },
    /// A block has as many references as a block may have.
    CountFull { block: u32, count: u16 },
    /// The own era leaves no room for a count step.
    EraSpent { era: u64 },
}

impl Stop {
    /// Whether no word step was left.
    pub fn is_over(self) -> bool
        ensures { result ≡ is_over self }
    {
        matches!(self, Stop::Died)
    }

    /// What came of a line that stopped so.
    pub fn turn(self) -> TreeTurn
        ensures { result ≡ turn_of self }
    {
        match self {
            Stop::Died => TreeTurn::Died,
            Stop::Full { segments, blocks } => TreeTurn::Done(TreeAnswer::Full {
                segments,
                blocks,
            }),
            Stop::CountFull { block, count } => {
                TreeTurn::Done(TreeAnswer::CountFull { block, count })
            }
            Stop::EraSpent { era } => TreeTurn::Done(TreeAnswer::EraSpent { era }),
        }
    }
}
