//! What count steps and tear-downs answer.

ghost use Rattle.std.specs.Prelude.{◌≡◌};
ghost use Rattle.shm_count.specs.Step.Control as control;

/// The own era leaves no room for another count step; `era` is the own era that was read.
#[derive(Clone, Copy, Debug, PartialEq, Eq, Drop)]
pub struct EraSpent {
    pub era: u64,
}

/// A block that was made live, and the root of the identity that names it.
#[derive(Clone, Copy, Debug, PartialEq, Eq, Drop)]
pub struct Made {
    /// Which root, 0 to 15.
    pub root: u8,
    /// The address of the block.
    pub block: u32,
}

/// Why a block got no root.
#[derive(Clone, Copy, Debug, PartialEq, Eq, Drop)]
pub enum ShareFault {
    /// The own era that was read leaves no room for the step.
    EraSpent { era: u64 },
    /// Each of the 16 own roots names a block.
    RootsFull,
    /// The header that was read shows the greatest count, 1,023.
    CountFull { block: u32, count: u16 },
}

/// Why a block got no reference.
#[derive(Clone, Copy, Debug, PartialEq, Eq, Drop)]
pub enum UpFault {
    /// The own era that was read leaves no room for the step.
    EraSpent { era: u64 },
    /// The header that was read shows the greatest count, 1,023.
    CountFull { block: u32, count: u16 },
}

impl UpFault {
    /// The refusal of a step that takes a reference away: no count that goes down is full.
    pub fn spent(self) -> EraSpent
        ensures { result ≡ control.spent self }
    {
        match self {
            UpFault::EraSpent { era } => EraSpent { era },
            UpFault::CountFull { .. } => EraSpent { era: 0 },
        }
    }
}
