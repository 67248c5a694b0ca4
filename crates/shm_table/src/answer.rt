//! What machines over tables answer.

ghost use Rattle.std.specs.Prelude.{◌≡◌};
ghost use Rattle.shm_table.specs.Answers as answers;

use shm_alloc::AllocFault;
use shm_count::{EraSpent, UpFault};
use shm_script::Answer;

/// Why a value block didn't come into the table.
#[derive(Clone, Copy, Debug, PartialEq, Eq, Drop)]
pub enum PutFault {
    /// The own era that was read leaves no room for a count step.
    EraSpent { era: u64 },
    /// Each of the 16 own roots names a block.
    RootsFull,
    /// No segment had a free block: so many segments are another's, and so many headers of blocks were read.
    Full { segments: u16, blocks: u32 },
    /// The header that was read shows the greatest count, 1,023.
    CountFull { block: u32, count: u16 },
}

impl PutFault {
    /// Why a block wasn't made.
    #[inline(always)]
    pub fn made(fault: AllocFault) -> PutFault
        ensures { result ≡ answers.made_fault fault }
    {
        match fault {
            AllocFault::EraSpent { era } => PutFault::EraSpent { era },
            AllocFault::RootsFull => PutFault::RootsFull,
            AllocFault::Full { segments, blocks } => PutFault::Full { segments, blocks },
        }
    }

    /// Why a block got no reference.
    #[inline(always)]
    pub fn raised(fault: UpFault) -> PutFault
        ensures { result ≡ answers.raised_fault fault }
    {
        match fault {
            UpFault::EraSpent { era } => PutFault::EraSpent { era },
            UpFault::CountFull { block, count } => PutFault::CountFull { block, count },
        }
    }

    /// A step down was refused.
    #[inline(always)]
    pub fn spent(spent: EraSpent) -> PutFault
        ensures { result ≡ answers.spent_fault spent }
    {
        PutFault::EraSpent { era: spent.era }
    }

    /// What a command answers that was refused so.
    #[inline(always)]
    pub fn answer(self) -> Answer
        ensures { result ≡ answers.fault_answer self }
    {
        match self {
            PutFault::EraSpent { era } => Answer::EraSpent { era },
            PutFault::RootsFull => Answer::RootsFull,
            PutFault::Full { segments, blocks } => Answer::Full { segments, blocks },
            PutFault::CountFull { block, count } => Answer::CountFull { block, count },
        }
    }
}
