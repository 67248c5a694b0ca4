//! What machines over queues answer.

ghost use Rattle.std.specs.Prelude.{◌≡◌};
ghost use Rattle.shm_queue.specs.Answers as answers;

use shm_count::parts::ShareFault;
use shm_count::{EraSpent, UpFault};

/// Why a block wasn't sent.
#[derive(Clone, Copy, Debug, PartialEq, Eq, Drop)]
pub enum SendFault {
    /// The tail and the head that were read differ by 8.
    QueueFull { head: u64, tail: u64 },
    /// The own era that was read leaves no room for the step.
    EraSpent { era: u64 },
    /// The header that was read shows the greatest count, 1,023.
    CountFull { block: u32, count: u16 },
}

/// Why an item wasn't taken, or what it alone named not freed.
#[derive(Clone, Copy, Debug, PartialEq, Eq, Drop)]
pub enum TakeFault {
    /// The tail that was read is the own head.
    Empty { at: u64 },
    /// The own era that was read leaves no room for a step down.
    EraSpent { era: u64 },
}

/// Why an item got no root.
#[derive(Clone, Copy, Debug, PartialEq, Eq, Drop)]
pub enum PeekFault {
    /// The tail that was read is the own head.
    Empty { at: u64 },
    /// The own era that was read leaves no room for the step.
    EraSpent { era: u64 },
    /// Each of the 16 own roots names a block.
    RootsFull,
    /// The header that was read shows the greatest count, 1,023.
    CountFull { block: u32, count: u16 },
}

impl SendFault {
    /// Why a block that was to be sent got no reference.
    #[inline(always)]
    pub fn of(fault: UpFault) -> SendFault
        ensures { result ≡ answers.send_fault fault }
    {
        match fault {
            UpFault::EraSpent { era } => SendFault::EraSpent { era },
            UpFault::CountFull { block, count } => SendFault::CountFull { block, count },
        }
    }
}

impl TakeFault {
    /// A step down was refused.
    #[inline(always)]
    pub fn of(spent: EraSpent) -> TakeFault
        ensures { result ≡ answers.take_fault spent }
    {
        TakeFault::EraSpent { era: spent.era }
    }
}

impl PeekFault {
    /// Why an item that was read got no root.
    #[inline(always)]
    pub fn of(fault: ShareFault) -> PeekFault
        ensures { result ≡ answers.peek_fault fault }
    {
        match fault {
            ShareFault::EraSpent { era } => PeekFault::EraSpent { era },
            ShareFault::RootsFull => PeekFault::RootsFull,
            ShareFault::CountFull { block, count } => PeekFault::CountFull { block, count },
        }
    }
}
