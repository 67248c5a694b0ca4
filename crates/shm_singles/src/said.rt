//! What is said of an answer, by its code and numbers.

ghost use Rattle.std.specs.Prelude.{◌≡◌};
ghost use Rattle.shm_words.specs.Tags.{tag_author};
ghost use Rattle.shm_singles.specs.Numbers as numbers;
ghost use Rattle.shm_singles.specs.Scripts as control;

use crate::lives::LivesAnswer;
use crate::queues::QueuesAnswer;
use crate::script::{Deed, Outcome, Point};
use plans::Or;
use shm_alloc::AllocFault;
use shm_count::parts::ShareFault;
use shm_count::{EraSpent, Made};
use shm_graph::Me;
use shm_queue::{PeekFault, SendFault};
use shm_ref::{LookFault, NoSuchWord, SetFault};
use shm_session::{Said, Stage};

/// The author that a tag word shows.
pub(crate) fn author_in(me: Me, word: u64) -> u8
    ensures { result ≡ tag_author me.geometry.wide word }
{
    if me.geometry.is_wide() {
        (word / (1 << 24) % 64) as u8
    } else {
        (word / (1 << 20) % 64) as u8
    }
}

/// Which machine comes once the block of the first root is known.
pub(crate) fn behind_root(deed: Deed) -> Point
    ensures { result ≡ control.behind_root deed }
{
    match deed {
        Deed::Set => Point::Other,
        Deed::Clear => Point::Held,
        Deed::Follow => Point::Tagged,
        _ => Point::Act,
    }
}

/// This is said, and the identity stands so from then on.
pub(crate) fn stands(said: Said, stage: Stage) -> Outcome
    ensures { result ≡ numbers.stands said stage }
{
    Outcome {
        said,
        stands: Some(stage),
    }
}

/// This is said at the end; an identity whose era is spent is dead.
pub(crate) fn ended(said: Said) -> Outcome
    ensures { result ≡ numbers.ended said }
{
    let stands = if said.code == 25 {
        Some(Stage::Dead)
    } else {
        None
    };
    Outcome { said, stands }
}

/// The era is spent.
pub(crate) fn spent(era: u64) -> Said
    ensures { result ≡ numbers.spent era }
{
    Said::new(25, 0, era, 0)
}

/// A block has as many references as one can have.
fn count_full(block: u32, count: u16) -> Said
    ensures { result ≡ numbers.count_full block count }
{
    Said::new(21, block, u64::from(count), 0)
}

/// This root names this block.
fn named(root: u8, block: u32) -> Said
    ensures { result ≡ numbers.root_named root block }
{
    Said::new(26, block, u64::from(root), 0)
}

/// The block has only so many words of the kind.
fn no_such(words: u8) -> Said
    ensures { result ≡ numbers.no_such words }
{
    Said::new(28, 0, u64::from(words), 0)
}

/// What came of a join, a recovery or a leaving.
pub(crate) fn lived(answer: LivesAnswer) -> Outcome
    ensures { result ≡ numbers.lived answer }
{
    match answer {
        Or::First(()) => stands(Said::of(16), Stage::Live),
        Or::Second(Or::First(answer)) => departed(answer),
        Or::Second(Or::Second(answer)) => departed(answer),
    }
}

/// What came of a recovery or a leaving.
fn departed(answer: Result<(), EraSpent>) -> Outcome
    ensures { result ≡ numbers.departed answer }
{
    match answer {
        Ok(()) => stands(Said::of(16), Stage::Vacant),
        Err(fault) => ended(spent(fault.era)),
    }
}

/// What came of an allocation.
pub(crate) fn made(answer: Result<Made, AllocFault>) -> Said
    ensures { result ≡ numbers.made answer }
{
    match answer {
        Ok(made) => named(made.root, made.block),
        Err(AllocFault::EraSpent { era }) => spent(era),
        Err(AllocFault::RootsFull) => Said::of(24),
        Err(AllocFault::Full { segments, blocks }) => {
            Said::new(20, 0, u64::from(segments), u64::from(blocks))
        }
    }
}

/// Which root came to name a block.
pub(crate) fn rooted(block: u32, answer: Result<u8, ShareFault>) -> Said
    ensures { result ≡ numbers.rooted block answer }
{
    match answer {
        Ok(root) => named(root, block),
        Err(ShareFault::EraSpent { era }) => spent(era),
        Err(ShareFault::RootsFull) => Said::of(24),
        Err(ShareFault::CountFull { block, count }) => count_full(block, count),
    }
}

/// Whether a root named a block that it names no more.
pub(crate) fn dropped(answer: Result<bool, EraSpent>) -> Said
    ensures { result ≡ numbers.dropped answer }
{
    match answer {
        Ok(true) => Said::of(16),
        Ok(false) => Said::of(27),
        Err(fault) => spent(fault.era),
    }
}

/// A plain word of a block.
pub(crate) fn read(block: u32, answer: Result<u64, NoSuchWord>) -> Said
    ensures { result ≡ numbers.word_read block answer }
{
    match answer {
        Ok(word) => Said::new(18, block, word, 0),
        Err(fault) => no_such(fault.plain),
    }
}

/// Why a reference word wasn't looked at.
pub(crate) fn not_looked(fault: LookFault) -> Said
    ensures { result ≡ numbers.not_looked fault }
{
    match fault {
        LookFault::NoSuchRef { refs } => no_such(refs),
        LookFault::NotHeld => Said::of(30),
    }
}

/// What came of setting a reference word.
pub(crate) fn set(answer: Result<(), SetFault>) -> Said
    ensures { result ≡ numbers.word_set answer }
{
    match answer {
        Ok(()) => Said::of(16),
        Err(SetFault::NotAuthor { author }) => Said::new(29, 0, u64::from(author), 0),
        Err(SetFault::NoSuchRef { refs }) => no_such(refs),
        Err(SetFault::NotHeld) => Said::of(30),
        Err(SetFault::EraSpent { era }) => spent(era),
        Err(SetFault::CountFull { block, count }) => count_full(block, count),
    }
}

/// What came of a send, a receive or a drain.
pub(crate) fn queued(answer: QueuesAnswer) -> Said
    ensures { result ≡ numbers.queued answer }
{
    match answer {
        Or::First(answer) => sent(answer),
        Or::Second(Or::First(answer)) => received(answer),
        Or::Second(Or::Second(Ok(taken))) => Said::new(31, 0, taken, 0),
        Or::Second(Or::Second(Err(fault))) => spent(fault.era),
    }
}

/// How many were sent before a block.
fn sent(answer: Result<u64, SendFault>) -> Said
    ensures { result ≡ numbers.sent answer }
{
    match answer {
        Ok(before) => Said::new(31, 0, before, 0),
        Err(SendFault::QueueFull { head, tail }) => Said::new(22, 0, head, tail),
        Err(SendFault::EraSpent { era }) => spent(era),
        Err(SendFault::CountFull { block, count }) => count_full(block, count),
    }
}

/// Which root came to name the block that was received.
fn received(answer: Result<Made, PeekFault>) -> Said
    ensures { result ≡ numbers.received answer }
{
    match answer {
        Ok(made) => named(made.root, made.block),
        Err(PeekFault::Empty { at }) => Said::new(23, 0, at, 0),
        Err(PeekFault::EraSpent { era }) => spent(era),
        Err(PeekFault::RootsFull) => Said::of(24),
        Err(PeekFault::CountFull { block, count }) => count_full(block, count),
    }
}
