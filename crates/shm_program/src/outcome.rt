//! What a call of the program comes to.

use shm_plain::PlainClosed;
use shm_replay::Replayed;
use shm_team::Ran;

/// What a call of the program came to.
#[derive(Drop)]
pub struct Outcome {
    /// 0 done, 2 words not accepted, 3 input refused, 4 a read failed, 5 a write failed, 6 want of memory.
    pub status: u8,
    pub finished: Finished,
}

/// What was made.
#[derive(Drop)]
pub enum Finished {
    /// Neither of these.
    Neither,
    /// The replay of a trace.
    Replayed(Replayed),
    /// The run of a trace by clients on threads.
    Ran(Ran),
    /// The run of a trace by clients on threads, of which those that died were recovered by other threads.
    Rescued(Ran),
    /// The run of a trace by clients that were polled.
    Polled(Ran),
    /// The closed pool of a script for versions of a map.
    Treed(PlainClosed),
}
