//! A machine of an operation on single blocks, of whichever group it is.

ghost use Rattle.std.specs.Prelude.{◌≡◌, false};
ghost use Rattle.shm_graph.specs.Laws.{turn_of};
ghost use Rattle.shm_singles.specs.Parts.{part_control};

use crate::latches::{Latches, LatchesAnswer};
use crate::lives::{Lives, LivesAnswer};
use crate::queues::{Queues, QueuesAnswer};
use crate::roots::{Roots, RootsAnswer};
use crate::words::{Words, WordsAnswer};
use shm_alloc::{Alloc, AllocFault};
use shm_count::Made;
use shm_graph::{Ask, Machine, Turn};

/// A machine of an operation.
#[derive(Drop)]
pub enum Part {
    Lives(Lives),
    Alloc(Alloc),
    Roots(Roots),
    Words(Words),
    Latches(Latches),
    Queues(Queues),
}

/// What it answers.
#[derive(Drop)]
pub enum PartAnswer {
    Lives(LivesAnswer),
    Alloc(Result<Made, AllocFault>),
    Roots(RootsAnswer),
    Words(WordsAnswer),
    Latches(LatchesAnswer),
    Queues(QueuesAnswer),
}

impl Part {
    /// Whether it has answered.
    #[inline(always)]
    pub(crate) fn is_over(&self) -> bool
        ensures { result ≡ part_control.finished self.now }
    {
        match self {
            Part::Lives(machine) => machine.is_over(),
            Part::Alloc(machine) => machine.finished(),
            Part::Roots(machine) => machine.is_over(),
            Part::Words(machine) => machine.is_over(),
            Part::Latches(machine) => machine.is_over(),
            Part::Queues(machine) => machine.is_over(),
        }
    }

    /// The word step that it asks for.
    #[inline(always)]
    pub(crate) fn ask(&self) -> Ask
        requires { part_control.finished self.now ≡ false }
        ensures { result ≡ part_control.asks self.now }
    {
        match self {
            Part::Lives(machine) => machine.ask(),
            Part::Alloc(machine) => machine.ask(),
            Part::Roots(machine) => machine.ask(),
            Part::Words(machine) => machine.ask(),
            Part::Latches(machine) => machine.ask(),
            Part::Queues(machine) => machine.ask(),
        }
    }

    /// Takes the word that was found, for a store 0.
    #[inline(always)]
    pub(crate) fn take(&mut self, seen: u64) -> Turn<PartAnswer>
        requires { part_control.finished self.old ≡ false }
        ensures machine { self.new ≡ part_control.after self.old seen }
        ensures turn { result ≡ turn_of (part_control.turns self.old seen) }
    {
        match self {
            Part::Lives(machine) => match machine.take(seen) {
                Turn::Done(answer) => Turn::Done(PartAnswer::Lives(answer)),
                Turn::More => Turn::More,
                Turn::Died => Turn::Died,
            },
            Part::Alloc(machine) => match machine.take(seen) {
                Turn::Done(answer) => Turn::Done(PartAnswer::Alloc(answer)),
                Turn::More => Turn::More,
                Turn::Died => Turn::Died,
            },
            Part::Roots(machine) => match machine.take(seen) {
                Turn::Done(answer) => Turn::Done(PartAnswer::Roots(answer)),
                Turn::More => Turn::More,
                Turn::Died => Turn::Died,
            },
            Part::Words(machine) => match machine.take(seen) {
                Turn::Done(answer) => Turn::Done(PartAnswer::Words(answer)),
                Turn::More => Turn::More,
                Turn::Died => Turn::Died,
            },
            Part::Latches(machine) => match machine.take(seen) {
                Turn::Done(answer) => Turn::Done(PartAnswer::Latches(answer)),
                Turn::More => Turn::More,
                Turn::Died => Turn::Died,
            },
            Part::Queues(machine) => match machine.take(seen) {
                Turn::Done(answer) => Turn::Done(PartAnswer::Queues(answer)),
                Turn::More => Turn::More,
                Turn::Died => Turn::Died,
            },
        }
    }
}
