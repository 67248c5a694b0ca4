//! Operations: machines that begin between two calls of their identity.

ghost use Rattle.std.specs.Prelude.{ℕ, List};
ghost use Rattle.shm_graph.specs.{declared.memo.Memo.Memo as AMemo, Asks.Trail, Events.Event, Operations.OperationLaws};

use crate::machine::Machine;

/// A machine that begins between two calls of its identity: its page as members.
///
/// What a pool needs to run it is here: when it may begin, what it leaves by the memos before and after, its asks and its events, and that
/// its identity is between two calls again. So a pool has one call for all operations.
pub trait Operation: Machine {
    /// Of the machine and the memo of its identity: it may begin.
    ghost may: { Self → AMemo → Type 0 };

    /// Of the machine as it began, the memos before and after, what it asked, its events and its answer: this is left.
    ghost leaves: { Self → AMemo → AMemo → Trail → List Event → Self.Answer → Type 0 };

    /// The event of a word step that finds this word.
    ghost does: { Self → ℕ → Event };

    /// Where it answers so, its identity is between two calls again.
    ghost rests: { Self → Self.Answer → Type 0 } = { λ _ _. Unit {0} };

    ghost operates: { OperationLaws Self.Machine.control Self.Machine.fits Self.Machine.gives may does leaves rests };
}
