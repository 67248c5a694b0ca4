//! Operations whose sessions keep a pool.

ghost use Rattle.shm_graph.specs.{declared.{ask.Me.Me as AMe, memo.Memo.Memo as AMemo}, Asks.Trail, Laws.Laws};
ghost use Rattle.shm_sessions.specs.Kept.{AreKept};

use shm_session::Sits;

/// Operations of an identity whose machine keeps every pool, whatever others do.
pub trait Keeps: Sits {
    /// Of their machine, the memo before its first step, the memo now and what it has asked, as of any machine.
    ghost fits: { Self.Work → AMemo → AMemo → Trail → Type 0 };

    /// Of their machine, the memo before its first step, the memo at the end, all that it asked and its answer, as of any machine.
    ghost gives: { Self.Work → AMemo → AMemo → Trail → Self.Answer → Type 0 };

    /// Of the memo of an identity, at any time.
    ghost always: { AMemo → Type 0 };

    /// Of an identity whose client has joined and is between two operations.
    ghost between: { AMe → AMemo → Type 0 };

    ghost laws: { Laws Self.Sits.operations.control fits gives };

    ghost kept: { AreKept Self.Sits.operations fits gives always between };
}
