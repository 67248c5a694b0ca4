//! What is shown of the turns of a pool, and to whom.

ghost use Rattle.std.specs.Prelude.{List, [], ◌∷◌, ◌++◌};
ghost use Rattle.shm_watch.specs.declared.shown.Shown.{Shown as AShown};

use shm_graph::Ask;

/// What is shown of a turn.
#[derive(Clone, Copy, Drop)]
pub enum Shown {
    /// A word step of an identity: what was asked, the word that was found (for a store 0), and whether its machine has ended by it.
    Word {
        who: u8,
        ask: Ask,
        found: u64,
        ends: bool,
    },
    /// The death of the identity's acting agent.
    Death {
        who: u8,
    },
}

/// Who is shown the turns of a replay, one after the other.
pub trait Watcher: Drop {
    /// What it is after it has been shown these turns, the first one first.
    ghost saw: { Self → List AShown → Type 0 };

    /// It is shown the next turn.
    fn see(&mut self, shown: Shown)
        ensures { (before : List AShown) → saw self.old before → saw self.new (before ++ shown ∷ []) };
}
