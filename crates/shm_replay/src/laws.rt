//! What holds of each replay.

ghost use Rattle.std.specs.Prelude.{◌≡◌, List};
ghost use Rattle.shm_plain.specs.Pools.{Pool as APool};
ghost use Rattle.shm_script.specs.{Logged.Logged as ALogged, Values.Traced as ATrace};
ghost use Rattle.shm_replay.specs.Replays.{IsReplay};

/// A replay is determined: two replays of one trace leave the same closed pool, turn for turn and word for word, and the same logs.
pub fn replays_are_determined()
    ensures pool { (t : ATrace) (p q : APool) (ls ms : List ALogged) → IsReplay t p ls → IsReplay t q ms → p ≡ q }
    ensures logs { (t : ATrace) (p q : APool) (ls ms : List ALogged) → IsReplay t p ls → IsReplay t q ms → ls ≡ ms }
{}
