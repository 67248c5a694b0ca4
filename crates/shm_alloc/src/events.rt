//! What an allocation does to the graph of references.

ghost use Rattle.std.specs.Prelude.{◌≡◌, List, Result};
ghost use Rattle.shm_graph.specs.{declared.{memo.Memo.Memo as AMemo, run.Move.Move as AMove}, Asks.Trail};
ghost use Rattle.shm_graph.specs.Runs.{State, memos_of};
ghost use Rattle.shm_count.specs.{declared.answer.Made.Made as AMade, Calling.{IsCall, happened_in}};
ghost use Rattle.shm_alloc.specs.declared.{alloc.AllocFault.AllocFault as AFault, point.AllocPoint.TheVariants.Era};
ghost use Rattle.shm_alloc.specs.declared.point.AllocState.{AllocState as AState};
ghost use Rattle.shm_alloc.specs.Alloc.{Control.{alloc_control, AllocInRange}, Events.own_events, AllocGives, CanAlloc};

/// In a run of a pool the own events of an allocation that has answered are one: the block answered becomes live in the root answered;
/// where it is refused there are none.
pub fn alloc_own_events()
    ensures { (m : AState) (a : State) (ms : List AMove) (b : State) (r : AMemo) (tr : Trail) (x : Result AMade AFault) → m.point ≡ Era → AllocInRange m → CanAlloc m.me (memos_of a.accounts m.me.who) → IsCall alloc_control m a ms b tr → AllocGives m (memos_of a.accounts m.me.who) r tr x → happened_in m.me a ms ≡ own_events m.me x }
{}
