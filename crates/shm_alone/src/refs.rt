//! Drops of roots, takes and drains that work alone.

ghost use Rattle.std.specs.Prelude.{◌≡◌, ℕ, ◌+◌, ◌*◌, Result, Ok, Err, true};
ghost use Rattle.shm_graph.specs.declared.{ask.Me.Me as AMe, spot.Spot.Spot as ASpot};
ghost use Rattle.plans.specs.{CallsControl.{calls_does, calls_of}, CallsFit.CallsFits};
ghost use Rattle.shm_queue.specs.declared.answer.TakeFault.{TakeFault as AFault};
ghost use Rattle.shm_queue.specs.Drain.{Control.{drain_parts, draining, take_control, drain_steered}, drain_plan};
ghost use Rattle.shm_queue.specs.{Machines.drain, Take.{Control.{take_parts, taking, take_steered}, take_plan}};
ghost use Rattle.shm_ref.specs.DropRoot.{Control.{drop_parts, dropping, drop_steered}, drop_plan};
ghost use Rattle.shm_ref.specs.DropRoots.{Control.{drop_root, dropping_roots, roots_steered}, roots_plan};
ghost use Rattle.shm_ref.specs.Machines.{drop_roots};
ghost use Rattle.shm_alone.specs.Alone.{EndsAlone};
ghost use Rattle.shm_alone.specs.QueuesEnd.{drain_alone, drain_left, drain_saved, take_alone, take_left, take_saved};
ghost use Rattle.shm_alone.specs.RootsEnd.{drop_alone, drop_left, drop_saved, roots_alone, roots_left, roots_saved};

/// A drop of a root that works alone ends: before its first word step it needs to know nothing of the words and has 11 word steps left, and
/// where it emptied the root the reference that was lost has paid for 100 more.
pub fn drops_end()
    ensures ends { EndsAlone drop_root (calls_does drop_parts drop_plan) drop_alone drop_left drop_saved (CallsFits drop_parts drop_plan) }
    ensures begins { (me : AMe) (k : ℕ) (w : ASpot → ℕ) → drop_alone (calls_of drop_steered (dropping me k)) w × (drop_left (calls_of drop_steered (dropping me k)) ≡ 11) }
    ensures done { drop_saved (Ok true) ≡ 100 }
{}

/// A drop of all roots that works alone ends: before its first word step it needs to know nothing of the words and has 176 word steps left.
pub fn roots_end()
    ensures ends { EndsAlone drop_roots (calls_does drop_root roots_plan) roots_alone roots_left roots_saved (CallsFits drop_root roots_plan) }
    ensures begins { (me : AMe) (w : ASpot → ℕ) → roots_alone (calls_of roots_steered (dropping_roots me)) w × (roots_left (calls_of roots_steered (dropping_roots me)) ≡ 176) }
{}

/// A take that works alone ends: before its first word step it needs to know nothing of the words and has 13 word steps left, and where an item
/// is taken the reference that was lost has paid for 100 more; so it pays for the next take.
pub fn takes_end()
    ensures ends { EndsAlone take_control (calls_does take_parts take_plan) take_alone take_left take_saved (CallsFits take_parts take_plan) }
    ensures begins { (me : AMe) (s : ℕ) (w : ASpot → ℕ) → take_alone (calls_of take_steered (taking me s)) w × (take_left (calls_of take_steered (taking me s)) ≡ 13) }
    ensures done { take_saved (Ok tt) ≡ 100 }
    ensures refused { (f : AFault) → take_saved (Err f) ≡ 0 }
{}

/// A drain that works alone ends: before its first word step it needs to know nothing of the words and has 14 word steps left, and 13 for each
/// client, whatever the queues hold.
pub fn drains_end()
    ensures ends { EndsAlone drain (calls_does drain_parts drain_plan) drain_alone drain_left drain_saved (CallsFits drain_parts drain_plan) }
    ensures begins { (me : AMe) (w : ASpot → ℕ) → drain_alone (calls_of drain_steered (draining me)) w × (drain_left (calls_of drain_steered (draining me)) ≡ 13 * me.geometry.clients + 14) }
{}
