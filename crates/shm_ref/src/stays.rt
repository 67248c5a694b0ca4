//! What a drop of roots leaves of the map of its identity's table, at each point on its way.

ghost use Rattle.shm_count.specs.Steady.{IsSteady};
ghost use Rattle.plans.specs.{CallsControl.calls_control, CallsPart.calls_part};
ghost use Rattle.shm_ref.specs.{DropRoot.{Control.drop_parts, drop_plan}, DropRoots.Control.{drop_root, roots_steered}};
ghost use Rattle.shm_ref.specs.DropRoots.{roots_plan};

/// While a root is dropped, and while all are, the map of the table is what it was.
pub fn drops_are_steady()
    ensures one { IsSteady drop_root (calls_part drop_parts drop_plan) }
    ensures all { IsSteady (calls_control drop_root roots_steered) (calls_part drop_root roots_plan) }
{}
