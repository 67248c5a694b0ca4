//! What count steps and tear-downs leave of the partition of their identity, at each point on their way; and commit tests of the map.

ghost use Rattle.std.specs.Prelude.{◌≡◌, ◌⊎◌, false};
ghost use Rattle.shm_graph.specs.{declared.{memo.Memo.Memo as AMemo, spot.Spot.Spot as ASpot}, Asks.Trail};
ghost use Rattle.kind_parts.specs.Reparting.{sight};
ghost use Rattle.plans.specs.{CallsControl.calls_control, CallsPart.calls_part, Words.word_control};
ghost use Rattle.shm_count.specs.declared.point.StepState.{StepState as AState};
ghost use Rattle.shm_count.specs.{declared.tear_point.TearState.TearState as ATearState, CommitTest.testing_plan};
ghost use Rattle.shm_count.specs.{CommitTest.Control.testing_steered, Steady.IsSteady};
ghost use Rattle.shm_count.specs.Step.{Control.{step_control, value_after}, Parts.part_after, StepFits};
ghost use Rattle.shm_count.specs.Tear.{TearFits};

/// On the way of a count step the partition is what it was, or the one that the slot with its new value leads to.
pub fn step_partitions()
    ensures { (p : ASpot) (m : AState) (r0 r : AMemo) (tr : Trail) → step_control.finished m ≡ false → StepFits p m r0 r tr → (r.part ≡ r0.part) ⊎ (r.part ≡ part_after m.me.who (sight m.me.who r0) p (value_after m.aim)) }
{}

/// On the way of a tear-down the partition is what it was.
pub fn tear_partitions()
    ensures { (m : ATearState) (r0 r : AMemo) (tr : Trail) → TearFits m r0 r tr → r.part ≡ r0.part }
{}

/// While a commit test runs, the map of the table is what it was.
pub fn tests_are_steady()
    ensures { IsSteady (calls_control word_control testing_steered) (calls_part word_control testing_plan) }
{}
