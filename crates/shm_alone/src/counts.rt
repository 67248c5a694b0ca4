//! Count steps, tear-downs and commit tests that work alone.

ghost use Rattle.std.specs.Prelude.{◌≡◌, ℕ, ◌+◌, Bool, Result, Ok, Err};
ghost use Rattle.shm_graph.specs.{declared.{ask.Me.Me as AMe, spot.Spot.Spot as ASpot}, Bounds.redo_steps};
ghost use Rattle.plans.specs.{CallsControl.{calls_does, calls_of}, CallsFit.CallsFits, Words.word_control};
ghost use Rattle.shm_count.specs.declared.{answer.EraSpent.EraSpent as ASpent, point.StepPoint.TheVariants.Era};
ghost use Rattle.shm_count.specs.declared.{point.StepState.StepState as AState, tear_point.TearPoint.TheVariants.Begin};
ghost use Rattle.shm_count.specs.declared.tear_point.TearState.{TearState as ATear};
ghost use Rattle.shm_count.specs.CommitTest.{Control.{testing, testing_steered}, Machines.commit_test, testing_plan};
ghost use Rattle.shm_count.specs.{Step.{Events.step_event, Machines.down_control}, StepsAt.DownFitsAt};
ghost use Rattle.shm_count.specs.Tear.{Control.tear_control, Events.tear_event, TearFits};
ghost use Rattle.shm_alone.specs.{Alone.EndsAlone, Lifting.{anything, calls_alone, calls_left, word_left}};
ghost use Rattle.shm_alone.specs.StepEnds.{step_alone, step_left, step_saved};
ghost use Rattle.shm_alone.specs.{TearEnds.{tear_alone, tear_left, tear_saved}, TestEnds.{test_rest, test_saved}};

/// A step down that works alone ends: before its first word step it needs to know nothing of the words and has 8 word steps left (9 in
/// format 2), its exchange doesn't fail, and where it is done the reference that it took away has paid for 200 more.
pub fn steps_end()
    ensures ends { (p : ASpot) → EndsAlone down_control (step_event p) step_alone step_left step_saved (DownFitsAt p) }
    ensures begins { (m : AState) (w : ASpot → ℕ) → m.point ≡ Era → step_alone m w × (step_left m ≡ 7 + redo_steps m.me.geometry.wide) }
    ensures done { (z : Bool) → step_saved (Ok z) ≡ 200 }
    ensures spent { (e : ASpent) → step_saved (Err e) ≡ 0 }
{}

/// A tear-down that works alone ends: before its first word step it needs to know nothing of the words and has 28 word steps left, each
/// reference that it takes away and each block that it frees pays for what comes before the next, and where it is done 100 are over.
pub fn tears_end()
    ensures ends { EndsAlone tear_control tear_event tear_alone tear_left tear_saved TearFits }
    ensures begins { (m : ATear) (w : ASpot → ℕ) → m.point ≡ Begin → tear_alone m w × (tear_left m ≡ 28) }
    ensures done { tear_saved (Ok tt) ≡ 100 }
    ensures spent { (e : ASpent) → tear_saved (Err e) ≡ 0 }
{}

/// A commit test that works alone ends: before its first word step it has a word step left for the row of each client, and two more.
pub fn tests_end()
    ensures ends { EndsAlone commit_test (calls_does word_control testing_plan) (calls_alone anything anything) (calls_left word_left test_rest) test_saved (CallsFits word_control testing_plan) }
    ensures begins { (me : AMe) (b e : ℕ) → calls_left word_left test_rest (calls_of testing_steered (testing me b e)) ≡ me.geometry.clients + 2 }
{}
