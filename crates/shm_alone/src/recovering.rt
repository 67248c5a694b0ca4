//! Joins, leavings, recoveries, and the machines that a recovery is made of, where they work alone.

ghost use Rattle.std.specs.Prelude.{◌≡◌, ℕ, ◌+◌, ◌*◌, ◌^◌, ◌≤◌};
ghost use Rattle.shm_words.specs.Layout.{GeometryFits};
ghost use Rattle.shm_graph.specs.{declared.{ask.Me.Me as AMe, spot.Spot.Spot as ASpot}, Bounds.redo_steps};
ghost use Rattle.plans.specs.{CallsControl.{calls_does, calls_of}, CallsFit.CallsFits, Words.word_control};
ghost use Rattle.shm_recover.specs.FinishTakes.{Control.{finishing, finish_steered}, finish_plan};
ghost use Rattle.shm_recover.specs.{GiveUp.{Control.{giving_up, give_steered}, give_plan}, Join.AsPart.join_does};
ghost use Rattle.shm_recover.specs.Join.{JoinFits, join_control, join_fresh};
ghost use Rattle.shm_recover.specs.Leave.{Control.{leave_parts, leaving, leave_steered}, leave_plan};
ghost use Rattle.shm_recover.specs.Machines.{Recovering.{finish_takes, give_up, recover, scan, take_back}, leave};
ghost use Rattle.shm_recover.specs.Mend.{Control.{mend_parts, mending, mend_steered}, Machines.mend, mend_plan};
ghost use Rattle.shm_recover.specs.Recover.{Control.{recover_parts, recovering, recover_steered}, recover_plan};
ghost use Rattle.shm_recover.specs.Scan.{Control.{scan_parts, scanning, scan_steered}, scan_plan};
ghost use Rattle.shm_recover.specs.TakeBack.{Control.{back_parts, taking_back, back_steered}, back_plan};
ghost use Rattle.shm_alone.specs.{Alone.{EndsAlone, left_limit}, BackEnds.{back_alone, back_left}};
ghost use Rattle.shm_alone.specs.{GiveEnds.{give_alone, give_left, none_over}, JoinEnds.{join_alone, join_left}};
ghost use Rattle.shm_alone.specs.{LeaveEnds.{leave_alone, leave_left}, MendEnds.{mend_alone, mend_left}};
ghost use Rattle.shm_alone.specs.{RecoverEnds.{recover_alone, recover_left}, ScanEnds.{scan_alone, scan_left}};
ghost use Rattle.shm_alone.specs.TakesEnds.{finish_alone, finish_left};

/// A join that works alone ends: it needs to know nothing of the words, and is one word step.
pub fn join_ends()
    ensures ends { EndsAlone join_control join_does join_alone join_left none_over JoinFits }
    ensures begins { (me : AMe) (w : ASpot → ℕ) → join_alone (join_fresh me) w × (join_left (join_fresh me) ≡ 1) }
    ensures few { (me : AMe) → join_left (join_fresh me) ≤ 2 ^ 30 }
{}

/// A leaving that works alone ends: before its first word step it needs to know nothing of the words, and has 177 word steps left and two for
/// each segment, whatever the roots name.
pub fn leave_ends()
    ensures ends { EndsAlone leave (calls_does leave_parts leave_plan) leave_alone leave_left none_over (CallsFits leave_parts leave_plan) }
    ensures begins { (me : AMe) (w : ASpot → ℕ) → leave_alone (calls_of leave_steered (leaving me)) w × (leave_left (calls_of leave_steered (leaving me)) ≡ 2 * me.geometry.segments + 177) }
    ensures few { (me : AMe) → GeometryFits me.geometry → leave_left (calls_of leave_steered (leaving me)) ≤ 2 ^ 30 }
{}

/// A mending that works alone ends: before its first word step it needs to know nothing of the words, and has 16 word steps left (17 in
/// format 2) and one for each client.
pub fn mend_ends()
    ensures ends { EndsAlone mend (calls_does mend_parts mend_plan) mend_alone mend_left none_over (CallsFits mend_parts mend_plan) }
    ensures begins { (me : AMe) (w : ASpot → ℕ) → mend_alone (calls_of mend_steered (mending me)) w × (mend_left (calls_of mend_steered (mending me)) ≡ me.geometry.clients + 15 + redo_steps me.geometry.wide) }
{}

/// Taking back blocks alone ends: before its first word step it needs to know nothing of the words, and has 200 word steps left for each client
/// and one, whatever the queues hold.
pub fn take_back_ends()
    ensures ends { EndsAlone take_back (calls_does back_parts back_plan) back_alone back_left none_over (CallsFits back_parts back_plan) }
    ensures begins { (me : AMe) (w : ASpot → ℕ) → back_alone (calls_of back_steered (taking_back me)) w × (back_left (calls_of back_steered (taking_back me)) ≡ 200 * me.geometry.clients + 1) }
{}

/// Finishing takes alone ends: before its first word step it needs to know nothing of the words, and has four word steps left for each client
/// and one.
pub fn finish_takes_ends()
    ensures ends { EndsAlone finish_takes (calls_does word_control finish_plan) finish_alone finish_left none_over (CallsFits word_control finish_plan) }
    ensures begins { (me : AMe) (w : ASpot → ℕ) → finish_alone (calls_of finish_steered (finishing me)) w × (finish_left (calls_of finish_steered (finishing me)) ≡ 4 * me.geometry.clients + 1) }
{}

/// A scan that works alone ends: before its first word step it needs to know nothing of the words, and has 320000 word steps left for each
/// segment and one, whatever it finds.
pub fn scan_ends()
    ensures ends { EndsAlone scan (calls_does scan_parts scan_plan) scan_alone scan_left none_over (CallsFits scan_parts scan_plan) }
    ensures begins { (me : AMe) (w : ASpot → ℕ) → scan_alone (calls_of scan_steered (scanning me)) w × (scan_left (calls_of scan_steered (scanning me)) ≡ 320000 * me.geometry.segments + 1) }
{}

/// Giving segments up alone ends: before its first word step it needs to know nothing of the words, and has two word steps left for each
/// segment and one.
pub fn give_up_ends()
    ensures ends { EndsAlone give_up (calls_does word_control give_plan) give_alone give_left none_over (CallsFits word_control give_plan) }
    ensures begins { (me : AMe) (w : ASpot → ℕ) → give_alone (calls_of give_steered (giving_up me)) w × (give_left (calls_of give_steered (giving_up me)) ≡ 2 * me.geometry.segments + 1) }
{}

/// A recovery that works alone ends: before its first word step it needs to know nothing of the words, and has 205 word steps left for each
/// client, 320002 for each segment, and 196 (197 in format 2), whatever the dead client left.
pub fn recover_ends()
    ensures ends { EndsAlone recover (calls_does recover_parts recover_plan) recover_alone recover_left none_over (CallsFits recover_parts recover_plan) }
    ensures begins { (me : AMe) (w : ASpot → ℕ) → recover_alone (calls_of recover_steered (recovering me)) w × (recover_left (calls_of recover_steered (recovering me)) ≡ 205 * me.geometry.clients + 320002 * me.geometry.segments + 195 + redo_steps me.geometry.wide) }
    ensures few { (me : AMe) → GeometryFits me.geometry → recover_left (calls_of recover_steered (recovering me)) ≤ left_limit me.geometry.wide }
{}
