//! What searches and readings of a table show of its map, in the own table and in that of any author.

ghost use Rattle.std.specs.{Prelude.{◌≡◌, ℕ, Some, None, List, ◌<◌}, List.Contains};
ghost use Rattle.shm_graph.specs.declared.{ask.Me.Me as AMe, memo.{Memo.Memo as AMemo, Look.Look as ALook}};
ghost use Rattle.shm_graph.specs.declared.{memo.Stored.Stored as AStored, run.Move.Move as AMove};
ghost use Rattle.shm_graph.specs.{declared.spot.Spot.{Spot as ASpot, TheVariants.Body}, Asks.Trail, Held.HeldAt};
ghost use Rattle.shm_graph.specs.{Runs.{State, memos_of}, Views.view, Events.Event as AnEvent};
ghost use Rattle.plans.specs.{declared.calls.Calls.Calls as ACalls, CallsControl.calls_of, CallsFit.CallsFits};
ghost use Rattle.kind_parts.specs.Reparting.{map_in};
ghost use Rattle.shm_count.specs.Calling.{IsCall};
ghost use Rattle.shm_script.specs.declared.line.Line.TheVariants as line;
ghost use Rattle.shm_script.specs.declared.log.Answer.TheVariants as answer;
ghost use Rattle.shm_table.specs.declared.{find.Found.TheVariants.{Absent, At}, get.GetState.GetState as AGetState};
ghost use Rattle.shm_table.specs.{Command.{command_control, command_of}, Find.Control.finding};
ghost use Rattle.shm_table.specs.Find.{Tells.{HasRead, HasKey}, FindLeaves, IsLook};
ghost use Rattle.shm_table.specs.Get.Finding.{FindsAt, IsAnswered};
ghost use Rattle.shm_table.specs.Get.{Control.{GetCall, get_parts, getting, get_steered}, GetLeaves, IsTold, get_plan};
ghost use Rattle.shm_table.specs.{Get.Tells.{HasNamed, IsReady}, Locate.{Located, MayLocate}, Machines.Get.get};

/// In the own table the answer says whether its map has the key; and in any table a chain was read up to the entry that was found.
pub fn locate_tells()
    ensures absent { (me : AMe) (a key : ℕ) (r0 r : AMemo) (tr : Trail) (es : List AnEvent) (home first : ℕ) → a ≡ me.who → Located me a key r0 r tr es (Absent home first) → map_in r0.part key ≡ None }
    ensures found { (me : AMe) (a key : ℕ) (r0 r : AMemo) (tr : Trail) (es : List AnEvent) (entry before word : ℕ) → a ≡ me.who → Located me a key r0 r tr es (At entry before word) → (n : ℕ) × (v : ℕ) × (map_in r0.part key ≡ Some (n, v)) }
    ensures read { (me : AMe) (a key : ℕ) (r0 r : AMemo) (tr : Trail) (es : List AnEvent) (entry before word : ℕ) → Located me a key r0 r tr es (At entry before word) → HasRead a r key entry }
{}

/// In the own table the answer is what the map has at the key. In any table a machine that has loaded the value word of the entry, and is to
/// load the number, has a memo such that in each state that holds with it the author's map has the value block at the key, with the number in
/// its word. When it is about to give back the latch, once the number is known, its memo shows the chain up to the entry, its value word and
/// the number: in each state that holds with that memo they are what the author's map has at the key.
pub fn get_tells()
    ensures missing { (me : AMe) (a key : ℕ) (r0 r : AMemo) (tr : Trail) (es : List AnEvent) → a ≡ me.who → GetLeaves (getting me a key) r0 r tr es answer.Missing → map_in r0.part key ≡ None }
    ensures found { (me : AMe) (a key : ℕ) (r0 r : AMemo) (tr : Trail) (es : List AnEvent) (n v : ℕ) → a ≡ me.who → GetLeaves (getting me a key) r0 r tr es (answer.Value n v) → map_in r0.part key ≡ Some (n, v) }
    ensures named { (m : ACalls AGetState GetCall) (r0 r : AMemo) (tr : Trail) → CallsFits get_parts get_plan m r0 r tr → HasNamed m → (w : ASpot → ℕ) (rs : ℕ → AMemo) → HeldAt m.plan.me.geometry w (view rs) → rs m.plan.me.who ≡ r → map_in (rs m.plan.author).part m.plan.key ≡ Some (w (Body m.plan.block 0), m.plan.block) }
    ensures told { (m : ACalls AGetState GetCall) (r0 r : AMemo) (tr : Trail) → CallsFits get_parts get_plan m r0 r tr → IsReady m → IsTold m.plan.author m.plan.key m.plan.entry m.plan.number m.plan.block r }
    ensures map { (m : ACalls AGetState GetCall) (r0 r : AMemo) (tr : Trail) → CallsFits get_parts get_plan m r0 r tr → IsReady m → (w : ASpot → ℕ) (rs : ℕ → AMemo) → HeldAt m.plan.me.geometry w (view rs) → rs m.plan.me.who ≡ r → map_in (rs m.plan.author).part m.plan.key ≡ Some (m.plan.number, m.plan.block) }
{}

/// In a run of a pool, whoever else steps, a get that answered a number and a block found what the author's map had: at the word step of it that
/// loads the value word of the entry that the author's table has for the key, the author's map has this number and this block there. So does
/// the command of its line.
pub fn get_finds_the_map()
    ensures get { (me : AMe) (author key : ℕ) (a : State) (ms : List AMove) (b : State) (tr : Trail) (n v : ℕ) → MayLocate me author (memos_of a.accounts me.who) → IsCall get (calls_of get_steered (getting me author key)) a ms b tr → IsAnswered get (calls_of get_steered (getting me author key)) tr (answer.Value n v) → FindsAt me author key n v a ms b }
    ensures command { (me : AMe) (author key : ℕ) (a : State) (ms : List AMove) (b : State) (tr : Trail) (n v : ℕ) → MayLocate me author (memos_of a.accounts me.who) → IsCall command_control (command_of me (line.Get author key)) a ms b tr → IsAnswered command_control (command_of me (line.Get author key)) tr (answer.Value n v) → FindsAt me author key n v a ms b }
{}

/// In the own table the answer says whether its map has the key; and in any table a chain was read up to the entry that was found.
pub fn find_tells()
    ensures absent { (me : AMe) (a key : ℕ) (r0 r : AMemo) (tr : Trail) (es : List AnEvent) (home first : ℕ) → a ≡ me.who → FindLeaves (finding me a key) r0 r tr es (Absent home first) → map_in r0.part key ≡ None }
    ensures found { (me : AMe) (a key : ℕ) (r0 r : AMemo) (tr : Trail) (es : List AnEvent) (entry before word : ℕ) → a ≡ me.who → FindLeaves (finding me a key) r0 r tr es (At entry before word) → (n : ℕ) × (v : ℕ) × (map_in r0.part key ≡ Some (n, v)) }
    ensures read { (me : AMe) (a key : ℕ) (r0 r : AMemo) (tr : Trail) (es : List AnEvent) (entry before word : ℕ) → FindLeaves (finding me a key) r0 r tr es (At entry before word) → HasRead a r key entry }
{}

/// That a chain was read up to an entry stays so while the latch is held and more is read. In each state that holds with such a memo the
/// author's partition has the key at that entry; once the entry's value word was read the author's map has the block that it names, with the
/// number in its word; and where that number is known, it is what was read.
pub fn read_tells()
    ensures stays { (a key entry : ℕ) (r x : AMemo) → x.latch ≡ r.latch → x.part ≡ r.part → ((s : AStored) → Contains r.known s → Contains x.known s) → ((k : ALook) → Contains r.looks k → Contains x.looks k) → HasRead a r key entry → HasRead a x key entry }
    ensures has { (me : AMe) (a key entry : ℕ) (r : AMemo) → HasRead a r key entry → me.who < me.geometry.clients → (w : ASpot → ℕ) (rs : ℕ → AMemo) → HeldAt me.geometry w (view rs) → rs me.who ≡ r → HasKey (rs a).part key entry }
    ensures names { (me : AMe) (a key entry v : ℕ) (r : AMemo) → HasRead a r key entry → IsLook r (Body entry 1) v → me.who < me.geometry.clients → (w : ASpot → ℕ) (rs : ℕ → AMemo) → HeldAt me.geometry w (view rs) → rs me.who ≡ r → map_in (rs a).part key ≡ Some (w (Body v 0), v) }
    ensures map { (me : AMe) (a key entry v n : ℕ) (r : AMemo) → HasRead a r key entry → IsLook r (Body entry 1) v → Contains r.known (record { spot = Body v 0; value = n }) → me.who < me.geometry.clients → (w : ASpot → ℕ) (rs : ℕ → AMemo) → HeldAt me.geometry w (view rs) → rs me.who ≡ r → map_in (rs a).part key ≡ Some (n, v) }
{}
