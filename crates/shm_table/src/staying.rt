//! What machines over tables keep of a memo, and what the steps of tables make of the own map.

ghost use Rattle.std.specs.Prelude.{◌≡◌, ◌≢◌, ℕ, ◌<◌, false};
ghost use Rattle.shm_graph.specs.declared.{ask.Me.Me as AMe, memo.{Memo.Memo as AMemo, Op.TheVariants.Nothing}};
ghost use Rattle.shm_graph.specs.{declared.spot.Spot.TheVariants.{Home, Body}, Held.is_loose, Idle.IsIdle};
ghost use Rattle.shm_graph.specs.Views.{own_word};
ghost use Rattle.kind_parts.specs.{Beginning.IsOwnWord, Reparting.{sight, map_in, map_after, TableStep}};
ghost use Rattle.plans.specs.Parts.{IsHeld};
ghost use Rattle.shm_count.specs.Step.Parts.{part_after};
ghost use Rattle.shm_table.specs.Staying.{Keeps};

/// Where nothing is done all is kept, and what one part after another keeps both keep.
pub fn keeps_on()
    ensures none { (c : ℕ) (m : AMemo) → IsIdle c m → Keeps c m m }
    ensures more { (c : ℕ) (m x r : AMemo) → Keeps c m x → Keeps c x r → Keeps c m r }
{}

/// A count step at a word from which the own partition is read makes of the own map what its kind tells.
pub fn map_steps()
    ensures word { (me : AMe) (m r : AMemo) (d i old new : ℕ) → IsHeld me m → me.who < me.geometry.clients → m.op ≡ Nothing → is_loose m.part ≡ false → IsOwnWord me.geometry.wide me.who m d i old → old ≢ new → r.part ≡ part_after me.who (sight me.who m) (Body d i) new → (s : TableStep me.geometry.wide me.who (sight me.who m) (Body d i) old new) (k : ℕ) → map_in r.part k ≡ map_after me.geometry.wide me.who (sight me.who m) (Body d i) old new s (map_in m.part) k }
    ensures home { (me : AMe) (m r : AMemo) (new : ℕ) → IsHeld me m → me.who < me.geometry.clients → m.op ≡ Nothing → is_loose m.part ≡ false → own_word m.own (Home me.who) ≡ 0 → new ≢ 0 → r.part ≡ part_after me.who (sight me.who m) (Home me.who) new → (s : TableStep me.geometry.wide me.who (sight me.who m) (Home me.who) 0 new) (k : ℕ) → map_in r.part k ≡ map_after me.geometry.wide me.who (sight me.who m) (Home me.who) 0 new s (map_in m.part) k }
{}
