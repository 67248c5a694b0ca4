//! A recoverer finishes or drops the step that a dead client was at, and gives back its latch.
//!
//! That a redo record and a commit test let a step be finished by somebody else is an idea of CXL-SHM (SOSP 2023); the bit of a change that
//! tells its first half from its second is this project's own.

ghost use Rattle.std.specs.Prelude.{◌≡◌, ◌≢◌, ℕ, ◌+◌, ◌<◌, ◌^◌, ◌⊎◌, [], ◌∷◌, false};
ghost use Rattle.shm_words.specs.Layout.{GeometryFits};
ghost use Rattle.shm_graph.specs.declared.{ask.Me.Me as AMe, memo.{Kind.TheVariants.Recoverer, Memo.Memo as AMemo}};
ghost use Rattle.shm_graph.specs.{declared.spot.Spot.Spot as ASpot, Agents.entered, Asks.{Trail, IsWithin}};
ghost use Rattle.shm_graph.specs.{Bounds.redo_steps, Events.ChangeDown, Held.is_loose, Ops.held_over_of, Tells.Tells};
ghost use Rattle.kind_parts.specs.Reparting.{map_in};
ghost use Rattle.plans.specs.{CallsControl.calls_does, CallsFit.CallsFits, Plans.plan_trail};
ghost use Rattle.shm_recover.specs.Mend.{Control.{mend_parts, mending}, IsMended, MayMend, mend_plan};
ghost use Rattle.shm_recover.specs.{Mend.Machines.{mend, MendFits, MendGives, mend_told}, Proved.Mend.Laws.mend_laws};
ghost use Rattle.shm_recover.specs.Mend.Control as control;

use crate::mend_lower::MendLower;
use crate::mend_unlatch::MendUnlatch;
use plans::{Calls, Or, Plan, Word};
use shm_count::{Commit, CommitTest};
use shm_graph::{Machine, Me};
use shm_words::Redo;
use std::marker::Model;

/// Which call of it comes next.
#[derive(Clone, Copy, Drop)]
pub enum MendPoint {
    /// The status dead is stored.
    Dead,
    /// The own era is loaded.
    Era,
    /// The redo record is loaded, in format 2 its first word.
    Redo,
    /// In format 2 its second word is loaded.
    More,
    /// Whether the step that it spells was committed.
    Test,
    /// The slot of the committed step is stored.
    Slot,
    /// The next own era is stored.
    Close,
    /// The second half of a change is made.
    Lower,
    /// The latch is given back.
    Unlatch,
}

/// The control of it; `era` is the own era, `first` is the first word of the redo record, and `redo` is the record that was found.
#[derive(Clone, Copy, Drop)]
pub struct MendState {
    pub me: Me,
    pub era: u64,
    pub first: u64,
    pub redo: Redo,
    pub point: MendPoint,
}

impl MendState {
    /// Whether the record is of a change at its first half: that began at an era of the own era's parity.
    #[inline(always)]
    fn is_first(self) -> bool
        ensures { result ≡ control.is_first self.redo self.era }
    {
        let is_odd = self.era % 2 == 1;
        match self.redo {
            Redo::Change { odd, .. } => odd == is_odd,
            _ => false,
        }
    }

    /// Whether it is of a change at its second half.
    #[inline(always)]
    fn is_second(self) -> bool
        ensures { result ≡ control.is_second self.redo self.era }
    {
        match self.redo {
            Redo::Change { .. } => !self.is_first(),
            _ => false,
        }
    }

    /// The block whose count the step of the own era changes.
    #[inline(always)]
    fn block(self) -> u32
        ensures { result ≡ control.block_of self.redo self.era }
    {
        match self.redo {
            Redo::Idle => 0,
            Redo::Up { block, .. } | Redo::Down { block, .. } => block,
            Redo::Change { before, after, .. } => { if self.is_first() { after } else { before } }
        }
    }

    /// The block that the second half of a change lowers.
    #[inline(always)]
    fn before(self) -> u32
        ensures { result ≡ control.before_of self.redo }
    {
        match self.redo {
            Redo::Change { before, .. } => before,
            _ => 0,
        }
    }

    /// The store of the step's slot.
    #[inline(always)]
    fn write(self) -> Word
        ensures { result ≡ record { me = self.me; ask = control.write self.redo; over = false } }
    {
        match self.redo {
            Redo::Idle => Word::store(self.me, 0, 0),
            Redo::Up { slot, block } => Word::store(self.me, slot, u64::from(block)),
            Redo::Down { slot, .. } => Word::store(self.me, slot, 0),
            Redo::Change { slot, after, .. } => Word::store(self.me, slot, u64::from(after)),
        }
    }

    /// The first word of the redo record was found, which in format 1 says it all.
    #[inline(always)]
    fn first_found(&mut self, word: u64)
        ensures { self.new ≡ control.first_found self.old word }
    {
        if self.me.geometry.is_wide() {
            self.first = word;
            self.point = MendPoint::More;
        } else {
            self.found(word, 0);
        }
    }

    /// The words of the redo record were found; two that spell none are taken for that of no step.
    #[inline(always)]
    fn found(&mut self, first: u64, second: u64)
        ensures { self.new ≡ control.found self.old first second }
    {
        self.point = MendPoint::Unlatch;
        match self.me.geometry.read_redo(first, second) {
            None | Some(Redo::Idle) => {}
            Some(redo) => {
                self.redo = redo;
                self.point = MendPoint::Test;
            }
        }
    }

    /// The commit test answered.
    #[inline(always)]
    fn tested(&mut self, commit: Commit)
        ensures { self.new ≡ control.tested self.old commit }
    {
        self.point = match (commit, self.is_second()) {
            (Commit::Committed { .. }, false) => MendPoint::Slot,
            (Commit::Committed { .. }, true) => MendPoint::Close,
            (Commit::NotCommitted, true) => MendPoint::Lower,
            (Commit::NotCommitted, false) => MendPoint::Unlatch,
        };
    }

    /// The next own era was stored.
    #[inline(always)]
    fn closed(&mut self)
        requires { self.old.era < 2 ^ 47 }
        ensures { self.new ≡ control.closed self.old }
    {
        if self.is_first() {
            self.era = (self.era + 1) % (1 << 47);
            self.point = MendPoint::Lower;
        } else {
            self.point = MendPoint::Unlatch;
        }
    }
}

/// The calls by which a recoverer mends what a dead client left in progress.
///
/// After it the identity is dead, with no step in progress and no latch. It refuses nothing.
#[derive(Drop)]
pub struct Mend {
    state: MendState,
}

impl Model for Mend {
    ghost use Rattle.shm_recover.specs.declared.mend.MendState.{MendState as AState};

    ghost Value = { AState };

    ghost view = { λ a. a.state };

    ghost use Rattle.shm_recover.specs.Mend.Control.{MendInRange};

    ghost invariant = { λ a. MendInRange a.state };
}

impl Mend {
    /// The mending of the identity `me`, before the first call.
    #[inline(always)]
    pub fn new(me: Me) -> Mend
        requires geometry { GeometryFits me.geometry }
        requires who { me.who < me.geometry.clients }
        ensures { result ≡ mending me }
    {
        Mend {
            state: MendState {
                me,
                era: 0,
                first: 0,
                redo: Redo::Idle,
                point: MendPoint::Dead,
            },
        }
    }
}

impl Plan for Mend {
    type Call = Or<Word, Or<Calls<CommitTest>, Or<Calls<MendLower>, Calls<MendUnlatch>>>>;

    type Answer = ();

    ghost plan = { mend_plan };

    #[inline(always)]
    fn me(&self) -> Me {
        self.state.me
    }

    #[inline(always)]
    fn call(&self) -> Or<Word, Or<Calls<CommitTest>, Or<Calls<MendLower>, Calls<MendUnlatch>>>> {
        let MendState { me, era, point, .. } = self.state;
        let own_era = me.geometry.era(me.who, me.who);
        match point {
            MendPoint::Dead => Or::First(Word::store(me, me.geometry.status(me.who), 2)),
            MendPoint::Era => Or::First(Word::load(me, own_era)),
            MendPoint::Redo => Or::First(Word::load(me, me.geometry.redo(me.who))),
            MendPoint::More => Or::First(Word::load(me, me.geometry.redo_more(me.who))),
            MendPoint::Test => Or::Second(Or::First(Calls::new(CommitTest::new(
                me,
                self.state.block(),
                era,
            )))),
            MendPoint::Slot => Or::First(self.state.write()),
            MendPoint::Close => Or::First(Word::store(me, own_era, era + 1)),
            MendPoint::Lower => Or::Second(Or::Second(Or::First(Calls::new(MendLower::new(
                me,
                self.state.before(),
                era,
            ))))),
            MendPoint::Unlatch => {
                Or::Second(Or::Second(Or::Second(Calls::new(MendUnlatch::new(me)))))
            }
        }
    }

    #[inline(always)]
    fn next(&mut self, answer: Or<u64, Or<Commit, Or<(), ()>>>) -> Option<()> {
        match answer {
            Or::First(word) => match self.state.point {
                MendPoint::Era => {
                    self.state.era = word % (1 << 47);
                    self.state.point = MendPoint::Redo;
                }
                MendPoint::Redo => self.state.first_found(word),
                MendPoint::More => {
                    let first = self.state.first;
                    self.state.found(first, word);
                }
                MendPoint::Slot => self.state.point = MendPoint::Close,
                MendPoint::Close => self.state.closed(),
                _ => self.state.point = MendPoint::Era,
            },
            Or::Second(Or::First(commit)) => self.state.tested(commit),
            Or::Second(Or::Second(Or::First(()))) => self.state.point = MendPoint::Unlatch,
            Or::Second(Or::Second(Or::Second(()))) => return Some(()),
        }
        None
    }

    ghost laws = { mend_laws };
}

/// A mending fits each memo of an identity whose agent is a recoverer; so of the memo that any agent left behind, once a recoverer has begun.
pub fn mend_begins()
    ensures fits { (me : AMe) (r : AMemo) → MayMend me r → MendFits me r r [] }
    ensures again { (me : AMe) (r : AMemo) → GeometryFits me.geometry → me.who < me.geometry.clients → MayMend me (entered Recoverer r) }
{}

/// The event of each word step of a mending is the one that it tells.
pub fn mend_events()
    ensures { Tells mend (CallsFits mend_parts mend_plan) (calls_does mend_parts mend_plan) }
{}

/// What a mending gives speaks of the events that it tells, and what it asked is one of its trails.
pub fn mend_leaves()
    ensures leaves { (me : AMe) (r0 r : AMemo) (tr : Trail) → MendGives me r0 r tr tt → IsMended me r0 r tr (mend_told me tr) }
    ensures trail { (me : AMe) (r0 r : AMemo) (tr : Trail) → MendGives me r0 r tr tt → plan_trail mend_plan (mending me) tr tt }
{}

/// What a mending leaves as it was: what was sent and received and what of it is half served, the segments, and the map of a table.
pub fn mend_keeps()
    ensures queues { (me : AMe) (r0 r : AMemo) (tr : Trail) → MendGives me r0 r tr tt → (r.sent ≡ r0.sent) × (r.received ≡ r0.received) × (r.unsent ≡ r0.unsent) × (r.untaken ≡ r0.untaken) }
    ensures segments { (me : AMe) (r0 r : AMemo) (tr : Trail) → MendGives me r0 r tr tt → r.owned ≡ r0.owned }
    ensures map { (me : AMe) (r0 r : AMemo) (tr : Trail) → MendGives me r0 r tr tt → (is_loose r.part ≡ is_loose r0.part) × (map_in r.part ≡ map_in r0.part) }
{}

/// The one event of a mending, if any, is the second half of a change whose first half was committed and whose second one wasn't.
pub fn mend_loses()
    ensures { (me : AMe) (r0 r : AMemo) (tr : Trail) → MendGives me r0 r tr tt → ((held_over_of r0.op ≡ 0) × (mend_told me tr ≡ [])) ⊎ ((held_over_of r0.op ≢ 0) × (mend_told me tr ≡ ChangeDown me.who (held_over_of r0.op) ∷ [])) }
{}

/// A mending took at most a word step for each client and 14, one more in format 2, and three more for each exchange that failed.
pub fn mend_bound()
    ensures { (me : AMe) (r0 r : AMemo) (tr : Trail) → MendGives me r0 r tr tt → IsWithin (me.geometry.clients + 13 + redo_steps me.geometry.wide) tr }
{}
