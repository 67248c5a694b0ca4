//! A corpse is recovered.

ghost use Rattle.std.specs.Prelude.{◌≡◌, ◌<◌, true, false, IfOk, IfErr, is_err};
ghost use Rattle.shm_words.specs.Layout.{total_of};
ghost use Rattle.shm_graph.specs.{Agents.acts, Runs.Stood, Whole.{fits_now, gives_now}};
ghost use Rattle.shm_pool.specs.{Rules.{IsAlone, alone}, Tokens.{me_of, begun_account, recovering_account, IsFallen}};
ghost use Rattle.shm_pool.specs.Endings.{HasEnded, HasNotRecovered, HasRecovered, HasStopped, LeavesGone};
ghost use Rattle.shm_pool.specs.Lasts.{HasMade, HasNotMade, IsForRecoverers};
ghost use Rattle.shm_pool.specs.declared.token.Cause.TheVariants as cause;

use crate::ending::{end_by, stop};
use crate::last::Last;
use crate::pool::SharedPool;
use crate::rule::{Place, Top};
use crate::steps::{note_client, note_death, note_recoverer};
use crate::token::{Cause, Corpse, Stopped, Vacant};
use plans::Calls;
use shm_count::EraSpent;
use shm_graph::{Life, Machine, Me};
use shm_recover::Recover;

// An agent that has fallen is dead before the next one begins; where a join began none, a client begins and dies without a step.
pub(crate) fn note_change(top: &Top, place: &mut Place, begun: bool)
    requires table { (place.old.table_id ≡ top.now.table_id) × (top.now.table_id.words ≡ total_of top.now.key.geometry) × IsAlone place.old }
    requires who { (alone place.old).who < top.now.key.geometry.clients }
    requires fallen { IsFallen begun (alone place.old).memo }
    ensures place { (place.new.table_id ≡ place.old.table_id) × (place.new.id ≡ place.old.id) × IsAlone place.new }
    ensures stood { Stood top.now.key (alone place.old) → Stood top.now.key (alone place.new) }
    ensures account { alone place.new ≡ recovering_account (alone place.old) }
    ensures who { (alone place.new).who ≡ (alone place.old).who }
    ensures acts { acts (alone place.new).memo ≡ true }
{
    note_begun(top, place, begun);
    note_death(top, place);
    note_recoverer(top, place);
}

/// Notes that a client has begun, where a join with no life left began none.
fn note_begun(top: &Top, place: &mut Place, begun: bool)
    requires table { (place.old.table_id ≡ top.now.table_id) × (top.now.table_id.words ≡ total_of top.now.key.geometry) × IsAlone place.old }
    requires who { (alone place.old).who < top.now.key.geometry.clients }
    requires fallen { IsFallen begun (alone place.old).memo }
    ensures place { (place.new.table_id ≡ place.old.table_id) × (place.new.id ≡ place.old.id) × IsAlone place.new }
    ensures stood { Stood top.now.key (alone place.old) → Stood top.now.key (alone place.new) }
    ensures account { alone place.new ≡ begun_account (alone place.old) }
    ensures acts { acts (alone place.new).memo ≡ true }
{
    if begun {
        return;
    }
    note_client(top, place);
}

impl Corpse {
    /// Which identity it is; and its account is one of a state that holds.
    pub fn client(&self) -> u8
        ensures is { result ≡ self.now.account.who }
        ensures below { result < self.now.of.start.geometry.clients }
        ensures stood { Stood self.now.of.start self.now.account }
    {
        self.who
    }

    /// Begins a recoverer and runs a machine that leaves the identity gone where it answers Ok. With no life left no agent begins.
    ///
    /// # Errors
    ///
    /// `Died` where no life was left before the machine had answered; `EraSpent` where the machine answered so: what it did stays done.
    pub fn recover_by<M: Machine<Answer = Result<(), EraSpent>>>(
        self,
        pool: &SharedPool,
        m: &mut M,
        life: &mut Life,
    ) -> Result<Vacant, Stopped>
        requires pool { self.of ≡ pool.now }
        requires machine { (M.control.me m.old ≡ me_of self.of self.account) × (M.control.finished m.old ≡ false) }
        requires fits { fits_now M.control M.fits m.old (recovering_account self.account).memo (recovering_account self.account).memo }
        requires leaves { LeavesGone (gives_now M.gives) m.old (recovering_account self.account).memo }
        ensures ended { IfOk result (HasEnded M.control M.fits (gives_now M.gives) m.old self.of (recovering_account self.account) life.old.left life.new.left) }
        ensures stopped { 0 < life.old.left → IfErr result (λ s. HasStopped M.control M.fits (gives_now M.gives) m.old self.of (recovering_account self.account) life.old.left life.new.left s.cause s.corpse) }
        ensures unbegun { life.old.left ≡ 0 → (is_err result ≡ true) × IfErr result (λ s. (s.cause ≡ cause.Died) × (s.corpse ≡ self) × (m.new ≡ m.old) × (life.new ≡ life.old)) }
    {
        let Corpse {
            mut place,
            start,
            who,
            begun,
        } = self;
        if life.left == 0 {
            return Err(stop(place, start, who, begun, Cause::Died));
        }
        note_change(pool.top(), &mut place, begun);
        end_by(pool, place, start, who, m, life)
    }

    /// Recovers the identity: its recoverer finishes or drops the step in progress, gives the latch back, drops the roots, finishes the
    /// queues, frees the zero-count blocks that it finds, gives the segments up and stores the status. With no life left no agent
    /// begins.
    ///
    /// # Errors
    ///
    /// `Died` where no life was left before it had answered: what was done stays done, and the next recovery begins as this one did.
    /// `EraSpent` where the own era that was read is above 2^47 - 3 at a reference that is to go: what was done stays done.
    pub fn recover(self, pool: &SharedPool, life: &mut Life) -> Result<Vacant, Stopped>
        requires pool { self.of ≡ pool.now }
        ensures recovered { IfOk result (HasRecovered self.of self.account life.old.left life.new.left) }
        ensures stopped { 0 < life.old.left → IfErr result (λ s. HasNotRecovered self.of self.account life.old.left life.new.left s.cause s.corpse) }
        ensures unbegun { life.old.left ≡ 0 → (is_err result ≡ true) × IfErr result (λ s. (s.cause ≡ cause.Died) × (s.corpse ≡ self) × (life.new ≡ life.old)) }
    {
        self.recover_as::<Recover>(pool, life)
    }

    /// Begins a recoverer, which makes its last plan. With no life left no agent begins.
    fn recover_as<P: Last + Drop>(
        self,
        pool: &SharedPool,
        life: &mut Life,
    ) -> Result<Vacant, Stopped>
        requires pool { self.of ≡ pool.now }
        requires may { IsForRecoverers P.may }
        ensures recovered { IfOk result (HasMade P.Call.control P.plan P.made (me_of self.of self.account) self.of (recovering_account self.account) life.old.left life.new.left) }
        ensures stopped { 0 < life.old.left → IfErr result (λ s. HasNotMade P.Call.control P.plan P.made (me_of self.of self.account) self.of (recovering_account self.account) life.old.left life.new.left s.cause s.corpse) }
        ensures unbegun { life.old.left ≡ 0 → (is_err result ≡ true) × IfErr result (λ s. (s.cause ≡ cause.Died) × (s.corpse ≡ self) × (life.new ≡ life.old)) }
    {
        let me = Me::new(pool.geometry(), self.client());
        let mut last = Calls::new(P::of(me));
        self.recover_by(pool, &mut last, life)
    }
}
