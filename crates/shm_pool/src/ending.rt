//! The last machine of an agent, which leaves its identity gone.

ghost use Rattle.std.specs.Prelude.{◌≡◌, ◌<◌, true, false, IfOk, IfErr, is_err, is_ok};
ghost use Rattle.shm_graph.specs.{Agents.acts, Whole.{fits_now, gives_now}};
ghost use Rattle.shm_pool.specs.{Rules.alone, Tokens.{has_left, its, me_of, token_of, IsFor, IsFallen, IsSeated}};
ghost use Rattle.shm_pool.specs.Endings.{ClientMayLeave, HasEnded, HasStopped, HasLeft, HasNotLeft, LeavesGone, fallen_of};
ghost use Rattle.shm_pool.specs.Lasts.{HasMade, HasNotMade};
ghost use Rattle.shm_pool.specs.declared.token.Cause.TheVariants as cause;

use crate::last::Last;
use crate::pool::SharedPool;
use crate::rule::Place;
use crate::steps::{load_status, run_place};
use crate::token::{Cause, Client, Corpse, Stopped, Vacant};
use plans::Calls;
use shm_count::EraSpent;
use shm_graph::{Life, Machine, Start};
use shm_recover::Leave;

/// The corpse of an agent that was stopped; `begun` says whether one had begun.
pub(crate) fn stop(place: Place, start: Start, who: u8, begun: bool, cause: Cause) -> Stopped
    requires seated { IsSeated start who place }
    requires fallen { IsFallen begun (alone place).memo }
    ensures { (result.corpse ≡ token_of start place) × (result.cause ≡ cause) }
{
    let corpse = Corpse {
        place,
        start,
        who,
        begun,
    };
    Stopped { corpse, cause }
}

/// The agent's machine is run to its end. Where it answers Ok the identity is gone and the agent has ended.
pub(crate) fn end_by<M: Machine<Answer = Result<(), EraSpent>>>(
    pool: &SharedPool,
    mut place: Place,
    start: Start,
    who: u8,
    m: &mut M,
    life: &mut Life,
) -> Result<Vacant, Stopped>
    requires pool { its place.table_id start ≡ pool.now }
    requires seated { IsSeated start who place }
    requires acts { acts (alone place).memo ≡ true }
    requires machine { (M.control.me m.old ≡ me_of pool.now (alone place)) × (M.control.finished m.old ≡ false) }
    requires fits { fits_now M.control M.fits m.old (alone place).memo (alone place).memo }
    requires leaves { LeavesGone (gives_now M.gives) m.old (alone place).memo }
    ensures ended { IfOk result (HasEnded M.control M.fits (gives_now M.gives) m.old pool.now (alone place) life.old.left life.new.left) }
    ensures stopped { IfErr result (λ s. HasStopped M.control M.fits (gives_now M.gives) m.old pool.now (alone place) life.old.left life.new.left s.cause s.corpse) }
{
    match run_place(pool.top(), &mut place, m, life) {
        Some(Ok(())) => Ok(Vacant { place, start, who }),
        Some(Err(spent)) => Err(stop(place, start, who, true, Cause::EraSpent { era: spent.era })),
        None => Err(stop(place, start, who, true, Cause::Died)),
    }
}

impl Client {
    /// Runs a machine that leaves the identity gone where it answers Ok, and ends the client with it. A client of which a call has
    /// died takes no step.
    ///
    /// # Errors
    ///
    /// `Died` where no life was left before the machine had answered, or a call of this client has died; `EraSpent` where the machine
    /// answered so: what it did stays done.
    pub fn leave_by<M: Machine<Answer = Result<(), EraSpent>>>(
        self,
        pool: &SharedPool,
        m: &mut M,
        life: &mut Life,
    ) -> Result<Vacant, Stopped>
        requires pool { self.of ≡ pool.now }
        requires machine { self.dead ≡ false → IsFor self.of self.account M.control m.old }
        requires fits { self.dead ≡ false → fits_now M.control M.fits m.old self.account.memo self.account.memo }
        requires leaves { self.dead ≡ false → LeavesGone (gives_now M.gives) m.old self.account.memo }
        ensures ended { IfOk result (HasEnded M.control M.fits (gives_now M.gives) m.old self.of self.account life.old.left life.new.left) }
        ensures stopped { self.dead ≡ false → IfErr result (λ s. HasStopped M.control M.fits (gives_now M.gives) m.old self.of self.account life.old.left life.new.left s.cause s.corpse) }
        ensures again { self.dead ≡ true → (is_err result ≡ true) × IfErr result (λ s. (s.cause ≡ cause.Died) × (s.corpse ≡ fallen_of self) × (m.new ≡ m.old) × (life.new ≡ life.old)) }
    {
        let Client {
            place,
            start,
            who,
            dead,
            effect: _,
        } = self;
        if dead {
            return Err(stop(place, start, who, true, Cause::Died));
        }
        end_by(pool, place, start, who, m, life)
    }

    /// Leaves the pool: its roots are dropped, its segments are given up, and its status is stored. A client of which a call has died
    /// takes no step.
    ///
    /// # Errors
    ///
    /// `Died` where no life was left before it had answered, or a call of this client has died; `EraSpent` where the own era that was
    /// read is above 2^47 - 3 at a reference that is to go. What was done stays done.
    pub fn leave(self, pool: &SharedPool, life: &mut Life) -> Result<Vacant, Stopped>
        requires pool { self.of ≡ pool.now }
        requires may { self.dead ≡ false → ClientMayLeave self.of self.account }
        ensures left { IfOk result (HasLeft self.of self.account life.old.left life.new.left) }
        ensures stopped { self.dead ≡ false → IfErr result (λ s. HasNotLeft self.of self.account life.old.left life.new.left s.cause s.corpse) }
        ensures again { self.dead ≡ true → (is_err result ≡ true) × IfErr result (λ s. (s.cause ≡ cause.Died) × (s.corpse ≡ fallen_of self) × (life.new ≡ life.old)) }
    {
        self.leave_as::<Leave>(pool, life)
    }

    /// Makes its last plan, and ends the client with it. A client of which a call has died takes no step.
    fn leave_as<P: Last + Drop>(self, pool: &SharedPool, life: &mut Life) -> Result<Vacant, Stopped>
        requires pool { self.of ≡ pool.now }
        requires may { self.dead ≡ false → P.may (me_of self.of self.account) self.account.memo × (self.account.memo.over ≡ true) }
        ensures left { IfOk result (HasMade P.Call.control P.plan P.made (me_of self.of self.account) self.of self.account life.old.left life.new.left) }
        ensures stopped { self.dead ≡ false → IfErr result (λ s. HasNotMade P.Call.control P.plan P.made (me_of self.of self.account) self.of self.account life.old.left life.new.left s.cause s.corpse) }
        ensures again { self.dead ≡ true → (is_err result ≡ true) × IfErr result (λ s. (s.cause ≡ cause.Died) × (s.corpse ≡ fallen_of self) × (life.new ≡ life.old)) }
    {
        let mut last = Calls::new(P::of(self.me()));
        self.leave_by(pool, &mut last, life)
    }

    /// Gives the token back where the client has left: where the last machine that it was stepped through, or ran, left the identity gone.
    /// No machine of it is unfinished, unless a step has answered `Died`.
    ///
    /// The status word is loaded for that, which no life pays for.
    ///
    /// # Errors
    ///
    /// The client as it was, where it hasn't left.
    pub fn end(self, pool: &SharedPool) -> Result<Vacant, Client>
        requires pool { self.of ≡ pool.now }
        requires over { self.dead ≡ false → self.account.memo.over ≡ true }
        ensures left { is_ok result ≡ has_left self.account.memo }
        ensures ended { IfOk result (λ v. (v.of ≡ self.of) × (v.account ≡ self.account)) }
        ensures stays { IfErr result (λ c. c ≡ self) }
    {
        if self.dead {
            return Err(self);
        }
        let Client {
            mut place,
            start,
            who,
            dead,
            effect,
        } = self;
        let at = start.geometry.status(who);
        if load_status(pool.top(), &mut place, at) == 3 {
            Ok(Vacant { place, start, who })
        } else {
            Err(Client {
                place,
                start,
                who,
                dead,
                effect,
            })
        }
    }
}
