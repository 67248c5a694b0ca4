//! A recovery in single steps.

ghost use Rattle.std.specs.Prelude.{◌≡◌, ◌+◌, ◌<◌, ◌↔◌, true, false, Ok, IfOk, IfErr, is_ok};
ghost use Rattle.plans.specs.{CallsControl.calls_of, CallsFit.{CallsFits, CallsGives}};
ghost use Rattle.shm_graph.specs.{Laws.{is_died, is_done}, Runs.Stood, Whole.{fits_now, gives_now}};
ghost use Rattle.shm_graph.specs.declared.ask.Turn.TheVariants as turns;
ghost use Rattle.shm_recover.specs.Machines.Recovering.{recover};
ghost use Rattle.shm_recover.specs.Recover.{Control.{recover_parts, recovering, recover_steered}, recover_plan};
ghost use Rattle.shm_pool.specs.{Calls.ClientStepped, Rescues.account_of, Tokens.me_of};

use crate::pool::SharedPool;
use crate::rescue::Rescue;
use crate::token::{Corpse, Vacant};
use plans::Calls;
use shm_count::EraSpent;
use shm_graph::{Life, Turn};
use shm_recover::Recover;
use std::marker::Model;

/// An identity that is recovered one word step at a time.
pub struct Rescuer {
    rescue: Rescue<Calls<Recover>>,
}

// by hand, so that who lets one go needn't know what it is made of
impl Drop for Rescuer {
    #[inline(always)]
    fn drop(self) {
        let Rescuer { rescue: _rescue } = self;
    }
}

impl Model for Rescuer {
    ghost use Rattle.plans.specs.CallsFit.{CallsFits, CallsGives};
    ghost use Rattle.shm_recover.specs.{Machines.Recovering.recover, Recover.{Control.recover_parts, recover_plan}};
    ghost use Rattle.shm_pool.specs.{Rescues.Rescuing, Stepped.{IsRescue, rescuing_by}};

    ghost Value = { Rescuing };

    ghost view = { λ t. rescuing_by t.rescue };

    ghost invariant = { λ t. IsRescue recover (CallsFits recover_parts recover_plan) (CallsGives recover_parts recover_plan) t.rescue };
}

impl Corpse {
    /// A recovery of the identity that is stepped: it makes no step. The death is noted and the recoverer begins with its first word step.
    pub fn start(self) -> Rescuer
        ensures of { (result.of ≡ self.of) × (result.seat ≡ self.account) × (result.begun ≡ false) × (result.done ≡ false) }
        ensures machine { result.machine ≡ calls_of recover_steered (recovering (me_of self.of self.account)) }
        ensures fits { let r = (account_of false self.account).memo in fits_now recover (CallsFits recover_parts recover_plan) result.machine r r }
    {
        Rescuer {
            rescue: self.start_as::<Recover>(),
        }
    }
}

impl Rescuer {
    /// Which identity it is; and its account is one of a state that holds.
    pub fn client(&self) -> u8
        ensures is { result ≡ self.now.seat.who }
        ensures below { result < self.now.of.start.geometry.clients }
        ensures stood { Stood self.now.of.start self.now.seat }
    {
        self.rescue.who
    }

    /// One word step of the recovery, unless no life is left. It hasn't answered before.
    pub fn step(&mut self, pool: &SharedPool, life: &mut Life) -> Turn<Result<(), EraSpent>>
        requires pool { self.old.of ≡ pool.now }
        requires unfinished { recover.finished self.old.machine ≡ false }
        ensures same { (self.new.of ≡ self.old.of) × (self.new.seat.who ≡ self.old.seat.who) }
        ensures died { is_died result ≡ true ↔ (life.old.left ≡ 0) }
        ensures stays { is_died result ≡ true → (self.new ≡ self.old) × (life.new ≡ life.old) }
        ensures turn { 0 < life.old.left → (life.new.left + 1 ≡ life.old.left) × (self.new.begun ≡ true) × ClientStepped recover (fits_now recover (CallsFits recover_parts recover_plan)) (gives_now (CallsGives recover_parts recover_plan)) self.old.machine (account_of self.old.begun self.old.seat) self.new.seat result self.new.machine }
        ensures finished { recover.finished self.new.machine ≡ is_done result }
        ensures done { is_died result ≡ false → ((self.new.done ≡ true) ↔ (result ≡ turns.Done (Ok tt))) }
    {
        self.rescue.step(pool, life)
    }

    /// Gives the token back: vacant where the recovery has answered Ok.
    ///
    /// # Errors
    ///
    /// The corpse, where it hasn't answered, or has answered that the own era left no room: what it did stays done.
    pub fn end(self) -> Result<Vacant, Corpse>
        ensures done { is_ok result ≡ self.done }
        ensures ok { IfOk result (λ v. (v.of ≡ self.of) × (v.account ≡ self.seat)) }
        ensures err { IfErr result (λ c. (c.of ≡ self.of) × (c.account ≡ self.seat)) }
    {
        let Rescuer {
            rescue: Rescue {
                place,
                start,
                who,
                fell,
                begun,
                machine: _,
                done,
            },
        } = self;
        if done {
            Ok(Vacant { place, start, who })
        } else {
            Err(Corpse {
                place,
                start,
                who,
                begun: begun || fell,
            })
        }
    }
}
