//! A machine that recovers an identity, one word step at a time.

ghost use Rattle.std.specs.Prelude.{◌≡◌, ◌+◌, ◌<◌, ◌↔◌, true, false, Ok};
ghost use Rattle.shm_words.specs.Layout.{total_of};
ghost use Rattle.plans.specs.{CallsControl.{calls_control, calls_of}, CallsFit.{CallsFits, CallsGives}};
ghost use Rattle.shm_graph.specs.{Agents.acts, Laws.{is_died, is_done}, Runs.Stood, Whole.{fits_now, gives_now}};
ghost use Rattle.shm_graph.specs.declared.ask.Turn.TheVariants as turns;
ghost use Rattle.shm_pool.specs.{Calls.ClientStepped, Lasts.IsForRecoverers, Rules.{IsAlone, alone}};
ghost use Rattle.shm_pool.specs.{Rescues.{RescuingBy, account_of, is_finished_ok}, Stepped.{IsRescue, rescuing_by}};
ghost use Rattle.shm_pool.specs.Tokens.{its, me_of, IsFallen};

use crate::last::Last;
use crate::pool::SharedPool;
use crate::recovery::note_change;
use crate::rule::{Place, Top};
use crate::steps::step_place;
use crate::token::Corpse;
use plans::Calls;
use shm_count::EraSpent;
use shm_graph::{Life, Machine, Me, Start, Turn};

/// An identity that a machine recovers one word step at a time.
///
/// No bound stands here: so the type is known by its machine alone, and not by what the machine's bounds name besides.
#[derive(Drop)]
pub(crate) struct Rescue<M> {
    pub(crate) place: Place,
    pub(crate) start: Start,
    pub(crate) who: u8,
    /// Whether an agent of the corpse had begun.
    pub(crate) fell: bool,
    /// Whether the recoverer has begun.
    pub(crate) begun: bool,
    pub(crate) machine: M,
    /// Whether it has answered Ok.
    pub(crate) done: bool,
}

/// The recoverer begins, unless it has begun.
fn note_start(top: &Top, place: &mut Place, fell: bool, begun: bool)
    requires table { (place.old.table_id ≡ top.now.table_id) × (top.now.table_id.words ≡ total_of top.now.key.geometry) × IsAlone place.old }
    requires who { (alone place.old).who < top.now.key.geometry.clients }
    requires fallen { begun ≡ false → IsFallen fell (alone place.old).memo }
    requires acts { begun ≡ true → acts (alone place.old).memo ≡ true }
    ensures place { (place.new.table_id ≡ place.old.table_id) × (place.new.id ≡ place.old.id) × IsAlone place.new }
    ensures stood { Stood top.now.key (alone place.old) → Stood top.now.key (alone place.new) }
    ensures account { alone place.new ≡ account_of begun (alone place.old) }
    ensures who { (alone place.new).who ≡ (alone place.old).who }
    ensures acts { acts (alone place.new).memo ≡ true }
{
    if begun {
        return;
    }
    note_change(top, place, fell);
}

/// Whether it is an answer, and Ok.
fn is_finished(turn: &Turn<Result<(), EraSpent>>) -> bool
    ensures is { result ≡ is_finished_ok turn.now }
    ensures ok { is_died turn.now ≡ false → ((result ≡ true) ↔ (turn.now ≡ turns.Done (Ok tt))) }
{
    match turn {
        Turn::Done(Ok(())) => true,
        Turn::Done(Err(_)) | Turn::More | Turn::Died => false,
    }
}

impl Corpse {
    /// A recovery of the identity by a plan, before its first word step: the death is noted and the recoverer begins with that.
    pub(crate) fn start_as<P: Last + Drop>(self) -> Rescue<Calls<P>>
        requires may { IsForRecoverers P.may }
        ensures rescues { IsRescue (calls_control P.Call.control P.plan.steered) (CallsFits P.Call.control P.plan) (CallsGives P.Call.control P.plan) result }
        ensures of { (its result.place.table_id result.start ≡ self.of) × (alone result.place ≡ self.account) × (result.begun ≡ false) × (result.done ≡ false) }
        ensures machine { result.machine ≡ calls_of P.plan.steered (P.made (me_of self.of self.account)) }
        ensures fits { let r = (account_of false self.account).memo in fits_now (calls_control P.Call.control P.plan.steered) (CallsFits P.Call.control P.plan) result.machine r r }
    {
        let Corpse {
            place,
            start,
            who,
            begun,
        } = self;
        let me = Me::new(start.geometry, who);
        let machine = Calls::new(P::of(me));
        Rescue {
            place,
            start,
            who,
            fell: begun,
            begun: false,
            machine,
            done: false,
        }
    }
}

impl<M: Machine<Answer = Result<(), EraSpent>>> Rescue<M> {
    /// One word step of the machine, unless no life is left. It hasn't answered before.
    pub(crate) fn step(&mut self, pool: &SharedPool, life: &mut Life) -> Turn<Result<(), EraSpent>>
        requires pool { its self.old.place.table_id self.old.start ≡ pool.now }
        requires rescues { IsRescue M.control M.fits M.gives self.old }
        requires unfinished { M.control.finished self.old.machine ≡ false }
        ensures rescues { IsRescue M.control M.fits M.gives self.new }
        ensures same { (its self.new.place.table_id self.new.start ≡ pool.now) × ((alone self.new.place).who ≡ (alone self.old.place).who) }
        ensures died { is_died result ≡ true ↔ (life.old.left ≡ 0) }
        ensures stays { is_died result ≡ true → (self.new ≡ self.old) × (life.new ≡ life.old) }
        ensures turn { 0 < life.old.left → (life.new.left + 1 ≡ life.old.left) × (self.new.begun ≡ true) × ClientStepped M.control (fits_now M.control M.fits) (gives_now M.gives) self.old.machine (account_of self.old.begun (alone self.old.place)) (alone self.new.place) result self.new.machine }
        ensures seen { (t : RescuingBy M) → rescuing_by self.old ≡ t → 0 < life.old.left → ClientStepped M.control (fits_now M.control M.fits) (gives_now M.gives) t.machine (account_of t.begun t.seat) (alone self.new.place) result self.new.machine }
        ensures finished { M.control.finished self.new.machine ≡ is_done result }
        ensures done { is_died result ≡ false → ((self.new.done ≡ true) ↔ (result ≡ turns.Done (Ok tt))) }
    {
        if life.left == 0 {
            return Turn::Died;
        }
        note_start(pool.top(), &mut self.place, self.fell, self.begun);
        self.begun = true;
        let turn = step_place(pool.top(), &mut self.place, &mut self.machine, life);
        self.done = is_finished(&turn);
        turn
    }
}
