//! Calls on a pool.

ghost use Rattle.std.specs.{Prelude.{◌≡◌, ℕ, ◌+◌, ◌<◌, true, false, length, IfSome}, Option.is_some};
ghost use Rattle.shm_words.specs.Layout.{GeometryFits};
ghost use Rattle.shm_graph.specs.{declared.memo.Memo.Memo, Events.Event, Tells.{Tells, happens_along}};
ghost use Rattle.shm_graph.specs.Whole.{fits_now, gives_now};
ghost use Rattle.shm_plain.specs.Pools.{IsOf, IsRun, MayStep, memo_of, readied};
ghost use Rattle.shm_plain.specs.{Calls.{Did, IsAtWork, Ran, TookSteps}, ManySteps.answer_in};

use crate::pool::PlainPool;
use plans::Begin;
use shm_graph::{Life, Machine, Me, Operation, Turn};

/// The answer that many word steps told.
#[inline(always)]
fn answered<A>(turn: Turn<A>) -> Option<A>
    ensures { result ≡ answer_in turn }
{
    match turn {
        Turn::Done(answer) => Some(answer),
        Turn::More | Turn::Died => None,
    }
}

impl PlainPool {
    /// Steps a machine of `who` until it has answered, or no word step is left. Where it has not answered it fits still.
    pub fn call<M: Machine>(&mut self, who: u8, m: &mut M, life: &mut Life) -> Option<M::Answer>
        requires me { IsOf self.old who M.control m.old }
        requires agent { MayStep self.old who }
        requires fits { (r0 : Memo) × fits_now M.control M.fits m.old r0 (memo_of (readied self.old who) who) }
        ensures gives { (r0 : Memo) → fits_now M.control M.fits m.old r0 (memo_of (readied self.old who) who) → IfSome result (λ a. gives_now M.gives m.old r0 (memo_of self.new who) a) }
        ensures cut { is_some result ≡ false → (M.control.finished m.new ≡ false) × ((r0 : Memo) → fits_now M.control M.fits m.old r0 (memo_of (readied self.old who) who) → fits_now M.control M.fits m.new r0 (memo_of (readied self.new who) who)) }
        ensures ran { Ran who (M.control.fresh m.old) (is_some result) self.old self.new life.old.left life.new.left }
        ensures spent { 0 < life.old.left → M.control.fresh m.old ≡ true → life.new.left + length (memo_of self.new who).call ≡ life.old.left }
        ensures took { 0 < life.old.left → TookSteps M.control who self.old m.old self.new }
        ensures events { 0 < life.old.left → M.control.fresh m.old ≡ true → (does : M → ℕ → Event) → Tells M.control M.fits does → Did who self.old self.new (happens_along M.control does m.old (memo_of self.new who).call) }
    {
        // for the proof: its turns lead to the words and accounts
        self.geometry();
        answered(self.steps(who, m, life))
    }

    /// The identity `who` of the pool, as its machines have it.
    pub fn me(&self, who: u8) -> Me
        requires { who < self.now.start.geometry.clients }
        ensures is { result ≡ record { geometry = self.now.start.geometry; who = who } }
        ensures fits { GeometryFits result.geometry }
        ensures inside { result.who < result.geometry.clients }
        ensures run { IsRun self.now }
    {
        Me::new(self.geometry(), who)
    }

    /// Runs an operation of `who`, or what is made of a plan, until it answers, or no word step is left. Where it has not answered it fits
    /// still, as it was left. What it did to the graph is told either way.
    pub fn run<B: Begin>(
        &mut self,
        who: u8,
        begins: B,
        life: &mut Life,
    ) -> Option<<B::Op as Machine>::Answer>
        requires at_work { IsAtWork who self.old }
        requires me { B.Op.control.me (B.op begins) ≡ record { geometry = self.old.start.geometry; who = who } }
        requires may { B.Op.may (B.op begins) (memo_of self.old who) }
        ensures leaves { IfSome result (λ a. let tr = (memo_of self.new who).call in let es = happens_along B.Op.control B.Op.does (B.op begins) tr in Did who self.old self.new es × B.Op.leaves (B.op begins) (memo_of self.old who) (memo_of self.new who) tr es a) }
        ensures gives { IfSome result (λ a. gives_now B.Op.gives (B.op begins) (memo_of self.old who) (memo_of self.new who) a) }
        ensures took { IfSome result (λ a. TookSteps B.Op.control who self.old (B.op begins) self.new) }
        ensures at_work { IfSome result (λ a. B.Op.rests (B.op begins) a → IsAtWork who self.new) }
        ensures cut { is_some result ≡ false → (m : B.Op) × (B.Op.control.finished m ≡ false) × fits_now B.Op.control B.Op.fits m (memo_of self.old who) (memo_of (readied self.new who) who) }
        ensures ran { Ran who true (is_some result) self.old self.new life.old.left life.new.left }
        ensures told { 0 < life.old.left → Did who self.old self.new (happens_along B.Op.control B.Op.does (B.op begins) (memo_of self.new who).call) }
    {
        self.operate(who, begins.begin(), life)
    }

    /// Runs an operation, before its first word step.
    fn operate<O: Operation + Drop>(
        &mut self,
        who: u8,
        mut operation: O,
        life: &mut Life,
    ) -> Option<O::Answer>
        requires at_work { IsAtWork who self.old }
        requires me { O.control.me operation ≡ record { geometry = self.old.start.geometry; who = who } }
        requires may { O.may operation (memo_of self.old who) }
        ensures leaves { IfSome result (λ a. let tr = (memo_of self.new who).call in let es = happens_along O.control O.does operation tr in Did who self.old self.new es × O.leaves operation (memo_of self.old who) (memo_of self.new who) tr es a) }
        ensures gives { IfSome result (λ a. gives_now O.gives operation (memo_of self.old who) (memo_of self.new who) a) }
        ensures took { IfSome result (λ a. TookSteps O.control who self.old operation self.new) }
        ensures at_work { IfSome result (λ a. O.rests operation a → IsAtWork who self.new) }
        ensures cut { is_some result ≡ false → (m : O) × (O.control.finished m ≡ false) × fits_now O.control O.fits m (memo_of self.old who) (memo_of (readied self.new who) who) }
        ensures ran { Ran who true (is_some result) self.old self.new life.old.left life.new.left }
        ensures told { 0 < life.old.left → Did who self.old self.new (happens_along O.control O.does operation (memo_of self.new who).call) }
    {
        self.geometry();
        self.call(who, &mut operation, life)
    }
}
