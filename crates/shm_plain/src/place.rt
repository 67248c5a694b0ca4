//! Where the agents of identities work.

ghost use Rattle.std.specs.Prelude.{◌≡◌, ℕ, ◌+◌, ◌<◌, ◌↔◌, true};
ghost use Rattle.shm_graph.specs.declared.memo.{Memo.Memo as AMemo, Step.Step as AStep};
ghost use Rattle.shm_graph.specs.{declared.run.{Account.Account as AnAccount, Start.Start as AStart}, Agents.acts};
ghost use Rattle.shm_graph.specs.{Laws.{is_died, step_of}, Runs.{Stood, account_died}, Whole.{fits_now, gives_now}};
ghost use Rattle.shm_plain.specs.Working.{IsWorkOf, MayWork, Worked, ready_account};

use shm_graph::{Life, Machine, Turn};

/// Where the agents of identities make word steps: a pool in a vector, or the place of one identity in a pool that threads share.
pub trait Workplace {
    /// What the pool was made of.
    ghost start: { Self → AStart };

    /// What is accounted for of an identity.
    ghost account: { Self → ℕ → AnAccount };

    /// Agents of this identity work here.
    ghost has: { Self → ℕ → Type 0 };

    /// What more is known of a word step, from the place before it to the one after it.
    ghost stepped: { Self → AStep → Self → Type 0 };

    /// And of the death of an identity's agent.
    ghost fell: { Self → ℕ → Self → Type 0 };

    /// One word step of a machine that works for `who`.
    ///
    /// Where no agent of `who` acts one begins before the step: a recoverer after a death, and a client where there was no agent yet. Where no life is
    /// left nothing changes, and the answer is `Died`.
    fn step<M: Machine>(&mut self, who: u8, m: &mut M, life: &mut Life) -> Turn<M::Answer>
        requires has { has self.old who }
        requires machine { IsWorkOf (start self.old) who M.control m.old }
        requires agent { MayWork (account self.old who) }
        requires fits { (r0 : AMemo) × fits_now M.control M.fits m.old r0 (ready_account (account self.old who)).memo }
        ensures start { start self.new ≡ start self.old }
        ensures has { has self.new who }
        ensures died { is_died result ≡ true ↔ (life.old.left ≡ 0) }
        ensures stays { is_died result ≡ true → (self.new ≡ self.old) × (m.new ≡ m.old) × (life.new ≡ life.old) }
        ensures turn { 0 < life.old.left → (life.new.left + 1 ≡ life.old.left) × (w : Worked M.control (fits_now M.control M.fits) (gives_now M.gives) m.old (account self.old who) (account self.new who) result m.new) × stepped self.old (step_of M.control m.old w.seen) self.new };

    /// The agent of `who`, which acts, is dead.
    fn fall(&mut self, who: u8)
        requires has { has self.old who }
        requires acts { acts (account self.old who).memo ≡ true }
        ensures start { start self.new ≡ start self.old }
        ensures has { has self.new who }
        ensures account { account self.new who ≡ account_died (account self.old who) }
        ensures fell { fell self.old who self.new };

    /// What is accounted for of an identity that works here is so in a state that holds.
    ghost stood: { (x : Self) (c : ℕ) → has x c → Stood (start x) (account x c) };

    /// And it is its account.
    ghost named: { (x : Self) (c : ℕ) → has x c → (account x c).who ≡ c };
}
