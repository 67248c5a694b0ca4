//! Where the agents of one identity work, one after the other.

ghost use Rattle.std.specs.Prelude.{◌≡◌, ◌<◌, ℕ, true, false, []};
ghost use Rattle.shm_words.specs.Layout.{total_of};
ghost use Rattle.shm_graph.specs.{Agents.{acts, last_agent}, Runs.{Stood, account_died, fell_by, first_account}};
ghost use Rattle.shm_pool.specs.{Rules.{IsAlone, alone}, Posts.{IsPosted, PostKnows, account_seen}};
ghost use Rattle.shm_pool.specs.Tokens.{IsOut, IsSeated};
ghost use Rattle.shm_plain.specs.Working.{MayWork, ready_account};

use crate::pool::SharedPool;
use crate::rule::{Place, Top};
use crate::steps::{note_client, note_death, note_recoverer, step_place};
use crate::token::{Corpse, Vacant};
use shm_graph::{Life, Machine, Start, Turn};
use shm_plain::Workplace;
use std::marker::Model;

/// An identity at work in a pool that threads share. Its agents come one after the other: a client, and after a death a recoverer. Each of
/// them begins with its first word step.
#[derive(Drop)]
pub struct Post<'p> {
    pool: &'p SharedPool,
    place: Place,
    start: Start,
    who: u8,
    begun: bool,
    fallen: bool,
}

impl<'p> Model for Post<'p> {
    ghost use Rattle.std.specs.Prelude.{◌≡◌};
    ghost use Rattle.shm_pool.specs.Rules.{alone};
    ghost use Rattle.shm_pool.specs.Tokens.{Token, IsSeated, its};
    ghost use Rattle.shm_pool.specs.Posts.{PostKnows, post_of};

    ghost Value = { Token };

    ghost view = { λ t. post_of t.start t.fallen t.place };

    ghost invariant = { λ t. IsSeated t.start t.who t.place × PostKnows t.begun t.fallen (alone t.place).memo × (its t.place.table_id t.start ≡ t.pool.now) };
}

/// Notes that an agent begins, where none acts; after a death that is noted first.
fn note_ready(top: &Top, place: &mut Place, begun: bool, fallen: bool)
    requires table { (place.old.table_id ≡ top.now.table_id) × (top.now.table_id.words ≡ total_of top.now.key.geometry) × IsAlone place.old }
    requires who { (alone place.old).who < top.now.key.geometry.clients }
    requires knows { PostKnows begun fallen (alone place.old).memo }
    requires may { MayWork (account_seen fallen (alone place.old)) }
    ensures place { (place.new.table_id ≡ place.old.table_id) × (place.new.id ≡ place.old.id) × IsAlone place.new }
    ensures stood { Stood top.now.key (alone place.old) → Stood top.now.key (alone place.new) }
    ensures account { alone place.new ≡ ready_account (account_seen fallen (alone place.old)) }
    ensures acts { acts (alone place.new).memo ≡ true }
{
    if fallen {
        note_death(top, place);
        note_recoverer(top, place);
        return;
    }
    if begun {
        return;
    }
    note_client(top, place);
}

impl<'p> Post<'p> {
    /// The post of an identity that nobody has joined.
    pub fn new(pool: &'p SharedPool, token: Vacant) -> Post<'p>
        requires of { token.of ≡ pool.now }
        requires first { token.account ≡ first_account token.of.start token.account.who }
        ensures same { result ≡ token }
        ensures posted { IsPosted result token.account.who }
    {
        let Vacant { place, start, who } = token;
        Post {
            pool,
            place,
            start,
            who,
            begun: false,
            fallen: false,
        }
    }

    /// The token of the identity, which is gone.
    pub fn vacate(self) -> Vacant
        requires out { IsOut self.account.memo }
        requires rests { acts self.account.memo ≡ false }
        requires whole { fell_by (last_agent self.account.memo.agents) ≡ false }
        ensures { result ≡ self.entry }
    {
        let Post {
            pool: _,
            place,
            start,
            who,
            begun: _,
            fallen: _,
        } = self;
        Vacant { place, start, who }
    }

    /// The corpse of its last agent, which is dead: the death is noted before the next one begins.
    pub fn corpse(self) -> Corpse
        requires { fell_by (last_agent self.account.memo.agents) ≡ true }
        ensures same { (result.of ≡ self.entry.of) × (account_died result.account ≡ self.entry.account) }
        ensures acts { acts result.account.memo ≡ true }
    {
        let Post {
            pool: _,
            place,
            start,
            who,
            begun: _,
            fallen: _,
        } = self;
        Corpse {
            place,
            start,
            who,
            begun: true,
        }
    }
}

impl<'p> Workplace for Post<'p> {
    ghost use Rattle.shm_pool.specs.Posts.{IsPosted};

    ghost start = { λ t. t.of.start };

    ghost account = { λ t c. t.account };

    ghost has = { λ t c. IsPosted t c };

    ghost stepped = { λ t u v. v.of ≡ t.of };

    ghost fell = { λ t c v. v.of ≡ t.of };

    #[inline(always)]
    fn step<M: Machine>(&mut self, who: u8, m: &mut M, life: &mut Life) -> Turn<M::Answer> {
        let _ = who;
        if life.left == 0 {
            return Turn::Died;
        }
        note_ready(self.pool.top(), &mut self.place, self.begun, self.fallen);
        self.begun = true;
        self.fallen = false;
        step_place(self.pool.top(), &mut self.place, m, life)
    }

    fn fall(&mut self, who: u8) {
        let _ = who;
        self.fallen = true;
    }

    ghost stood = { λ t c h. h.stood };

    ghost named = { λ t c h. h.named };
}
