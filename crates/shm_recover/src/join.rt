//! Joining a pool.

ghost use Rattle.std.specs.Prelude.{◌≡◌, ◌<◌, [], ◌∷◌};
ghost use Rattle.shm_words.specs.Layout.{GeometryFits};
ghost use Rattle.shm_graph.specs.{declared.memo.Memo.Memo as AMemo, Asks.{Trail, IsWithin}, Bounds.join_steps};
ghost use Rattle.shm_recover.specs.declared.join.JoinState.{JoinState as AJoin};
ghost use Rattle.shm_recover.specs.{Join.{join_control, join_fresh, JoinFits, JoinGives}, Proved.Join.Keeps.join_laws};

use shm_graph::{Ask, Machine, Me, Site, Turn};
use std::marker::Model;

/// How far a join has come.
#[derive(Clone, Copy, Drop)]
pub enum JoinPoint {
    /// The status is to be stored.
    Start,
    /// The status is stored.
    Over,
}

/// The control of a join.
#[derive(Clone, Copy, Drop)]
pub struct JoinState {
    pub me: Me,
    pub point: JoinPoint,
}

/// Makes an identity that is new or gone live, in one word step: the store of its status.
#[derive(Drop)]
pub struct Join {
    state: JoinState,
}

impl Model for Join {
    ghost use Rattle.shm_recover.specs.declared.join.JoinState.{JoinState as AState};

    ghost Value = { AState };

    ghost view = { λ a. a.state };

    ghost use Rattle.shm_recover.specs.Join.{IsMember};

    ghost invariant = { λ a. IsMember a.state.me };
}

impl Join {
    /// A join of the identity `me`, before its first step; its line is the bytes of `join`.
    #[inline(always)]
    pub fn new(me: Me) -> Join
        requires geometry { GeometryFits me.geometry }
        requires who { me.who < me.geometry.clients }
        ensures state { result ≡ join_fresh me }
        ensures line { join_control.line result ≡ 106 ∷ 111 ∷ 105 ∷ 110 ∷ [] }
    {
        Join {
            state: JoinState {
                me,
                point: JoinPoint::Start,
            },
        }
    }
}

/// Whatever a join has found, it took one word step.
pub fn join_bound()
    ensures { (m : AJoin) (r0 r : AMemo) (tr : Trail) → JoinGives m r0 r tr tt → IsWithin join_steps tr }
{}

impl Machine for Join {
    type Answer = ();

    ghost control = { join_control };

    ghost fits = { JoinFits };

    ghost gives = { JoinGives };

    #[inline(always)]
    fn me(&self) -> Me {
        self.state.me
    }

    #[inline(always)]
    fn finished(&self) -> bool {
        match self.state.point {
            JoinPoint::Start => false,
            JoinPoint::Over => true,
        }
    }

    #[inline(always)]
    fn ask(&self) -> Ask {
        let me = self.state.me;
        Ask::Store {
            at: me.geometry.status(me.who),
            value: 1,
        }
    }

    #[inline(always)]
    fn take(&mut self, _seen: u64) -> Turn<()> {
        self.state.point = JoinPoint::Over;
        Turn::Done(())
    }

    #[inline(always)]
    fn act<S: Site>(&mut self, site: &S, words: &mut S::Words) -> Turn<()> {
        let ask = self.ask();
        let seen = site.make(words, ask);
        self.take(seen)
    }

    ghost laws = { join_laws };
}
