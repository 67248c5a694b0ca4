//! One future over the identities of a trace, which an executor polls in rounds.

ghost use Rattle.std.specs.Prelude.{IfSome};
ghost use Rattle.shm_async.specs.Members.{AreMembers};

use crate::members::{Member, poll_each};
use counted_slot::{Counted, FREE, Fits, TAKEN};
use futures::Future;
use futures::executor::block_on;
use futures::task::{Context, Poll};
use shm_play::play::Play;
use shm_pool::SharedPool;
use shm_script::Trace;
use std::alloc::AllocGlobal;
use std::random::RandomSource;
use std::sync::Wait;

/// What is polled in rounds. By its tag it fits a pool and a trace, and it does so after each round.
pub(crate) trait Rounds: Fits + Drop {
    /// Polls each identity once, in order, and tells whether anything is left of one of them.
    fn round(&mut self) -> bool
        requires { (w : Self.Tag) × Self.fits w self.old }
        ensures { (w : Self.Tag) → Self.fits w self.old → Self.fits w self.new };
}

/// Which pool and which trace the identities are of.
#[derive(Clone, Copy, Drop)]
pub(crate) struct Which<'p> {
    pub(crate) pool: &'p SharedPool,
    pub(crate) trace: &'p Trace,
}

/// The identities of a trace.
#[derive(Drop)]
pub(crate) struct Members<'p, A: Play> {
    pub(crate) members: Vec<Option<Member<'p, A>>>,
}

impl<'p, A: Play> Fits for Members<'p, A> {
    type Tag = Which<'p>;

    ghost fits = { λ w x. AreMembers w.trace.now w.pool.now x.members.items };
}

impl<'p, A: Play> Rounds for Members<'p, A> {
    fn round(&mut self) -> bool {
        poll_each(&mut self.members)
    }
}

/// Takes out what lies in the slot, if nobody else has.
fn take<X: Rounds>(slot: &Counted<Option<X>>) -> Option<X>
    ensures { IfSome result (X.fits slot.now) }
{
    let (found, claim) = slot.turn(FREE, TAKEN);
    if found != FREE {
        claim.done();
        return None;
    }
    claim.put(None, FREE)
}

/// Puts it back.
fn put_back<X: Rounds>(slot: &Counted<Option<X>>, members: X)
    requires { X.fits slot.now members }
{
    let (found, claim) = slot.turn(FREE, TAKEN);
    if found == FREE {
        claim.put(Some(members), FREE);
    } else {
        claim.done();
    }
}

/// Makes a round per poll, and is ready once nothing is left.
#[derive(Drop)]
struct PollRounds<'a, X: Rounds> {
    slot: &'a Counted<Option<X>>,
}

impl<'a, X: Rounds> PollRounds<'a, X> {
    /// Makes a round, and tells whether anything is left.
    fn advance(&mut self) -> bool {
        let Some(mut members) = take(self.slot) else {
            return false;
        };
        let left = members.round();
        put_back(self.slot, members);
        left
    }
}

impl<'a, X: Rounds> Future for PollRounds<'a, X> {
    type Output = ();

    fn poll(&mut self, cx: &mut Context<'_>) -> Poll<()> {
        if self.advance() {
            cx.yield_now()
        } else {
            Poll::Ready(())
        }
    }
}

/// An executor makes rounds until nothing is left, or it gives up. What was polled is given back.
pub(crate) fn poll_all<X: Rounds, R: Wait + RandomSource + AllocGlobal>(
    rt: &R,
    which: &X::Tag,
    members: X,
) -> X
    requires { X.fits which.now members }
    ensures { X.fits which.now result }
{
    let slot = Counted::new(Some(members), which);
    // where it gives up something is left, which the caller does
    let _ = block_on(rt, PollRounds { slot: &slot });
    match slot.into_inner() {
        Some(members) => members,
        // the future puts back what it takes
        None => {
            for _ in rt.forever() {}
            unreachable!()
        }
    }
}
