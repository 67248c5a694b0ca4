//! The recovery of an identity as a future.

ghost use Rattle.std.specs.Prelude.{◌≡◌, ◌≤◌, ⊤, true, Result};
ghost use Rattle.shm_async.specs.Rescued.{EndsAs, GoesOn, HasMade, HasRescued, IsGivenUp, IsStarted, is_recovered, MayRescue};
ghost use Rattle.shm_async.specs.Polled.{given_by};
ghost use Rattle.futures.specs.{Poll.{IfReady, OnPending}, Task.{Covers, Keeps}};
ghost use Rattle.shm_pool.specs.{Tokens.Token as AToken, declared.token.Stopped.Stopped as AStopped};

use futures::Future;
use futures::task::{Context, Poll};
use shm_graph::{Life, Turn};
use shm_pool::{Cause, Corpse, Rescuer, SharedPool, Stopped, Vacant};
use std::marker::Model;

/// The recovery of an identity, of which each poll gives its recoverer a number of turns.
pub struct RecoveryFuture<'p> {
    pool: &'p SharedPool,
    q: u32,
    life: Life,
    /// None once a poll was ready.
    rescuer: Option<Rescuer>,
}

// by hand, so that who lets it go needn't know what it is made of
impl<'p> Drop for RecoveryFuture<'p> {
    fn drop(self) {
        let RecoveryFuture {
            pool: _pool,
            q: _q,
            life: _life,
            rescuer: _rescuer,
        } = self;
    }
}

impl<'p> Model for RecoveryFuture<'p> {
    ghost use Rattle.shm_async.specs.Rescued.{IsRescue, Rescue, rescue_of};

    ghost Value = { Rescue };

    ghost view = { λ f. rescue_of f.pool.now f.q f.life f.rescuer };

    ghost invariant = { λ f. IsRescue (rescue_of f.pool.now f.q f.life f.rescuer) };
}

/// How a recovery came to its end.
#[derive(Drop)]
enum Over {
    Recovered,
    Stopped(Cause),
}

impl<'p> RecoveryFuture<'p> {
    /// A recovery of the identity by a recoverer with a life of so many word steps, before the first of them, of which each poll gives it `q` turns.
    pub fn new(pool: &'p SharedPool, corpse: Corpse, life: u64, q: u32) -> RecoveryFuture<'p>
        requires turns { 1 ≤ q }
        requires of { corpse.of ≡ pool.now }
        ensures { IsStarted corpse q life result }
    {
        RecoveryFuture {
            pool,
            q,
            life: Life::of(life),
            rescuer: Some(corpse.start()),
        }
    }

    /// Gives the recoverer its turns, and where it has ended or died then the token of the identity.
    pub fn advance(&mut self) -> Option<Result<Vacant, Stopped>>
        ensures { HasRescued self.old result self.new }
    {
        let mut rescuer = self.rescuer.take()?;
        match step_some(self.pool, self.q, &mut rescuer, &mut self.life) {
            None => {
                self.rescuer = Some(rescuer);
                None
            }
            Some(over) => Some(end(rescuer, over)),
        }
    }

    /// Gives the recovery up: its recoverer dies, and another one may recover the identity. None where a poll was ready.
    pub fn cancel(self) -> Option<Corpse>
        ensures { IsGivenUp self.entry.rescuer result }
    {
        let RecoveryFuture {
            pool: _,
            q: _,
            life: _,
            rescuer,
        } = self;
        match rescuer?.end() {
            Ok(_) => unreachable!(),
            Err(corpse) => Some(corpse),
        }
    }
}

/// Makes `q` word steps, or fewer where the recovery has answered, or where no word step is left; then it tells how it ended.
fn step_some(pool: &SharedPool, q: u32, rescuer: &mut Rescuer, life: &mut Life) -> Option<Over>
    requires { GoesOn pool.now rescuer.old }
    ensures { HasMade q pool.now rescuer.old life.old result rescuer.new life.new }
{
    let mut made: u32 = 0;
    while made < q {
        match rescuer.step(pool, life) {
            Turn::More => made += 1,
            Turn::Died => return Some(Over::Stopped(Cause::Died)),
            Turn::Done(Ok(())) => return Some(Over::Recovered),
            Turn::Done(Err(spent)) => {
                return Some(Over::Stopped(Cause::EraSpent { era: spent.era }));
            }
        }
    }
    None
}

/// The token of an identity whose recovery has come to its end.
fn end(rescuer: Rescuer, over: Over) -> Result<Vacant, Stopped>
    requires { rescuer.done ≡ is_recovered over }
    ensures { EndsAs rescuer over result }
{
    match rescuer.end() {
        Ok(token) => Ok(token),
        Err(corpse) => match over {
            Over::Recovered => unreachable!(),
            Over::Stopped(cause) => Err(Stopped { corpse, cause }),
        },
    }
}

impl<'p> Future for RecoveryFuture<'p> {
    type Output = Result<Vacant, Stopped>;

    ghost gives = { MayRescue };

    fn poll(&mut self, cx: &mut Context<'_>) -> Poll<Result<Vacant, Stopped>>
        ensures value { IfReady result (MayRescue self.old) }
        ensures again { OnPending result ⊤ }
        ensures same { OnPending result ((x : Result AToken AStopped) → MayRescue self.new x → MayRescue self.old x) }
        ensures registered { OnPending result (Covers cx.new (λ _. ⊥)) }
        ensures kept { Keeps cx.old cx.new }
        ensures polled { HasRescued self.old (given_by result) self.new }
        ensures woken { OnPending result (cx.new.is_woken ≡ true) }
    {
        match self.advance() {
            Some(given) => Poll::Ready(given),
            None => cx.yield_now(),
        }
    }
}
