//! An identity whose client died.

ghost use Rattle.std.specs.Prelude.{◌≡◌, ◌<◌, IfOk, IfErr};
ghost use Rattle.lojarnek.specs.{Homes.IsHome, Standing.{IsRecovered, IsStop, IsStopped}};

use crate::desk::Rest;
use crate::error::Error;
use crate::place::Place;
use crate::stopped::Stopped;
use crate::vacant::Vacant;
use shm_graph::Life;
use shm_pool::Cause;
use std::fmt;
use std::marker::Model;

/// An identity whose client, or recoverer, has died. Until it is recovered what it had is kept, and who needs the latch that it held waits.
/// Whoever drops it lets others have it (`Pool::corpse`).
pub struct Corpse<'p> {
    place: Place<'p>,
    token: shm_pool::Corpse,
}

impl<'p> Model for Corpse<'p> {
    ghost use Rattle.shm_pool.specs.Tokens.{Token};
    ghost use Rattle.lojarnek.specs.Homes.{IsHome};

    ghost Value = { Token };

    ghost view = { λ c. c.token };

    ghost invariant = { λ c. IsHome c.place c.token.of c.token.account.who };
}

/// Why an identity wasn't recovered.
fn stop_error(cause: Cause) -> Error
    ensures { IsStop result }
{
    match cause {
        Cause::Died => Error::Died { done: false },
        Cause::EraSpent { era } => Error::EraSpent { era },
    }
}

impl<'p> Corpse<'p> {
    pub(crate) fn at(place: Place<'p>, token: shm_pool::Corpse) -> Corpse<'p>
        requires { IsHome place token.of token.account.who }
        ensures { result ≡ token }
    {
        Corpse { place, token }
    }

    /// The number of the identity.
    pub fn number(&self) -> u8
        ensures is { result ≡ self.now.account.who }
        ensures below { result < self.now.of.start.geometry.clients }
    {
        self.token.client()
    }

    /// Recovers the identity: what its client was at is finished or taken back, its latch is given back, its roots are dropped. Its map stays, and
    /// so does what it has sent.
    ///
    /// # Errors
    ///
    /// `EraSpent`, with the corpse: the identity is used up, and its pool can't be closed.
    pub fn recover(self) -> Result<Vacant<'p>, Stopped<'p>>
        ensures ok { IfOk result (IsRecovered self.entry) }
        ensures err { IfErr result (IsStopped self.entry) }
    {
        self.recover_within(u64::MAX)
    }

    /// The same, by a recoverer that makes so many word steps at most.
    ///
    /// # Errors
    ///
    /// `Died` too, with the corpse, where the recoverer had no word step left. What it did stays done, and another one may recover the identity.
    pub fn recover_within(self, steps: u64) -> Result<Vacant<'p>, Stopped<'p>>
        ensures ok { IfOk result (IsRecovered self.entry) }
        ensures err { IfErr result (IsStopped self.entry) }
    {
        let Corpse { place, token } = self;
        // for the proof: its account stood
        token.client();
        let mut life = Life::of(steps);
        match token.recover(place.pool, &mut life) {
            Ok(vacant) => Ok(Vacant::at(place, vacant)),
            Err(stopped) => Err(Stopped {
                corpse: Corpse::at(place, stopped.corpse),
                error: stop_error(stopped.cause),
            }),
        }
    }
}

impl Drop for Corpse<'_> {
    fn drop(self) {
        let Corpse { place, token } = self;
        place.desk.lay(Rest::Corpse(token));
    }
}

impl fmt::Debug for Corpse<'_> {
    fn fmt<W: fmt::Write>(&self, f: &mut fmt::Formatter<W>) -> fmt::Result {
        write!(f, "Corpse({})", self.number())
    }
}

impl fmt::Display for Corpse<'_> {
    fn fmt<W: fmt::Write>(&self, f: &mut fmt::Formatter<W>) -> fmt::Result {
        write!(f, "dead client {}", self.number())
    }
}
