//! An identity that somebody works for.

ghost use Rattle.std.specs.Prelude.{◌≡◌, ◌<◌, ◌^◌, ◌-◌, ℕ, true, false, IfOk, IfErr};
ghost use Rattle.lojarnek.specs.{Homes.IsHome, Roots.account_root};
ghost use Rattle.lojarnek.specs.Standing.{IsRecovered, IsReadyForCall, IsStopped, acts_of, corpse_of};

use crate::corpse::Corpse;
use crate::desk::Rest;
use crate::place::Place;
use crate::roots::Roots;
use crate::stopped::Stopped;
use crate::vacant::Vacant;
use shm_graph::Life;
use std::fmt;
use std::marker::Model;

/// An identity with a client, which makes its calls. It has a budget of word steps, which is endless at first; where that is used up the client
/// is dead, and each further call answers `Died`. A client that is dropped is dead too, and its corpse can be had from the pool (`Pool::corpse`).
pub struct Client<'p> {
    pub(crate) place: Place<'p>,
    pub(crate) token: shm_pool::Client,
    pub(crate) roots: Roots,
    pub(crate) dead: bool,
    pub(crate) life: Life,
}

impl<'p> Model for Client<'p> {
    ghost use Rattle.std.specs.Prelude.{◌≡◌};
    ghost use Rattle.lojarnek.specs.{Homes.IsHome, Roots.KnowsRoots, Standing.{Acts, IsReadyForCall}};

    ghost Value = { Acts };

    ghost view = { λ c. record { token = c.token; left = c.life.left } };

    ghost invariant = { λ c. IsHome c.place c.token.of c.token.account.who × (c.dead ≡ c.token.dead) × IsReadyForCall c.token × KnowsRoots c.token c.roots.named };
}

impl<'p> Client<'p> {
    /// The client that has joined.
    pub(crate) fn joined(place: Place<'p>, token: shm_pool::Client) -> Client<'p>
        requires home { IsHome place token.of token.account.who }
        requires alive { token.dead ≡ false }
        requires ready { IsReadyForCall token }
        requires empty { (k : ℕ) → account_root token.account k ≡ 0 }
        ensures { result ≡ record { token = token; left = u64.MAX } }
    {
        Client {
            place,
            token,
            roots: Roots::none(),
            dead: false,
            life: Life::of(u64::MAX),
        }
    }

    /// The client after a command on tables.
    pub(crate) fn after(
        place: Place<'p>,
        token: shm_pool::Client,
        life: Life,
        dead: bool,
    ) -> Client<'p>
        requires home { IsHome place token.of token.account.who }
        requires ready { IsReadyForCall token }
        requires dead { dead ≡ token.dead }
        requires tables { token.of.start.tables ≡ true }
        ensures { result ≡ record { token = token; left = life.left } }
    {
        Client {
            place,
            token,
            roots: Roots::none(),
            dead,
            life,
        }
    }

    /// What a command on tables needs of the client.
    pub(crate) fn into_parts(self) -> (Place<'p>, shm_pool::Client, Life)
        ensures home { IsHome result.0 result.1.of result.1.account.who }
        ensures client { acts_of result.1 result.2.left ≡ self.entry }
        ensures ready { IsReadyForCall result.1 }
    {
        let Client {
            place,
            token,
            roots: _,
            dead: _,
            life,
        } = self;
        (place, token, life)
    }

    /// The number of the identity.
    pub fn number(&self) -> u8
        ensures is { result ≡ self.now.token.account.who }
        ensures below { result < self.now.token.of.start.geometry.clients }
    {
        self.token.client()
    }

    /// Whether the client has died.
    pub fn is_dead(&self) -> bool
        ensures { result ≡ self.now.token.dead }
    {
        self.dead
    }

    /// How many word steps are left of its budget.
    pub fn budget(&self) -> u64
        ensures { result ≡ self.now.left }
    {
        self.life.left
    }

    /// Sets the budget: so many word steps may be made from now on. A client that has died stays dead.
    pub fn set_budget(&mut self, steps: u64)
        ensures { self.new ≡ record self.old { left = steps } }
    {
        self.life = Life::of(steps);
    }

    /// The client dies. Nothing is done by that: it is as if it had stopped where it is.
    pub fn fall(self) -> Corpse<'p>
        ensures { result ≡ corpse_of self.entry }
    {
        let Client {
            place,
            token,
            roots: _,
            dead: _,
            life: _,
        } = self;
        Corpse::at(place, token.fall())
    }

    /// Leaves the pool: the roots are dropped, and the identity is gone. Its map stays for others to read, and for the next client of the identity.
    ///
    /// # Errors
    ///
    /// `EraSpent`, with the corpse: the identity is used up, and its pool can't be closed.
    pub fn leave(self) -> Result<Vacant<'p>, Stopped<'p>>
        ensures ok { IfOk result (IsRecovered (corpse_of self.entry)) }
        ensures err { IfErr result (IsStopped (corpse_of self.entry)) }
    {
        self.fall().recover()
    }
}

impl Drop for Client<'_> {
    fn drop(self) {
        let Client {
            place,
            token,
            roots: _,
            dead: _,
            life: _,
        } = self;
        place.desk.lay(Rest::Corpse(token.fall()));
    }
}

impl fmt::Debug for Client<'_> {
    fn fmt<W: fmt::Write>(&self, f: &mut fmt::Formatter<W>) -> fmt::Result {
        write!(f, "Client({})", self.number())
    }
}

impl fmt::Display for Client<'_> {
    fn fmt<W: fmt::Write>(&self, f: &mut fmt::Formatter<W>) -> fmt::Result {
        write!(f, "client {}", self.number())
    }
}
