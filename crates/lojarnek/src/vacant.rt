//! An identity that nobody has joined, or that is gone.

ghost use Rattle.std.specs.Prelude.{◌≡◌, ◌<◌};
ghost use Rattle.lojarnek.specs.{Homes.IsHome, Standing.HasJoined};

use crate::client::Client;
use crate::desk::Rest;
use crate::place::Place;
use shm_graph::Life;
use std::fmt;
use std::marker::Model;

/// An identity that has no client: nobody has joined it, or it is gone. Whoever drops it lets others have it (`Pool::vacant`).
pub struct Vacant<'p> {
    place: Place<'p>,
    token: shm_pool::Vacant,
}

impl<'p> Model for Vacant<'p> {
    ghost use Rattle.shm_pool.specs.Tokens.{Token};
    ghost use Rattle.lojarnek.specs.Homes.{IsHome};

    ghost Value = { Token };

    ghost view = { λ v. v.token };

    ghost invariant = { λ v. IsHome v.place v.token.of v.token.account.who };
}

impl<'p> Vacant<'p> {
    pub(crate) fn at(place: Place<'p>, token: shm_pool::Vacant) -> Vacant<'p>
        requires { IsHome place token.of token.account.who }
        ensures { result ≡ token }
    {
        Vacant { place, token }
    }

    /// The number of the identity.
    pub fn number(&self) -> u8
        ensures is { result ≡ self.now.account.who }
        ensures below { result < self.now.of.start.geometry.clients }
    {
        self.token.client()
    }

    /// Makes a client of the identity, in one word step. Its map is what it was when the identity was gone, or empty where nobody has joined it
    /// before.
    pub fn join(self) -> Client<'p>
        ensures { HasJoined self.entry result }
    {
        let Vacant { place, token } = self;
        // for the proof: nobody has joined it, or it is gone
        token.client();
        match token.join(place.pool, &mut Life::of(1)) {
            Ok(client) => Client::joined(place, client),
            // one word step is all that a join needs
            Err(_) => unreachable!(),
        }
    }
}

impl Drop for Vacant<'_> {
    fn drop(self) {
        let Vacant { place, token } = self;
        place.desk.lay(Rest::Vacant(token));
    }
}

impl fmt::Debug for Vacant<'_> {
    fn fmt<W: fmt::Write>(&self, f: &mut fmt::Formatter<W>) -> fmt::Result {
        write!(f, "Vacant({})", self.number())
    }
}

impl fmt::Display for Vacant<'_> {
    fn fmt<W: fmt::Write>(&self, f: &mut fmt::Formatter<W>) -> fmt::Result {
        write!(f, "vacant identity {}", self.number())
    }
}
