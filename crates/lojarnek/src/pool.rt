//! The pool.

ghost use Rattle.std.specs.Prelude.{◌≡◌, ◌<◌, ◌≤◌, true, false, IfOk, IfErr, IfSome};
ghost use Rattle.shm_pool.specs.Tokens.{AllOf};
ghost use Rattle.lojarnek.specs.Pools.{IsTakenFrom, IsUnclosed};

use crate::builder::Builder;
use crate::corpse::Corpse;
use crate::desk::{Desk, Owner, Rest};
use crate::desks::{gather, place_of, scatter};
use crate::error::Error;
use crate::place::Place;
use crate::sole::Sole;
use crate::vacant::Vacant;
use counted_slot::Counted;
use shm_pool::{CloseCause, CloseStop, Closed, SharedPool};
use std::alloc::Global;
use std::marker::Model;
use std::snapshot::Snapshot;
use std::{error, fmt};

/// A pool that threads share, with the tokens of its identities that nobody has. To a contract it is its name, and what it was made of.
#[derive(Drop)]
pub struct Pool {
    shared: SharedPool,
    desks: Vec<Desk>,
    tables: bool,
}

impl Model for Pool {
    ghost use Rattle.std.specs.Prelude.{◌≡◌};
    ghost use Rattle.shm_pool.specs.Tokens.{Its};
    ghost use Rattle.lojarnek.specs.Pools.{AreDesks};

    ghost Value = { Its };

    ghost view = { λ p. p.shared };

    ghost invariant = { λ p. AreDesks p.shared p.desks.items × (p.tables ≡ p.shared.start.tables) };
}

/// A closing that was refused: the pool as it was, and why.
#[derive(Debug, Drop)]
pub struct NotClosed {
    pub pool: Pool,
    pub error: Error,
}

impl Pool {
    /// A pool for tables of format 1, with two clients and four segments, unless the builder is told otherwise.
    pub fn builder() -> Builder
        ensures { result ≡ record { clients = 2; segments = 4; wide = false; tables = true } }
    {
        Builder::new()
    }

    /// The pool with all its tokens, each at its desk.
    pub(crate) fn open(
        alloc: Global,
        shared: SharedPool,
        mut all: Vec<shm_pool::Vacant>,
        tables: bool,
    ) -> Result<Pool, Error>
        requires of { AllOf shared all.items }
        requires kind { tables ≡ shared.start.tables }
        ensures ok { IfOk result (λ p. p ≡ shared) }
        ensures err { IfErr result (λ e. e ≡ Error.NoMemory) }
    {
        let mut desks = Vec::new(alloc);
        while let Some(token) = all.pop() {
            let desk = Pool::desk(&shared, token);
            desks.push(desk).map_err(|_| Error::NoMemory)?;
        }
        Ok(Pool {
            shared,
            desks,
            tables,
        })
    }

    /// The desk of a token's identity, with the token at it.
    fn desk(shared: &SharedPool, token: shm_pool::Vacant) -> Desk
        requires { token.of ≡ shared.now }
        ensures { result.slot.pool.value ≡ shared.now }
    {
        let who = token.client();
        let owner = Owner {
            pool: Snapshot::of(shared),
            who,
        };
        let slot = Counted::new(Some(Sole::new(Rest::Vacant(token))), &owner);
        Desk { who, slot }
    }

    /// How many clients the pool has. They are numbered from 0 on.
    pub fn clients(&self) -> u8
        ensures { result ≡ self.now.start.geometry.clients }
    {
        self.shared.geometry().clients()
    }

    /// Whether the pool is for tables. Otherwise it is for blocks.
    pub fn is_for_tables(&self) -> bool
        ensures { result ≡ self.now.start.tables }
    {
        self.tables
    }

    /// What lies at the desk of a client.
    fn take(&self, client: u8) -> Option<(Place<'_>, Rest)>
        ensures { IfSome result (IsTakenFrom self.now client) }
    {
        let place = place_of(&self.shared, self.desks.as_slice(), self.tables, client)?;
        let rest = place.desk.take()?;
        Some((place, rest))
    }

    /// An identity that nobody has. Once the value is dropped it is vacant again.
    ///
    /// # Errors
    ///
    /// `NoSuchClient`, exactly where the pool has no client of this number. `NotVacant`, where somebody has the identity, or its client died.
    pub fn vacant(&self, client: u8) -> Result<Vacant<'_>, Error>
        ensures ok { IfOk result (λ v. (v.of ≡ self.now) × (v.account.who ≡ client)) }
        ensures none { self.now.start.geometry.clients ≤ client → result ≡ Err (Error.NoSuchClient client self.now.start.geometry.clients) }
        ensures err { client < self.now.start.geometry.clients → IfErr result (λ e. e ≡ Error.NotVacant client) }
    {
        let clients = self.clients();
        if clients <= client {
            return Err(Error::NoSuchClient { client, clients });
        }
        match self.take(client) {
            Some((place, Rest::Vacant(token))) => Ok(Vacant::at(place, token)),
            Some((place, Rest::Corpse(token))) => {
                place.desk.lay(Rest::Corpse(token));
                Err(Error::NotVacant { client })
            }
            None => Err(Error::NotVacant { client }),
        }
    }

    /// The corpse of a client that died, or was dropped, and that nobody has.
    ///
    /// # Errors
    ///
    /// `NoSuchClient`, exactly where the pool has no client of this number. `NoCorpse`, where there is none, or somebody has it.
    pub fn corpse(&self, client: u8) -> Result<Corpse<'_>, Error>
        ensures ok { IfOk result (λ c. (c.of ≡ self.now) × (c.account.who ≡ client)) }
        ensures none { self.now.start.geometry.clients ≤ client → result ≡ Err (Error.NoSuchClient client self.now.start.geometry.clients) }
        ensures err { client < self.now.start.geometry.clients → IfErr result (λ e. e ≡ Error.NoCorpse client) }
    {
        let clients = self.clients();
        if clients <= client {
            return Err(Error::NoSuchClient { client, clients });
        }
        match self.take(client) {
            Some((place, Rest::Corpse(token))) => Ok(Corpse::at(place, token)),
            Some((place, Rest::Vacant(token))) => {
                place.desk.lay(Rest::Vacant(token));
                Err(Error::NoCorpse { client })
            }
            None => Err(Error::NoCorpse { client }),
        }
    }

    /// Closes the pool. All its words are clean then: nobody is at work, and each live block's count is the number of references to it.
    ///
    /// # Errors
    ///
    /// The pool as it was, and `NotVacant` with the number of an identity whose client died and isn't recovered, or was forgotten; `NoMemory`.
    pub fn close(self, alloc: Global) -> Result<Closed, NotClosed>
        ensures ok { IfOk result (λ c. c.start ≡ self.start) }
        ensures err { IfErr result (λ e. (e.pool ≡ self) × IsUnclosed e.error) }
    {
        let mut all = Vec::new(alloc);
        if let Err(error) = gather(&self.shared, self.desks.as_slice(), &mut all) {
            scatter(&self.shared, self.desks.as_slice(), all);
            return Err(NotClosed { pool: self, error });
        }
        self.finish(alloc, all)
    }

    /// Closes the pool with all of its tokens.
    fn finish(self, alloc: Global, all: Vec<shm_pool::Vacant>) -> Result<Closed, NotClosed>
        requires { AllOf self all.items }
        ensures ok { IfOk result (λ c. c.start ≡ self.start) }
        ensures err { IfErr result (λ e. (e.pool ≡ self) × IsUnclosed e.error) }
    {
        let Pool {
            shared,
            desks,
            tables,
        } = self;
        let CloseStop { pool, all, cause } = match shared.close(alloc, all) {
            Ok(closed) => return Ok(closed),
            Err(stop) => stop,
        };
        let pool = Pool {
            shared: pool,
            desks,
            tables,
        };
        scatter(&pool.shared, pool.desks.as_slice(), all);
        let error = match cause {
            CloseCause::Memory(_) => Error::NoMemory,
            CloseCause::Missing { client } => Error::NotVacant { client },
        };
        Err(NotClosed { pool, error })
    }
}

impl fmt::Debug for Pool {
    fn fmt<W: fmt::Write>(&self, f: &mut fmt::Formatter<W>) -> fmt::Result {
        write!(f, "Pool({})", self.clients())
    }
}

impl fmt::Display for Pool {
    fn fmt<W: fmt::Write>(&self, f: &mut fmt::Formatter<W>) -> fmt::Result {
        write!(f, "a pool of {} clients", self.clients())
    }
}

impl fmt::Display for NotClosed {
    fn fmt<W: fmt::Write>(&self, f: &mut fmt::Formatter<W>) -> fmt::Result {
        write!(f, "the pool isn't closed: {}", self.error)
    }
}

impl error::Error for NotClosed {}
