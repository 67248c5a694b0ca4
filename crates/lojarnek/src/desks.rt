//! The desks of a pool.

ghost use Rattle.std.specs.Prelude.{◌≡◌, IfErr, IfSome};
ghost use Rattle.shm_pool.specs.Tokens.{AllOf};
ghost use Rattle.lojarnek.specs.{Homes.IsHome, Pools.{AreDesks, IsUnclosed}};

use crate::desk::{Desk, Rest};
use crate::error::Error;
use crate::place::Place;
use shm_pool::{SharedPool, Vacant};

/// The place of a client.
pub(crate) fn place_of<'p>(
    pool: &'p SharedPool,
    desks: &'p [Desk],
    tables: bool,
    client: u8,
) -> Option<Place<'p>>
    requires desks { AreDesks pool.now desks.now }
    requires kind { tables ≡ pool.now.start.tables }
    ensures { IfSome result (λ x. IsHome x pool.now client) }
{
    for desk in desks {
        if desk.who == client {
            return Some(Place { pool, desk, tables });
        }
    }
    None
}

/// Takes all tokens from their desks, until one isn't there or is a corpse's.
pub(crate) fn gather(pool: &SharedPool, desks: &[Desk], all: &mut Vec<Vacant>) -> Result<(), Error>
    requires desks { AreDesks pool.now desks.now }
    requires of { AllOf pool.now all.old.items }
    ensures of { AllOf pool.now all.new.items }
    ensures err { IfErr result IsUnclosed }
{
    for desk in desks {
        let token = match desk.take() {
            Some(Rest::Vacant(token)) => token,
            Some(Rest::Corpse(corpse)) => {
                desk.lay(Rest::Corpse(corpse));
                return Err(Error::NotVacant { client: desk.who });
            }
            None => return Err(Error::NotVacant { client: desk.who }),
        };
        push(pool, desk, all, token)?;
    }
    Ok(())
}

/// Puts the token of a desk to the others. Where there is no memory it stays at its desk.
fn push(pool: &SharedPool, desk: &Desk, all: &mut Vec<Vacant>, token: Vacant) -> Result<(), Error>
    requires desk { desk.now.slot.pool.value ≡ pool.now }
    requires of { AllOf pool.now all.old.items }
    requires token { (token.of ≡ pool.now) × (token.account.who ≡ desk.now.who) }
    ensures of { AllOf pool.now all.new.items }
    ensures err { IfErr result IsUnclosed }
{
    // for the proof: the contract alone speaks of the pool
    let _ = pool;
    if let Err(failed) = all.push(token) {
        desk.lay(Rest::Vacant(failed.value));
        return Err(Error::NoMemory);
    }
    Ok(())
}

/// Lays all of them down again.
pub(crate) fn scatter(pool: &SharedPool, desks: &[Desk], mut all: Vec<Vacant>)
    requires desks { AreDesks pool.now desks.now }
    requires of { AllOf pool.now all.items }
{
    while let Some(token) = all.pop() {
        lay(pool, desks, token);
    }
}

/// Lays a token down at its desk.
fn lay(pool: &SharedPool, desks: &[Desk], token: Vacant)
    requires desks { AreDesks pool.now desks.now }
    requires of { token.of ≡ pool.now }
{
    // for the proof: the contract alone speaks of the pool
    let _ = pool;
    let client = token.client();
    for desk in desks {
        if desk.who == client {
            desk.lay(Rest::Vacant(token));
            return;
        }
    }
}
