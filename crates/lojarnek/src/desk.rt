//! Where the token of an identity lies while nobody has it.

ghost use Rattle.std.specs.Prelude.{◌≡◌, IfSome};

use crate::sole::Sole;
use counted_slot::{Counted, FREE, Fits, PRESENT, TAKEN};
use shm_pool::{Corpse, SharedPool, Vacant};
use std::snapshot::Snapshot;

/// The word of a desk whose token is somebody's; with FREE it lies here, with TAKEN it is just taken or laid down.
const OUT: u64 = PRESENT;

/// A token that nobody has.
#[derive(Drop)]
pub(crate) enum Rest {
    Vacant(Vacant),
    Corpse(Corpse),
}

/// Which identity a desk is for.
#[derive(Drop)]
pub(crate) struct Owner {
    pub(crate) pool: Snapshot<SharedPool>,
    pub(crate) who: u8,
}

impl Fits for Sole<Rest> {
    ghost use Rattle.lojarnek.specs.Rests.{IsAt};

    type Tag = Owner;

    ghost fits = { λ o r. IsAt o.pool.value o.who r.value };
}

/// The desk of an identity.
#[derive(Drop)]
pub(crate) struct Desk {
    pub(crate) who: u8,
    pub(crate) slot: Counted<Option<Sole<Rest>>>,
    pub(crate) ghost is: { slot.who ≡ who },
}

impl Desk {
    ghost use Rattle.lojarnek.specs.Rests.{IsAt};

    /// Takes the token that lies here, if one does and nobody else is at the desk.
    pub(crate) fn take(&self) -> Option<Rest>
        ensures { IfSome result (IsAt self.now.slot.pool.value self.now.who) }
    {
        let (found, claim) = self.slot.turn(FREE, TAKEN);
        if found != FREE {
            claim.done();
            return None;
        }
        let rest = claim.put(None, OUT)?;
        Some(rest.into_inner())
    }

    /// Lays the token down. While somebody holds it nobody else lays one down here.
    pub(crate) fn lay(&self, rest: Rest)
        requires { IsAt self.now.slot.pool.value self.now.who rest }
    {
        let (found, claim) = self.slot.turn(OUT, TAKEN);
        if found == OUT {
            claim.put(Some(Sole::new(rest)), FREE);
        } else {
            claim.done();
        }
    }
}
