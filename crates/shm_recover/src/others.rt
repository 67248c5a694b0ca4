//! The other identities of a pool, one after the other.

ghost use Rattle.std.specs.Prelude.{◌≡◌, ◌<◌};
ghost use Rattle.shm_recover.specs.Others.{other_at};

/// The identity number `k` of those besides `who`, in order, from 0.
#[inline(always)]
pub fn other(who: u8, k: u8) -> u8
    requires { k < 255 }
    ensures { result ≡ other_at who k }
{
    if k < who { k } else { k + 1 }
}
