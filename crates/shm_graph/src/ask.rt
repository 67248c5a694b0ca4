//! Identities, and the word steps that they ask for.

ghost use Rattle.std.specs.Prelude.{◌≡◌, ◌<◌};

use shm_words::Geometry;

/// An identity of a pool.
#[derive(Clone, Copy, Debug, PartialEq, Eq, Drop)]
pub struct Me {
    pub geometry: Geometry,
    pub who: u8,
}

impl Me {
    /// The identity `who` of a pool of these sizes.
    pub fn new(geometry: Geometry, who: u8) -> Me
        requires { who < geometry.clients }
        ensures geometry { result.geometry ≡ geometry }
        ensures who { result.who ≡ who }
    {
        Me { geometry, who }
    }
}

/// What a client asks of one word of the pool.
#[derive(Clone, Copy, Debug, PartialEq, Eq, Drop)]
pub enum Ask {
    /// Read the word at an address.
    Load { at: u32 },
    /// Write a value to the word at an address.
    Store { at: u32, value: u64 },
    /// Compare the word at an address with `from`, and where they are equal write `to`.
    Exchange { at: u32, from: u64, to: u64 },
}

/// What a machine answers to the word that was found; only a pool answers `Died`.
#[derive(Debug, Drop)]
pub enum Turn<A> {
    More,
    Done(A),
    Died,
}

/// How many word steps are left; each lowers it by one.
#[derive(Debug, Drop)]
pub struct Life {
    pub left: u64,
}

impl Life {
    /// A life of so many word steps.
    pub fn of(n: u64) -> Life
        ensures { result.left ≡ n }
    {
        Life { left: n }
    }
}
