//! What a pool is to be like.

ghost use Rattle.std.specs.Prelude.{◌≡◌, ◌⊎◌, true, false, IfOk, IfErr};
ghost use Rattle.shm_words.specs.Layout.{GeometryFits};
ghost use Rattle.lojarnek.specs.Sizes.{IsRefused, MayBe, start_of};

use crate::error::{Bound, Error};
use crate::pool::Pool;
use shm_pool::SharedPool;
use shm_words::Geometry;
use std::alloc::Global;

/// What a pool is to be like: at first for tables, of format 1, with two clients and four segments.
#[derive(Clone, Copy, Debug, Drop)]
pub struct Builder {
    clients: u8,
    segments: u16,
    wide: bool,
    tables: bool,
}

impl Builder {
    pub(crate) fn new() -> Builder
        ensures { result ≡ record { clients = 2; segments = 4; wide = false; tables = true } }
    {
        Builder {
            clients: 2,
            segments: 4,
            wide: false,
            tables: true,
        }
    }

    /// With so many clients, 1 to 16.
    pub fn clients(self, clients: u8) -> Builder
        ensures { result ≡ record self { clients = clients } }
    {
        Builder { clients, ..self }
    }

    /// With so many segments, 1 to 256, or 1 to 8,000 in format 2. A segment has room for some 160 keys.
    pub fn segments(self, segments: u16) -> Builder
        ensures { result ≡ record self { segments = segments } }
    {
        Builder { segments, ..self }
    }

    /// Of format 2.
    pub fn wide(self) -> Builder
        ensures { result ≡ record self { wide = true } }
    {
        Builder { wide: true, ..self }
    }

    /// For blocks, and not for tables.
    pub fn blocks(self) -> Builder
        ensures { result ≡ record self { tables = false } }
    {
        Builder {
            tables: false,
            ..self
        }
    }

    /// The sizes, if there may be such a pool.
    fn geometry(self) -> Result<Geometry, Error>
        ensures ok { IfOk result (λ g. (g ≡ (start_of self).geometry) × GeometryFits g) }
        ensures refused { IfErr result (IsRefused self) }
    {
        let made = if self.wide {
            Geometry::wide(self.clients, self.segments)
        } else {
            Geometry::new(self.clients, self.segments)
        };
        match made {
            Ok(geometry) => Ok(geometry),
            Err(_) => Err(self.refusal()),
        }
    }

    /// Which number is out of range.
    fn refusal(self) -> Error
        requires { ¬ (MayBe self) }
        ensures { IsRefused self result }
    {
        if self.clients < 1 || 16 < self.clients {
            return Error::OutOfRange {
                found: u64::from(self.clients),
                bound: Bound::Clients,
            };
        }
        Error::OutOfRange {
            found: u64::from(self.segments),
            bound: if self.wide {
                Bound::WideSegments
            } else {
                Bound::Segments
            },
        }
    }

    /// Makes the pool, whose identities are all vacant. It takes all the memory that any call but `close` needs.
    ///
    /// # Errors
    ///
    /// `OutOfRange` where there can't be such a pool; `NoMemory`.
    pub fn build(self, alloc: Global) -> Result<Pool, Error>
        ensures made { IfOk result (λ p. p.start ≡ start_of self) }
        ensures refused { IfErr result (λ e. (e ≡ Error.NoMemory) ⊎ IsRefused self e) }
        ensures ranged { MayBe self → IfErr result (λ e. e ≡ Error.NoMemory) }
    {
        let geometry = self.geometry()?;
        let (shared, all) = SharedPool::make(alloc, geometry, 1, self.tables).map_err(
            |_| Error::NoMemory,
        )?;
        Pool::open(alloc, shared, all, self.tables)
    }
}
