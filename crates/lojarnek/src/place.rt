//! Where an identity is at home.

ghost use Rattle.std.specs.Prelude.{◌≡◌};

use crate::desk::Desk;
use shm_pool::SharedPool;

/// The pool of an identity, and the desk there at which its token lies while nobody has it.
#[derive(Clone, Copy, Drop)]
pub(crate) struct Place<'p> {
    pub(crate) pool: &'p SharedPool,
    pub(crate) desk: &'p Desk,
    /// Whether the pool is for tables.
    pub(crate) tables: bool,
    pub(crate) ghost of: { desk.now.slot.pool.value ≡ pool.now },
    pub(crate) ghost kind: { tables ≡ pool.now.start.tables },
}
