//! Why bytes are no trace.

ghost use Rattle.std.specs.Prelude.{◌≡◌};
ghost use Rattle.shm_script.specs.declared.fault.ParseStop.TheVariants.{Memory};

use std::alloc::AllocError;

/// What is wrong with a line, in the order in which it is tried.
#[derive(Clone, Copy, Debug, PartialEq, Eq, Drop)]
pub enum TraceKind {
    /// No line of a trace, or none that may stand at its place.
    Syntax,
    /// A number out of its range.
    Range,
    /// Too many items, or too many bytes.
    Limit,
    /// A client that has a script.
    Twice,
}

/// The first faulty line, from 1, and what is wrong with it.
#[derive(Clone, Copy, Debug, PartialEq, Eq, Drop)]
pub struct TraceFault {
    pub line: u32,
    pub kind: TraceKind,
}

/// Why no trace was read.
#[derive(Debug, Drop)]
pub enum ParseStop {
    Memory(AllocError),
    Fault(TraceFault),
}

impl From<AllocError> for ParseStop {
    ghost from_gives = { λ e stop. stop ≡ Memory e };

    fn from(e: AllocError) -> ParseStop {
        ParseStop::Memory(e)
    }
}
