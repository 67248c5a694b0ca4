//! How a test ends. What its calls answer is compared in functions that answer whether it is as it has to be: a comparison in a test itself is a way
//! out on which all that lives there is let go, and is printed.

use lojarnek::prelude::*;
use shm_audit::{Verdict, audit, write_image};
use std::alloc::Global;
use std::process::Abort;

/// What a test came to: the part that isn't as it has to be, or none; or a call was refused that has to be done.
pub type Told = Result<Option<&'static str>, Error>;

/// The first of these parts that isn't as it has to be.
pub fn wrong(parts: &[(&'static str, bool)]) -> Option<&'static str> {
    for (part, holds) in parts {
        if !*holds {
            return Some(*part);
        }
    }
    None
}

/// Ends the test where something isn't as it has to be.
pub fn hold<R: Abort>(rt: &R, told: Told) {
    match told {
        Ok(None) => {}
        Ok(Some(part)) => panic!(rt; "not so: {part}"),
        Err(error) => panic!(rt; "refused: {error}"),
    }
}

/// Whether a call was refused for this.
pub fn refused<T: Drop>(answer: Result<T, Error>, why: Error) -> bool {
    match answer {
        Ok(_) => false,
        Err(error) => error == why,
    }
}

/// Closes a pool, and has it audited by what knows nothing of it.
fn audited(alloc: Global, pool: Pool) -> Option<Verdict> {
    let closed = pool.close(alloc).ok()?;
    let image = write_image(alloc, closed.geometry(), closed.words()).ok()?;
    audit(alloc, image.as_slice()).ok()
}

/// How many blocks are live in the pool once it is closed, where that audit finds it clean.
pub fn live_after(alloc: Global, pool: Pool) -> Option<u32> {
    match audited(alloc, pool) {
        Some(Verdict::Clean { live, .. }) => Some(live),
        _ => None,
    }
}
