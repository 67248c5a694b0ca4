//! Closings that are refused, and what identities do with the tokens that these gave back.

ghost use Rattle.std.specs.Prelude.{◌≡◌, IfOk, IfSome};
ghost use Rattle.shm_pool.specs.Tokens.{AllOf};

use crate::team::{pass_by, put_back};
use shm_pool::{CloseCause, CloseStop, Closed, SharedPool, Vacant};
use std::alloc::{AllocError, Global};

/// The identity of each token joins and leaves, in so many word steps; none where one wasn't done.
pub fn pass_all(
    pool: &SharedPool,
    alloc: Global,
    mut all: Vec<Vacant>,
    steps: u64,
) -> Result<Option<Vec<Vacant>>, AllocError>
    requires { AllOf pool.now all.items }
    ensures { IfOk result (λ o. IfSome o (λ passed. AllOf pool.now passed.items)) }
{
    let mut passed = Vec::new(alloc);
    while let Some(token) = all.pop() {
        let Ok(token) = pass_by(pool, token, steps) else {
            return Ok(None);
        };
        put_back(pool, &mut passed, token)?;
    }
    Ok(Some(passed))
}

/// Closes a pool. Where there was no memory for that, each identity joins and leaves in so many word steps, and the pool is closed once more; none
/// where a token is missing, or one of these wasn't done.
pub fn close_at_last(
    alloc: Global,
    pool: SharedPool,
    all: Vec<Vacant>,
    steps: u64,
) -> Result<Option<Closed>, AllocError>
    requires { AllOf pool all.items }
{
    let CloseStop { pool, all, cause } = match pool.close(alloc, all) {
        Ok(closed) => return Ok(Some(closed)),
        Err(stop) => stop,
    };
    let CloseCause::Memory(_) = cause else {
        return Ok(None);
    };
    let Some(all) = pass_all(&pool, alloc, all, steps)? else {
        return Ok(None);
    };
    Ok(pool.close(alloc, all).ok())
}
