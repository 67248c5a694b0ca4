//! A list that is gone through, whatever stands in it.

ghost use Rattle.std.specs.Prelude.{◌≡◌, ℕ, IfOk, None, Some, length};
ghost use Rattle.shm_async.specs.Each.{EachFrom};

use std::alloc::{AllocError, Global};

/// What makes something of each item of a list, by the item's number.
pub(crate) trait Makes<T, U> {
    /// What an item has to be.
    ghost takes: { Self → ℕ → T → Type 0 };

    /// What is made of it.
    ghost gives: { Self → ℕ → U → Type 0 };

    fn make(&self, item: T) -> U
        requires { (c : ℕ) × takes self.now c item }
        ensures { (c : ℕ) → takes self.now c item → gives self.now c result };
}

/// Puts an item into a place with nothing in it.
pub(crate) fn put_in<T>(slot: &mut Option<T>, item: T)
    requires { slot.old ≡ None }
    ensures { slot.new ≡ Some item }
{
    match slot.replace(item) {
        None => {}
        Some(_other) => unreachable!(),
    }
}

/// What is made of each item, in order.
pub(crate) fn make_all<T: Drop, U: Drop, M: Makes<T, U>>(
    alloc: Global,
    maker: &M,
    items: Vec<T>,
) -> Result<Vec<U>, AllocError>
    requires { EachFrom (M.takes maker.now) 0 items.items }
    ensures many { IfOk result (λ v. length v.items ≡ length items.items) }
    ensures each { IfOk result (λ v. EachFrom (M.gives maker.now) 0 v.items) }
{
    let mut made = Vec::new(alloc);
    for item in items {
        made.push(maker.make(item))?;
    }
    Ok(made)
}
