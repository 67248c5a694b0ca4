//! How many of some numbers are of each kind.

ghost use Rattle.std.specs.Prelude.{◌≡◌, ℕ, ◌+◌, ◌%◌, ◌^◌, ◌<◌, ◌≤◌, Option, length, slice_index, slice_set, IfOk};
ghost use Rattle.shm_view.specs.Sums.{AreSums};

use std::alloc::{AllocError, Global};

/// How many of the numbers that were looked at are of each kind. Kinds are numbers themselves, from 0 on; those past the last one aren't
/// counted.
#[derive(Drop)]
pub struct Histogram {
    sums: Vec<u32>,
}

impl Histogram {
    /// None of no numbers, for so many kinds.
    pub fn new(alloc: Global, kinds: usize) -> Result<Histogram, AllocError>
        requires { kinds < 2 ^ 32 }
        ensures kinds { IfOk result (λ h. length h.sums.items ≡ kinds) }
        ensures none { IfOk result (λ h. (kind : ℕ → Option ℕ) → AreSums kind 0 h.sums.items) }
    {
        Ok(Histogram {
            sums: vec![in alloc; 0; kinds]?,
        })
    }

    /// The next number is of this kind, or of none.
    pub fn add(&mut self, kind: Option<u64>)
        ensures kinds { length self.new.sums.items ≡ length self.old.sums.items }
        ensures sums { (kinds : ℕ → Option ℕ) (n : ℕ) → n + 1 < 2 ^ 32 → kinds n ≡ kind → AreSums kinds n self.old.sums.items → AreSums kinds (n + 1) self.new.sums.items }
    {
        if let Some(kind) = kind {
            self.add_one(kind);
        }
    }

    // one more is of this kind
    fn add_one(&mut self, kind: u64)
        ensures counted { kind < length self.old.sums.items → self.new.sums.items ≡ slice_set self.old.sums.items kind ((slice_index self.old.sums.items kind + 1) % 2 ^ 32) }
        ensures past { length self.old.sums.items ≤ kind → self.new.sums.items ≡ self.old.sums.items }
    {
        if kind < self.sums.len() as u64 {
            let place = kind as usize;
            self.sums[place] = self.sums[place].wrapping_add(1);
        }
    }

    /// How many are of this kind.
    pub fn of(&self, kind: u64) -> u32
        ensures { result ≡ slice_index self.now.sums.items kind }
    {
        if kind < self.sums.len() as u64 {
            self.sums[kind as usize]
        } else {
            0
        }
    }
}
