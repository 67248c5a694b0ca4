//! What the roots of a client name, as it knows it without a word step.

ghost use Rattle.std.specs.Prelude.{◌≡◌, ◌≢◌, ◌<◌, ℕ, slice_index};

/// The block that each of a client's 16 roots names, and 0 where it names none.
#[derive(Drop)]
pub(crate) struct Roots {
    pub(crate) named: [u32; 16],
}

impl Roots {
    /// None of them names a block.
    pub(crate) fn none() -> Roots
        ensures { (k : ℕ) → slice_index result.named k ≡ 0 }
    {
        Roots { named: [0; 16] }
    }

    /// The block that root `k` names.
    pub(crate) fn of(&self, k: u8) -> u32
        requires { k < 16 }
        ensures { result ≡ slice_index self.now.named k }
    {
        self.named[usize::from(k)]
    }

    /// Root `k` names this block from now on.
    pub(crate) fn set(&mut self, k: u8, block: u32)
        requires { k < 16 }
        ensures at { slice_index self.new.named k ≡ block }
        ensures others { (j : ℕ) → j ≢ k → slice_index self.new.named j ≡ slice_index self.old.named j }
    {
        self.named[usize::from(k)] = block;
    }
}
