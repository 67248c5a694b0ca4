//! The redo record of an identity: one word in format 1, two in format 2.

ghost use Rattle.std.specs.Prelude.{◌≡◌, ◌≢◌, ℕ, ◌<◌, ◌^◌, Bool, true, false};
ghost use Rattle.shm_words.specs.{Layout.place_limit, declared.redo.Redo.Redo as ARedo};
ghost use Rattle.shm_words.specs.Redos.{redo_first, redo_second, redo_of, RedoFits, fields};

/// The two words of a redo record in format 2.
#[derive(Clone, Copy, Debug, PartialEq, Eq, Drop)]
pub struct Pair2 {
    /// Kind, bit `odd`, slot and the block after (bits 61 to 63, 60, 24 to 47 and 0 to 23).
    pub first: u64,
    /// The block before (bits 0 to 23).
    pub second: u64,
}

/// Which count step an identity is at, so that a recoverer can finish or drop it.
///
/// Slots and blocks are addresses below 2^20, in format 2 below 2^24. The words of `Idle` are 0. In format 2 the second word has the
/// block that a step down lowers, or the block before of a change, and is 0 otherwise; all else is in the first word.
#[derive(Clone, Copy, Debug, PartialEq, Eq, Drop)]
pub enum Redo {
    /// No step.
    Idle,
    /// The count of `block` goes up, and `slot` comes to refer to it (kind 1).
    Up {
        /// The address of the reference word that changes (bits 40 to 59, in format 2 24 to 47).
        slot: u32,
        /// The address of the block (bits 0 to 19, in format 2 0 to 23).
        block: u32,
    },
    /// The count of `block` goes down, and `slot` no longer refers to it (kind 2).
    Down {
        /// The address of the reference word that changes (bits 40 to 59, in format 2 24 to 47).
        slot: u32,
        /// The address of the block (bits 20 to 39, in format 2 0 to 23 of the second word).
        block: u32,
    },
    /// The count of `after` goes up at one era, `slot` comes to refer to it in place of `before`, and the count of
    /// `before` goes down at the next era (kind 3).
    Change {
        /// Whether the era at which the step began is odd (bit 60).
        odd: bool,
        /// The address of the reference word that changes (bits 40 to 59, in format 2 24 to 47).
        slot: u32,
        /// The address of the block that `slot` referred to (bits 20 to 39, in format 2 0 to 23 of the second word).
        before: u32,
        /// The address of the block that `slot` comes to refer to (bits 0 to 19, in format 2 0 to 23).
        after: u32,
    },
}

// the kind is in bits 61 to 63
fn word(kind: u64, odd: bool, slot: u32, before: u32, after: u32) -> u64
    requires kind { kind < 8 }
    requires slot { slot < place_limit false }
    requires before { before < place_limit false }
    requires after { after < place_limit false }
    ensures { result ≡ fields false kind odd slot before after }
{
    (kind << 61)
        + (u64::from(odd) << 60)
        + (u64::from(slot) << 40)
        + (u64::from(before) << 20)
        + u64::from(after)
}

// the first word of format 2, with `before` as the second one
fn pair(kind: u64, odd: bool, slot: u32, before: u32, after: u32) -> Pair2
    requires kind { kind < 8 }
    requires slot { slot < place_limit true }
    requires after { after < place_limit true }
    ensures first { result.first ≡ fields true kind odd slot before after }
    ensures second { result.second ≡ before }
{
    Pair2 {
        first: (kind << 61) + (u64::from(odd) << 60) + (u64::from(slot) << 24) + u64::from(after),
        second: u64::from(before),
    }
}

impl Redo {
    /// The word of this redo record in format 1, where each place is below 2^20.
    #[tactic(auto, unfolding(crate::specs::Redos::redo_first))]
    pub fn pack(self) -> u64
        requires { RedoFits false self }
        ensures { result ≡ redo_first false self }
    {
        match self {
            Redo::Idle => 0,
            Redo::Up { slot, block } => word(1, false, slot, 0, block),
            Redo::Down { slot, block } => word(2, false, slot, block, 0),
            Redo::Change {
                odd,
                slot,
                before,
                after,
            } => word(3, odd, slot, before, after),
        }
    }

    /// What the word says in format 1; `None` exactly where no redo record in range packs to the word.
    #[tactic(auto, unfolding(crate::specs::Redos::redo_of))]
    pub fn unpack(word: u64) -> Option<Redo>
        ensures { (second : ℕ) → result ≡ redo_of false word second }
    {
        let odd = word >> 60 & 1 == 1;
        let slot = (word >> 40 & 0xf_ffff) as u32;
        let before = (word >> 20 & 0xf_ffff) as u32;
        let after = (word & 0xf_ffff) as u32;
        match word >> 61 {
            0 if word == 0 => Some(Redo::Idle),
            1 if !odd && before == 0 => Some(Redo::Up { slot, block: after }),
            2 if !odd && after == 0 => Some(Redo::Down {
                slot,
                block: before,
            }),
            3 => Some(Redo::Change {
                odd,
                slot,
                before,
                after,
            }),
            _ => None,
        }
    }

    /// The words of this redo record in format 2, where each place is below 2^24.
    #[tactic(auto, unfolding(crate::specs::Redos::redo_first))]
    pub fn pack_wide(self) -> Pair2
        requires { RedoFits true self }
        ensures first { result.first ≡ redo_first true self }
        ensures second { result.second ≡ redo_second true self }
    {
        match self {
            Redo::Idle => Pair2 {
                first: 0,
                second: 0,
            },
            Redo::Up { slot, block } => pair(1, false, slot, 0, block),
            Redo::Down { slot, block } => pair(2, false, slot, block, 0),
            Redo::Change {
                odd,
                slot,
                before,
                after,
            } => pair(3, odd, slot, before, after),
        }
    }

    /// What the words say in format 2; `None` exactly where no redo record in range packs to them.
    #[tactic(auto, unfolding(crate::specs::Redos::redo_of))]
    pub fn unpack_wide(pair: Pair2) -> Option<Redo>
        ensures { result ≡ redo_of true pair.first pair.second }
    {
        let word = pair.first;
        if word >> 48 & 0xfff != 0 || pair.second >= 1 << 24 {
            return None;
        }
        let odd = word >> 60 & 1 == 1;
        let slot = (word >> 24 & 0xff_ffff) as u32;
        let before = pair.second as u32;
        let after = (word & 0xff_ffff) as u32;
        match word >> 61 {
            0 if word == 0 && before == 0 => Some(Redo::Idle),
            1 if before == 0 && !odd => Some(Redo::Up { slot, block: after }),
            2 if !odd && after == 0 => Some(Redo::Down {
                slot,
                block: before,
            }),
            3 => Some(Redo::Change {
                odd,
                slot,
                before,
                after,
            }),
            _ => None,
        }
    }
}

/// Packing and unpacking a redo record are inverse in each format, and what unpacks to none is packed by none.
pub fn redo_laws()
    ensures unpacks { (wide : Bool) (r : ARedo) → RedoFits wide r → redo_of wide (redo_first wide r) (redo_second wide r) ≡ Some r }
    ensures packs { (wide : Bool) (w x : ℕ) (r : ARedo) → w < 2 ^ 64 → redo_of wide w x ≡ Some r → RedoFits wide r × (redo_first wide r ≡ w) }
    ensures pairs { (w x : ℕ) (r : ARedo) → w < 2 ^ 64 → redo_of true w x ≡ Some r → redo_second true r ≡ x }
    ensures none { (w : ℕ) → w < 2 ^ 64 → redo_of false w 0 ≡ None → (r : ARedo) → RedoFits false r → redo_first false r ≢ w }
    ensures none_wide { (w x : ℕ) → w < 2 ^ 64 → redo_of true w x ≡ None → (r : ARedo) → RedoFits true r → (redo_first true r ≡ w) × (redo_second true r ≡ x) → ⊥ }
{}
