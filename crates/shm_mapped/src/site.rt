//! Word steps on words that others change too.

ghost use Rattle.std.specs.Prelude.{◌≡◌, ◌<◌, length};
ghost use Rattle.shm_mapped.specs.Steps.{IsStep, beyond_after};

use shm_graph::{Ask, Site};
use std::sync::atomic::AtomicU64;
use std::sync::atomic::Ordering::SeqCst;

/// Words that others change too, each in single atomic steps.
#[derive(Clone, Copy, Drop)]
pub struct OnAtomics<'a> {
    pub words: &'a [AtomicU64],
}

/// What was found.
#[derive(Drop)]
pub struct Found {
    /// The word that was found last; after a store 0.
    pub word: u64,
    /// Whether a word was asked for that there isn't. From then on no word step is made, and 0 is found.
    pub beyond: bool,
}

impl<'a> OnAtomics<'a> {
    /// The word at an address; none where there is none, and none any more after that.
    #[inline(always)]
    fn word(&self, found: &mut Found, at: u32) -> Option<&'a AtomicU64>
        ensures beyond { found.new.beyond ≡ beyond_after (length self.now.words.now) found.old.beyond at }
    {
        if found.beyond {
            return None;
        }
        match self.words.get(at as usize) {
            Some(word) => Some(word),
            None => {
                found.beyond = true;
                None
            }
        }
    }
}

impl<'a> Site for OnAtomics<'a> {
    type Words = Found;

    ghost may = { λ site words ask. Unit {0} };

    ghost made = { λ site before ask after. IsStep (length site.words.now) before ask after };

    ghost seen = { λ site before ask after. after.word };

    #[inline(always)]
    fn make(&self, found: &mut Found, ask: Ask) -> u64 {
        let seen = match ask {
            Ask::Load { at } => match self.word(found, at) {
                Some(word) => word.load(SeqCst),
                None => 0,
            },
            Ask::Store { at, value } => {
                if let Some(word) = self.word(found, at) {
                    word.store(value, SeqCst);
                }
                0
            }
            Ask::Exchange { at, from, to } => match self.word(found, at) {
                Some(word) => match word.compare_exchange(from, to, SeqCst, SeqCst) {
                    Ok(seen) | Err(seen) => seen,
                },
                None => 0,
            },
        };
        found.word = seen;
        seen
    }
}
