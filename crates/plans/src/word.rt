//! The smallest machine: one word step.

ghost use Rattle.std.specs.Prelude.{◌≡◌, true, false};
ghost use Rattle.shm_graph.specs.declared.ask.Ask.TheVariants.{Load, Store, Exchange};
ghost use Rattle.plans.specs.{Words.{word_control, WordFits, WordGives}, Proved.Words.word_laws};

use shm_graph::{Ask, Machine, Me, Site, Turn};

/// One word step of an identity, which answers the word that was found, for a store 0.
#[derive(Clone, Copy, Drop)]
pub struct Word {
    me: Me,
    ask: Ask,
    over: bool,
}

impl Word {
    /// The load of the word at an address.
    #[inline(always)]
    pub fn load(me: Me, at: u32) -> Word
        ensures { result ≡ record { me = me; ask = Load at; over = false } }
    {
        Word {
            me,
            ask: Ask::Load { at },
            over: false,
        }
    }

    /// The store of a value into the word at an address.
    #[inline(always)]
    pub fn store(me: Me, at: u32, value: u64) -> Word
        ensures { result ≡ record { me = me; ask = Store at value; over = false } }
    {
        Word {
            me,
            ask: Ask::Store { at, value },
            over: false,
        }
    }

    /// The exchange of the word at an address, from one value to another one.
    #[inline(always)]
    pub fn exchange(me: Me, at: u32, from: u64, to: u64) -> Word
        ensures { result ≡ record { me = me; ask = Exchange at from to; over = false } }
    {
        Word {
            me,
            ask: Ask::Exchange { at, from, to },
            over: false,
        }
    }
}

impl Machine for Word {
    type Answer = u64;

    ghost control = { word_control };

    ghost fits = { WordFits true };

    ghost gives = { WordGives true };

    #[inline(always)]
    fn me(&self) -> Me {
        self.me
    }

    #[inline(always)]
    fn finished(&self) -> bool {
        self.over
    }

    #[inline(always)]
    fn ask(&self) -> Ask {
        self.ask
    }

    #[inline(always)]
    fn take(&mut self, seen: u64) -> Turn<u64> {
        self.over = true;
        Turn::Done(seen)
    }

    #[inline(always)]
    fn act<S: Site>(&mut self, site: &S, words: &mut S::Words) -> Turn<u64> {
        let ask = self.ask();
        let seen = site.make(words, ask);
        self.take(seen)
    }

    ghost laws = { word_laws };
}
