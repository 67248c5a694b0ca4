//! Where word steps are made.

ghost use Rattle.std.specs.Prelude.{◌≡◌, ℕ, ◌<◌, slice_index, vec_len};
ghost use Rattle.shm_graph.specs.{declared.ask.Ask.Ask as AnAsk, Asks.{at_of, seen_of, words_set}};

use crate::act::make_step;
use crate::ask::Ask;

/// Where a machine's word steps are made: on words that one thread has, or on words that threads share.
pub trait Site {
    /// What a word step changes.
    type Words;

    /// On these words the word step may be made.
    ghost may: { Self → Self.Words → AnAsk → Type 0 };

    /// Of the words before, the word step and the words after: it was made.
    ghost made: { Self → Self.Words → AnAsk → Self.Words → Type 0 };

    /// Of the same, what the asker is given: the word that was found, for a store 0.
    ghost seen: { Self → Self.Words → AnAsk → Self.Words → ℕ };

    /// Makes the word step that is asked for, and gives what the asker is given.
    fn make(&self, words: &mut Self::Words, ask: Ask) -> u64
        requires { may self.now words.old ask }
        ensures made { made self.now words.old ask words.new }
        ensures seen { result ≡ seen self.now words.old ask words.new };
}

/// The words of a pool that one thread has.
#[derive(Clone, Copy, Drop)]
pub struct InVector;

impl Site for InVector {
    type Words = Vec<u64>;

    ghost may = { λ site words ask. at_of ask < vec_len words };

    ghost made = { λ site before ask after. after.items ≡ words_set ask before.items };

    ghost seen = { λ site before ask after. seen_of ask (slice_index before.items (at_of ask)) };

    #[inline(always)]
    fn make(&self, words: &mut Vec<u64>, ask: Ask) -> u64 {
        make_step(words, ask)
    }
}
