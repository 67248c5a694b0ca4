//! One word step on a vector of words.

ghost use Rattle.std.specs.Prelude.{◌≡◌, ◌<◌, vec_len, slice_index};
ghost use Rattle.shm_graph.specs.Asks.{at_of, seen_of, words_set};

use crate::ask::Ask;

/// Makes the word step that is asked for, and gives what the asker sees: the word that was found, for a store 0.
#[inline(always)]
pub fn make_step(words: &mut Vec<u64>, ask: Ask) -> u64
    requires { at_of ask < vec_len words.old }
    ensures words { words.new.items ≡ words_set ask words.old.items }
    ensures seen { result ≡ seen_of ask (slice_index words.old.items (at_of ask)) }
{
    match ask {
        Ask::Load { at } => words[at as usize],
        Ask::Store { at, value } => {
            words[at as usize] = value;
            0
        }
        Ask::Exchange { at, from, to } => {
            let seen = words[at as usize];
            if seen == from {
                words[at as usize] = to;
            }
            seen
        }
    }
}
