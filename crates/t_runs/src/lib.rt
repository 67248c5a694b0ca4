//! Runs of machines on the words of a pool, for programs whose rows are tests: the words before a run (`Case`), a machine that runs on them,
//! told word step by word step (`go`), and the numbers and commands of a row. Programs that make many runs make one number of them (`Sum`).
#![tactic(auto)]

mod args;
mod case;
mod lines;
mod sum;
mod telling;

pub use args::{address, below, byte, client, geometry, number, numbers, root};
pub use case::Case;
pub use lines::{key, line_of, may_stand};
use shm_graph::Ask;
pub use sum::Sum;
pub use telling::{go, go_calls};

/// Makes a word step; the word that was found, for a store 0.
pub fn make(words: &mut Vec<u64>, ask: Ask) -> Option<u64> {
    match ask {
        Ask::Load { at } => words.get(at as usize).copied(),
        Ask::Store { at, value } => {
            let word = words.get_mut(at as usize)?;
            *word = value;
            Some(0)
        }
        Ask::Exchange { at, from, to } => {
            let word = words.get_mut(at as usize)?;
            let found = *word;
            if found == from {
                *word = to;
            }
            Some(found)
        }
    }
}
