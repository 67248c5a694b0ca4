//! The table of an identity: how many keys it has, and how long its chains are.

ghost use Rattle.std.specs.Prelude.{◌≡◌, ◌+◌, ◌^◌, ◌<◌, ◌≤◌, length, slice_index};
ghost use Rattle.shm_audit.specs.Images.{numbers};
ghost use Rattle.shm_view.specs.Chains.{bucket_length, chain_length, keys_in, longest_in};

use shm_audit::word;

/// How many entries the chains of a table have.
#[derive(Clone, Copy, Drop)]
pub struct Chains {
    /// In all of them.
    pub keys: u32,
    /// In the longest.
    pub longest: u32,
}

/// The chains of the directory at an address, and no entries where that is 0. At most `most` entries of each chain are counted, so it ends
/// where a chain goes in a circle.
#[tactic(auto, unfolding(crate::specs::Chains::keys_in, crate::specs::Chains::longest_in))]
pub fn count_chains(words: &[[u8; 8]], home: u64, most: u32) -> Chains
    requires short { length words.now < 2 ^ 24 }
    requires most { most < 2 ^ 24 }
    ensures keys { result.keys ≡ keys_in (numbers words.now) most home }
    ensures longest { result.longest ≡ longest_in (numbers words.now) most home }
{
    let (mut keys, mut longest) = (0, 0);
    if home == 0 {
        return Chains { keys, longest };
    }
    for bucket in 0..16 {
        let length = bucket_length(words, home, bucket, most);
        keys += length;
        longest = longest.max(length);
    }
    Chains { keys, longest }
}

// how many entries the chain of a bucket has
fn bucket_length(words: &[[u8; 8]], home: u64, bucket: u32, most: u32) -> u32
    requires short { length words.now < 2 ^ 24 }
    requires bucket { bucket < 16 }
    ensures is { result ≡ bucket_length (numbers words.now) most home bucket }
    ensures most { result ≤ most }
{
    chain_length(words, word_after(words, home, 2 + bucket), most)
}

// how many entries follow from this one on, which is 0 where there is none; at most so many are counted
fn chain_length(words: &[[u8; 8]], first: u64, most: u32) -> u32
    requires short { length words.now < 2 ^ 24 }
    ensures is { result ≡ chain_length (numbers words.now) most first }
    ensures most { result ≤ most }
{
    let mut entry = first;
    for length in 0..most {
        if entry == 0 {
            return length;
        }
        entry = word_after(words, entry, 2);
    }
    most
}

/// The word so many words after an address, and 0 past the end of the pool.
pub fn word_after(words: &[[u8; 8]], block: u64, more: u32) -> u64
    requires short { length words.now < 2 ^ 24 }
    requires more { more < 2 ^ 24 }
    ensures { result ≡ slice_index (numbers words.now) (block + more) }
{
    let at = block.saturating_add(u64::from(more));
    if at < words.len() as u64 {
        word(words, at as u32)
    } else {
        0
    }
}
