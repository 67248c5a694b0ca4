//! What a closing does.

ghost use Rattle.std.specs.Prelude.{◌≡◌, ℕ, ◌<◌, ◌≤◌, [], length, true, false, IfOk, MatchOption, vec_len};
ghost use Rattle.std.specs.Mem.Slots.{slots_items, slots_len, IsFull};
ghost use Rattle.shm_words.specs.Layout.{total_of, GeometryFits};
ghost use Rattle.shm_pool.specs.{Rules.count_in, Tokens.{its, AllStill, AllOf, accounts_of}};

use crate::notes::{Board, board};
use crate::rule::{Glue, Place, Sit, Top};
use crate::token::Vacant;
use atomic_table::Closed;
use shm_words::Geometry;
use std::alloc::{AllocError, Global};

/// Why a closing was refused.
#[derive(Drop)]
pub enum CloseCause {
    /// There was no memory for the words.
    Memory(AllocError),
    /// An identity's token isn't in the list; this is the least such identity.
    Missing { client: u8 },
}

/// Whether the token of this identity is in the list.
fn has(all: &[Vacant], client: u8) -> bool
    ensures yes { result ≡ true → 1 ≤ count_in client (accounts_of all.now) }
    ensures no { result ≡ false → count_in client (accounts_of all.now) ≡ 0 }
{
    for token in all {
        if token.client() == client {
            return true;
        }
    }
    false
}

/// The least identity that has no token here.
pub(crate) fn missing(clients: u8, all: &[Vacant]) -> Option<u8>
    ensures { MatchOption result ((c : ℕ) → c < clients → 1 ≤ count_in c (accounts_of all.now)) (λ c. (c < clients) × (count_in c (accounts_of all.now) ≡ 0) × ((j : ℕ) → j < c → 1 ≤ count_in j (accounts_of all.now))) }
{
    for client in 0..clients {
        if !has(all, client) {
            return Some(client);
        }
    }
    None
}

/// All the memory that a closing needs.
pub(crate) fn room(
    alloc: Global,
    geometry: Geometry,
) -> Result<(Vec<u64>, Board, Place), AllocError>
    requires { GeometryFits geometry }
    ensures { IfOk result (λ r. (length r.0.items ≡ total_of geometry) × (r.2.table_id ≡ r.1.shared.table_id) × (r.1.shared.table_id.words ≡ 1) × (r.2.me.1 ≡ [])) }
{
    let words = vec![in alloc; 0u64; geometry.total() as usize]?;
    let (board, note) = board(alloc)?;
    Ok((words, board, note))
}

/// A seat that answers for all of them.
pub(crate) fn take_in(top: &Top, mut all: Vec<Vacant>) -> Place
    requires top { 0 < top.now.table_id.words }
    requires of { AllOf (its top.now.table_id top.now.key) all.items }
    ensures place { result.table_id ≡ top.now.table_id }
    ensures view { result.me ≡ (accounts_of all.items, []) }
    ensures still { AllStill (accounts_of all.items) }
{
    let mut seat = top.load_new_seat::<Sit>(0).1;
    while let Some(token) = all.pop() {
        let Vacant {
            place,
            start: _,
            who: _,
        } = token;
        top.join_seat::<Glue>(&mut seat, place);
    }
    seat
}

pub(crate) fn copy_words(last: &Closed<(), Global>, words: &mut Vec<u64>)
    requires { IsFull last.now.words × (length words.old.items ≡ slots_len last.now.words) }
    ensures { words.new.items ≡ slots_items last.now.words }
{
    for i in 0..words.len() {
        words[i] = last.word(i);
    }
}
