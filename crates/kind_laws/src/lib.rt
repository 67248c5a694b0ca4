//! The laws of the kinds of word step: each kind, under its condition, leads from a state that holds to one that holds, and is
//! the event of its kind or none.
//!
//! A kind's condition and what it makes of the memos stand in specs/, its law in proofs/ under the kind's name. They are stated
//! over functions (the word at each spot, the parts of each memo), so that a clause that a step doesn't touch stays by computation.
#![tactic(auto)]

mod laws;

pub use laws::{
    block_stores_kept, changes_are_events, exchanges_are_events, exchanges_kept, holding_kept,
    loads_kept, own_stores_kept, shared_stores_kept, slot_stores_kept, stores_are_quiet,
};
