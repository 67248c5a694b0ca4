//! What the words of a pool say: blocks, reference words and their counts, clean pools and the tables in them; and what one
//! identity's word steps do to them: memos, the invariant of a pool, machines and their law.
//!
//! The definitions are in specs/ and are cited by the contracts of the crates above. The design of headers, eras and redo
//! records is that of CXL-SHM (SOSP 2023); the invariant is this project's own. They are for pools of both formats: what differs takes the
//! format as an argument.
#![tactic(auto)]

pub mod act;
pub mod ask;
pub mod history;
pub mod laws;
pub mod machine;
pub mod memo;
pub mod operation;
pub mod run;
pub mod site;
pub mod sound;
pub mod spot;
pub mod start;
pub mod table;

pub use act::make_step;
pub use ask::{Ask, Life, Me, Turn};
pub use history::{agents_begin, runs_are_sound, word_turns};
pub use laws::{
    accounts_keep_turns, agents_change, call_events, held_state_sound, machine_law, own_events,
    runs_along, runs_compose, steps_keep, still_state_clean, word_steps,
};
pub use machine::Machine;
pub use memo::{
    Agent, ChangeStage, Fact, Fate, First, Kind, Look, Making, Memo, Op, Second, Seen, Status,
    Step, Stored, Test,
};
pub use operation::Operation;
pub use run::{Account, LoggedLine, Move, Start};
pub use site::{InVector, Site};
pub use sound::{
    clean_pools, commitment_is_shown, gone_leaves_nothing, queues_keep_their_items,
    redo_tells_the_step, references_are_counted, unused_pages_are_empty,
};
pub use spot::Spot;
pub use start::{first_state_holds, first_words};
pub use table::{Entry, Part};
