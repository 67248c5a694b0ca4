//! Tables: looking for a key, reading what it has, removing it, and the parts of which commands that put are made.
//!
//! Each machine is a plan of calls (`plans`), which says which call comes next. The type with a part's name is its plan, and machines
//! above call `Calls` of it; commands are structs of their own around their calls.
#![tactic(auto)]

pub mod answer;
pub mod bound;
pub mod command;
pub mod copy;
pub mod del;
pub mod effect;
pub mod effects;
pub mod enter;
pub mod fetch;
pub mod fetch_head;
pub mod find;
pub mod get;
pub mod locate;
pub mod open_table;
pub mod opening;
pub mod parts;
pub mod put;
pub mod put_root;
pub mod reading;
pub mod recv;
pub mod refusals;
pub mod replace;
pub mod send_key;
pub mod sending;
pub mod staying;
pub mod take_head;
pub mod unlatch;
pub mod unlink;

pub use bound::{copy_bound, del_bound, get_bound, put_bound, recv_bound, send_key_bound};
pub use command::Command;
pub use copy::{CopyKey, Copying};
pub use del::{Del, Deleting};
pub use effects::{
    command_bound, command_foretells, command_lines, command_maps, command_sends,
    commands_foretell, deciding_events, earlier_events, parts_decide,
};
pub use get::{Get, Getting};
pub use put::{Put, Putting};
pub use reading::{get_finds_the_map, get_tells};
pub use recv::{ReceivingKey, RecvKey};
pub use refusals::{
    command_causes, command_refusals, copy_refusals, del_refusals, get_refusals, put_refusals,
    recv_refusals, refusal_trails, send_key_refusals, taken_back,
};
pub use send_key::{SendKey, SendingKey};
pub use sending::send_key_sends;
