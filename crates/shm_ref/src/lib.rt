//! Latches, looks, roots and references of an identity: taking a latch and giving it back, reading what a root, a home, a reference word
//! or a plain word holds, giving a block in reach another root, setting the own home and the references of own blocks, and making a root
//! empty with all that only it names.
//!
//! Each machine is a plan of calls (`plans`), which says which call comes next. The type with the operation's name is the plan: a pool
//! runs it as it is, and machines above call `Calls` of it.
#![tactic(auto)]

pub mod answer;
pub mod bound;
pub mod drop_root;
pub mod drop_roots;
pub mod hold;
pub mod home_of;
pub mod keeping;
pub mod look;
pub mod parts;
pub mod read;
pub mod reading;
pub mod refusals;
pub mod release;
pub mod root_of;
pub mod root_steps;
pub mod set_home;
pub mod set_ref;
pub mod share;
pub mod stays;
mod tagged;

pub use answer::{Busy, HomeFault, LookFault, NoSuchWord, NotHeld, SetFault};
pub use bound::{
    drop_root_bound, hold_bound, home_of_bound, look_bound, read_bound, release_bound,
    root_of_bound, set_home_bound, set_ref_bound, share_bound,
};
pub use drop_root::DropRoot;
pub use hold::Hold;
pub use home_of::HomeOf;
pub use keeping::{
    change_root_keeps, drop_root_keeps, hold_keeps, home_of_keeps, look_keeps, lower_root_keeps,
    raise_root_keeps, read_keeps, release_keeps, root_of_keeps, set_home_keeps, set_ref_keeps,
    share_keeps,
};
pub use look::Look;
pub use read::Read;
pub use reading::{reach_lies, reading_goes_on, reads_only};
pub use refusals::{
    drop_root_refusals, hold_refusals, home_of_refusals, latch_needed, look_refusals,
    read_refusals, set_home_refusals, set_ref_refusals, share_refusals,
};
pub use release::Release;
pub use root_of::RootOf;
pub use root_steps::{ChangeRoot, LowerRoot, RaiseRoot};
pub use set_home::SetHome;
pub use set_ref::SetRef;
pub use share::Share;
pub use shm_count::parts::ShareFault;
pub use stays::drops_are_steady;
