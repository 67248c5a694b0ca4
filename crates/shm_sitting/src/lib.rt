//! The operations of an identity as the work of a session: in a pool for tables a join, a recovery, a command or a leaving, in a pool for single
//! blocks those of `shm_singles`.
#![tactic(auto)]

mod numbers;
pub mod seat;
pub mod singles_seat;
pub mod tables_seat;
pub mod work;

pub use seat::{Kind, Seat};
pub use singles_seat::SinglesSeat;
pub use tables_seat::TablesSeat;
pub use work::{Tables, Work, WorkAnswer};
