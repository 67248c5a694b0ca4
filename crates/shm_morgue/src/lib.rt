//! The dead go through a queue: porters put corpses in, and medics take them out.
#![tactic(auto)]

mod closing;
mod gate;
mod making;
mod medic;
mod morgue;
mod rescue;
mod rule;
mod run;
mod worker;

pub use closing::{MorgueCause, MorgueStop};
pub use gate::{Gate, NoGate};
pub use making::Made3;
pub use morgue::{Medic, Morgue, NoRoom, Porter};
pub use rule::{Pools, Taken};
pub use run::run_morgue;
pub use shm_team::Ran;
