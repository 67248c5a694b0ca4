//! Machines that are made of calls of smaller machines.
//!
//! A plan says which call comes next, by what the call before answered. What holds between the calls is all that has to be proved of it:
//! the law of the machine that makes the calls follows from it and from the laws of the calls, once for all plans.
#![tactic(auto)]

pub mod calls;
pub mod laws;
pub mod or;
pub mod plan;
pub mod task;
pub mod word;

pub use calls::Calls;
pub use laws::{
    calls_begin, calls_events, calls_foretell, calls_leave, foretold_answers, step_grows,
    step_spares,
};
pub use or::Or;
pub use plan::Plan;
pub use task::{Begin, Task};
pub use word::Word;
