//! A replay that is watched: each word step and each death of its turns is shown to a watcher, and with it the piece of work that it is of.
#![tactic(auto)]

mod course;
mod lane;
pub mod order;
mod running;
pub mod shown;
pub mod span;
pub mod telling;
pub mod watched;
pub mod watching;

pub use shown::{Shown, Watcher};
pub use span::{Fate, Point, Span, Task};
pub use telling::{Listener, tell};
pub use watching::watch;
