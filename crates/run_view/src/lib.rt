//! What the turns of a trace's replay show: its word steps by command as a table, each of them by its name, and the run as a picture.
#![tactic(auto)]

mod draw;
mod events;
mod outgoing;
mod page;
mod pipe;
mod sheet;
mod spots;
mod steps;
mod text;
mod window;
mod words;

pub use page::{run_picture, run_steps, run_words};
pub use pipe::Stop;
pub use window::Window;
