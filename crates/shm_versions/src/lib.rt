//! Whole scripts that are run on a forest: what they leave, and the text of that.
#![tactic(auto)]

mod playing;
mod telling;
mod treed;

pub use playing::run_script;
pub use telling::run_text;
pub use treed::{Holding, Treed};
