//! Versions of an ordered map in one pool: up to twelve registers, each with a version, which share all nodes that they have in common.
//!
//! A node is a block of two reference words, left and right, and three plain words, key, number and height. It isn't changed once it is linked:
//! a change makes new nodes along one path, and refers to all others.
#![tactic(auto)]

mod balance;
mod calls;
mod closing;
mod counting;
mod find;
mod forest;
mod ground;
mod hints;
mod insert;
mod judge;
mod laws;
mod line;
mod node;
mod parsing;
mod registers;
mod remove;
mod shape;
mod stop;
mod sweeping;

pub use forest::Forest;
pub use laws::{insertions_are_changes, removals_are_changes, trees_are_low};
pub use line::{TreeAnswer, TreeLine, TreeScript, TreeTurn};
pub use parsing::{parse_tree, scripts_are_spelled};
