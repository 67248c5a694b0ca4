//! Traces, answers and logs: their types, their one spelling, and the traces of a generator.
#![tactic(auto)]

mod commands;
mod draw;
mod fault;
mod fit;
mod judge;
mod line;
mod line_shape;
mod log;
mod number;
mod parsing;
pub mod parts;
mod pieces;
mod printing;
mod raw;
mod text;
mod trace;

pub use draw::generate;
pub use fault::{ParseStop, TraceFault, TraceKind};
pub use line::{Item, Line};
pub use log::{Answer, End, Entry, Log};
pub use parsing::{faults_are_of_no_trace, parse, text_is_one_spelling};
pub use printing::{answer_text, line_is_one_spelling, line_text, print};
pub use text::{push_number, push_text};
pub use trace::{Script, Trace};
