//! The text of a closed pool: the logs of its clients, and then what its words hold; and how many blocks are live in words, and how many words name one.
#![tactic(auto)]

mod counts;
mod logs;
mod pool_words;
mod table_rows;
mod texts;
mod value_names;

pub use counts::Counts;
pub use texts::{report, summary};
