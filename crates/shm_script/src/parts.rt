//! What other texts of lines are read with: words of a line, their numbers, and lines of bytes.

pub use crate::number::{number, one, three, two};
pub use crate::parsing::{limit, split_line};
pub use crate::pieces::{cut, is_word, split_word};
