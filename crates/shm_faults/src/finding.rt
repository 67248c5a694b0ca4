//! What stands in the line that a refusal names, and what was wanted there.

use crate::cause::{Cause, cause_of};
use crate::form::Language;
use crate::line::{Line, line_at};
use std::fmt;

/// What is wrong with a line.
#[derive(Clone, Copy, Drop)]
pub struct Finding<'a> {
    language: Language,
    number: usize,
    line: Option<Line<'a>>,
    cause: Cause<'a>,
}

impl<'a> Finding<'a> {
    /// What is wrong with the line of this input that the program refused by this line: `refused line 3 syntax`. Nothing where that isn't
    /// what it says.
    pub fn new(language: Language, input: &'a [u8], said: &str) -> Option<Finding<'a>> {
        let rest = said.strip_prefix("refused line ")?;
        let (number, kind) = rest.trim_end().split_once(' ')?;
        let number = number.parse::<usize>().ok()?;
        let line = line_at(input, number);
        Some(Finding {
            language,
            number,
            line,
            cause: cause_of(language, input, line, kind),
        })
    }
}

impl fmt::Display for Finding<'_> {
    fn fmt<W: fmt::Write>(&self, f: &mut fmt::Formatter<W>) -> fmt::Result {
        let name = self.language.name();
        write!(f, "line {} of the {name}: {}", self.number, self.cause)?;
        if let Some(text) = self.line.and_then(|line| line.shown()) {
            write!(f, "\n  found:  {text}")?;
        }
        match self.cause {
            Cause::Word(_) => write!(f, "\n  wanted: one of {}", self.language.forms()),
            Cause::Missing if self.number == 1 => write!(
                f,
                "\n  wanted: {}",
                self.language.first()
            ),
            _ => Ok(()),
        }
    }
}
