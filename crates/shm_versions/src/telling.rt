//! The text of a run.

ghost use Rattle.std.specs.Prelude.{◌≡◌, ◌++◌, IfOk, OnOk};
ghost use Rattle.shm_script.specs.Text.{ended, spaced};
ghost use Rattle.shm_tree.specs.ScriptTexts.{line_spelled};
ghost use Rattle.shm_versions.specs.RunTexts.{answer_spelled, answered_lines, ending_of, holding_lines, last_line, line_answered, text_of_run, version_line};

use crate::treed::{Holding, Treed};
use shm_plain::PlainClosed;
use shm_report::Counts;
use shm_script::{push_number, push_text};
use shm_tree::{TreeAnswer, TreeLine, TreeScript};
use std::alloc::{AllocError, Global};

/// Appends a blank and a number.
fn push_spaced(text: &mut Vec<u8>, number: u64) -> Result<(), AllocError>
    ensures { OnOk result (text.new.items ≡ text.old.items ++ spaced number) }
{
    push_text(text, " ")?;
    push_number(text, number)
}

/// Appends a line, with no line end.
fn push_line(text: &mut Vec<u8>, line: TreeLine) -> Result<(), AllocError>
    ensures { OnOk result (text.new.items ≡ text.old.items ++ line_spelled line) }
{
    match line {
        TreeLine::Set {
            to,
            from,
            key,
            number,
        } => {
            push_text(text, "set")?;
            push_spaced(text, u64::from(to))?;
            push_spaced(text, u64::from(from))?;
            push_spaced(text, u64::from(key))?;
            push_spaced(text, number)
        }
        TreeLine::Del { to, from, key } => {
            push_text(text, "del")?;
            push_spaced(text, u64::from(to))?;
            push_spaced(text, u64::from(from))?;
            push_spaced(text, u64::from(key))
        }
        TreeLine::Get { at, key } => {
            push_text(text, "get")?;
            push_spaced(text, u64::from(at))?;
            push_spaced(text, u64::from(key))
        }
        TreeLine::Copy { to, from } => {
            push_text(text, "copy")?;
            push_spaced(text, u64::from(to))?;
            push_spaced(text, u64::from(from))
        }
        TreeLine::Clear { at } => {
            push_text(text, "clear")?;
            push_spaced(text, u64::from(at))
        }
    }
}

/// Appends an answer, with no line end.
fn push_answer(text: &mut Vec<u8>, answer: TreeAnswer) -> Result<(), AllocError>
    ensures { OnOk result (text.new.items ≡ text.old.items ++ answer_spelled answer) }
{
    match answer {
        TreeAnswer::Ok => push_text(text, "ok"),
        TreeAnswer::Value { number } => {
            push_text(text, "value")?;
            push_spaced(text, number)
        }
        TreeAnswer::Missing => push_text(text, "missing"),
        TreeAnswer::Full { .. } => push_text(text, "full"),
        TreeAnswer::CountFull { .. } => push_text(text, "countfull"),
        TreeAnswer::EraSpent { .. } => push_text(text, "eraspent"),
    }
}

/// Appends a line that was finished, and what it was answered by.
fn push_answered(text: &mut Vec<u8>, line: TreeLine, answer: TreeAnswer) -> Result<(), AllocError>
    ensures { OnOk result (text.new.items ≡ text.old.items ++ line_answered line answer) }
{
    push_line(text, line)?;
    push_text(text, " ")?;
    push_answer(text, answer)?;
    push_text(text, "\n")
}

/// Appends the lines that were finished, and what they were answered by.
fn push_lines(
    text: &mut Vec<u8>,
    lines: &[TreeLine],
    answers: &[TreeAnswer],
) -> Result<(), AllocError>
    ensures { OnOk result (text.new.items ≡ text.old.items ++ answered_lines lines.now answers.now) }
{
    for (line, answer) in lines.iter().zip(answers) {
        push_answered(text, *line, *answer)?;
    }
    Ok(())
}

/// Appends how many keys a version has, where it has any.
fn push_version(text: &mut Vec<u8>, at: usize, size: u32) -> Result<(), AllocError>
    ensures { OnOk result (text.new.items ≡ text.old.items ++ version_line at size) }
{
    if size == 0 {
        return Ok(());
    }
    push_text(text, "version")?;
    push_spaced(text, at as u64)?;
    push_spaced(text, u64::from(size))?;
    push_text(text, "\n")
}

/// Appends how much a forest held.
fn push_holding(text: &mut Vec<u8>, holding: &Holding) -> Result<(), AllocError>
    ensures { OnOk result (text.new.items ≡ text.old.items ++ holding_lines holding.now) }
{
    for (at, size) in holding.sizes.iter().enumerate() {
        push_version(text, at, *size)?;
    }
    push_text(text, "nodes")?;
    push_spaced(text, u64::from(holding.nodes))?;
    push_text(text, "\n")
}

/// Appends a word and how many lines were finished.
fn push_end(text: &mut Vec<u8>, word: &str, finished: usize) -> Result<(), AllocError>
    ensures { OnOk result (text.new.items ≡ text.old.items ++ ended (word.now ++ spaced finished)) }
{
    push_text(text, word)?;
    push_spaced(text, finished as u64)?;
    push_text(text, "\n")
}

/// Appends how a run ended, by how many lines were finished.
fn push_ending(
    text: &mut Vec<u8>,
    finished: usize,
    holding: &Option<Holding>,
) -> Result<(), AllocError>
    ensures { OnOk result (text.new.items ≡ text.old.items ++ ending_of finished holding.now) }
{
    match holding {
        None => push_end(text, "died", finished),
        Some(held) => {
            push_end(text, "ended", finished)?;
            push_holding(text, held)
        }
    }
}

/// Appends how many blocks of a closed pool are live, and how many of its words name one.
fn push_counts(text: &mut Vec<u8>, closed: &PlainClosed) -> Result<(), AllocError>
    ensures { OnOk result (text.new.items ≡ text.old.items ++ last_line closed.now) }
{
    let counts = Counts::of(closed.geometry(), closed.words());
    push_text(text, "live ")?;
    push_number(text, u64::from(counts.live))?;
    push_text(text, " refs ")?;
    push_number(text, u64::from(counts.refs))?;
    push_text(text, "\n")
}

/// The text of a run: each line that was finished with what it was answered by, how the run ended, and how much the closed pool holds.
pub fn run_text(alloc: Global, script: &TreeScript, run: &Treed) -> Result<Vec<u8>, AllocError>
    ensures { IfOk result (λ v. v.items ≡ text_of_run script.now run.now) }
{
    let mut text = Vec::new(alloc);
    push_lines(&mut text, script.lines.as_slice(), run.answers.as_slice())?;
    push_ending(&mut text, run.answers.len(), &run.holding)?;
    push_counts(&mut text, &run.closed)?;
    Ok(text)
}
