//! The one spelling of a trace.

ghost use Rattle.std.specs.{Prelude.{◌≡◌, ◌++◌, IfOk, OnOk}, List.flat_map};
ghost use Rattle.shm_script.specs.{declared.line.Line.Line as ALine, Ranges.LineSmall};
ghost use Rattle.shm_script.specs.Text.{answer_spelled, item_spelled, life_spelled, line_ended, line_spelled, order_spelled, pool_word, script_spelled, spaced, text_of};

use crate::line::{Item, Line};
use crate::log::Answer;
use crate::text::{push_number, push_spaced, push_text};
use crate::trace::{Script, Trace};
use std::alloc::{AllocError, Global};

/// The word of a pool of this format.
fn pool_word(wide: bool) -> &'static str
    ensures { result.now ≡ pool_word wide }
{
    if wide { "pool2" } else { "pool" }
}

/// The one spelling of the trace.
pub fn print(alloc: Global, trace: &Trace) -> Result<Vec<u8>, AllocError>
    ensures { IfOk result (λ v. v.items ≡ text_of trace.now) }
{
    let mut text = Vec::new(alloc);
    push_text(&mut text, pool_word(trace.wide))?;
    push_spaced(&mut text, u64::from(trace.clients))?;
    push_spaced(&mut text, u64::from(trace.segments))?;
    push_text(&mut text, "\n")?;
    order_text(&mut text, trace.order.as_slice())?;
    scripts_text(&mut text, trace.scripts.as_slice())?;
    Ok(text)
}

/// Appends the line of an order, where it has items.
#[tactic(auto, using(crate::proofs::LinesGiven::order_some, std::proofs::lemmas::Grind::common_steps))]
fn order_text(text: &mut Vec<u8>, items: &[Item]) -> Result<(), AllocError>
    ensures { OnOk result (text.new.items ≡ text.old.items ++ order_spelled items.now) }
{
    if items.is_empty() {
        return Ok(());
    }
    push_text(text, "order")?;
    items_text(text, items)?;
    push_text(text, "\n")
}

/// Appends items, each behind a blank.
fn items_text(text: &mut Vec<u8>, items: &[Item]) -> Result<(), AllocError>
    ensures { OnOk result (text.new.items ≡ text.old.items ++ flat_map item_spelled items.now) }
{
    for item in items {
        item_text(text, *item)?;
    }
    Ok(())
}

/// Appends a blank and an item: `C` or `C:T`.
fn item_text(text: &mut Vec<u8>, item: Item) -> Result<(), AllocError>
    ensures { OnOk result (text.new.items ≡ text.old.items ++ item_spelled item) }
{
    push_spaced(text, u64::from(item.client))?;
    if item.turns == 0 {
        return Ok(());
    }
    push_text(text, ":")?;
    push_number(text, u64::from(item.turns))
}

/// Appends the lines of scripts.
fn scripts_text(text: &mut Vec<u8>, scripts: &[Script]) -> Result<(), AllocError>
    ensures { OnOk result (text.new.items ≡ text.old.items ++ flat_map script_spelled scripts.now) }
{
    for script in scripts {
        script_text(text, script)?;
    }
    Ok(())
}

/// Appends the lines of a script.
fn script_text(text: &mut Vec<u8>, script: &Script) -> Result<(), AllocError>
    ensures { OnOk result (text.new.items ≡ text.old.items ++ script_spelled script.now) }
{
    push_text(text, "client")?;
    push_spaced(text, u64::from(script.client))?;
    push_text(text, "\n")?;
    life_text(text, script.life.as_slice())?;
    lines_text(text, script.lines.as_slice())
}

/// Appends the lines of commands.
fn lines_text(text: &mut Vec<u8>, lines: &[Line]) -> Result<(), AllocError>
    ensures { OnOk result (text.new.items ≡ text.old.items ++ flat_map line_ended lines.now) }
{
    for line in lines {
        line_text(text, *line)?;
        push_text(text, "\n")?;
    }
    Ok(())
}

/// Appends a life line, where it has numbers.
#[tactic(auto, using(crate::proofs::LinesGiven::life_some, std::proofs::lemmas::Grind::common_steps))]
fn life_text(text: &mut Vec<u8>, life: &[u64]) -> Result<(), AllocError>
    ensures { OnOk result (text.new.items ≡ text.old.items ++ life_spelled life.now) }
{
    if life.is_empty() {
        return Ok(());
    }
    push_text(text, "life")?;
    numbers_text(text, life)?;
    push_text(text, "\n")
}

/// Appends numbers, each behind a blank.
fn numbers_text(text: &mut Vec<u8>, numbers: &[u64]) -> Result<(), AllocError>
    ensures { OnOk result (text.new.items ≡ text.old.items ++ flat_map spaced numbers.now) }
{
    for number in numbers {
        push_spaced(text, *number)?;
    }
    Ok(())
}

/// Appends a command, with no line end. After an error a part of it may be there.
pub fn line_text(text: &mut Vec<u8>, line: Line) -> Result<(), AllocError>
    ensures { OnOk result (text.new.items ≡ text.old.items ++ line_spelled line) }
{
    match line {
        Line::Put { key, number } => {
            push_text(text, "put")?;
            push_spaced(text, u64::from(key))?;
            push_spaced(text, number)
        }
        Line::Del { key } => {
            push_text(text, "del")?;
            push_spaced(text, u64::from(key))
        }
        Line::Get { author, key } => {
            push_text(text, "get")?;
            push_spaced(text, u64::from(author))?;
            push_spaced(text, u64::from(key))
        }
        Line::Copy { key, author, other } => {
            push_text(text, "copy")?;
            push_spaced(text, u64::from(key))?;
            push_spaced(text, u64::from(author))?;
            push_spaced(text, u64::from(other))
        }
        Line::Send { to, key } => {
            push_text(text, "send")?;
            push_spaced(text, u64::from(to))?;
            push_spaced(text, u64::from(key))
        }
        Line::Recv { from, key } => {
            push_text(text, "recv")?;
            push_spaced(text, u64::from(from))?;
            push_spaced(text, u64::from(key))
        }
    }
}

/// No two commands have one text.
pub fn line_is_one_spelling()
    ensures { (a b : ALine) → LineSmall a → LineSmall b → line_spelled a ≡ line_spelled b → a ≡ b }
{}

/// Appends an answer. After an error a part of it may be there.
pub fn answer_text(text: &mut Vec<u8>, answer: Answer) -> Result<(), AllocError>
    ensures { OnOk result (text.new.items ≡ text.old.items ++ answer_spelled answer) }
{
    match answer {
        Answer::Ok | Answer::Stored { .. } => push_text(text, "ok"),
        Answer::Value { number, .. } => {
            push_text(text, "value")?;
            push_spaced(text, number)
        }
        Answer::Missing => push_text(text, "missing"),
        Answer::Full { .. } => push_text(text, "full"),
        Answer::CountFull { .. } => push_text(text, "countfull"),
        Answer::QueueFull { .. } => push_text(text, "queuefull"),
        Answer::Empty { .. } => push_text(text, "empty"),
        Answer::RootsFull => push_text(text, "rootsfull"),
        Answer::EraSpent { .. } => push_text(text, "eraspent"),
    }
}
