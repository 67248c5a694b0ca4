//! The lines that tell of a verdict and of a fault.

ghost use Rattle.std.specs.{Prelude.{◌≡◌, ◌++◌, codes, IfOk, OnOk}, Fmt.decimal};
ghost use Rattle.shm_audit.specs.Texts.{verdict_line, image_fault_line};

use crate::fault::ImageFault;
use crate::verdict::Verdict;
use shm_script::{push_number, push_text};
use std::alloc::{AllocError, Global};

/// The line of a verdict: `clean live L refs F`, `wrong BLOCK stored S found F`, `uncounted BLOCK` or `pending C`, and a line feed.
pub fn verdict_text(alloc: Global, verdict: &Verdict) -> Result<Vec<u8>, AllocError>
    ensures { IfOk result (λ v. v.items ≡ verdict_line verdict.now) }
{
    let mut text = Vec::new(alloc);
    match *verdict {
        Verdict::Clean { live, refs } => {
            push(&mut text, "clean live ", u64::from(live))?;
            push(&mut text, " refs ", u64::from(refs))?;
        }
        Verdict::WrongCount {
            block,
            stored,
            found,
        } => {
            push(&mut text, "wrong ", u64::from(block))?;
            push(&mut text, " stored ", u64::from(stored))?;
            push(&mut text, " found ", u64::from(found))?;
        }
        Verdict::Uncounted { block } => push(&mut text, "uncounted ", u64::from(block))?,
        Verdict::Pending { client } => push(&mut text, "pending ", u64::from(client))?,
    }
    push_text(&mut text, "\n")?;
    Ok(text)
}

/// The line of a fault: `refused`, then `short LEN`, `magic SEEN`, `geometry N G`, `length LEN want WANT`, or `page`, `header`, `tag` or
/// `reference` with an address and its word, and a line feed.
pub fn fault_text(alloc: Global, fault: &ImageFault) -> Result<Vec<u8>, AllocError>
    ensures { IfOk result (λ v. v.items ≡ image_fault_line fault.now) }
{
    let mut text = Vec::new(alloc);
    match *fault {
        ImageFault::Short { len } => push(&mut text, "refused short ", len)?,
        ImageFault::Magic { seen } => push(&mut text, "refused magic ", seen)?,
        ImageFault::Geometry { clients, segments } => {
            push(&mut text, "refused geometry ", clients)?;
            push(&mut text, " ", segments)?;
        }
        ImageFault::Length { len, want } => {
            push(&mut text, "refused length ", len)?;
            push(&mut text, " want ", want)?;
        }
        ImageFault::BadPage { at, word } => push_word(&mut text, "refused page ", at, word)?,
        ImageFault::BadHeader { at, word } => push_word(&mut text, "refused header ", at, word)?,
        ImageFault::BadTag { at, word } => push_word(&mut text, "refused tag ", at, word)?,
        ImageFault::BadRef { at, word } => push_word(&mut text, "refused reference ", at, word)?,
    }
    push_text(&mut text, "\n")?;
    Ok(text)
}

// appends some words and a number
fn push(text: &mut Vec<u8>, words: &str, number: u64) -> Result<(), AllocError>
    ensures { OnOk result (text.new.items ≡ text.old.items ++ words.now ++ decimal number) }
{
    push_text(text, words)?;
    push_number(text, number)
}

// appends some words, an address, a blank and the word there
fn push_word(text: &mut Vec<u8>, words: &str, at: u32, word: u64) -> Result<(), AllocError>
    ensures { OnOk result (text.new.items ≡ text.old.items ++ words.now ++ decimal at ++ codes " " ++ decimal word) }
{
    push(text, words, u64::from(at))?;
    push(text, " ", word)
}
