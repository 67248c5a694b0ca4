//! The lines of verdicts and faults.

use crate::reports::numbers::{Numbers, read_numbers};
use crate::reports::stop::Stop;
use shm_audit::{ImageFault, Verdict, fault_text, verdict_text};
use shm_script::push_text;
use std::alloc::{AllocError, Global};
use std::fmt::InlineText;

/// The verdict of this kind with these numbers.
fn verdict(kind: &str, of: Numbers) -> Option<Verdict> {
    match kind {
        "clean" => Some(Verdict::Clean {
            live: u32::try_from(of.first).ok()?,
            refs: u32::try_from(of.second).ok()?,
        }),
        "wrong" => Some(Verdict::WrongCount {
            block: u32::try_from(of.first).ok()?,
            stored: u16::try_from(of.second).ok()?,
            found: u32::try_from(of.third).ok()?,
        }),
        "uncounted" => Some(Verdict::Uncounted {
            block: u32::try_from(of.first).ok()?,
        }),
        "pending" => Some(Verdict::Pending {
            client: u8::try_from(of.first).ok()?,
        }),
        _ => None,
    }
}

/// The line of the verdict that a text spells.
pub fn verdict_line(alloc: Global, text: &str) -> Result<Vec<u8>, Stop> {
    let (kind, rest) = text.split_once(' ').ok_or(Stop::NoRow)?;
    let of = read_numbers(rest).ok_or(Stop::NoRow)?;
    let verdict = verdict(kind, of).ok_or(Stop::NoRow)?;
    Ok(verdict_text(alloc, &verdict)?)
}

/// The fault of this kind with these numbers.
fn fault(kind: &str, of: Numbers) -> Option<ImageFault> {
    match kind {
        "short" => Some(ImageFault::Short { len: of.first }),
        "magic" => Some(ImageFault::Magic { seen: of.first }),
        "geometry" => Some(ImageFault::Geometry {
            clients: of.first,
            segments: of.second,
        }),
        "length" => Some(ImageFault::Length {
            len: of.first,
            want: of.second,
        }),
        _ => word_fault(kind, u32::try_from(of.first).ok()?, of.second),
    }
}

/// The fault of this kind with an address and the word there.
fn word_fault(kind: &str, at: u32, word: u64) -> Option<ImageFault> {
    match kind {
        "page" => Some(ImageFault::BadPage { at, word }),
        "header" => Some(ImageFault::BadHeader { at, word }),
        "tag" => Some(ImageFault::BadTag { at, word }),
        "reference" => Some(ImageFault::BadRef { at, word }),
        _ => None,
    }
}

/// Appends a fault as it is shown.
fn push_shown(text: &mut Vec<u8>, fault: ImageFault) -> Result<(), AllocError> {
    let shown: InlineText<64> = InlineText::of(fault);
    push_text(text, shown.as_str())?;
    push_text(text, "\n")
}

/// The line of the fault that a text spells, and the fault as it is shown.
pub fn fault_lines(alloc: Global, text: &str) -> Result<Vec<u8>, Stop> {
    let (kind, rest) = text.split_once(' ').ok_or(Stop::NoRow)?;
    let of = read_numbers(rest).ok_or(Stop::NoRow)?;
    let fault = fault(kind, of).ok_or(Stop::NoRow)?;
    let mut lines = fault_text(alloc, &fault)?;
    push_shown(&mut lines, fault)?;
    Ok(lines)
}
