//! Packed words, sizes of pools, addresses and the first words of a pool.
//!
//! A row is a word and numbers, as `header LIVE CLIENT COUNT ERA`; it is told again, with what the call of that name answers. With `wide_` before
//! its word a row is of format 2, as `wide_redo_of FIRST SECOND`. A line that begins with `#` is a title and is told as it is. What must be told
//! (the file stdout) was computed by an independent implementation.

mod addresses;
mod numbers;
mod packing;
mod pools;

use shm_words::{Header, Pair2, Redo};
use std::{fmt, io};

/// Tells an answer.
fn answer<T: fmt::Debug + Drop>(rt: &HostRuntime, found: T) -> io::Result<()> {
    println!(rt; "{found:?}")
}

/// Tells of a redo record that is packed or unpacked.
fn tell_redo(rt: &HostRuntime, kind: &str, wide: bool, f: [u64; 6]) -> io::Result<()> {
    let pair = Pair2 {
        first: f[0],
        second: f[1],
    };
    match kind {
        "redo" if wide => answer(rt, packing::wide_redo(f)),
        "redo" => answer(rt, packing::redo(f)),
        "redo_of" if wide => answer(rt, Redo::unpack_wide(pair)),
        "redo_of" => answer(rt, Redo::unpack(f[0])),
        _ => answer(rt, "no such row"),
    }
}

/// Tells of a word that is packed or unpacked.
fn tell_word(rt: &HostRuntime, kind: &str, wide: bool, f: [u64; 6]) -> io::Result<()> {
    match kind {
        "header" => answer(rt, packing::header(f)),
        "header_of" => answer(rt, Header::unpack(f[0])),
        "tag" => answer(rt, packing::tag(wide, f)),
        "tag_of" => answer(rt, packing::tag_of(wide, f[0])),
        "write_tag" => answer(rt, packing::write_tag(wide, f)),
        "read_tag" => answer(rt, packing::read_tag(wide, f[0])),
        "class" => answer(rt, packing::class(f)),
        _ => tell_redo(rt, kind, wide, f),
    }
}

/// Tells of a row.
fn tell(rt: &HostRuntime, kind: &str, wide: bool, f: [u64; 6]) -> io::Result<()> {
    match kind {
        "sizes" => answer(rt, pools::sizes(wide, f)),
        "total" => answer(rt, pools::total(wide, f)),
        "first" => pools::tell_first(rt, wide, f),
        "place" => answer(rt, addresses::place(wide, f)),
        "client" => answer(rt, addresses::client(wide, f)),
        "redo_more" => answer(rt, addresses::redo_more(wide, f)),
        "root" => answer(rt, addresses::root(wide, f)),
        "pair" => answer(rt, addresses::pair(wide, f)),
        "page" => answer(rt, addresses::page(wide, f)),
        _ => tell_word(rt, kind, wide, f),
    }
}

/// Tells of a line.
pub fn tell_line(rt: &HostRuntime, line: &str) -> io::Result<()> {
    if line.starts_with('#') {
        return println!(rt; "{line}");
    }
    print!(rt; "{line}: ")?;
    let (format, rest) = line.split_once('_').unwrap_or((line, ""));
    let wide = format == "wide";
    let row = if wide { rest } else { line };
    match numbers::numbers(row) {
        Some(f) => tell(rt, numbers::kind(row), wide, f),
        None => answer(rt, "no numbers"),
    }
}
