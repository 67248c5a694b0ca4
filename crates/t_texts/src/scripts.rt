//! Texts: traces that are read, printed and drawn, lines for versions of a map that are read, and bytes that
//! come and go in pieces.
//!
//! A line that begins with `#` is a title: it is told as it is, and an empty text begins. Other rows build the text (`+ LINE`) or make the
//! call of their name on it and tell what it answers (`parse`: `ok`, or the faulty line and the kind of its fault; `tree`: the script that is
//! read, or its fault). What must be told (the file stdout) was computed by an independent implementation.

mod desk;
mod drawing;
mod parsing;
mod streams;
mod sums;
mod texts;
mod trees;

pub use desk::Desk;
use std::io;

/// Does what a row on a source or a sink says.
fn tell_stream(rt: &HostRuntime, desk: &mut Desk, kind: &str, rest: &str) -> io::Result<()> {
    match kind {
        "source" => desk.begin_source(rt.alloc(), rest),
        "sink" => desk.begin_sink(rt.alloc(), rest),
        "read" => streams::read(rt, desk, texts::number(rest)),
        "read_to_limit" => streams::read_all(rt, &mut desk.source, texts::number(rest)),
        "write" => streams::write(rt, &mut desk.sink, rest),
        "write_all" => streams::write_whole(rt, &mut desk.sink, rest),
        "std_read" => streams::std_read(rt),
        "std_write" => streams::std_write(rt, rest),
        _ => println!(rt; "no such row"),
    }
}

/// Does what a row on a trace says.
fn tell_trace(rt: &HostRuntime, desk: &mut Desk, kind: &str, rest: &str) -> io::Result<()> {
    match kind {
        "parse" => parsing::tell(rt, desk.text.as_slice()),
        "generate" => drawing::tell(rt, &mut desk.text, rest),
        "answer" => parsing::tell_answer(rt, rest),
        "tree" => trees::tell(rt, desk.text.as_slice()),
        "sum" => sums::tell(rt, desk.text.as_slice()),
        "show" => streams::show(rt, desk.text.as_slice()),
        _ => tell_stream(rt, desk, kind, rest),
    }
}

/// Does what a row says.
fn tell(rt: &HostRuntime, desk: &mut Desk, kind: &str, rest: &str) -> io::Result<()> {
    let text = &mut desk.text;
    match kind {
        "#" => {
            text.clear();
            println!(rt; "# {rest}")
        }
        "+" => texts::add_line(text, rest),
        "lines" => texts::add_lines(text, rest),
        "words" => texts::add_words(text, rest),
        "byte" => texts::add_byte(text, rest),
        "bytes" => texts::add_bytes(text, rest),
        "cut" => texts::cut(text, rest),
        _ => tell_trace(rt, desk, kind, rest),
    }
}

/// Does what a line says.
pub fn tell_line(rt: &HostRuntime, desk: &mut Desk, line: &str) -> io::Result<()> {
    let (kind, rest) = texts::halves(line);
    tell(rt, desk, kind, rest)
}
