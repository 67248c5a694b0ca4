//! Reports and summaries of pools, their images and what is told of these.
//!
//! A line `# TITLE` names the lines up to the next one, and is told again. `pool CLIENTS SEGMENTS` begins a pool of format 1 whose words are 0,
//! `pool2` one of format 2, and `words AT:WORD ..` sets some of them.
//!
//! - **Texts.** Behind `pool` stand the lines of a trace, `answers ANSWER ..` for its commands and `ends END ..` for its clients; then
//!   `report` or `summary` (logs.rt).
//! - **Images.** `image` makes the image of the pool, `set AT WORD`, `byte AT BYTE`, `push BYTE` and `cut LEN` change it, and `length`, `front LEN`,
//!   `checksum` and `audit` tell of it. `changes`, `cuts` and `frames` tell of many changes with one checksum (images.rt).
//! - **Migration.** `migrate` makes the image one of format 2, and tells `migrated` or why it doesn't. `word AT` tells a word of the image, and
//!   `migrations` as `changes` of the new images and lines.
//! - **Lines.** `verdict ..` and `fault ..` are told as their lines (lines.rt).
//!
//! What must be told (the file stdout) was made by an independent implementation. A line that is none of these is told as `no row`.

mod images;
mod lines;
mod logs;
mod numbers;
mod pool;
mod rows;
mod stop;

pub use rows::Rows;
use std::alloc::AllocError;
use std::io;
use stop::Stop;

/// Tells of a line.
pub fn tell_line(rt: &HostRuntime, rows: &mut Rows, line: &str) -> io::Result<()> {
    match rows.row(rt.alloc(), line) {
        Ok(text) => match str::from_utf8(text.as_slice()) {
            Ok(text) => print!(rt; "{text}"),
            Err(_) => println!(rt; "no text"),
        },
        Err(Stop::NoRow) => println!(rt; "no row: {line}"),
        Err(Stop::Memory) => Err(io::Error::from(AllocError)),
    }
}
