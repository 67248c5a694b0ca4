//! Texts of lines for versions of a map that are read.

use crate::scripts::parsing::tell_stop;
use shm_tree::{TreeLine, TreeScript, parse_tree};
use std::io;

/// Tells a line as it is spelled.
fn tell_line(rt: &HostRuntime, line: &TreeLine) -> io::Result<()> {
    match *line {
        TreeLine::Set {
            to,
            from,
            key,
            number,
        } => println!(rt; "set {to} {from} {key} {number}"),
        TreeLine::Del { to, from, key } => println!(rt; "del {to} {from} {key}"),
        TreeLine::Get { at, key } => println!(rt; "get {at} {key}"),
        TreeLine::Copy { to, from } => println!(rt; "copy {to} {from}"),
        TreeLine::Clear { at } => println!(rt; "clear {at}"),
    }
}

/// Tells how many segments a script has, its life where it has one, and its lines.
fn tell_script(rt: &HostRuntime, script: &TreeScript) -> io::Result<()> {
    println!(rt; "tree {}", script.segments)?;
    if let Some(life) = script.life {
        println!(rt; "life {life}")?;
    }
    for line in &script.lines {
        tell_line(rt, line)?;
    }
    Ok(())
}

/// Tells the script that is read of the text, or its fault.
pub fn tell(rt: &HostRuntime, text: &[u8]) -> io::Result<()> {
    match parse_tree(rt.alloc(), text) {
        Ok(script) => tell_script(rt, &script),
        Err(stop) => tell_stop(rt, stop),
    }
}
