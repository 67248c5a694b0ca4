//! Scripts of versions of a map.
//!
//! A line that begins with `#` is a title: it is told as it is, and an empty script begins. `+ LINE` adds a line to the script. `go` runs it and
//! tells what came of it: the lines that were finished with their answers, how it ended, how much the forest held then, and what is live in the
//! closed pool. `audit` runs it and tells what an audit of the closed pool finds. `lives N` runs it N times, with 1 to N word steps, and tells of
//! how many no block is live in the closed pool. What must be told (the file stdout) was computed by an independent implementation.
//! `near KEYS MORE` does the same sets on a forest with hints and on one without, and tells how many are answered the same, and whether they take
//! fewer word steps with hints; `brim KEYS` does so in one segment, which they fill, and tells the first refusal.
//! `maps KEYS LINES` sets so many keys and does so many random lines on a forest and on ordered maps of std, and tells how many answers and sizes
//! are the same.

mod beside;
mod near;

ghost use Rattle.shm_tree.specs.ScriptTexts.{IsScript};

use beside::compare;
use near::{brim, sets};
use shm_audit::{Verdict, audit, write_image};
use shm_script::push_text;
use shm_tree::{TreeAnswer, TreeScript, parse_tree, scripts_are_spelled};
use shm_versions::{run_script, run_text};
use std::alloc::{AllocError, Global};
use std::io;

/// The text of what a script leaves.
fn told(alloc: Global, script: &TreeScript) -> Result<Vec<u8>, AllocError>
    requires { IsScript script.now }
{
    let run = run_script(alloc, script)?;
    run_text(alloc, script, &run)
}

/// Tells what came of a script.
fn go(rt: &HostRuntime, script: &TreeScript) -> io::Result<()>
    requires { IsScript script.now }
{
    let text = told(rt.alloc(), script)?;
    match str::from_utf8(text.as_slice()) {
        Ok(text) => print!(rt; "{text}"),
        Err(_) => println!(rt; "no text"),
    }
}

/// What an audit of the closed pool of a script finds.
fn audited(alloc: Global, script: &TreeScript) -> Result<Option<Verdict>, AllocError>
    requires { IsScript script.now }
{
    let run = run_script(alloc, script)?;
    let geometry = run.closed.geometry();
    let image = write_image(alloc, geometry, run.closed.words())?;
    Ok(audit(alloc, image.as_slice()).ok())
}

/// Tells what an audit of the closed pool of a script finds.
fn audit_row(rt: &HostRuntime, script: &TreeScript) -> io::Result<()>
    requires { IsScript script.now }
{
    match audited(rt.alloc(), script)? {
        Some(Verdict::Clean { live, refs }) => {
            println!(rt; "an audit finds {live} live blocks and {refs} references")
        }
        _ => println!(rt; "an audit finds a fault"),
    }
}

/// Tells how many of the scripts with 1 to `most` word steps leave no live block.
fn lives(rt: &HostRuntime, script: &mut TreeScript, most: u32) -> io::Result<()>
    requires { IsScript script.old }
{
    let mut clean = 0u32;
    for steps in 0..most {
        script.life = Some(u64::from(steps) + 1);
        let text = told(rt.alloc(), script)?;
        if text.as_slice().ends_with(b"\nlive 0 refs 0\n") {
            clean = clean.saturating_add(1);
        }
    }
    println!(rt; "no block is live in {clean} of {most}")
}

/// Does what a row without a text says.
fn act(rt: &HostRuntime, bytes: &[u8], line: &str) -> io::Result<()> {
    // for the proof: a script that was read is in its ranges
    scripts_are_spelled();
    match parse_tree(rt.alloc(), bytes) {
        Err(_) => println!(rt; "no script"),
        Ok(script) if line == "audit" => audit_row(rt, &script),
        Ok(mut script) => match line.strip_prefix("lives ") {
            None => go(rt, &script),
            Some(most) => lives(rt, &mut script, most.parse::<u32>().unwrap_or(0)),
        },
    }
}

/// Tells how many of the answers and sizes of a forest are those of ordered maps: by how many keys are set and how many random lines follow.
fn maps(rt: &HostRuntime, numbers: &str) -> io::Result<()> {
    let Some((keys, lines)) = numbers.split_once(' ') else {
        return println!(rt; "no numbers");
    };
    let (Ok(keys), Ok(lines)) = (keys.parse::<u32>(), lines.parse::<u32>()) else {
        return println!(rt; "no numbers");
    };
    let done = compare(rt.alloc(), keys, lines)?;
    println!(rt; "{} of {} are those of the maps", done.same, done.compared)
}

/// Tells what the same sets came to on a forest with hints and on one without: by how many keys are set and how many random sets follow.
fn near_row(rt: &HostRuntime, numbers: &str) -> io::Result<()> {
    let Some((keys, more)) = numbers.split_once(' ') else {
        return println!(rt; "no numbers");
    };
    let (Ok(keys), Ok(more)) = (keys.parse::<u32>(), more.parse::<u32>()) else {
        return println!(rt; "no numbers");
    };
    let done = sets(rt.alloc(), keys, more)?;
    let fewer = if done.near < done.plain {
        "fewer"
    } else {
        "no fewer"
    };
    println!(rt;
        "{} of {} are answered the same with hints, in {fewer} word steps",
        done.same, done.sets
    )
}

/// Tells what the same sets came to in one segment, which they fill.
fn brim_row(rt: &HostRuntime, number: &str) -> io::Result<()> {
    let Ok(keys) = number.parse::<u32>() else {
        return println!(rt; "no number");
    };
    let done = brim(rt.alloc(), keys)?;
    println!(rt;
        "{} of {} are answered the same with hints",
        done.same, done.sets
    )?;
    match done.refusal {
        Some(TreeAnswer::Full { segments, blocks }) => {
            println!(rt; "full: {segments} segments, {blocks} blocks")
        }
        _ => println!(rt; "not full"),
    }
}

/// Does what a line says.
pub fn tell_line(rt: &HostRuntime, text: &mut Vec<u8>, line: &str) -> io::Result<()> {
    if let Some(title) = line.strip_prefix("# ") {
        text.clear();
        return println!(rt; "# {title}");
    }
    if let Some(numbers) = line.strip_prefix("maps ") {
        return maps(rt, numbers);
    }
    if let Some(numbers) = line.strip_prefix("near ") {
        return near_row(rt, numbers);
    }
    if let Some(number) = line.strip_prefix("brim ") {
        return brim_row(rt, number);
    }
    match line.strip_prefix("+ ") {
        None => act(rt, text.as_slice(), line),
        Some(more) => {
            push_text(text, more)?;
            push_text(text, "\n")?;
            Ok(())
        }
    }
}
