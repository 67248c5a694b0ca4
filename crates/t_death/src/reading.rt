//! Operations and commands, as lines of standard input write them.

use crate::op::{Op, Plain};
use shm_script::Line;
use t_runs::{address, byte, line_of, number, numbers};

/// The identity that a text begins with, and what follows.
pub fn begin_of(text: &str) -> Option<(u8, &str)> {
    let (who, rest) = text.split_once(' ')?;
    Some((byte(number(who))?, rest))
}

/// A command, by its name and its numbers as in a script.
pub fn command_of(text: &str) -> Option<Line> {
    let (name, rest) = text.split_once(' ')?;
    let f = numbers(rest);
    line_of(name, [f[0], f[1], f[2]])
}

/// An operation, by its name and its numbers; a command stands behind `run`.
pub fn op_of(text: &str) -> Option<Op> {
    let (name, rest) = text.split_once(' ').unwrap_or((text, ""));
    match name {
        "run" => Some(Op::Run(command_of(rest)?)),
        "alloc" => alloc_of(rest),
        "" => None,
        _ if rest.is_empty() => alone_of(name),
        _ => numbered_of(name, &numbers(rest)),
    }
}

/// How many reference words a block is to have, and what its plain words are to be.
fn alloc_of(text: &str) -> Option<Op> {
    let f = numbers(text);
    let many = text.split_whitespace().count().saturating_sub(1);
    let plain = Plain {
        words: [f[1], f[2], f[3]],
        many,
    };
    Some(Op::Alloc(byte(f[0])?, plain))
}

/// An operation without numbers.
fn alone_of(name: &str) -> Option<Op> {
    match name {
        "join" => Some(Op::Join),
        "leave" => Some(Op::Leave),
        "recover" => Some(Op::Recover),
        "release" => Some(Op::Release),
        "drain" => Some(Op::Drain),
        _ => None,
    }
}

/// An operation with numbers.
fn numbered_of(name: &str, f: &[u64; 6]) -> Option<Op> {
    match name {
        "look" => Some(Op::Look(address(f[0])?, byte(f[1])?)),
        "read" => Some(Op::Read(address(f[0])?, byte(f[1])?)),
        "set_ref" => Some(Op::SetRef(address(f[0])?, byte(f[1])?, address(f[2])?)),
        "send" => Some(Op::Send(byte(f[0])?, address(f[1])?)),
        "step_up" | "step_down" | "step_change" => step_of(name, f),
        "share" | "set_home" | "tear_down" => block_of(name, address(f[0])?),
        _ => byte_of(name, byte(f[0])?),
    }
}

/// A count step: the slot, and the block that it names or shall name.
fn step_of(name: &str, f: &[u64; 6]) -> Option<Op> {
    let (slot, block) = (address(f[0])?, address(f[1])?);
    match name {
        "step_up" => Some(Op::Up(slot, block)),
        "step_down" => Some(Op::Down(slot, block)),
        _ => Some(Op::Change(slot, block, address(f[2])?)),
    }
}

/// An operation on a block.
fn block_of(name: &str, block: u32) -> Option<Op> {
    match name {
        "share" => Some(Op::Share(block)),
        "set_home" => Some(Op::SetHome(block)),
        "tear_down" => Some(Op::TearDown(block)),
        _ => None,
    }
}

/// An operation that is told a root or an identity.
fn byte_of(name: &str, number: u8) -> Option<Op> {
    match name {
        "drop_root" => Some(Op::DropRoot(number)),
        "root_of" => Some(Op::RootOf(number)),
        "hold" => Some(Op::Hold(number)),
        "home_of" => Some(Op::HomeOf(number)),
        "peek" => Some(Op::Peek(number)),
        "take" => Some(Op::Take(number)),
        "receive" => Some(Op::Receive(number)),
        _ => None,
    }
}
