//! Machines that make, change and remove entries.

ghost use Rattle.std.specs.Prelude.{◌+◌, ◌<◌, IfSome};
ghost use Rattle.shm_words.specs.Layout.{GeometryFits, address_limit};

use crate::tables::lines::refuse;
use shm_graph::Me;
use shm_table::parts::{Enter, OpenTable, PutRoot, Replace, Unlink};
use std::io;
use t_runs::{Case, address, below, byte, go, go_calls, key};

/// Who makes an entry, its key and its value block, the directory, and the first entry of the bucket.
#[derive(Clone, Copy, Drop)]
struct NewEntry {
    me: Me,
    key: u32,
    value: u32,
    home: u32,
    first: u32,
}

/// The address of a directory, which has 17 words behind its first.
fn directory(number: u64) -> Option<u32>
    ensures { IfSome result (λ n. n + 17 < address_limit) }
{
    Some(below(number, (1 << 20) - 17)? as u32)
}

/// Who, key, value block, directory, first entry; none where the pool hasn't them.
fn new_entry(case: &Case, f: &[u64; 6]) -> Option<NewEntry>
    ensures who { IfSome result (λ e. GeometryFits e.me.geometry × (e.me.who < e.me.geometry.clients)) }
    ensures blocks { IfSome result (λ e. (e.value < address_limit) × (e.home + 17 < address_limit) × (e.first < address_limit)) }
{
    let me = case.me(f[0])?;
    let key = key(f[1])?;
    let value = address(f[2])?;
    let home = directory(f[3])?;
    let first = address(f[4])?;
    Some(NewEntry {
        me,
        key,
        value,
        home,
        first,
    })
}

/// Who changes an entry, the entry, another block, and a number of a word.
#[derive(Clone, Copy, Drop)]
struct Change {
    me: Me,
    entry: u32,
    block: u32,
    word: u8,
}

/// Who, entry, block, word; none where the pool hasn't them.
fn change_of(case: &Case, f: &[u64; 6]) -> Option<Change>
    ensures who { IfSome result (λ c. GeometryFits c.me.geometry × (c.me.who < c.me.geometry.clients)) }
    ensures blocks { IfSome result (λ c. (c.entry < address_limit) × (c.block < address_limit)) }
{
    let me = case.me(f[0])?;
    let entry = address(f[1])?;
    let block = address(f[2])?;
    let word = byte(f[3])?;
    Some(Change {
        me,
        entry,
        block,
        word,
    })
}

/// who
pub fn open_table(rt: &HostRuntime, case: &mut Case, f: &[u64; 6]) -> io::Result<()> {
    let Some(me) = case.me(f[0]) else {
        return refuse(rt);
    };
    go_calls(rt, Some(OpenTable::new(me)), case)
}

/// who, key, value block, directory, the first entry of the bucket
pub fn enter(rt: &HostRuntime, case: &mut Case, f: &[u64; 6]) -> io::Result<()> {
    let Some(e) = new_entry(case, f) else {
        return refuse(rt);
    };
    go_calls(
        rt,
        Some(Enter::new(e.me, e.key, e.value, e.home, e.first)),
        case,
    )
}

/// who, key, value block
pub fn put_root(rt: &HostRuntime, case: &mut Case, f: &[u64; 6]) -> io::Result<()> {
    let Some(e) = new_entry(case, f) else {
        return refuse(rt);
    };
    go(rt, Some(PutRoot::new(e.me, e.key, e.value)), case)
}

/// who, entry, value block
pub fn replace(rt: &HostRuntime, case: &mut Case, f: &[u64; 6]) -> io::Result<()> {
    let Some(change) = change_of(case, f) else {
        return refuse(rt);
    };
    go_calls(
        rt,
        Some(Replace::new(change.me, change.entry, change.block)),
        case,
    )
}

/// who, entry, the block before it, the number of its word that leads to the entry
pub fn unlink(rt: &HostRuntime, case: &mut Case, f: &[u64; 6]) -> io::Result<()> {
    let Some(c) = change_of(case, f) else {
        return refuse(rt);
    };
    go_calls(rt, Some(Unlink::new(c.me, c.entry, c.block, c.word)), case)
}
