//! The rows of the table in a closed pool.

ghost use Rattle.std.specs.Prelude.{◌≡◌, ◌<◌, ◌++◌, List, map, IfOk, OnOk};
ghost use Rattle.shm_words.specs.Layout.{GeometryFits};
ghost use Rattle.shm_graph.specs.{declared.{spot.Spot.Spot as ASpot, table.Entry.Entry}, Spots.see};
ghost use Rattle.shm_report.specs.PoolWords.{IsCleanPool};
ghost use Rattle.shm_report.specs.Report.{entries_below, add_entries, in_order, row_of, rows_below};
ghost use Rattle.shm_report.specs.TableRows.{IsEntryAt, ReadsEntry, IsChainAt, EachTable, rows_seen};

use crate::pool_words::{small_behind, word_behind};
use shm_words::Geometry;
use std::alloc::{AllocError, Global};
use std::collections::BTreeMap;

/// A row of the table: what a client put last at a key, and the block of that value.
#[derive(Clone, Copy, Debug, PartialEq, Eq, Drop)]
pub struct TableRow {
    pub client: u8,
    pub key: u32,
    pub number: u64,
    /// The address of the value block.
    pub value: u32,
}

// an entry of a chain, and the block of the entry after it or 0
#[derive(Clone, Copy, Drop)]
struct ChainEntry {
    next: u32,
    key: u32,
    number: u64,
    value: u32,
}

// the entry that has its block at an address
fn entry_at(geometry: Geometry, words: &[u64], at: u32) -> ChainEntry
    ensures { (e : Entry) → IsCleanPool geometry words.now → IsEntryAt geometry words.now at e → ReadsEntry geometry words.now result e }
{
    let value = small_behind(words, at, 3);
    ChainEntry {
        next: small_behind(words, at, 2),
        key: small_behind(words, at, 4),
        number: word_behind(words, value, 2),
        value,
    }
}

// adds the entries of the chain that begins at an address
fn add_chain(
    geometry: Geometry,
    words: &[u64],
    first: u32,
    entries: &mut BTreeMap<u32, (u64, u32)>,
) -> Result<(), AllocError>
    ensures { OnOk result ((es : List Entry) → IsCleanPool geometry words.now → IsChainAt geometry words.now first es → entries.new.entries ≡ add_entries entries.old.entries es) }
{
    let mut at = first;
    for _ in 0..words.len() {
        if at == 0 {
            break;
        }
        let entry = entry_at(geometry, words, at);
        entries.insert(entry.key, (entry.number, entry.value))?;
        at = entry.next;
    }
    Ok(())
}

// the entries of a client's partition by key
fn partition(
    alloc: Global,
    geometry: Geometry,
    words: &[u64],
    c: u8,
) -> Result<BTreeMap<u32, (u64, u32)>, AllocError>
    requires fits { GeometryFits geometry }
    requires client { c < geometry.clients }
    ensures { IfOk result (λ m. EachTable geometry words.now (λ table. m.entries ≡ in_order (table c))) }
{
    let mut entries = BTreeMap::new(alloc);
    let home = small_behind(words, geometry.home(c), 0);
    if home != 0 {
        add_buckets(geometry, words, c, home, &mut entries)?;
    }
    Ok(entries)
}

// adds the entries of the buckets of the directory that a client's home names
fn add_buckets(
    geometry: Geometry,
    words: &[u64],
    c: u8,
    home: u32,
    entries: &mut BTreeMap<u32, (u64, u32)>,
) -> Result<(), AllocError>
    requires { c < geometry.clients }
    ensures { OnOk result (see geometry words.now (ASpot.Home c) ≡ home → 0 < home → EachTable geometry words.now (λ table. entries.new.entries ≡ add_entries entries.old.entries (entries_below 16 (table c)))) }
{
    for bucket in 0..16 {
        add_chain(
            geometry,
            words,
            small_behind(words, home, 2 + bucket),
            entries,
        )?;
    }
    Ok(())
}

// appends the rows of a client
fn push_rows(
    rows: &mut Vec<TableRow>,
    geometry: Geometry,
    words: &[u64],
    c: u8,
) -> Result<(), AllocError>
    requires fits { GeometryFits geometry }
    requires client { c < geometry.clients }
    ensures { OnOk result (EachTable geometry words.now (λ table. rows_seen rows.new.items ≡ rows_seen rows.old.items ++ map (row_of c) (in_order (table c)))) }
{
    let entries = partition(*rows.allocator(), geometry, words, c)?;
    for (key, (number, value)) in entries {
        rows.push(TableRow {
            client: c,
            key,
            number,
            value,
        })?;
    }
    Ok(())
}

/// The rows of the table, by client and then by key.
pub fn table_rows(
    alloc: Global,
    geometry: Geometry,
    words: &[u64],
) -> Result<Vec<TableRow>, AllocError>
    requires { GeometryFits geometry }
    ensures { IfOk result (λ v. EachTable geometry words.now (λ table. rows_seen v.items ≡ rows_below geometry.clients table)) }
{
    let mut rows = Vec::new(alloc);
    for c in 0..geometry.clients() {
        push_rows(&mut rows, geometry, words, c)?;
    }
    Ok(rows)
}
