//! The report and the summary of a closed pool.

ghost use Rattle.std.specs.Prelude.{◌≡◌, ◌++◌, ◌∷◌, [], length, codes, eqb, true, IfOk, OnOk};
ghost use Rattle.std.specs.{List.{flat_map, list_any, AllWithin}, Fmt.decimal};
ghost use Rattle.shm_words.specs.Layout.{GeometryFits};
ghost use Rattle.shm_graph.specs.{Spots.see, Blocks.headers};
ghost use Rattle.shm_report.specs.PoolWords.{IsCleanPool};
ghost use Rattle.shm_report.specs.Report.{IsReport, IsSummary, counts_lines, counts_text, row_line, rows_text, table_line, value_lines};
ghost use Rattle.shm_report.specs.{TableRows.rows_seen, ValueNames.IsNumbered};

use crate::counts::Counts;
use crate::logs::{push_clients, push_logs};
use crate::pool_words::{header_at, homes_in_all};
use crate::table_rows::{TableRow, table_rows};
use crate::value_names::ValueNames;
use shm_script::{Log, push_number, push_text};
use shm_words::Geometry;
use std::alloc::{AllocError, Global};

/// The report of these logs and of the pool that was left: the logs in order, the rows of its table, the value blocks, and how much
/// it holds.
///
/// Its memory is linear in the words and the logs.
pub fn report(
    alloc: Global,
    geometry: Geometry,
    words: &[u64],
    logs: &[Log],
) -> Result<Vec<u8>, AllocError>
    requires { GeometryFits geometry }
    ensures { IfOk result (λ v. IsReport geometry words.now logs.now v.items) }
{
    let rows = table_rows(alloc, geometry, words)?;
    let mut text = Vec::new(alloc);
    push_logs(&mut text, logs)?;
    push_table(&mut text, geometry, words, rows.as_slice())?;
    Ok(text)
}

/// The summary of these logs and of the pool that was left: the report without the lines of commands, of rows and of value blocks.
pub fn summary(
    alloc: Global,
    geometry: Geometry,
    words: &[u64],
    logs: &[Log],
) -> Result<Vec<u8>, AllocError>
    requires { GeometryFits geometry }
    ensures { IfOk result (λ v. IsSummary geometry words.now logs.now v.items) }
{
    let rows = table_rows(alloc, geometry, words)?;
    let mut text = Vec::new(alloc);
    push_clients(&mut text, logs)?;
    push_size(&mut text, rows.as_slice())?;
    push_counts(&mut text, geometry, words)?;
    Ok(text)
}

// appends how many rows there are
fn push_size(text: &mut Vec<u8>, rows: &[TableRow]) -> Result<(), AllocError>
    ensures { OnOk result (text.new.items ≡ text.old.items ++ table_line (rows_seen rows.now)) }
{
    push_text(text, "table ")?;
    push_number(text, rows.len() as u64)?;
    push_text(text, "\n")
}

// appends what the pool holds, with these rows
fn push_table(
    text: &mut Vec<u8>,
    geometry: Geometry,
    words: &[u64],
    rows: &[TableRow],
) -> Result<(), AllocError>
    requires { GeometryFits geometry }
    ensures { OnOk result (IsCleanPool geometry words.now → text.new.items ≡ text.old.items ++ rows_text geometry (see geometry words.now) (rows_seen rows.now)) }
{
    let names = ValueNames::of_rows(*text.allocator(), rows)?;
    push_size(text, rows)?;
    push_rows(text, &names, rows)?;
    push_values(text, geometry, words, names.blocks())?;
    push_counts(text, geometry, words)
}

// appends a line for each row
fn push_rows(text: &mut Vec<u8>, names: &ValueNames, rows: &[TableRow]) -> Result<(), AllocError>
    requires numbered { IsNumbered names.now }
    requires named { AllWithin (λ r. list_any (eqb r.value) names.now.blocks.items ≡ true) rows.now 0 (length rows.now) }
    ensures { OnOk result (text.new.items ≡ text.old.items ++ flat_map (row_line names.now.blocks.items) (rows_seen rows.now)) }
{
    for row in rows {
        push_row(text, *row, names.number(row.value))?;
    }
    Ok(())
}

// appends a row's line, in which its value has this number
fn push_row(text: &mut Vec<u8>, row: TableRow, number: usize) -> Result<(), AllocError>
    ensures { OnOk result (text.new.items ≡ text.old.items ++ (decimal row.client ++ codes " " ++ decimal row.key ++ codes " " ++ decimal row.number ++ codes " v" ++ decimal number ++ 10 ∷ [])) }
{
    push_number(text, u64::from(row.client))?;
    push_text(text, " ")?;
    push_number(text, u64::from(row.key))?;
    push_text(text, " ")?;
    push_number(text, row.number)?;
    push_text(text, " v")?;
    push_number(text, number as u64)?;
    push_text(text, "\n")
}

// appends a line for each value block, in the order of their numbers
fn push_values(
    text: &mut Vec<u8>,
    geometry: Geometry,
    words: &[u64],
    blocks: &[u32],
) -> Result<(), AllocError>
    requires { GeometryFits geometry }
    ensures { OnOk result (text.new.items ≡ text.old.items ++ value_lines (λ v. (headers (see geometry words.now) v).count) 1 blocks.now) }
{
    for (i, block) in blocks.iter().enumerate() {
        push_text(text, "value v")?;
        push_number(text, i as u64 + 1)?;
        push_text(text, " ")?;
        push_number(text, u64::from(header_at(geometry, words, *block).count))?;
        push_text(text, "\n")?;
    }
    Ok(())
}

// appends how many homes are set, how many blocks are live, and how many words name one
fn push_counts(text: &mut Vec<u8>, geometry: Geometry, words: &[u64]) -> Result<(), AllocError>
    requires { GeometryFits geometry }
    ensures { OnOk result (IsCleanPool geometry words.now → text.new.items ≡ text.old.items ++ counts_text geometry (see geometry words.now)) }
{
    let homes = homes_in_all(geometry, words);
    let counts = Counts::of(geometry, words);
    push_numbers(text, homes, counts.live, counts.refs)?;
    Ok(())
}

// appends these counts
fn push_numbers(text: &mut Vec<u8>, homes: u32, live: u32, refs: u32) -> Result<(), AllocError>
    ensures { OnOk result (text.new.items ≡ text.old.items ++ counts_lines homes live refs) }
{
    push_text(text, "homes ")?;
    push_number(text, u64::from(homes))?;
    push_text(text, "\nlive ")?;
    push_number(text, u64::from(live))?;
    push_text(text, " refs ")?;
    push_number(text, u64::from(refs))?;
    push_text(text, "\n")
}
