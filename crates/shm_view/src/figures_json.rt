//! The figures of a pool as JSON.

ghost use Rattle.std.specs.{Prelude.{◌≡◌, [], ◌∷◌, ◌++◌, map, slice_index_or, Some, IfOk, OnOk}, List.flat_map};
ghost use Rattle.json.specs.{Json.document, Tree.json_tokens};
ghost use Rattle.shm_view.specs.FiguresJson.{cell_json, figures_json, grid_member, json_line, member_tokens, row_json, row_members, rows_json, verdict_member};
ghost use Rattle.shm_view.specs.Tables.{cells_of, grid_of, names_of};

use crate::cell::{Cell, Table, status_word};
use crate::stats::Stats;
use crate::tables::tables_of;
use json::Writer;
use shm_audit::{Verdict, verdict_text};
use std::alloc::{AllocError, Global};
use std::str::from_utf8;

/// The figures as one JSON object on a line: a list of objects for each table, one for a row, and the verdict of the audit as a string.
pub fn stats_json(alloc: Global, stats: &Stats) -> Result<Vec<u8>, AllocError>
    ensures text { IfOk result (λ text. text.items ≡ json_line (figures_json stats.now)) }
    ensures parses { IfOk result (λ text. document text.items ≡ Some (figures_json stats.now)) }
{
    let mut writer = Writer::new(Vec::new(alloc));
    push_figures(alloc, &mut writer, stats)?;
    let mut text = writer.into_inner();
    text.push(b'\n')?;
    Ok(text)
}

// the figures as an object
fn push_figures(alloc: Global, writer: &mut Writer, stats: &Stats) -> Result<(), AllocError>
    ensures before { writer.new.before ≡ writer.old.before }
    ensures tokens { OnOk result (writer.new.tokens ≡ writer.old.tokens ++ json_tokens (figures_json stats.now)) }
{
    let tables = tables_of(alloc, stats)?;
    writer.begin_object()?;
    push_tables(writer, tables.as_slice())?;
    push_verdict(alloc, writer, &stats.verdict)?;
    writer.end_object()?;
    Ok(())
}

// tables as members
fn push_tables(writer: &mut Writer, tables: &[Table]) -> Result<(), AllocError>
    ensures before { writer.new.before ≡ writer.old.before }
    ensures tokens { OnOk result (writer.new.tokens ≡ writer.old.tokens ++ flat_map member_tokens (map grid_member (map grid_of tables.now))) }
{
    for table in tables {
        push_table(writer, table)?;
    }
    Ok(())
}

// a table as a member
fn push_table(writer: &mut Writer, table: &Table) -> Result<(), AllocError>
    ensures before { writer.new.before ≡ writer.old.before }
    ensures tokens { OnOk result (writer.new.tokens ≡ writer.old.tokens ++ member_tokens (grid_member (grid_of table.now))) }
{
    writer.key(table.name)?;
    push_rows(writer, table.heads.as_slice(), table.rows.as_slice())
}

// the rows of a table as an array
fn push_rows(
    writer: &mut Writer,
    names: &[&'static str],
    rows: &[Vec<Cell>],
) -> Result<(), AllocError>
    ensures before { writer.new.before ≡ writer.old.before }
    ensures tokens { OnOk result (writer.new.tokens ≡ writer.old.tokens ++ json_tokens (rows_json (names_of names.now) (cells_of rows.now))) }
{
    writer.begin_array()?;
    push_items(writer, names, rows)?;
    writer.end_array()?;
    Ok(())
}

// rows as the items of an array
fn push_items(
    writer: &mut Writer,
    names: &[&'static str],
    rows: &[Vec<Cell>],
) -> Result<(), AllocError>
    ensures before { writer.new.before ≡ writer.old.before }
    ensures tokens { OnOk result (writer.new.tokens ≡ writer.old.tokens ++ flat_map json_tokens (map (row_json (names_of names.now)) (cells_of rows.now))) }
{
    for row in rows {
        push_row(writer, names, row.as_slice())?;
    }
    Ok(())
}

// a row as an object
fn push_row(writer: &mut Writer, names: &[&'static str], row: &[Cell]) -> Result<(), AllocError>
    ensures before { writer.new.before ≡ writer.old.before }
    ensures tokens { OnOk result (writer.new.tokens ≡ writer.old.tokens ++ json_tokens (row_json (names_of names.now) row.now)) }
{
    writer.begin_object()?;
    push_members(writer, names, row)?;
    writer.end_object()?;
    Ok(())
}

// the cells of a row as the members of an object
fn push_members(writer: &mut Writer, names: &[&'static str], row: &[Cell]) -> Result<(), AllocError>
    ensures before { writer.new.before ≡ writer.old.before }
    ensures tokens { OnOk result (writer.new.tokens ≡ writer.old.tokens ++ flat_map member_tokens (row_members (names_of names.now) 0 row.now)) }
{
    for (column, cell) in row.iter().enumerate() {
        writer.key(name_at(names, column))?;
        push_cell(writer, *cell)?;
    }
    Ok(())
}

// the name of a column, and no letter where it has none
fn name_at(names: &[&'static str], column: usize) -> &'static str
    ensures { result.now ≡ slice_index_or (names_of names.now) column [] }
{
    match names.get(column) {
        Some(name) => *name,
        None => "",
    }
}

// what stands in a cell; nobody is `null`
fn push_cell(writer: &mut Writer, cell: Cell) -> Result<(), AllocError>
    ensures before { writer.new.before ≡ writer.old.before }
    ensures tokens { OnOk result (writer.new.tokens ≡ writer.old.tokens ++ json_tokens (cell_json cell)) }
{
    match cell {
        Cell::Number(number) => writer.u64(number),
        Cell::Client(0) => writer.null(),
        Cell::Client(client) => writer.u64(client - 1),
        Cell::Status(status) => writer.string(status_word(status)),
    }
}

// the verdict of the audit as a member
fn push_verdict(alloc: Global, writer: &mut Writer, verdict: &Verdict) -> Result<(), AllocError>
    ensures before { writer.new.before ≡ writer.old.before }
    ensures tokens { OnOk result (writer.new.tokens ≡ writer.old.tokens ++ member_tokens (verdict_member verdict.now)) }
{
    let mut line = verdict_text(alloc, verdict)?;
    let _end = line.pop();
    writer.key("audit")?;
    match from_utf8(line.as_slice()) {
        Ok(words) => writer.string(words),
        Err(_) => unreachable!(),
    }
}
