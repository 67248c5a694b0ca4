//! The figures of a pool as aligned text.

ghost use Rattle.std.specs.Prelude.{◌≡◌, ◌++◌, length, map, slice_index, IfOk, OnOk};
ghost use Rattle.shm_view.specs.Tables.{cells_of, grid_of, names_of};
ghost use Rattle.shm_view.specs.Texts.{cell_text, column_width, figures_text, gap_before, grid_text, grids_text, line_of, lines_of, placed, width_in, widths_from};

use crate::cell::{Cell, Table, status_word};
use crate::stats::Stats;
use crate::tables::tables_of;
use shm_audit::verdict_text;
use shm_script::{push_number, push_text};
use std::alloc::{AllocError, Global};

/// The figures as tables with aligned columns, a blank line after each, and the line of the audit's verdict after the word `audit`.
#[tactic(auto, unfolding(crate::specs::Texts::figures_text))]
pub fn stats_text(alloc: Global, stats: &Stats) -> Result<Vec<u8>, AllocError>
    ensures { IfOk result (λ text. text.items ≡ figures_text stats.now) }
{
    let tables = tables_of(alloc, stats)?;
    let mut text = Vec::new(alloc);
    push_tables(alloc, &mut text, tables.as_slice())?;
    push_text(&mut text, "audit ")?;
    let verdict = verdict_text(alloc, &stats.verdict)?;
    text.extend_from_slice(verdict.as_slice())?;
    Ok(text)
}

// the lines of tables, with a blank line after each
fn push_tables(alloc: Global, text: &mut Vec<u8>, tables: &[Table]) -> Result<(), AllocError>
    ensures { OnOk result (text.new.items ≡ text.old.items ++ grids_text (map grid_of tables.now)) }
{
    for table in tables {
        push_table(alloc, text, table)?;
        push_text(text, "\n")?;
    }
    Ok(())
}

// the lines of a table
#[tactic(auto, unfolding(crate::specs::Texts::grid_text))]
fn push_table(alloc: Global, text: &mut Vec<u8>, table: &Table) -> Result<(), AllocError>
    ensures { OnOk result (text.new.items ≡ text.old.items ++ grid_text (grid_of table.now)) }
{
    let rows = table.rows.as_slice();
    let widths = widths_of(alloc, table.heads.as_slice(), rows)?;
    push_names(text, table.heads.as_slice(), widths.as_slice())?;
    push_rows(alloc, text, rows, widths.as_slice())
}

// how wide each column with these names is
fn widths_of(
    alloc: Global,
    names: &[&'static str],
    rows: &[Vec<Cell>],
) -> Result<Vec<usize>, AllocError>
    ensures { IfOk result (λ v. v.items ≡ widths_from (cells_of rows.now) 0 (names_of names.now)) }
{
    let mut widths = Vec::new(alloc);
    for (column, name) in names.iter().enumerate() {
        widths.push(width_of(alloc, rows, column, name.len())?)?;
    }
    Ok(widths)
}

// how wide a column is whose name is so wide
fn width_of(
    alloc: Global,
    rows: &[Vec<Cell>],
    column: usize,
    name: usize,
) -> Result<usize, AllocError>
    ensures { IfOk result (λ width. width ≡ column_width (cells_of rows.now) column name) }
{
    let mut width = name;
    for row in rows {
        width = width.max(width_in(alloc, column, row.as_slice())?);
    }
    Ok(width)
}

// how wide what stands in a column of a row is, and 0 where nothing does
fn width_in(alloc: Global, column: usize, row: &[Cell]) -> Result<usize, AllocError>
    ensures { IfOk result (λ width. width ≡ width_in column row.now) }
{
    match row.get(column) {
        Some(cell) => Ok(shown(alloc, *cell)?.len()),
        None => Ok(0),
    }
}

// the line of the names of columns
fn push_names(
    text: &mut Vec<u8>,
    names: &[&'static str],
    widths: &[usize],
) -> Result<(), AllocError>
    ensures { OnOk result (text.new.items ≡ text.old.items ++ line_of widths.now (names_of names.now)) }
{
    for (column, name) in names.iter().enumerate() {
        push_placed(text, column, width_at(widths, column), name.as_bytes())?;
    }
    push_text(text, "\n")
}

// the lines of rows
fn push_rows(
    alloc: Global,
    text: &mut Vec<u8>,
    rows: &[Vec<Cell>],
    widths: &[usize],
) -> Result<(), AllocError>
    ensures { OnOk result (text.new.items ≡ text.old.items ++ lines_of widths.now (cells_of rows.now)) }
{
    for row in rows {
        push_row(alloc, text, row.as_slice(), widths)?;
    }
    Ok(())
}

// the line of a row
fn push_row(
    alloc: Global,
    text: &mut Vec<u8>,
    row: &[Cell],
    widths: &[usize],
) -> Result<(), AllocError>
    ensures { OnOk result (text.new.items ≡ text.old.items ++ line_of widths.now (map cell_text row.now)) }
{
    for (column, cell) in row.iter().enumerate() {
        let shown = shown(alloc, *cell)?;
        push_placed(text, column, width_at(widths, column), shown.as_slice())?;
    }
    push_text(text, "\n")
}

// how wide a column is, and 0 where there is none
fn width_at(widths: &[usize], column: usize) -> usize
    ensures { result ≡ slice_index widths.now column }
{
    match widths.get(column) {
        Some(width) => *width,
        None => 0,
    }
}

// what parts a column from the one before it
fn push_gap(text: &mut Vec<u8>, column: usize) -> Result<(), AllocError>
    ensures { OnOk result (text.new.items ≡ text.old.items ++ gap_before column) }
{
    if column > 0 {
        push_text(text, "  ")
    } else {
        Ok(())
    }
}

// a text at the right of its column, with two blanks between columns
#[tactic(auto, unfolding(crate::specs::Texts::placed))]
fn push_placed(
    text: &mut Vec<u8>,
    column: usize,
    width: usize,
    shown: &[u8],
) -> Result<(), AllocError>
    ensures { OnOk result (text.new.items ≡ text.old.items ++ placed column width shown.now) }
{
    push_gap(text, column)?;
    for _blank in 0..width.saturating_sub(shown.len()) {
        text.push(b' ')?;
    }
    text.extend_from_slice(shown)
}

// what stands in a cell; nobody is `-`
fn shown(alloc: Global, cell: Cell) -> Result<Vec<u8>, AllocError>
    ensures { IfOk result (λ text. text.items ≡ cell_text cell) }
{
    let mut text = Vec::new(alloc);
    match cell {
        Cell::Number(number) => push_number(&mut text, number)?,
        Cell::Client(0) => push_text(&mut text, "-")?,
        Cell::Client(client) => push_number(&mut text, client - 1)?,
        Cell::Status(status) => push_text(&mut text, status_word(status))?,
    }
    Ok(text)
}
