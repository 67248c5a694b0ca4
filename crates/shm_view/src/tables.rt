//! The figures of a pool as tables.

ghost use Rattle.std.specs.Prelude.{◌≡◌, ◌∷◌, [], ◌++◌, map, IfOk, OnOk};
ghost use Rattle.shm_view.specs.Tables.{Grid, cells_of, class_row, classes_grid, count_rows, counts_grid, grid_of, grids_of, identities_grid, identity_row, names_of, owner_rows, owners_grid, pool_grid, pool_row};

use crate::cell::{Cell, Table};
use crate::census::Census;
use crate::histogram::Histogram;
use crate::identity::Identity;
use crate::stats::Stats;
use shm_words::Geometry;
use std::alloc::{AllocError, Global};

/// All tables of a pool, in order.
pub fn tables_of(alloc: Global, stats: &Stats) -> Result<Vec<Table>, AllocError>
    ensures { IfOk result (λ v. map grid_of v.items ≡ grids_of stats.now) }
{
    let mut tables = Vec::new(alloc);
    let pool = pool_table(alloc, stats)?;
    tables.push(pool)?;
    let owners = owners_table(alloc, stats.geometry, &stats.census.owners)?;
    tables.push(owners)?;
    let classes = classes_table(alloc, &stats.census)?;
    tables.push(classes)?;
    let counts = counts_table(alloc, &stats.census.counts)?;
    tables.push(counts)?;
    let identities = identities_table(alloc, stats.identities.as_slice())?;
    tables.push(identities)?;
    Ok(tables)
}

// the table with these names of columns and these rows
fn table(
    alloc: Global,
    name: &'static str,
    heads: &[&'static str],
    rows: Vec<Vec<Cell>>,
) -> Result<Table, AllocError>
    ensures { IfOk result (λ t. grid_of t ≡ record { name = name.now; heads = names_of heads.now; rows = cells_of rows.items }) }
{
    let mut all = Vec::new(alloc);
    for head in heads {
        all.push(*head)?;
    }
    Ok(Table {
        name,
        heads: all,
        rows,
    })
}

// adds a row
fn push_row(alloc: Global, rows: &mut Vec<Vec<Cell>>, cells: &[Cell]) -> Result<(), AllocError>
    ensures { OnOk result (cells_of rows.new.items ≡ cells_of rows.old.items ++ cells.now ∷ []) }
{
    rows.push(cells.to_vec(alloc)?)?;
    Ok(())
}

// the format and the sizes
fn pool_table(alloc: Global, stats: &Stats) -> Result<Table, AllocError>
    ensures { IfOk result (λ t. grid_of t ≡ pool_grid stats.now) }
{
    let mut rows = Vec::new(alloc);
    push_row(alloc, &mut rows, &pool_cells(stats))?;
    let heads = ["format", "clients", "segments", "words"];
    table(alloc, "pool", &heads, rows)
}

// the row of the format and the sizes
fn pool_cells(stats: &Stats) -> [Cell; 4]
    ensures { result ≡ pool_row stats.now }
{
    [
        Cell::Number(u64::from(stats.geometry.format())),
        Cell::Number(u64::from(stats.geometry.clients())),
        Cell::Number(u64::from(stats.geometry.segments())),
        Cell::Number(u64::from(stats.words)),
    ]
}

// how many segments are nobody's and each client's
fn owners_table(alloc: Global, geometry: Geometry, owners: &Histogram) -> Result<Table, AllocError>
    ensures { IfOk result (λ t. grid_of t ≡ owners_grid geometry owners.now) }
{
    let mut rows = Vec::new(alloc);
    for owner in 0..u64::from(geometry.clients()) + 1 {
        push_owner(alloc, &mut rows, owners, owner)?;
    }
    table(alloc, "segments", &["owner", "segments"], rows)
}

// adds the row of an owner, by its number and one
fn push_owner(
    alloc: Global,
    rows: &mut Vec<Vec<Cell>>,
    owners: &Histogram,
    owner: u64,
) -> Result<(), AllocError>
    ensures { OnOk result (cells_of rows.new.items ≡ cells_of rows.old.items ++ owner_rows owners.now owner) }
{
    let segments = owners.of(owner);
    let cells = [Cell::Client(owner), Cell::Number(u64::from(segments))];
    push_row(alloc, rows, &cells)
}

// the pages and the blocks of each class
fn classes_table(alloc: Global, census: &Census) -> Result<Table, AllocError>
    ensures { IfOk result (λ t. grid_of t ≡ classes_grid census.now) }
{
    let mut rows = Vec::new(alloc);
    for class in [0, 4, 8, 16, 32] {
        push_row(alloc, &mut rows, &class_cells(census, class))?;
    }
    table(alloc, "classes", &["class", "pages", "live", "free"], rows)
}

// the row of a class
fn class_cells(census: &Census, class: u64) -> [Cell; 4]
    ensures { result ≡ class_row census.now class }
{
    [
        Cell::Number(class),
        Cell::Number(u64::from(census.pages.of(class))),
        Cell::Number(u64::from(census.live.of(class))),
        Cell::Number(u64::from(census.free.of(class))),
    ]
}

// how many live blocks have each count, where any has
fn counts_table(alloc: Global, counts: &Histogram) -> Result<Table, AllocError>
    ensures { IfOk result (λ t. grid_of t ≡ counts_grid counts.now) }
{
    let mut rows = Vec::new(alloc);
    for count in 0..1024 {
        push_count(alloc, &mut rows, counts, count)?;
    }
    table(alloc, "counts", &["count", "blocks"], rows)
}

// adds the row of a count, where a live block has it
fn push_count(
    alloc: Global,
    rows: &mut Vec<Vec<Cell>>,
    counts: &Histogram,
    count: u64,
) -> Result<(), AllocError>
    ensures { OnOk result (cells_of rows.new.items ≡ cells_of rows.old.items ++ count_rows counts.now count) }
{
    let blocks = counts.of(count);
    if blocks == 0 {
        return Ok(());
    }
    let cells = [Cell::Number(count), Cell::Number(u64::from(blocks))];
    push_row(alloc, rows, &cells)
}

// what is said of each identity
fn identities_table(alloc: Global, identities: &[Identity]) -> Result<Table, AllocError>
    ensures { IfOk result (λ t. grid_of t ≡ identities_grid identities.now) }
{
    let mut rows = Vec::new(alloc);
    for (number, identity) in identities.iter().enumerate() {
        push_identity(alloc, &mut rows, number, identity)?;
    }
    let heads = [
        "client", "status", "holds", "holder", "home", "roots", "waiting", "keys", "longest",
    ];
    table(alloc, "clients", &heads, rows)
}

// adds the row of an identity
fn push_identity(
    alloc: Global,
    rows: &mut Vec<Vec<Cell>>,
    number: usize,
    identity: &Identity,
) -> Result<(), AllocError>
    ensures { OnOk result (cells_of rows.new.items ≡ cells_of rows.old.items ++ identity_row number identity.now ∷ []) }
{
    push_row(alloc, rows, &identity_cells(number as u64, identity))?;
    Ok(())
}

// the row of an identity
fn identity_cells(number: u64, identity: &Identity) -> [Cell; 9]
    ensures { result ≡ identity_row number identity.now }
{
    [
        Cell::Number(number),
        Cell::Status(identity.status),
        Cell::Client(identity.hold),
        Cell::Client(identity.latch),
        Cell::Number(identity.home),
        Cell::Number(u64::from(identity.roots)),
        Cell::Number(u64::from(identity.waiting)),
        Cell::Number(u64::from(identity.keys)),
        Cell::Number(u64::from(identity.longest)),
    ]
}
