//! Tables of figures.

ghost use Rattle.std.specs.Prelude.{◌≡◌};
ghost use Rattle.shm_view.specs.Tables.{status_word};

/// What stands in a cell of a table.
#[derive(Clone, Copy, Drop)]
pub enum Cell {
    /// A number.
    Number(u64),
    /// A client by its number and one; 0 is nobody.
    Client(u64),
    /// The status of a client: 0 new, 1 live, 2 dead, 3 gone.
    Status(u64),
}

/// Rows of figures below their names.
#[derive(Drop)]
pub struct Table {
    pub name: &'static str,
    pub heads: Vec<&'static str>,
    pub rows: Vec<Vec<Cell>>,
}

/// The word for a status, `unknown` where there is none.
pub fn status_word(status: u64) -> &'static str
    ensures { result.now ≡ status_word status }
{
    match status {
        0 => "new",
        1 => "live",
        2 => "dead",
        3 => "gone",
        _ => "unknown",
    }
}
