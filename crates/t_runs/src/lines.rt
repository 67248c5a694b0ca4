//! Commands of a row: their lines in a script, by a name and numbers.

ghost use Rattle.std.specs.Prelude.{◌≡◌, true};
ghost use Rattle.shm_table.specs.Command.{LineMayStand};

use crate::args::byte;
use shm_graph::Me;
use shm_script::Line;

/// A key.
pub fn key(number: u64) -> Option<u32> {
    u32::try_from(number).ok()
}

/// The line of a copy: the key, whose table has the value, and its key there.
fn copy_line([own, author, other]: [u64; 3]) -> Option<Line> {
    Some(Line::Copy {
        key: key(own)?,
        author: byte(author)?,
        other: key(other)?,
    })
}

/// The line of a command of the own table: the key, and the number that a put has.
fn own_line(name: &str, [own, number, _]: [u64; 3]) -> Option<Line> {
    let key = key(own)?;
    match name {
        "put" => Some(Line::Put { key, number }),
        "del" => Some(Line::Del { key }),
        _ => None,
    }
}

/// The line of a command that names a client first and then a key.
fn passing_line(name: &str, [client, own, _]: [u64; 3]) -> Option<Line> {
    let client = byte(client)?;
    let key = key(own)?;
    match name {
        "get" => Some(Line::Get {
            author: client,
            key,
        }),
        "send" => Some(Line::Send { to: client, key }),
        "recv" => Some(Line::Recv { from: client, key }),
        _ => None,
    }
}

/// The line of a command, by its name and the numbers that it has in a script; none where there is no such command.
pub fn line_of(name: &str, numbers: [u64; 3]) -> Option<Line> {
    match name {
        "put" | "del" => own_line(name, numbers),
        "copy" => copy_line(numbers),
        _ => passing_line(name, numbers),
    }
}

/// Whether the line may stand in the script of this identity: its numbers of identities are of the pool, and another identity's where it sends
/// or receives.
pub fn may_stand(me: Me, line: Line) -> bool
    ensures { result ≡ true → LineMayStand me line }
{
    let clients = me.geometry.clients();
    match line {
        Line::Put { .. } | Line::Del { .. } => true,
        Line::Get { author, .. } | Line::Copy { author, .. } => author < clients,
        Line::Send { to, .. } => to < clients && me.who != to,
        Line::Recv { from, .. } => from < clients && from != me.who,
    }
}
