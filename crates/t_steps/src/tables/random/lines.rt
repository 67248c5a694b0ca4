//! The lines of a drawn script, for a pool of fewer clients and for fewer keys.

ghost use Rattle.std.specs.Prelude.{◌≢◌, ◌<◌, IfSome};
ghost use Rattle.shm_words.specs.Layout.{GeometryFits};
ghost use Rattle.shm_table.specs.Command.{LineMayStand};

use shm_graph::Me;
use shm_script::Line;

/// How many keys there are.
const KEYS: u32 = 3;

/// Another client of the pool, by a number that was drawn; none where there is no other one.
fn other(me: Me, drawn: u8) -> Option<u8>
    requires geometry { GeometryFits me.geometry }
    requires who { me.who < me.geometry.clients }
    ensures { IfSome result (λ i. (i < me.geometry.clients) × (me.who ≢ i)) }
{
    let clients = me.geometry.clients();
    if clients < 2 {
        return None;
    }
    let other = (me.who + 1 + drawn % (clients - 1)) % clients;
    if other == me.who { None } else { Some(other) }
}

/// A drawn line in this pool, for one of its clients; none where it needs another client and there is none.
pub fn line_for(me: Me, line: Line) -> Option<Line>
    requires geometry { GeometryFits me.geometry }
    requires who { me.who < me.geometry.clients }
    ensures { IfSome result (λ l. LineMayStand me l) }
{
    let clients = me.geometry.clients();
    match line {
        Line::Put { key, number } => Some(Line::Put {
            key: key % KEYS,
            number,
        }),
        Line::Del { key } => Some(Line::Del { key: key % KEYS }),
        Line::Get { author, key } => Some(Line::Get {
            author: author % clients,
            key: key % KEYS,
        }),
        Line::Copy { key, author, other } => Some(Line::Copy {
            key: key % KEYS,
            author: author % clients,
            other: other % KEYS,
        }),
        Line::Send { to, key } => match other(me, to) {
            Some(to) => Some(Line::Send {
                to,
                key: key % KEYS,
            }),
            None => None,
        },
        Line::Recv { from, key } => match other(me, from) {
            Some(from) => Some(Line::Recv {
                from,
                key: key % KEYS,
            }),
            None => None,
        },
    }
}
