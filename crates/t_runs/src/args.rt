//! The numbers of a row.

ghost use Rattle.std.specs.Prelude.{◌≡◌, ◌<◌, IfSome};
ghost use Rattle.shm_words.specs.Layout.{GeometryFits, address_limit};

use shm_graph::Me;
use shm_words::{ADDRESS_LIMIT, Geometry};

/// A number, 0 where the word is none.
pub fn number(word: &str) -> u64 {
    word.parse().unwrap_or(0)
}

/// The first six numbers of a text, 0 where there are fewer.
pub fn numbers(text: &str) -> [u64; 6] {
    let mut found = [0; 6];
    let mut words = text.split_whitespace();
    for place in &mut found {
        if let Some(word) = words.next() {
            *place = number(word);
        }
    }
    found
}

/// A number that is below a limit.
pub fn below(number: u64, limit: u64) -> Option<u64>
    ensures { IfSome result (λ n. n < limit) }
{
    if number < limit { Some(number) } else { None }
}

/// The address of a word or a block.
pub fn address(number: u64) -> Option<u32>
    ensures { IfSome result (λ n. n < address_limit) }
{
    Some(below(number, u64::from(ADDRESS_LIMIT))? as u32)
}

/// The sizes of a pool of format 2, if it is to be wide, or of format 1; none where there is no such pool.
pub fn geometry(wide: bool, clients: u64, segments: u64) -> Option<Geometry>
    ensures fits { IfSome result GeometryFits }
    ensures sizes { IfSome result (λ g. g.clients ≡ clients) }
{
    let clients = u8::try_from(clients).ok()?;
    let segments = u16::try_from(segments).ok()?;
    if wide {
        Geometry::wide(clients, segments).ok()
    } else {
        Geometry::new(clients, segments).ok()
    }
}

/// The number of a root, of which an identity has 16.
pub fn root(number: u64) -> Option<u8>
    ensures { IfSome result (λ n. n < 16) }
{
    Some(below(number, 16)? as u8)
}

/// A number of a byte.
pub fn byte(number: u64) -> Option<u8> {
    u8::try_from(number).ok()
}

/// An identity of the same pool.
pub fn client(me: Me, number: u64) -> Option<u8>
    ensures { IfSome result (λ n. n < me.geometry.clients) }
{
    Some(below(number, u64::from(me.geometry.clients()))? as u8)
}
