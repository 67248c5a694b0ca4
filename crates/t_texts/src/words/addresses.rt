//! The addresses of a pool's words, and what the word at an address is for.
//!
//! The first two numbers of a row are the clients and the segments of the pool.

use crate::words::numbers::below;
use crate::words::pools::pool;
use shm_words::Place;

/// What the word at an address is for.
pub fn place(wide: bool, f: [u64; 6]) -> Option<Place> {
    let at = u32::try_from(f[2]).ok()?;
    pool(wide, f)?.place(at)
}

/// The status, redo record, hold word, latch and home of a client.
pub fn client(wide: bool, f: [u64; 6]) -> Option<[u32; 5]> {
    let pool = pool(wide, f)?;
    let c = below(f[2], pool.clients())?;
    Some([
        pool.status(c),
        pool.redo(c),
        pool.hold(c),
        pool.latch(c),
        pool.home(c),
    ])
}

/// The second word of the redo record of a client, in format 2.
pub fn redo_more(wide: bool, f: [u64; 6]) -> Option<u32> {
    let pool = pool(wide, f)?;
    let c = below(f[2], pool.clients())?;
    if pool.is_wide() {
        Some(pool.redo_more(c))
    } else {
        None
    }
}

/// A root of a client.
pub fn root(wide: bool, f: [u64; 6]) -> Option<u32> {
    let pool = pool(wide, f)?;
    let c = below(f[2], pool.clients())?;
    Some(pool.root(c, below(f[3], 16)?))
}

/// The era, tail, head and a slot of a pair.
pub fn pair(wide: bool, f: [u64; 6]) -> Option<[u32; 4]> {
    let pool = pool(wide, f)?;
    let s = below(f[2], pool.clients())?;
    let r = below(f[3], pool.clients())?;
    let k = below(f[4], 8)?;
    Some([
        pool.era(s, r),
        pool.tail(s, r),
        pool.head(s, r),
        pool.slot(s, r, k),
    ])
}

/// The owner of a segment, and the class and the body of a page of it.
pub fn page(wide: bool, f: [u64; 6]) -> Option<[u32; 3]> {
    let pool = pool(wide, f)?;
    let g = u16::try_from(f[2]).ok()?;
    let p = below(f[3], 16)?;
    if g >= pool.segments() {
        return None;
    }
    Some([pool.segment(g), pool.page(g, p), pool.body(g, p)])
}
