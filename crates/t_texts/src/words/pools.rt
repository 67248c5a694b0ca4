//! Pools: their sizes and their first words.

ghost use Rattle.std.specs.Prelude.{◌≡◌, IfOk, IfSome};
ghost use Rattle.shm_words.specs.Layout.{GeometryFits};
ghost use Rattle.shm_graph.specs.Runs.{EraFits};

use shm_graph::{Start, first_words};
use shm_words::{BadGeometry, Geometry};
use std::alloc::{AllocError, Global};
use std::io;

/// A pool of so many clients and segments, of format 2 or of format 1.
fn made(wide: bool, clients: u8, segments: u16) -> Result<Geometry, BadGeometry>
    ensures fits { IfOk result (λ g. GeometryFits g) }
    ensures format { IfOk result (λ g. g.wide ≡ wide) }
{
    if wide {
        Geometry::wide(clients, segments)
    } else {
        Geometry::new(clients, segments)
    }
}

/// The sizes of a pool, or which are refused.
pub fn sizes(wide: bool, f: [u64; 6]) -> Option<Result<Geometry, BadGeometry>> {
    let clients = u8::try_from(f[0]).ok()?;
    let segments = u16::try_from(f[1]).ok()?;
    Some(made(wide, clients, segments))
}

/// A pool of so many clients and segments.
pub fn pool(wide: bool, f: [u64; 6]) -> Option<Geometry>
    ensures fits { IfSome result GeometryFits }
    ensures format { IfSome result (λ g. g.wide ≡ wide) }
{
    let clients = u8::try_from(f[0]).ok()?;
    let segments = u16::try_from(f[1]).ok()?;
    made(wide, clients, segments).ok()
}

/// How many clients, segments and words a pool has, and its format.
pub fn total(wide: bool, f: [u64; 6]) -> Option<(u8, u16, u32, u8)> {
    let pool = pool(wide, f)?;
    Some((pool.clients(), pool.segments(), pool.total(), pool.format()))
}

/// How a pool begins: clients, segments, the first era.
fn start(wide: bool, f: [u64; 6]) -> Option<Start>
    ensures { IfSome result (λ s. GeometryFits s.geometry × EraFits s.first_era) }
{
    let geometry = pool(wide, f)?;
    let first_era = f[2];
    if first_era == 0 || first_era >= (1 << 47) - 1 {
        return None;
    }
    Some(Start {
        geometry,
        first_era,
        tables: false,
    })
}

/// The addresses and words that are not 0.
fn set_words(alloc: Global, words: &[u64]) -> Result<Vec<(usize, u64)>, AllocError> {
    let mut set = Vec::new(alloc);
    for (at, word) in words.iter().enumerate() {
        if *word != 0 {
            set.push((at, *word))?;
        }
    }
    Ok(set)
}

/// Tells how many first words a pool has, and the addresses and words of those that are not 0.
pub fn tell_first(rt: &HostRuntime, wide: bool, f: [u64; 6]) -> io::Result<()> {
    match start(wide, f) {
        Some(start) => {
            let words = first_words(rt.alloc(), start)?;
            let set = set_words(rt.alloc(), words.as_slice())?;
            println!(rt; "{} {:?}", words.len(), set)
        }
        None => println!(rt; "None"),
    }
}
