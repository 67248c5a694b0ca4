//! How many segments, pages and blocks of each kind a pool has.

ghost use Rattle.std.specs.Prelude.{◌≡◌, ◌*◌, length, IfOk};
ghost use Rattle.shm_words.specs.Layout.{GeometryFits, total_of};
ghost use Rattle.shm_audit.specs.Images.{numbers};
ghost use Rattle.shm_view.specs.{Figures.{IsCensus, IsWhole}, Sums.AreSums};
ghost use Rattle.shm_view.specs.Kinds.{count_kind, free_kind, live_kind, owner_kind, page_kind};

use crate::histogram::Histogram;
use crate::looks::{count_kind, free_kind, live_kind, owner_kind, page_kind};
use shm_words::Geometry;
use std::alloc::{AllocError, Global};

/// How many segments, pages and blocks of each kind a pool has.
#[derive(Drop)]
pub struct Census {
    /// The segments by their owner's number and one; those of nobody are of kind 0.
    pub owners: Histogram,
    /// The pages by their class.
    pub pages: Histogram,
    /// The live blocks by their class.
    pub live: Histogram,
    /// The free blocks by their class.
    pub free: Histogram,
    /// The live blocks by their count.
    pub counts: Histogram,
}

/// How many segments, pages and blocks of each kind the words of a pool show.
pub fn take_census(
    alloc: Global,
    geometry: Geometry,
    words: &[[u8; 8]],
) -> Result<Census, AllocError>
    requires fits { GeometryFits geometry }
    requires whole { length words.now ≡ total_of geometry }
    ensures is { IfOk result (IsCensus geometry (numbers words.now)) }
    ensures whole { IfOk result (IsWhole geometry) }
{
    Ok(Census {
        owners: owners(alloc, geometry, words)?,
        pages: pages(alloc, geometry, words)?,
        live: live(alloc, geometry, words)?,
        free: free(alloc, geometry, words)?,
        counts: counts(alloc, geometry, words)?,
    })
}

// the segments by owner
fn owners(alloc: Global, geometry: Geometry, words: &[[u8; 8]]) -> Result<Histogram, AllocError>
    requires { GeometryFits geometry }
    ensures kinds { IfOk result (λ h. length h.sums.items ≡ 17) }
    ensures sums { IfOk result (λ h. AreSums (owner_kind geometry (numbers words.now)) geometry.segments h.sums.items) }
{
    let mut owners = Histogram::new(alloc, 17)?;
    for s in 0..geometry.segments() {
        owners.add(owner_kind(geometry, words, s));
    }
    Ok(owners)
}

// the pages by class
fn pages(alloc: Global, geometry: Geometry, words: &[[u8; 8]]) -> Result<Histogram, AllocError>
    requires { GeometryFits geometry }
    ensures kinds { IfOk result (λ h. length h.sums.items ≡ 33) }
    ensures sums { IfOk result (λ h. AreSums (page_kind geometry (numbers words.now)) (16 * geometry.segments) h.sums.items) }
{
    let mut pages = Histogram::new(alloc, 33)?;
    for p in 0..16 * u32::from(geometry.segments()) {
        pages.add(page_kind(geometry, words, p));
    }
    Ok(pages)
}

// the live blocks by class
fn live(alloc: Global, geometry: Geometry, words: &[[u8; 8]]) -> Result<Histogram, AllocError>
    requires { GeometryFits geometry }
    ensures kinds { IfOk result (λ h. length h.sums.items ≡ 33) }
    ensures sums { IfOk result (λ h. AreSums (live_kind geometry (numbers words.now)) (total_of geometry) h.sums.items) }
{
    let mut live = Histogram::new(alloc, 33)?;
    for at in 0..geometry.total() {
        live.add(live_kind(geometry, words, at));
    }
    Ok(live)
}

// the free blocks by class
fn free(alloc: Global, geometry: Geometry, words: &[[u8; 8]]) -> Result<Histogram, AllocError>
    requires { GeometryFits geometry }
    ensures kinds { IfOk result (λ h. length h.sums.items ≡ 33) }
    ensures sums { IfOk result (λ h. AreSums (free_kind geometry (numbers words.now)) (total_of geometry) h.sums.items) }
{
    let mut free = Histogram::new(alloc, 33)?;
    for at in 0..geometry.total() {
        free.add(free_kind(geometry, words, at));
    }
    Ok(free)
}

// the live blocks by count
fn counts(alloc: Global, geometry: Geometry, words: &[[u8; 8]]) -> Result<Histogram, AllocError>
    requires { GeometryFits geometry }
    ensures kinds { IfOk result (λ h. length h.sums.items ≡ 1024) }
    ensures sums { IfOk result (λ h. AreSums (count_kind geometry (numbers words.now)) (total_of geometry) h.sums.items) }
{
    let mut counts = Histogram::new(alloc, 1024)?;
    for at in 0..geometry.total() {
        counts.add(count_kind(geometry, words, at));
    }
    Ok(counts)
}
