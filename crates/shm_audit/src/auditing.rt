//! The audit of an image: its first fault, or the first verdict on its words.

ghost use Rattle.std.specs.Prelude.{◌≡◌, ℕ, ◌^◌, ◌<◌, ◌↔◌, List, length, slice_index, IfOk, IfErr, None, Some};
ghost use Rattle.shm_words.specs.{declared.geometry.Geometry.Geometry as AGeometry, Layout.{GeometryFits, total_of}};
ghost use Rattle.shm_graph.specs.{Spots.see, Clean.IsClean};
ghost use Rattle.shm_audit.specs.Images.{image_of, geometry_in, words_in, numbers};
ghost use Rattle.shm_audit.specs.Faults.{image_fault_of, words_fault_of};
ghost use Rattle.shm_audit.specs.{Verdicts.{verdict_of, clean_verdict, IsCleanVerdict}, Stops.StopsBy};

use crate::auditor::Auditor;
use crate::image::open_image;
use crate::stop::AuditStop;
use crate::verdict::Verdict;
use shm_words::Geometry;
use std::alloc::Global;

/// The verdict on the pool of an image, or the first fault of the image.
///
/// Of the faults the first in this order is told: the length, the first 8 bytes, the sizes, the length that they ask for, page words,
/// headers, tags, references; of those at words the one at the least address. Of the verdicts it is the least identity that is neither new
/// nor gone; then the first block that is live and has the count 0 or another count than references; else the pool is clean. One pass
/// tells them all, with 12 bytes of memory for each 4 words of the pages.
pub fn audit(alloc: Global, image: &[u8]) -> Result<Verdict, AuditStop>
    ensures ok { IfOk result (λ v. (image_fault_of image.now ≡ None) × (v ≡ verdict_of (geometry_in image.now) (see (geometry_in image.now) (words_in image.now)))) }
    ensures err { IfErr result (λ e. StopsBy (image_fault_of image.now) e) }
{
    let (geometry, words) = open_image(image).map_err(AuditStop::Fault)?;
    audit_words(alloc, geometry, words)
}

// the verdict on the words of a pool, or their first fault
fn audit_words(alloc: Global, geometry: Geometry, words: &[[u8; 8]]) -> Result<Verdict, AuditStop>
    requires fits { GeometryFits geometry }
    requires whole { length words.now ≡ total_of geometry }
    ensures ok { IfOk result (λ v. (words_fault_of geometry (numbers words.now) ≡ None) × (v ≡ verdict_of geometry (see geometry (numbers words.now)))) }
    ensures err { IfErr result (λ e. StopsBy (words_fault_of geometry (numbers words.now)) e) }
{
    let front = &words[..geometry.body(0, 0) as usize];
    let mut auditor = Auditor::new(alloc, geometry, front)?;
    for number in 0..geometry.segments() {
        let first = geometry.body(number, 0) as usize;
        auditor.segment(geometry, front, number, &words[first..first + 2048]);
    }
    match auditor.finish(geometry, front) {
        Ok(verdict) => Ok(verdict),
        Err(fault) => Err(AuditStop::Fault(fault)),
    }
}

/// A pool is clean exactly where its words have no fault and the verdict on them is that it is.
pub fn clean_where_verdict_is()
    ensures { (g : AGeometry) (ws : List ℕ) → GeometryFits g → IsClean g (see g ws) ↔ (words_fault_of g ws ≡ None) × IsCleanVerdict (verdict_of g (see g ws)) }
{}

/// The image of a clean pool has no fault, and the verdict on the sizes and words that are read in it is `Clean`, with two
/// numbers: how many blocks of the pool are live, and how many of its words name one.
pub fn clean_images()
    ensures faultless { (g : AGeometry) (ws : List ℕ) → GeometryFits g → length ws ≡ total_of g → ((i : ℕ) → slice_index ws i < 2 ^ 64) → IsClean g (see g ws) → image_fault_of (image_of g ws) ≡ None }
    ensures verdict { (g : AGeometry) (ws : List ℕ) → GeometryFits g → ((i : ℕ) → slice_index ws i < 2 ^ 64) → IsClean g (see g ws) → let image = image_of g ws in verdict_of (geometry_in image) (see (geometry_in image) (words_in image)) ≡ clean_verdict g (see g ws) }
{}
