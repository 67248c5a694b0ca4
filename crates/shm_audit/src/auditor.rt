//! An audit of the words of a pool as they come, which keeps none of them.

ghost use Rattle.std.specs.Prelude.{◌≡◌, ℕ, ◌+◌, ◌*◌, ◌^◌, ◌<◌, ◌≤◌, List, length, IfOk, IfErr, IfSome, IfNone};
ghost use Rattle.shm_words.specs.{Classes.IsClass, Layout.{GeometryFits, total_of, bodies}};
ghost use Rattle.shm_graph.specs.Spots.{see};
ghost use Rattle.shm_audit.specs.{Images.numbers, Faults.words_fault_of, Verdicts.verdict_of};
ghost use Rattle.shm_audit.specs.{Tallies.{AreFrom, HasBlock}, Streams.{HasPage, IsLawful, IsTallied, Seen}};

use crate::checks::{check_pages, first_pending, is_lawful, suits};
use crate::fault::ImageFault;
use crate::tally::{Reference, Tally};
use crate::verdict::Verdict;
use crate::words::{reference_before, refs_in, word};
use shm_words::{Geometry, Header};
use std::alloc::{AllocError, Global};

/// An audit of the words of a pool as they come: those before the bodies first, and then segment by segment.
#[derive(Drop)]
pub struct Auditor {
    /// The first page word or header at fault.
    fault: Option<ImageFault>,
    /// The first tag at fault.
    tag: Option<ImageFault>,
    /// What was found of blocks and references, as long as there is no fault.
    tally: Tally,
}

impl Auditor {
    /// Looks at the words before the bodies. It takes 12 bytes of memory for each 4 words of the bodies.
    pub fn new(alloc: Global, geometry: Geometry, front: &[[u8; 8]]) -> Result<Auditor, AllocError>
        requires fits { GeometryFits geometry }
        requires whole { length front.now ≡ bodies geometry }
        ensures { IfOk result (λ a. (ws : List ℕ) → AreFrom ws 0 (numbers front.now) → Seen geometry ws (bodies geometry) a) }
    {
        let fault = check_pages(geometry, front).err();
        let mut tally = Tally::none(alloc, geometry)?;
        for at in 0..geometry.body(0, 0) {
            tally.name(at, reference_before(geometry, front, at));
        }
        Ok(Auditor {
            fault,
            tag: None,
            tally,
        })
    }

    /// Looks at the words of the next segment, the one of this number; `front` are the words before the bodies.
    pub fn segment(&mut self, geometry: Geometry, front: &[[u8; 8]], number: u16, words: &[[u8; 8]])
        requires fits { GeometryFits geometry }
        requires segment { number < geometry.segments }
        requires front { length front.now ≡ bodies geometry }
        requires whole { length words.now ≡ 2048 }
        ensures { (ws : List ℕ) → AreFrom ws 0 (numbers front.now) → AreFrom ws (bodies geometry + 2048 * number) (numbers words.now) → Seen geometry ws (bodies geometry + 2048 * number) self.old → Seen geometry ws (bodies geometry + 2048 * (number + 1)) self.new }
    {
        let first = geometry.body(number, 0);
        for p in 0..16 {
            let class = word(front, geometry.page(number, p));
            self.page(geometry, first, words, 128 * u32::from(p), class);
        }
    }

    // the page with this word that begins at the word `from` of a segment
    fn page(&mut self, geometry: Geometry, first: u32, words: &[[u8; 8]], from: u32, word: u64)
        requires fits { GeometryFits geometry }
        requires room { first + 4096 < 2 ^ 32 }
        requires from { from + 128 ≤ length words.now }
        requires whole { length words.now ≡ 2048 }
        ensures { (ws : List ℕ) → AreFrom ws first (numbers words.now) → HasPage geometry ws (first + from) word → Seen geometry ws (first + from) self.old → Seen geometry ws (first + from + 128) self.new }
    {
        let Some(class) = class_of(word) else {
            return;
        };
        let mut k = from;
        while k < from + 128 {
            self.block(geometry, first, words, k, class);
            k += class;
        }
    }

    // the block of this class that begins at the word `k` of a segment
    fn block(&mut self, geometry: Geometry, first: u32, words: &[[u8; 8]], k: u32, class: u32)
        requires fits { GeometryFits geometry }
        requires room { first + k + 512 < 2 ^ 32 }
        ensures { (ws : List ℕ) → AreFrom ws first (numbers words.now) → k + class ≤ length words.now → HasBlock geometry ws (first + k) class → Seen geometry ws (first + k) self.old → Seen geometry ws (first + k + class) self.new }
    {
        let head = word(words, k);
        if head == 0 || self.fault.is_some() {
            return;
        }
        let header = Header::unpack(head);
        if !is_lawful(geometry, header) {
            let at = first + k;
            self.fault = Some(ImageFault::BadHeader { at, word: head });
        } else if self.tag.is_none() {
            self.live_block(geometry, first, words, k, class, header.count);
        }
    }

    // a live block with a sound header and this count
    fn live_block(
        &mut self,
        geometry: Geometry,
        first: u32,
        words: &[[u8; 8]],
        k: u32,
        class: u32,
        count: u16,
    )
        requires fits { GeometryFits geometry }
        requires room { first + k + 512 < 2 ^ 32 }
        requires fault { self.old.fault ≡ None }
        requires tag { self.old.tag ≡ None }
        ensures { (ws : List ℕ) → AreFrom ws first (numbers words.now) → k + class ≤ length words.now → HasBlock geometry ws (first + k) class → IsLawful geometry ws (first + k) count → IsTallied geometry ws (first + k) self.old.tally → Seen geometry ws (first + k + class) self.new }
    {
        let tag = word(words, k + 1);
        if !suits(geometry, u64::from(class), tag) {
            let at = first + k + 1;
            self.tag = Some(ImageFault::BadTag { at, word: tag });
            return;
        }
        self.tally.count(first + k, count);
        let refs = u32::from(refs_in(geometry, tag));
        self.tally.names(first, words, k + 2, k + 2 + refs);
    }

    /// The verdict on the pool or its first fault, once all words came; `front` are those before the bodies.
    pub fn finish(&self, geometry: Geometry, front: &[[u8; 8]]) -> Result<Verdict, ImageFault>
        requires fits { GeometryFits geometry }
        requires front { length front.now ≡ bodies geometry }
        requires seen { (ws : List ℕ) × Seen geometry ws (total_of geometry) self.now }
        ensures ok { IfOk result (λ v. (ws : List ℕ) → AreFrom ws 0 (numbers front.now) → Seen geometry ws (total_of geometry) self.now → (words_fault_of geometry ws ≡ None) × (v ≡ verdict_of geometry (see geometry ws))) }
        ensures err { IfErr result (λ f. (ws : List ℕ) → AreFrom ws 0 (numbers front.now) → Seen geometry ws (total_of geometry) self.now → words_fault_of geometry ws ≡ Some f) }
    {
        if let Some(fault) = self.fault {
            return Err(fault);
        }
        if let Some(fault) = self.tag {
            return Err(fault);
        }
        if let Some(Reference { at, target }) = self.tally.bad_reference() {
            return Err(ImageFault::BadRef { at, word: target });
        }
        if let Some(client) = first_pending(geometry, front) {
            return Ok(Verdict::Pending { client });
        }
        Ok(self.tally.judge())
    }
}

// the class that a page word is, if it is one
fn class_of(word: u64) -> Option<u32>
    ensures class { IfSome result (λ k. IsClass k × (k ≡ word)) }
    ensures none { IfNone result (IsClass word → ⊥) }
{
    match word {
        4 => Some(4),
        8 => Some(8),
        16 => Some(16),
        32 => Some(32),
        _ => None,
    }
}
