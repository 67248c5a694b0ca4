//! Tests of single words: pages, headers, tags and statuses.

ghost use Rattle.std.specs.Prelude.{◌≡◌, ◌&&◌, ℕ, List, length, nat_lt, IfErr, OnOk, Some};
ghost use Rattle.shm_words.specs.{Layout.{GeometryFits, bodies}, Tags.tag_of};
ghost use Rattle.shm_graph.specs.Spots.{see};
ghost use Rattle.shm_audit.specs.{Images.numbers, Faults.{is_page_word, least_below, tag_suits, words_fault_of}};
ghost use Rattle.shm_audit.specs.{Tallies.{AreFrom, ArePages}, Verdicts.{is_pending, is_settled}};

use crate::fault::ImageFault;
use crate::words::word;
use shm_words::{Geometry, Header};

/// Refuses the first page word that is neither 0 nor a class; `front` are the words before the bodies.
pub fn check_pages(geometry: Geometry, front: &[[u8; 8]]) -> Result<(), ImageFault>
    requires fits { GeometryFits geometry }
    requires whole { length front.now ≡ bodies geometry }
    ensures ok { OnOk result ((ws : List ℕ) → AreFrom ws 0 (numbers front.now) → ArePages geometry ws) }
    ensures err { IfErr result (λ f. (ws : List ℕ) → AreFrom ws 0 (numbers front.now) → words_fault_of geometry ws ≡ Some f) }
{
    for at in geometry.page(0, 0)..geometry.body(0, 0) {
        let word = word(front, at);
        if !is_page_word(word) {
            return Err(ImageFault::BadPage { at, word });
        }
    }
    Ok(())
}

/// Whether a page may have this word.
pub fn is_page_word(word: u64) -> bool
    ensures { result ≡ is_page_word word }
{
    matches!(word, 0 | 4 | 8 | 16 | 32)
}

/// Whether a header is live and of a client of the pool.
pub fn is_lawful(geometry: Geometry, header: Header) -> bool
    ensures { result ≡ (header.live && nat_lt header.client geometry.clients) }
{
    header.live && header.client < geometry.clients()
}

/// Whether a word is the tag of a block of so many words, by a client of the pool.
pub fn suits(geometry: Geometry, class: u64, word: u64) -> bool
    ensures { result ≡ tag_suits geometry.clients class (tag_of geometry.wide word) }
{
    match geometry.read_tag(word) {
        Some(tag) => {
            2 + u64::from(tag.refs) + u64::from(tag.plain) <= class
                && tag.author < geometry.clients()
        }
        None => false,
    }
}

/// The first identity that is neither new nor gone; `front` are the words before the bodies.
pub fn first_pending(geometry: Geometry, front: &[[u8; 8]]) -> Option<u8>
    requires fits { GeometryFits geometry }
    requires whole { length front.now ≡ bodies geometry }
    ensures { (ws : List ℕ) → AreFrom ws 0 (numbers front.now) → result ≡ least_below geometry.clients (is_pending (see geometry ws)) }
{
    for c in 0..geometry.clients() {
        if !is_settled(word(front, geometry.status(c))) {
            return Some(c);
        }
    }
    None
}

// whether a status is that of an identity that is new or gone
fn is_settled(status: u64) -> bool
    ensures { result ≡ is_settled status }
{
    matches!(status, 0 | 3)
}
