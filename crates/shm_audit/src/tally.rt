//! What the words of a pool that came so far say of each place where a block may begin.

ghost use Rattle.std.specs.Prelude.{◌≡◌, ℕ, ◌+◌, ◌*◌, ◌%◌, ◌^◌, ◌<◌, ◌≤◌, List, length, slice_index, false, Some, if◌then◌else◌, ◌==◌, IfOk, IfSome, MatchOption};
ghost use Rattle.shm_words.specs.declared.geometry.Geometry.{Geometry as AGeometry};
ghost use Rattle.shm_words.specs.Layout.{GeometryFits, total_of, bodies};
ghost use Rattle.shm_graph.specs.Spots.{see};
ghost use Rattle.shm_audit.specs.{Images.numbers, Faults.least_below, Verdicts.{by_block, is_wrong}};
ghost use Rattle.shm_audit.specs.Tallies.{AreFrom, ArePages, IsHead, IsNaming, IsFirstBad, Tallied, earlier, is_bad_place, is_place, place_address, place_verdict, places_in};

use crate::verdict::Verdict;
use crate::words::word;
use shm_words::Geometry;
use std::alloc::{AllocError, Global};

/// What was found of a place, of which there is one for each 4 words of the bodies.
#[derive(Clone, Copy, Drop)]
pub struct Found {
    /// How many words name it.
    times: u32,
    /// The address of the first of them, where there is one.
    namer: u32,
    /// The count of the live block that begins there, where one does.
    count: Option<u16>,
}

/// A word that names something, and its address.
#[derive(Clone, Copy, Drop)]
pub struct Reference {
    pub at: u32,
    pub target: u64,
}

/// What was found of all places, and how much of it.
#[derive(Drop)]
pub struct Tally {
    /// The address of the first place.
    start: u32,
    places: Vec<Found>,
    /// How many blocks are live.
    live: u32,
    /// How many words name something.
    refs: u32,
    /// The first word that names something that isn't a place.
    stray: Option<Reference>,
}

impl Found {
    // after the word at an address named the place
    fn named(self, at: u32) -> Found
        ensures { result ≡ record { times = (self.times + 1) % 2 ^ 32; namer = (if self.times == 0 then at else self.namer); count = self.count } }
    {
        Found {
            times: self.times.wrapping_add(1),
            namer: if self.times == 0 { at } else { self.namer },
            count: self.count,
        }
    }

    // with the count of the live block that begins there
    fn counted(self, count: u16) -> Found
        ensures { result ≡ record { times = self.times; namer = self.namer; count = Some count } }
    {
        Found {
            times: self.times,
            namer: self.namer,
            count: Some(count),
        }
    }

    // whether a word names the place, and no live block with a count above 0 begins there
    fn is_bad(self) -> bool
        ensures { result ≡ is_bad_place self.times self.count }
    {
        self.times > 0 && !matches!(self.count, Some(count) if count > 0)
    }

    // what is wrong with the block that begins at this place, if one does and anything is
    fn verdict(self, block: u32) -> Option<Verdict>
        ensures { result ≡ place_verdict self.times self.count block }
    {
        match self.count {
            None => None,
            Some(0) => Some(Verdict::Uncounted { block }),
            Some(stored) => {
                let found = self.times;
                if u32::from(stored) == found {
                    None
                } else {
                    Some(Verdict::WrongCount {
                        block,
                        stored,
                        found,
                    })
                }
            }
        }
    }
}

impl Tally {
    /// Nothing found, in a pool of these sizes. It takes 12 bytes of memory for each place.
    pub fn none(alloc: Global, geometry: Geometry) -> Result<Tally, AllocError>
        requires { GeometryFits geometry }
        ensures { IfOk result (λ t. (ws : List ℕ) → Tallied geometry ws 0 t) }
    {
        let nothing = Found {
            times: 0,
            namer: 0,
            count: None,
        };
        Ok(Tally {
            start: geometry.body(0, 0),
            places: vec![in alloc; nothing; 512 * usize::from(geometry.segments())]?,
            live: 0,
            refs: 0,
            stray: None,
        })
    }

    // the number of the place that begins at this address, if one does
    fn place_of(&self, target: u64) -> Option<usize>
        ensures within { IfSome result (λ q. q < length self.now.places.items) }
        ensures is { (g : AGeometry) → self.now.start ≡ bodies g → length self.now.places.items ≡ places_in g → MatchOption result (is_place g target ≡ false) (λ q. (q < places_in g) × (target ≡ place_address g q)) }
    {
        let behind = target.checked_sub(u64::from(self.start))?;
        let place = behind / 4;
        if behind.is_multiple_of(4) && place < self.places.len() as u64 {
            Some(place as usize)
        } else {
            None
        }
    }

    /// The next word names this, or nothing where it is 0.
    pub fn name(&mut self, at: u32, target: u64)
        ensures { (g : AGeometry) (ws : List ℕ) → GeometryFits g → at < total_of g → IsNaming g ws at target → Tallied g ws at self.old → Tallied g ws (at + 1) self.new }
    {
        if target == 0 {
            return;
        }
        self.refs = self.refs.wrapping_add(1);
        match self.place_of(target) {
            Some(place) => self.places[place] = self.places[place].named(at),
            None => {
                if self.stray.is_none() {
                    self.stray = Some(Reference { at, target });
                }
            }
        }
    }

    /// The words `from` to `to` of these, which stand from `first` on, are reference words.
    pub fn names(&mut self, first: u32, words: &[[u8; 8]], from: u32, to: u32)
        requires order { from ≤ to }
        requires room { first + to < 2 ^ 32 }
        ensures { (g : AGeometry) (ws : List ℕ) → GeometryFits g → first + to ≤ total_of g → AreFrom ws first (numbers words.now) → to ≤ length words.now → ((a : ℕ) → first + from ≤ a → a < first + to → IsNaming g ws a (slice_index ws a)) → Tallied g ws (first + from) self.old → Tallied g ws (first + to) self.new }
    {
        for k in from..to {
            self.name(first + k, word(words, k));
        }
    }

    /// The next word is the header of a live block with this count.
    pub fn count(&mut self, at: u32, count: u16)
        ensures { (g : AGeometry) (ws : List ℕ) → GeometryFits g → at < total_of g → IsHead g ws at count → Tallied g ws at self.old → Tallied g ws (at + 1) self.new }
    {
        self.live = self.live.wrapping_add(1);
        if let Some(place) = self.place_of(u64::from(at)) {
            self.places[place] = self.places[place].counted(count);
        }
    }

    /// Once all words came: the first that names something else than a live block with a count above 0.
    pub fn bad_reference(&self) -> Option<Reference>
        requires { self.now.start + 4 * length self.now.places.items < 2 ^ 32 }
        ensures { (g : AGeometry) (ws : List ℕ) → GeometryFits g → ArePages g ws → Tallied g ws (total_of g) self.now → IsFirstBad g ws result }
    {
        let mut least = self.stray;
        let mut block = self.start;
        for found in &self.places {
            if found.is_bad() {
                least = earlier(least, found.namer, u64::from(block));
            }
            block += 4;
        }
        least
    }

    /// Once all words came: the verdict by the first block that is live and has the count 0 or another than it is named; else the pool is clean.
    pub fn judge(&self) -> Verdict
        requires { self.now.start + 4 * length self.now.places.items < 2 ^ 32 }
        ensures { (g : AGeometry) (ws : List ℕ) → GeometryFits g → ArePages g ws → Tallied g ws (total_of g) self.now → result ≡ by_block g (see g ws) (least_below (total_of g) (is_wrong g (see g ws))) }
    {
        let mut block = self.start;
        for found in &self.places {
            if let Some(verdict) = found.verdict(block) {
                return verdict;
            }
            block += 4;
        }
        Verdict::Clean {
            live: self.live,
            refs: self.refs,
        }
    }
}

// the one of two words at the lower address, of which the first may be missing
fn earlier(known: Option<Reference>, at: u32, target: u64) -> Option<Reference>
    ensures { result ≡ earlier known at target }
{
    match known {
        Some(reference) if reference.at < at => known,
        _ => Some(Reference { at, target }),
    }
}
