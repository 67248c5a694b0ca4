//! The names of a pool's words, as they are during a run.

use crate::outgoing::Out;
use crate::pipe::Begun;
use shm_graph::Ask;
use shm_io::Sink;
use shm_replay::replaying::geometry_of;
use shm_script::Trace;
use shm_words::Place;
use std::alloc::{AllocError, Global};

/// The classes of the pages of a trace's pool, after some word steps.
#[derive(Drop)]
pub struct Classes {
    by_page: Vec<u8>,
}

// which of all pages a page is
fn page_number(g: u16, p: u8) -> usize {
    16 * g as usize + p as usize
}

impl Classes {
    /// Before the first word step no page has a class.
    pub fn new(alloc: Global, trace: &Trace) -> Result<Classes, AllocError> {
        Ok(Classes {
            by_page: vec![in alloc; 0; 16 * trace.segments as usize]?,
        })
    }

    /// A word step was made, which found this word.
    pub fn see(&mut self, trace: &Trace, ask: Ask, found: u64) {
        let (at, value) = match ask {
            Ask::Store { at, value } => (at, value),
            Ask::Exchange { at, from, to } if from == found => (at, to),
            _ => return,
        };
        if let Some(Place::Page { g, p }) = place_at(trace, at) {
            if let Some(class) = self.by_page.get_mut(page_number(g, p)) {
                *class = u8::try_from(value).unwrap_or(0);
            }
        }
    }

    // the class of a page, 0 where it has none
    fn class(&self, g: u16, p: u8) -> u8 {
        self.by_page.get(page_number(g, p)).copied().unwrap_or(0)
    }

    /// A text goes on with the name of the word at an address.
    pub fn write_name<K: Sink, B: Begun<K>>(
        &self,
        out: &mut Out<'_, K, B>,
        trace: &Trace,
        at: u32,
    ) {
        match place_at(trace, at) {
            Some(Place::Body { g, p, k }) => out.in_block(self.class(g, p), at, k),
            Some(place) => out.place(place),
            None => out.text("none"),
        }
    }
}

/// The address of a word step.
pub fn at_of(ask: Ask) -> u32 {
    match ask {
        Ask::Load { at } | Ask::Store { at, .. } | Ask::Exchange { at, .. } => at,
    }
}

/// The place of an address in a trace's pool.
pub fn place_at(trace: &Trace, at: u32) -> Option<Place> {
    geometry_of(trace).place(at)
}

impl<'a, K: Sink, B: Begun<K>> Out<'a, K, B> {
    // goes on with the name of a word of a page of this class, which stands `k` words behind the page's first one
    fn in_block(&mut self, class: u8, at: u32, k: u8) {
        if class == 0 {
            self.text("unused");
            return;
        }
        let behind = k % class;
        let block = at.saturating_sub(u32::from(behind));
        match behind {
            0 => self.text("header"),
            1 => self.text("tag"),
            _ => {
                self.text("word ");
                self.number(u64::from(behind - 2));
            }
        }
        self.text(" of ");
        self.number(u64::from(block));
    }

    // goes on with a name and its numbers
    fn named(&mut self, name: &str, numbers: &[u64]) {
        self.text(name);
        let mut sign = "(";
        for number in numbers {
            self.text(sign);
            self.number(*number);
            sign = ",";
        }
        self.text(")");
    }

    // the same with two numbers
    fn pair(&mut self, name: &str, first: u8, second: u8) {
        self.named(name, &[u64::from(first), u64::from(second)]);
    }

    // goes on with the name of a word that is in no page
    fn place(&mut self, place: Place) {
        match place {
            Place::Spare | Place::Body { .. } => self.text("spare"),
            Place::Status { c } => self.named("status", &[u64::from(c)]),
            Place::Redo { c } => self.named("redo", &[u64::from(c)]),
            Place::RedoMore { c } => self.named("redo_more", &[u64::from(c)]),
            Place::Hold { c } => self.named("hold", &[u64::from(c)]),
            Place::Latch { c } => self.named("latch", &[u64::from(c)]),
            Place::Home { c } => self.named("home", &[u64::from(c)]),
            Place::Era { i, j } => self.pair("era", i, j),
            Place::Root { c, k } => self.pair("root", c, k),
            Place::Tail { s, r } => self.pair("tail", s, r),
            Place::Head { s, r } => self.pair("head", s, r),
            Place::Slot { s, r, k } => {
                self.named("slot", &[u64::from(s), u64::from(r), u64::from(k)]);
            }
            Place::Segment { g } => self.named("segment", &[u64::from(g)]),
            Place::Page { g, p } => self.named("page", &[u64::from(g), u64::from(p)]),
        }
    }
}
