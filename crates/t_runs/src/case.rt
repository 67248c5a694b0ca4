//! A pool's words, and what is to happen in the next run.

ghost use Rattle.std.specs.Prelude.{◌<◌, IfSome};
ghost use Rattle.shm_words.specs.Layout.{GeometryFits};

use crate::args::{below, geometry, number, numbers};
use shm_graph::Me;
use std::alloc::{AllocError, Global};

/// More word steps than a run makes that ends.
const MANY: u64 = 100_000;

/// A store of another client, before the word step of a number (the first is 0).
#[derive(Clone, Copy, Drop)]
pub struct Other {
    pub step: u64,
    pub at: u64,
    pub value: u64,
}

/// A pool's words, and what is to happen in the next run.
#[derive(Drop)]
pub struct Case {
    wide: bool,
    clients: u64,
    segments: u64,
    pub words: Vec<u64>,
    /// The words before the run.
    pub before: Vec<u64>,
    /// What others store in the next run.
    pub others: Vec<Other>,
    /// How many word steps the next run makes at most.
    pub most: u64,
}

impl Case {
    /// No pool.
    pub fn new(alloc: Global) -> Case {
        Case {
            wide: false,
            clients: 0,
            segments: 0,
            words: Vec::new(alloc),
            before: Vec::new(alloc),
            others: Vec::new(alloc),
            most: MANY,
        }
    }

    /// Takes a line of the case; false where it is none.
    ///
    /// `pool CLIENTS SEGMENTS` begins with words that are 0, and so does `pool2` with a pool of format 2; `set AT=VALUE ..` sets some of them;
    /// `other STEP AT=VALUE` has another client do so before that word step of the next run, and `cut STEPS` has the next run end after so many
    /// word steps.
    pub fn take(&mut self, alloc: Global, line: &str) -> Result<bool, AllocError> {
        let (name, rest) = line.split_once(' ').unwrap_or((line, ""));
        match name {
            "pool" => self.begin(alloc, false, numbers(rest))?,
            "pool2" => self.begin(alloc, true, numbers(rest))?,
            "set" => self.set(rest),
            "other" => self.other(rest)?,
            "cut" => self.most = number(rest),
            _ => return Ok(false),
        }
        Ok(true)
    }

    /// A pool of so many clients and segments, whose words are 0.
    fn begin(&mut self, alloc: Global, wide: bool, sizes: [u64; 6]) -> Result<(), AllocError> {
        self.wide = wide;
        self.clients = sizes[0];
        self.segments = sizes[1];
        self.end();
        let total = total(wide, sizes[0], sizes[1]);
        self.words = zeros(alloc, total)?;
        self.before = zeros(alloc, total)?;
        Ok(())
    }

    /// Sets words before the run.
    fn set(&mut self, pairs: &str) {
        for pair in pairs.split_whitespace() {
            let (at, value) = pair_of(pair);
            put(&mut self.words, at, value);
            put(&mut self.before, at, value);
        }
    }

    /// Has another client store in the next run.
    fn other(&mut self, rest: &str) -> Result<(), AllocError> {
        let (step, pair) = rest.split_once(' ').unwrap_or((rest, ""));
        let (at, value) = pair_of(pair);
        self.others.push(Other {
            step: number(step),
            at,
            value,
        })?;
        Ok(())
    }

    /// After a run: nothing is to happen in the next one.
    pub fn end(&mut self) {
        self.others.truncate(0);
        self.most = MANY;
    }

    /// The identity; none where the pool hasn't it.
    pub fn me(&self, who: u64) -> Option<Me>
        ensures { IfSome result (λ m. GeometryFits m.geometry × (m.who < m.geometry.clients)) }
    {
        let geometry = geometry(self.wide, self.clients, self.segments)?;
        let who = below(who, u64::from(geometry.clients()))? as u8;
        Some(Me::new(geometry, who))
    }

    /// The address of the own era of an identity.
    pub fn own_era(&self, who: u8) -> Option<u32> {
        let me = self.me(u64::from(who))?;
        Some(me.geometry.era(me.who, me.who))
    }
}

/// So many words that are 0.
fn zeros(alloc: Global, many: usize) -> Result<Vec<u64>, AllocError> {
    vec![in alloc; 0u64; many]
}

/// Sets a word, where there is one at this address.
pub fn put(words: &mut Vec<u64>, at: u64, value: u64) {
    if let Some(word) = words.get_mut(at as usize) {
        *word = value;
    }
}

/// An address and a value, written `AT=VALUE`.
fn pair_of(pair: &str) -> (u64, u64) {
    let (at, value) = pair.split_once('=').unwrap_or((pair, ""));
    (number(at), number(value))
}

/// How many words such a pool has, 0 where there is none.
fn total(wide: bool, clients: u64, segments: u64) -> usize {
    match geometry(wide, clients, segments) {
        Some(geometry) => geometry.total() as usize,
        None => 0,
    }
}
