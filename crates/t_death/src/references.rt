//! The references of a pool, counted over its words.

ghost use Rattle.std.specs.Prelude.{◌<◌};
ghost use Rattle.shm_words.specs.Layout.{GeometryFits};

use crate::pool::Pool;
use shm_words::Geometry;
use std::alloc::{AllocError, Global};
use std::mem;

/// The blocks in use, and how many references name each address.
#[derive(Drop)]
pub struct References {
    blocks: Vec<u32>,
    found: Vec<u16>,
    /// A reference names an address beyond the pool, or too many name one.
    astray: bool,
}

impl References {
    /// The blocks and references of a pool of these sizes.
    pub fn of(alloc: Global, pool: &Pool, geometry: Geometry) -> Result<References, AllocError>
        requires { GeometryFits geometry }
    {
        let mut all = References {
            blocks: Vec::new(alloc),
            found: vec![in alloc; 0u16; pool.words.len()]?,
            astray: false,
        };
        for client in 0..geometry.clients() {
            all.note(pool.word(geometry.home(client)));
            for root in 0..16 {
                all.note(pool.word(geometry.root(client, root)));
            }
            for to in 0..geometry.clients() {
                for slot in 0..8 {
                    all.note(pool.word(geometry.slot(client, to, slot)));
                }
            }
        }
        for segment in 0..geometry.segments() {
            for page in 0..16 {
                let class = pool.word(geometry.page(segment, page));
                all.note_page(pool, geometry, geometry.body(segment, page), class)?;
            }
        }
        Ok(all)
    }

    /// Counts what a reference word names.
    fn note(&mut self, word: u64) {
        if word == 0 {
            return;
        }
        match self.found.get_mut(word as usize) {
            Some(found) if *found < 1024 => *found += 1,
            _ => self.astray = true,
        }
    }

    /// Notes the blocks in use of a page of this class, and counts their reference words.
    fn note_page(
        &mut self,
        pool: &Pool,
        geometry: Geometry,
        body: u32,
        class: u64,
    ) -> Result<(), AllocError> {
        if class == 0 {
            return Ok(());
        }
        for place in 0..128u32 {
            let block = body.saturating_add(place);
            if u64::from(place) % class != 0 || pool.word(block) == 0 {
                continue;
            }
            self.blocks.push(block)?;
            match geometry.read_tag(pool.word(block.saturating_add(1))) {
                None => self.astray = true,
                Some(tag) => {
                    for word in 0..u32::from(tag.refs) {
                        self.note(pool.word(block.saturating_add(2).saturating_add(word)));
                    }
                }
            }
        }
        Ok(())
    }

    /// The addresses of the blocks in use, in order.
    pub fn take_blocks(&mut self, alloc: Global) -> Vec<u32> {
        mem::replace(&mut self.blocks, Vec::new(alloc))
    }

    /// How many references name this address; they are counted no more.
    pub fn forget(&mut self, at: u32) -> u16 {
        match self.found.get_mut(at as usize) {
            Some(found) => {
                let some = *found;
                *found = 0;
                some
            }
            None => 0,
        }
    }

    /// Whether no reference is counted any more, and none went astray.
    pub fn are_none(&self) -> bool {
        !self.astray && self.found.as_slice().iter().all(|&found| found == 0)
    }
}
