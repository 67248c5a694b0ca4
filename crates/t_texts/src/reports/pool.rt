//! The sizes of a pool and its words.

ghost use Rattle.std.specs.Prelude.{◌≡◌, IfOk, IfSome, length};
ghost use Rattle.shm_words.specs.Layout.{GeometryFits, total_of};

use crate::reports::numbers::{pair, read_numbers};
use crate::reports::stop::Stop;
use shm_audit::write_image;
use shm_words::Geometry;
use std::alloc::{AllocError, Global};

/// The sizes of a pool and its words.
#[derive(Drop)]
pub struct Pool {
    clients: u8,
    segments: u16,
    wide: bool,
    words: Vec<u64>,
}

impl Pool {
    /// No pool.
    pub fn none(alloc: Global) -> Pool {
        Pool {
            clients: 0,
            segments: 0,
            wide: false,
            words: Vec::new(alloc),
        }
    }

    /// The pool of the sizes that a text spells, of format 2 or of format 1, with words that are 0.
    pub fn of_sizes(alloc: Global, wide: bool, text: &str) -> Result<Pool, Stop> {
        let sizes = read_numbers(text).ok_or(Stop::NoRow)?;
        let geometry = geometry_of(wide, sizes.first, sizes.second).ok_or(Stop::NoRow)?;
        let words = vec![in alloc; 0u64; geometry.total() as usize]?;
        Ok(Pool {
            clients: geometry.clients(),
            segments: geometry.segments(),
            wide,
            words,
        })
    }

    /// Its sizes.
    pub fn geometry(&self) -> Result<Geometry, Stop>
        ensures { IfOk result GeometryFits }
    {
        let (clients, segments) = (u64::from(self.clients), u64::from(self.segments));
        geometry_of(self.wide, clients, segments).ok_or(Stop::NoRow)
    }

    /// Its words.
    pub fn words(&self) -> &[u64] {
        self.words.as_slice()
    }

    /// Sets the words that a text gives as `AT:WORD ..`.
    pub fn set(&mut self, text: &str) -> Result<(), Stop> {
        let words = self.words.as_mut_slice();
        for word in text.split_whitespace() {
            if set_word(words, word).is_none() {
                return Err(Stop::NoRow);
            }
        }
        Ok(())
    }

    /// Its image.
    pub fn image(&self, alloc: Global) -> Result<Vec<u8>, Stop> {
        let geometry = self.geometry()?;
        if self.words.len() != geometry.total() as usize {
            return Err(Stop::NoRow);
        }
        Ok(write_image(alloc, geometry, self.words.as_slice())?)
    }
}

/// The sizes of a pool of format 2 or of format 1, where one may have them.
fn geometry_of(wide: bool, clients: u64, segments: u64) -> Option<Geometry>
    ensures { IfSome result GeometryFits }
{
    let clients = u8::try_from(clients).ok()?;
    let segments = u16::try_from(segments).ok()?;
    let made = if wide {
        Geometry::wide(clients, segments)
    } else {
        Geometry::new(clients, segments)
    };
    made.ok()
}

/// Sets a word that is given as `AT:WORD`.
fn set_word(words: &mut [u64], text: &str) -> Option<()> {
    let (at, word) = pair(text)?;
    let place = words.get_mut(usize::try_from(at).ok()?)?;
    *place = word;
    Some(())
}
