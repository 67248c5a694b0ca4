//! The words that threads share, as the seat of one identity makes word steps on them.

ghost use Rattle.shm_pool.specs.Sites.{MayMake, Made, last_word};

use crate::rule::{Place, Say, Says, Top};
use shm_graph::{Ask, Site};
use std::marker::PhantomData;

/// The words that threads share, on which the seat of one identity makes a word step. It tells what U says.
#[derive(Drop)]
pub(crate) struct OnTable<'a, U> {
    pub(crate) top: &'a Top,
    pub(crate) says: PhantomData<U>,
}

impl<'a, U: Say> Site for OnTable<'a, U> {
    type Words = Place;

    ghost may = { λ site place ask. MayMake site.top.now.key site.top.now.table_id U.then place ask };

    ghost made = { λ site before ask after. Made U.then before after };

    ghost seen = { λ site before ask after. last_word after };

    #[inline(always)]
    fn make(&self, place: &mut Place, ask: Ask) -> u64 {
        match ask {
            Ask::Load { at } => self.top.load::<Says<U>>(place, at as usize),
            Ask::Store { at, value } => {
                self.top.store::<Says<U>>(place, at as usize, value);
                0
            }
            Ask::Exchange { at, from, to } => {
                self.top
                    .compare_exchange::<Says<U>>(place, at as usize, from, to)
            }
        }
    }
}
