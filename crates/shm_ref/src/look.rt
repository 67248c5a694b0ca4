//! A reference word of a block, read under the latch of the block's author.

ghost use Rattle.std.specs.Prelude.{◌≡◌, ◌<◌, ◌^◌};
ghost use Rattle.shm_words.specs.Layout.{GeometryFits, address_limit};
ghost use Rattle.shm_ref.specs.{Look.{looking, look_plan}, Proved.Look.Laws.look_laws};
ghost use Rattle.shm_ref.specs.Proved.LatchTasks.{LookMay, look_task};

use crate::answer::LookFault;
use crate::tagged::tag_in;
use plans::{Plan, Task, Word};
use shm_graph::{Machine, Me};
use shm_words::ADDRESS_LIMIT;
use std::marker::Model;

/// Which word step of it comes next.
#[derive(Clone, Copy, Drop)]
pub enum LookPoint {
    /// The tag is loaded.
    Shape,
    /// The hold word is loaded.
    Whose,
    /// The reference word is loaded.
    Reference,
}

/// The control of it; `author` is whose block the tag was found to be.
#[derive(Clone, Copy, Drop)]
pub struct LookState {
    pub me: Me,
    pub block: u32,
    pub index: u8,
    pub author: u8,
    pub point: LookPoint,
}

/// The word steps that tell what reference word `index` of `block` names.
///
/// It answers the block that the reference word names, or 0; a block that it answers may be read while the latch is held.
#[derive(Drop)]
pub struct Look {
    state: LookState,
}

impl Model for Look {
    ghost use Rattle.shm_ref.specs.declared.look.LookState.{LookState as AState};

    ghost Value = { AState };

    ghost view = { λ a. a.state };

    ghost use Rattle.shm_ref.specs.Look.{LookInRange};

    ghost invariant = { λ a. LookInRange a.state };
}

impl Look {
    /// Reference word `index` of `block`, an address, for the identity `me`, before the first word step.
    #[inline(always)]
    pub fn new(me: Me, block: u32, index: u8) -> Look
        requires geometry { GeometryFits me.geometry }
        requires who { me.who < me.geometry.clients }
        requires block { block < address_limit }
        ensures { result ≡ looking me block index }
    {
        Look {
            state: LookState {
                me,
                block,
                index,
                author: 0,
                point: LookPoint::Shape,
            },
        }
    }
}

impl Plan for Look {
    type Call = Word;

    type Answer = Result<u32, LookFault>;

    ghost plan = { look_plan };

    #[inline(always)]
    fn me(&self) -> Me {
        self.state.me
    }

    #[inline(always)]
    fn call(&self) -> Word {
        let LookState {
            me,
            block,
            index,
            point,
            ..
        } = self.state;
        match point {
            LookPoint::Shape => Word::load(me, block + 1),
            LookPoint::Whose => Word::load(me, me.geometry.hold(me.who)),
            LookPoint::Reference => Word::load(me, block + 2 + u32::from(index)),
        }
    }

    #[inline(always)]
    fn next(&mut self, word: u64) -> Option<Result<u32, LookFault>> {
        match self.state.point {
            LookPoint::Shape => {
                let tag = tag_in(self.state.me, word);
                self.state.author = tag.author;
                self.state.point = LookPoint::Whose;
                if self.state.index < tag.refs {
                    None
                } else {
                    Some(Err(LookFault::NoSuchRef { refs: tag.refs }))
                }
            }
            LookPoint::Whose => {
                self.state.point = LookPoint::Reference;
                if word == u64::from(self.state.author) + 1 {
                    None
                } else {
                    Some(Err(LookFault::NotHeld))
                }
            }
            LookPoint::Reference => Some(Ok((word % u64::from(ADDRESS_LIMIT)) as u32)),
        }
    }

    ghost laws = { look_laws };
}

impl Task for Look {
    ghost may = { LookMay };

    ghost tasks = { look_task };
}
