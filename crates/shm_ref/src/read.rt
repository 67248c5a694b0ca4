//! A plain word of a block.

ghost use Rattle.std.specs.Prelude.{◌≡◌, ◌<◌, ◌^◌};
ghost use Rattle.shm_words.specs.Layout.{GeometryFits, address_limit};
ghost use Rattle.shm_ref.specs.{Read.{reading, read_plan}, Proved.Read.Laws.read_laws};
ghost use Rattle.shm_ref.specs.Proved.LatchTasks.{ReadMay, read_task};

use crate::answer::NoSuchWord;
use crate::tagged::tag_in;
use plans::{Plan, Task, Word};
use shm_graph::{Machine, Me};
use std::marker::Model;

/// Which word step of it comes next.
#[derive(Clone, Copy, Drop)]
pub enum ReadPoint {
    /// The tag is loaded.
    Shape,
    /// The plain word is loaded.
    Plain,
}

/// The control of it; `refs` is how many reference words the tag was found to tell.
#[derive(Clone, Copy, Drop)]
pub struct ReadState {
    pub me: Me,
    pub block: u32,
    pub index: u8,
    pub refs: u8,
    pub point: ReadPoint,
}

/// The word steps that tell plain word `index` of `block`.
///
/// It answers the word.
#[derive(Drop)]
pub struct Read {
    state: ReadState,
}

impl Model for Read {
    ghost use Rattle.shm_ref.specs.declared.read.ReadState.{ReadState as AState};

    ghost Value = { AState };

    ghost view = { λ a. a.state };

    ghost use Rattle.shm_ref.specs.Read.{ReadInRange};

    ghost invariant = { λ a. ReadInRange a.state };
}

impl Read {
    /// Plain word `index` of `block`, an address, for the identity `me`, before the first word step.
    #[inline(always)]
    pub fn new(me: Me, block: u32, index: u8) -> Read
        requires geometry { GeometryFits me.geometry }
        requires who { me.who < me.geometry.clients }
        requires block { block < address_limit }
        ensures { result ≡ reading me block index }
    {
        Read {
            state: ReadState {
                me,
                block,
                index,
                refs: 0,
                point: ReadPoint::Shape,
            },
        }
    }
}

impl Plan for Read {
    type Call = Word;

    type Answer = Result<u64, NoSuchWord>;

    ghost plan = { read_plan };

    #[inline(always)]
    fn me(&self) -> Me {
        self.state.me
    }

    #[inline(always)]
    fn call(&self) -> Word {
        let ReadState {
            me,
            block,
            index,
            refs,
            point,
        } = self.state;
        match point {
            ReadPoint::Shape => Word::load(me, block + 1),
            ReadPoint::Plain => Word::load(me, block + 2 + (u32::from(refs) + u32::from(index))),
        }
    }

    #[inline(always)]
    fn next(&mut self, word: u64) -> Option<Result<u64, NoSuchWord>> {
        match self.state.point {
            ReadPoint::Shape => {
                let tag = tag_in(self.state.me, word);
                self.state.refs = tag.refs;
                self.state.point = ReadPoint::Plain;
                if self.state.index < tag.plain {
                    None
                } else {
                    Some(Err(NoSuchWord { plain: tag.plain }))
                }
            }
            ReadPoint::Plain => Some(Ok(word)),
        }
    }

    ghost laws = { read_laws };
}

impl Task for Read {
    ghost may = { ReadMay };

    ghost tasks = { read_task };
}
