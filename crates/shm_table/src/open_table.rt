//! The home of an identity comes to name a directory, where it names none.

ghost use Rattle.std.specs.Prelude.{◌≡◌, ◌<◌, ◌^◌};
ghost use Rattle.shm_words.specs.Layout.{GeometryFits, address_limit};
ghost use Rattle.shm_ref.specs.HomeParts.{home_address};
ghost use Rattle.shm_table.specs.OpenTable.{Control.{directory_request, opening}, open_plan};
ghost use Rattle.shm_table.specs.Proved.OpenTable.Laws.{open_laws};

use crate::answer::PutFault;
use plans::{Calls, Or, Plan, Word};
use shm_alloc::{Alloc, AllocFault, Near, Request};
use shm_count::{EraSpent, Made, StepUp, UpFault};
use shm_graph::{Machine, Me};
use shm_ref::DropRoot;
use shm_words::ADDRESS_LIMIT;
use std::marker::Model;

/// Which call of it comes next.
#[derive(Clone, Copy, Drop)]
pub enum OpenPoint {
    /// The home is loaded.
    Look,
    /// The directory is made.
    Make,
    /// The home comes to name it.
    Name,
    /// Its root is dropped.
    Drop,
}

/// The control of it: the root and the block of the directory that was made.
#[derive(Clone, Copy, Drop)]
pub struct OpenState {
    pub me: Me,
    pub root: u8,
    pub block: u32,
    pub point: OpenPoint,
}

/// Its calls: a word step, an allocation, a step up, and the drop of a root.
pub type OpenCall = Or<Word, Or<Alloc, Or<StepUp, Calls<DropRoot>>>>;

/// What its calls answer.
pub type OpenAnswer = Or<
    u64,
    Or<Result<Made, AllocFault>, Or<Result<(), UpFault>, Result<bool, EraSpent>>>,
>;

/// The calls by which the home of an identity comes to name a directory.
///
/// It answers `PutFault` where no directory was made, or a count step was refused.
#[derive(Drop)]
pub struct OpenTable {
    state: OpenState,
}

impl Model for OpenTable {
    ghost use Rattle.shm_table.specs.declared.open_table.OpenState.{OpenState as AState};

    ghost Value = { AState };

    ghost view = { λ a. a.state };

    ghost use Rattle.shm_table.specs.OpenTable.Control.{OpenInRange};

    ghost invariant = { λ a. OpenInRange a.state };
}

/// What a directory is to hold: 16 empty reference words.
#[inline(always)]
fn directory() -> Request
    ensures { result ≡ directory_request }
{
    Request {
        refs: 16,
        count: 0,
        plain: [0, 0, 0, 0, 0, 0, 0, 0],
        near: Near {
            segment: 0,
            page: 0,
            index: 0,
        },
    }
}

/// The address of the home of an identity.
#[inline(always)]
fn home_of(me: Me) -> u32
    requires geometry { GeometryFits me.geometry }
    requires who { me.who < me.geometry.clients }
    ensures home { result ≡ home_address me }
    ensures small { result < address_limit }
{
    me.geometry.home(me.who)
}

impl OpenTable {
    /// The home of the identity `me` is to name a directory.
    #[inline(always)]
    pub fn new(me: Me) -> OpenTable
        requires geometry { GeometryFits me.geometry }
        requires who { me.who < me.geometry.clients }
        ensures { result ≡ opening me }
    {
        OpenTable {
            state: OpenState {
                me,
                root: 0,
                block: 0,
                point: OpenPoint::Look,
            },
        }
    }
}

impl Plan for OpenTable {
    type Call = OpenCall;

    type Answer = Result<(), PutFault>;

    ghost plan = { open_plan };

    #[inline(always)]
    fn me(&self) -> Me {
        self.state.me
    }

    #[inline(always)]
    fn call(&self) -> OpenCall {
        let OpenState {
            me,
            root,
            block,
            point,
        } = self.state;
        let home = home_of(me);
        match point {
            OpenPoint::Look => Or::First(Word::load(me, home)),
            OpenPoint::Make => Or::Second(Or::First(Alloc::asked(me, directory()))),
            OpenPoint::Name => Or::Second(Or::Second(Or::First(StepUp::new(me, home, block)))),
            OpenPoint::Drop => Or::Second(Or::Second(Or::Second(Calls::new(DropRoot::new(
                me, root,
            ))))),
        }
    }

    #[inline(always)]
    fn next(&mut self, answer: OpenAnswer) -> Option<Result<(), PutFault>> {
        match answer {
            Or::First(word) => {
                self.state.point = OpenPoint::Make;
                if word == 0 { None } else { Some(Ok(())) }
            }
            Or::Second(Or::First(Ok(made))) => {
                self.state.root = made.root % 16;
                self.state.block = made.block % ADDRESS_LIMIT;
                self.state.point = OpenPoint::Name;
                None
            }
            Or::Second(Or::First(Err(fault))) => Some(Err(PutFault::made(fault))),
            Or::Second(Or::Second(Or::First(Ok(())))) => {
                self.state.point = OpenPoint::Drop;
                None
            }
            Or::Second(Or::Second(Or::First(Err(fault)))) => Some(Err(PutFault::raised(fault))),
            Or::Second(Or::Second(Or::Second(Ok(_)))) => Some(Ok(())),
            Or::Second(Or::Second(Or::Second(Err(spent)))) => Some(Err(PutFault::spent(spent))),
        }
    }

    ghost laws = { open_laws };
}
