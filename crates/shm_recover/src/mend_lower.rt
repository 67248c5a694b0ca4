//! The second half of a dead client's change, which a recoverer makes.

ghost use Rattle.std.specs.Prelude.{◌≡◌, ◌+◌, ◌<◌, ◌^◌};
ghost use Rattle.shm_words.specs.Layout.{GeometryFits};
ghost use Rattle.shm_count.specs.Step.Control as step;
ghost use Rattle.shm_recover.specs.{MendLower.{Control.lowering, lowering_plan}, Proved.MendLower.Laws.lowering_laws};
ghost use Rattle.shm_recover.specs.MendLower.Control as control;

use plans::{Plan, Word};
use shm_graph::{Machine, Me};
use shm_words::Header;
use std::marker::Model;

/// Which word step of it comes next.
#[derive(Clone, Copy, Drop)]
pub enum MendLowerPoint {
    /// The header of the block is loaded.
    Header,
    /// The own row for the header's client is loaded.
    Row,
    /// The header's era is stored in that row.
    Show,
    /// The header is exchanged for one with the count one less.
    Exchange,
    /// The next own era is stored.
    Close,
}

/// The control of it; `era` is that of the second half, and `header` the word of the header that was found last.
#[derive(Clone, Copy, Drop)]
pub struct MendLowerState {
    pub me: Me,
    pub block: u32,
    pub era: u64,
    pub header: u64,
    pub point: MendLowerPoint,
}

impl MendLowerState {
    /// The header of the block was found.
    #[inline(always)]
    fn found(&mut self, header: u64)
        ensures { self.new ≡ control.found self.old header }
    {
        self.header = header;
        self.point = if Header::unpack(header).client == self.me.who {
            MendLowerPoint::Exchange
        } else {
            MendLowerPoint::Row
        };
    }

    /// The header that the block comes to have.
    #[inline(always)]
    fn lowered(self) -> u64
        requires who { self.me.who < 16 }
        requires era { self.era < 2 ^ 47 }
        ensures { result ≡ control.lowered self.me.who self.era self.header }
    {
        let Header { count, .. } = Header::unpack(self.header);
        Header {
            live: true,
            client: self.me.who,
            count: if count == 0 { 0 } else { count - 1 },
            era: self.era,
        }
        .pack()
    }

    /// The address of the own row's word for the header's client; no header shows a client that the pool hasn't.
    #[inline(always)]
    fn row(self) -> u32
        requires geometry { GeometryFits self.me.geometry }
        requires who { self.me.who < self.me.geometry.clients }
        ensures { result ≡ step.row_address self.me (control.header self.header).client }
    {
        let Me { geometry, who } = self.me;
        let client = Header::unpack(self.header).client;
        if client < geometry.clients() {
            geometry.era(who, client)
        } else {
            0
        }
    }
}

/// The word steps of the second half of a change.
///
/// After it the block has lost the reference that the change held over, and the change is closed.
#[derive(Drop)]
pub struct MendLower {
    state: MendLowerState,
}

impl Model for MendLower {
    ghost use Rattle.shm_recover.specs.declared.mend_lower.MendLowerState.{MendLowerState as AState};

    ghost Value = { AState };

    ghost view = { λ a. a.state };

    ghost use Rattle.shm_recover.specs.MendLower.Control.{LoweringInRange};

    ghost invariant = { λ a. LoweringInRange a.state };
}

impl MendLower {
    /// The second half at era `era` of a change of the identity `me`, which takes the reference to `block` away.
    #[inline(always)]
    pub fn new(me: Me, block: u32, era: u64) -> MendLower
        requires geometry { GeometryFits me.geometry }
        requires who { me.who < me.geometry.clients }
        requires era { era < 2 ^ 47 }
        ensures { result ≡ lowering me block era }
    {
        MendLower {
            state: MendLowerState {
                me,
                block,
                era,
                header: 0,
                point: MendLowerPoint::Header,
            },
        }
    }
}

impl Plan for MendLower {
    type Call = Word;

    type Answer = ();

    ghost plan = { lowering_plan };

    #[inline(always)]
    fn me(&self) -> Me {
        self.state.me
    }

    #[inline(always)]
    fn call(&self) -> Word {
        let MendLowerState {
            me,
            block,
            era,
            header,
            point,
        } = self.state;
        match point {
            MendLowerPoint::Header => Word::load(me, block),
            MendLowerPoint::Row => Word::load(me, self.state.row()),
            MendLowerPoint::Show => {
                Word::store(me, self.state.row(), Header::unpack(header).era)
            }
            MendLowerPoint::Exchange => Word::exchange(me, block, header, self.state.lowered()),
            MendLowerPoint::Close => Word::store(me, me.geometry.era(me.who, me.who), era + 1),
        }
    }

    #[inline(always)]
    fn next(&mut self, word: u64) -> Option<()> {
        match self.state.point {
            MendLowerPoint::Header => self.state.found(word),
            MendLowerPoint::Row => {
                self.state.point = if word < Header::unpack(self.state.header).era {
                    MendLowerPoint::Show
                } else {
                    MendLowerPoint::Exchange
                };
            }
            MendLowerPoint::Show => self.state.point = MendLowerPoint::Exchange,
            MendLowerPoint::Exchange => {
                if word == self.state.header {
                    self.state.point = MendLowerPoint::Close;
                } else {
                    self.state.found(word);
                }
            }
            MendLowerPoint::Close => return Some(()),
        }
        None
    }

    ghost laws = { lowering_laws };
}
