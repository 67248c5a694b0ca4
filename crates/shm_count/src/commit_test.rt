//! The commit test: whether the count step in progress of a dead client was committed.
//!
//! That a header of last client and era together with a matrix of eras tells it, the header read before the rows, is an idea of CXL-SHM
//! (SOSP 2023); the exact condition is this project's own.

ghost use Rattle.std.specs.Prelude.{◌≡◌, ℕ, ◌<◌, List};
ghost use Rattle.shm_words.specs.Layout.{GeometryFits};
ghost use Rattle.shm_graph.specs.{declared.{ask.Me.Me as AMe, memo.Memo.Memo as AMemo}, Asks.{Trail, IsWithin}};
ghost use Rattle.shm_graph.specs.Events.{Event as AnEvent};
ghost use Rattle.shm_count.specs.declared.commit_test.Commit.{Commit as ACommit};
ghost use Rattle.shm_count.specs.CommitTest.{Control.{testing, test_next, test_step}, TestLeaves, testing_plan};
ghost use Rattle.shm_count.specs.Proved.CommitTest.Laws.{testing_laws};

use plans::{Plan, Word};
use shm_graph::{Machine, Me};
use shm_words::Header;
use std::marker::Model;

/// The word that shows a step to be committed.
#[derive(Clone, Copy, Debug, PartialEq, Eq, Drop)]
pub enum Proof {
    /// The header of the step's block: the client with the step's era wrote it last.
    Header,
    /// The row of another client: that client has seen an era of the step's client that isn't below the step's.
    Row(u8),
}

/// What a commit test answers.
#[derive(Clone, Copy, Debug, PartialEq, Eq, Drop)]
pub enum Commit {
    /// The step was committed, as this word shows.
    Committed { by: Proof },
    /// It wasn't.
    NotCommitted,
}

/// Which word step of it comes next.
#[derive(Clone, Copy, Drop)]
pub enum TestingPoint {
    /// The header of the block is loaded; word 0, where the block is 0.
    Header,
    /// A row is loaded.
    Row,
}

/// The control of it; `era` is the own era, which is that of the step, and `row` is the client whose row comes next.
#[derive(Clone, Copy, Drop)]
pub struct TestingState {
    pub me: Me,
    pub block: u32,
    pub era: u64,
    pub row: u8,
    pub point: TestingPoint,
}

impl TestingState {
    /// Goes on to the first row of another client from row `row` on; after the last one the step is known not to be committed.
    #[inline(always)]
    fn go_on(&mut self, row: u8) -> Option<Commit>
        requires geometry { GeometryFits self.old.me.geometry }
        requires row { row < 17 }
        ensures state { self.new ≡ test_next self.old row }
        ensures answer { result ≡ test_step self.old row }
    {
        let next = if row == self.me.who { row + 1 } else { row };
        if next < self.me.geometry.clients() {
            self.row = next;
            self.point = TestingPoint::Row;
            None
        } else {
            Some(Commit::NotCommitted)
        }
    }
}

/// The word steps of a commit test.
///
/// It answers `Committed` exactly where the step of this era was committed on this block, whatever other identities do between its loads.
#[derive(Drop)]
pub struct CommitTest {
    state: TestingState,
}

impl Model for CommitTest {
    ghost use Rattle.shm_count.specs.declared.commit_test.TestingState.{TestingState as AState};

    ghost Value = { AState };

    ghost view = { λ a. a.state };

    ghost use Rattle.shm_count.specs.CommitTest.Control.{TestingInRange};

    ghost invariant = { λ a. TestingInRange a.state };
}

impl CommitTest {
    /// Whether the step of the identity `me` at its own era was committed on `block`, before the first load. In format 2 the block may be
    /// 0, which a redo record names while its words are of two records; then no step was.
    #[inline(always)]
    pub fn new(me: Me, block: u32, era: u64) -> CommitTest
        requires geometry { GeometryFits me.geometry }
        requires who { me.who < me.geometry.clients }
        ensures { result ≡ testing me block era }
    {
        CommitTest {
            state: TestingState {
                me,
                block,
                era,
                row: 0,
                point: TestingPoint::Header,
            },
        }
    }
}

impl Plan for CommitTest {
    type Call = Word;

    type Answer = Commit;

    ghost plan = { testing_plan };

    #[inline(always)]
    fn me(&self) -> Me {
        self.state.me
    }

    #[inline(always)]
    fn call(&self) -> Word {
        let TestingState {
            me,
            block,
            row,
            point,
            ..
        } = self.state;
        match point {
            TestingPoint::Header => Word::load(me, block),
            TestingPoint::Row => Word::load(me, me.geometry.era(row, me.who)),
        }
    }

    #[inline(always)]
    fn next(&mut self, word: u64) -> Option<Commit> {
        let TestingState {
            me,
            era,
            row,
            point,
            ..
        } = self.state;
        match point {
            TestingPoint::Header => {
                let header = Header::unpack(word);
                if header.client == me.who && header.era == era {
                    Some(Commit::Committed { by: Proof::Header })
                } else {
                    self.state.go_on(0)
                }
            }
            TestingPoint::Row => {
                if word < era {
                    self.state.go_on(row + 1)
                } else {
                    Some(Commit::Committed {
                        by: Proof::Row(row),
                    })
                }
            }
        }
    }

    ghost laws = { testing_laws };
}

/// A commit test took at most a load for each client.
pub fn commit_test_bound()
    ensures { (me : AMe) (b e : ℕ) (r0 r : AMemo) (tr : Trail) (es : List AnEvent) (a : ACommit) → TestLeaves (testing me b e) r0 r tr es a → IsWithin me.geometry.clients tr }
{}
