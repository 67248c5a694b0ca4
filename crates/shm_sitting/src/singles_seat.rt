//! A session in a pool for single blocks, with the plain words of the block that it makes next.

ghost use Rattle.std.specs.{Prelude.{◌≡◌, ◌<◌, IfSome, length}, Option.is_some};
ghost use Rattle.shm_words.specs.Layout.{GeometryFits};
ghost use Rattle.shm_session.specs.Sessions.{stage_found};
ghost use Rattle.shm_sitting.specs.SinglesSeats.{IsCalled, IsOpened, IsRun, IsTold, keep_said, words_after};

use shm_graph::Me;
use shm_mapped::run_on;
use shm_session::{Call, Misuse, Ran, Said, Session};
use shm_singles::Singles;
use std::sync::atomic::AtomicU64;

/// A session of an identity.
#[derive(Drop)]
pub struct SinglesSeat {
    session: Session<Singles>,
    words: [u64; 8],
}

impl SinglesSeat {
    /// A session of an identity, whose status word was found so; none where the word is no status.
    pub fn new(me: Me, status: u64) -> Option<SinglesSeat>
        requires geometry { GeometryFits me.geometry }
        requires who { me.who < me.geometry.clients }
        ensures some { IfSome result (IsOpened me status) }
        ensures is { is_some result ≡ is_some (stage_found status) }
    {
        match Session::new(me, status) {
            Ok(session) => {
                let words = [0; 8];
                Some(SinglesSeat { session, words })
            }
            Err(_) => None,
        }
    }

    /// A plain word of the block that is made next, by its index.
    fn keep(&mut self, index: u64, word: u64) -> Said
        ensures said { result ≡ keep_said index }
        ensures words { self.new.words ≡ words_after index word self.old.words }
        ensures session { self.new.session ≡ self.old.session }
    {
        if index < 8 {
            self.words[index as usize] = word;
            Said::of(16)
        } else {
            Said::refusal(Misuse::Range)
        }
    }

    /// A call by its number: 30 is a plain word of the block that is made next.
    pub fn call(&mut self, call: Call) -> Said
        ensures { IsCalled self.old call result self.new }
    {
        if call.op == 30 {
            return self.keep(call.first, call.second);
        }
        let words = self.words;
        self.session.call(Call { words, ..call })
    }

    /// Takes the word that was found, for a store 0: the next word step, or the answer.
    #[inline(always)]
    pub fn tell(&mut self, found: u64) -> Said
        ensures { IsTold self.old found result self.new }
    {
        self.session.tell(found)
    }

    /// Makes so many word steps at most on these words: what it then says, and how many were made.
    #[inline(always)]
    pub fn run(&mut self, words: &[AtomicU64], steps: u64) -> Ran
        ensures { IsRun self.old (length words.now) steps result self.new }
    {
        run_on(&mut self.session, words, steps)
    }
}
