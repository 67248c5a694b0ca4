//! Machines over the words of a block.

ghost use Rattle.std.specs.Prelude.{◌≡◌, ◌<◌, ◌≤◌, ◌+◌, false};
ghost use Rattle.shm_words.specs.Layout.{GeometryFits, address_limit, total_of};
ghost use Rattle.shm_graph.specs.{declared.ask.Ask.TheVariants.Load, Laws.turn_of};
ghost use Rattle.plans.specs.{CallsControl.calls_of, declared.or.Or.TheVariants.{First, Second}};
ghost use Rattle.shm_ref.specs.{Look.{looking, look_steered}, Read.{reading, read_steered}};
ghost use Rattle.shm_ref.specs.SetRef.Control.{setting, set_steered};
ghost use Rattle.shm_singles.specs.Steps.{words_control};

use plans::{Calls, Or, Word};
use shm_graph::{Ask, Machine, Me, Turn};
use shm_ref::{Look, LookFault, NoSuchWord, Read, SetFault, SetRef};
use std::marker::Model;

/// A word; a plain word of a block; which block a reference word names; what came of setting one.
pub type WordsAnswer = Or<
    Or<u64, Result<u64, NoSuchWord>>,
    Or<Result<u32, LookFault>, Result<(), SetFault>>,
>;

/// A word is loaded, a plain word of a block is read, or a reference word is looked at or set.
pub struct Words {
    one: Or<Or<Word, Calls<Read>>, Or<Calls<Look>, Calls<SetRef>>>,
}

// by hand, so that who lets one go needn't know what it is made of
impl Drop for Words {
    #[inline(always)]
    fn drop(self) {
        let Words { one: _one } = self;
    }
}

impl Model for Words {
    ghost use Rattle.shm_singles.specs.Steps.{Words as AWords};

    ghost Value = { AWords };

    ghost view = { λ a. a.one };
}

impl Words {
    /// The word at an address.
    pub(crate) fn load(me: Me, at: u32) -> Words
        ensures { result ≡ First (First (record { me = me; ask = Load at; over = false })) }
    {
        Words {
            one: Or::First(Or::First(Word::load(me, at))),
        }
    }

    /// A plain word of a block.
    pub(crate) fn read(me: Me, block: u32, index: u8) -> Words
        requires geometry { GeometryFits me.geometry }
        requires who { me.who < me.geometry.clients }
        requires block { block < address_limit }
        ensures { result ≡ First (Second (calls_of read_steered (reading me block index))) }
    {
        Words {
            one: Or::First(Or::Second(Calls::new(Read::new(me, block, index)))),
        }
    }

    /// Which block a reference word names.
    pub(crate) fn look(me: Me, block: u32, index: u8) -> Words
        requires geometry { GeometryFits me.geometry }
        requires who { me.who < me.geometry.clients }
        requires block { block < address_limit }
        ensures { result ≡ Second (First (calls_of look_steered (looking me block index))) }
    {
        Words {
            one: Or::Second(Or::First(Calls::new(Look::new(me, block, index)))),
        }
    }

    /// A reference word comes to name another block; none where it is 0.
    pub(crate) fn set(me: Me, block: u32, index: u8, to: u32) -> Words
        requires geometry { GeometryFits me.geometry }
        requires who { me.who < me.geometry.clients }
        requires block { block + 2 ≤ total_of me.geometry }
        requires to { to < address_limit }
        ensures { result ≡ Second (Second (calls_of set_steered (setting me block index to))) }
    {
        Words {
            one: Or::Second(Or::Second(Calls::new(SetRef::new(me, block, index, to)))),
        }
    }

    /// Whether it has answered.
    #[inline(always)]
    pub(crate) fn is_over(&self) -> bool
        ensures { result ≡ words_control.finished self.now }
    {
        self.one.finished()
    }

    /// The word step that it asks for.
    #[inline(always)]
    pub(crate) fn ask(&self) -> Ask
        requires { words_control.finished self.now ≡ false }
        ensures { result ≡ words_control.asks self.now }
    {
        self.one.ask()
    }

    /// Takes the word that was found, for a store 0.
    #[inline(always)]
    pub(crate) fn take(&mut self, seen: u64) -> Turn<WordsAnswer>
        requires { words_control.finished self.old ≡ false }
        ensures machine { self.new ≡ words_control.after self.old seen }
        ensures turn { result ≡ turn_of (words_control.turns self.old seen) }
    {
        self.one.take(seen)
    }
}
