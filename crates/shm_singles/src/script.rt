//! An operation, as the machines that come one after the other.

ghost use Rattle.std.specs.Prelude.{◌≡◌, ◌≤◌, ◌+◌, None, true};
ghost use Rattle.shm_words.specs.Layout.{total_of};
ghost use Rattle.shm_singles.specs.Parts.{part_control};
ghost use Rattle.shm_singles.specs.Scripts as control;

use crate::latches::{Latches, LatchesAnswer};
use crate::lives::Lives;
use crate::part::{Part, PartAnswer};
use crate::queues::Queues;
use crate::roots::{Roots, RootsAnswer};
use crate::said;
use crate::steering::Steers;
use crate::words::{Words, WordsAnswer};
use plans::Or;
use shm_alloc::{Alloc, Request};
use shm_graph::{Ask, Me, Turn};
use shm_ref::{Busy, LookFault, ShareFault};
use shm_session::{Said, Stage};
use std::marker::Model;

/// What an operation does.
#[derive(Clone, Copy, Drop)]
pub enum Deed {
    /// The identity joins the pool.
    Join,
    /// It leaves it.
    Leave,
    /// It is recovered.
    Recover,
    /// A block is made.
    Alloc,
    /// A block gets another root.
    Share,
    /// A plain word is read.
    Read,
    /// A reference word of an own block comes to name another block.
    Set,
    /// It comes to name none.
    Clear,
    /// A root is made empty.
    Drop,
    /// A block is sent.
    Send,
    /// A block is received.
    Receive,
    /// All that was sent to the identity is let go.
    Drain,
    /// A block that a reference word names gets a root.
    Follow,
}

/// Which machine of it comes next.
#[derive(Clone, Copy, Drop)]
pub enum Point {
    /// What the operation is for, where nothing is found before.
    Only,
    /// The root is loaded.
    Named,
    /// The other root is loaded.
    Other,
    /// The tag of the block is loaded.
    Tagged,
    /// The latch is taken.
    Held,
    /// What the operation is for.
    Act,
    /// The block that was found gets a root.
    Rooted,
    /// The latch is given back.
    Released,
}

/// What an operation answers, and how the identity stands from then on: as before, where nothing is said of it.
#[derive(Clone, Copy, Drop)]
pub struct Outcome {
    pub said: Said,
    pub stands: Option<Stage>,
}

/// An operation with its numbers, and how far it has come.
#[derive(Clone, Copy, Drop)]
pub struct ScriptState {
    pub me: Me,
    pub deed: Deed,
    /// Of an allocation: what is asked for.
    pub request: Request,
    /// The root that names the block, and the one that names the other block.
    pub root: u8,
    pub other: u8,
    /// Which word of the block.
    pub index: u8,
    /// To whom or from whom a block is sent.
    pub peer: u8,
    /// Whose latch is taken.
    pub author: u8,
    /// The block, and the other one.
    pub block: u32,
    pub to: u32,
    pub point: Point,
    /// What is answered once the latch is given back.
    pub said: Said,
}

/// An operation on single blocks.
#[derive(Drop)]
pub struct Script {
    state: ScriptState,
}

impl Model for Script {
    ghost use Rattle.shm_singles.specs.declared.script.ScriptState.{ScriptState as AState};

    ghost Value = { AState };

    ghost view = { λ a. a.state };

    ghost use Rattle.shm_singles.specs.Scripts.{ScriptInRange};

    ghost invariant = { λ a. ScriptInRange a.state };
}

impl Script {
    /// An operation before its first word step.
    pub fn new(state: ScriptState) -> Script
        requires { control.ScriptInRange state }
        ensures { result ≡ state }
    {
        Script { state }
    }

    /// Whether this is a number that a block of the pool can have.
    fn is_block(&self, block: u32) -> bool
        ensures is { result ≡ control.is_block self.now.me block }
        ensures room { result ≡ true → block + 2 ≤ total_of self.now.me.geometry }
    {
        block != 0 && block < self.state.me.geometry.total() - 1
    }

    /// A root was found to name this block, or none where it is 0.
    fn named(&mut self, block: u32) -> Option<Outcome>
        ensures state { self.new ≡ control.named_after self.old block }
        ensures answer { result ≡ control.named_turns self.old block }
    {
        if !self.is_block(block) {
            return Some(said::ended(Said::of(27)));
        }
        match self.state.point {
            Point::Other => {
                self.state.to = block;
                self.state.point = Point::Held;
            }
            _ => {
                self.state.block = block;
                self.state.point = said::behind_root(self.state.deed);
            }
        }
        None
    }

    /// The tag of the block was loaded: the latch of its author is to be taken.
    fn tagged(&mut self, word: u64) -> Option<Outcome>
        ensures state { self.new ≡ control.tagged_after self.old word }
        ensures answer { result ≡ control.tagged_turns self.old word }
    {
        let author = said::author_in(self.state.me, word);
        if author < self.state.me.geometry.clients() {
            self.state.author = author;
            self.state.point = Point::Held;
            None
        } else {
            Some(said::ended(Said::of(27)))
        }
    }

    /// The latch was taken; or it is another's, and is tried again.
    fn held(&mut self, answer: Result<(), Busy>) -> Option<Outcome>
        ensures state { self.new ≡ control.held_after self.old answer }
        ensures answer { result ≡ None }
    {
        self.state.point = match answer {
            Ok(()) => Point::Act,
            Err(_) => Point::Held,
        };
        None
    }

    /// The latch is to be given back, and then this is answered.
    fn give_back(&mut self, said: Said) -> Option<Outcome>
        ensures state { self.new ≡ control.given_back self.old said }
        ensures answer { result ≡ None }
    {
        self.state.said = said;
        self.state.point = Point::Released;
        None
    }

    /// What a reference word names is to get a root, where it names a block.
    fn looked(&mut self, answer: Result<u32, LookFault>) -> Option<Outcome>
        ensures state { self.new ≡ control.looked_after self.old answer }
        ensures answer { result ≡ None }
    {
        match answer {
            Ok(block) => {
                if self.is_block(block) {
                    self.state.to = block;
                    self.state.point = Point::Rooted;
                    None
                } else {
                    self.give_back(Said::of(27))
                }
            }
            Err(fault) => self.give_back(said::not_looked(fault)),
        }
    }

    /// A root came to name a block, or none did.
    fn shared(&mut self, answer: Result<u8, ShareFault>) -> Option<Outcome>
        ensures state { self.new ≡ control.shared_after self.old answer }
        ensures answer { result ≡ control.shared_turns self.old answer }
    {
        match self.state.point {
            Point::Rooted => self.give_back(said::rooted(self.state.to, answer)),
            _ => Some(said::ended(said::rooted(self.state.block, answer))),
        }
    }

    /// A machine over roots answered.
    fn of_roots(&mut self, answer: RootsAnswer) -> Option<Outcome>
        ensures state { self.new ≡ control.roots_after self.old answer }
        ensures answer { result ≡ control.roots_turns self.old answer }
    {
        match answer {
            Or::First(block) => self.named(block),
            Or::Second(Or::First(answer)) => self.shared(answer),
            Or::Second(Or::Second(answer)) => Some(said::ended(said::dropped(answer))),
        }
    }

    /// A machine over the words of a block answered.
    fn of_words(&mut self, answer: WordsAnswer) -> Option<Outcome>
        ensures state { self.new ≡ control.words_after self.old answer }
        ensures answer { result ≡ control.words_turns self.old answer }
    {
        match answer {
            Or::First(Or::First(word)) => self.tagged(word),
            Or::First(Or::Second(answer)) => {
                Some(said::ended(said::read(self.state.block, answer)))
            }
            Or::Second(Or::First(answer)) => self.looked(answer),
            Or::Second(Or::Second(answer)) => self.give_back(said::set(answer)),
        }
    }

    /// A machine over a latch answered.
    fn of_latches(&mut self, answer: LatchesAnswer) -> Option<Outcome>
        ensures state { self.new ≡ control.latches_after self.old answer }
        ensures answer { result ≡ control.latches_turns self.old answer }
    {
        match answer {
            Or::First(answer) => self.held(answer),
            Or::Second(()) => Some(said::ended(self.state.said)),
        }
    }
}

/// The machine of an operation, once its block was found and its latch taken.
#[tactic(auto, using(shm_words::proofs::Placing::total_small))]
fn act(state: ScriptState) -> Part
    requires { control.ScriptInRange state }
    ensures { result ≡ control.act state }
{
    let ScriptState {
        me,
        deed,
        request,
        root,
        index,
        peer,
        block,
        to,
        ..
    } = state;
    match deed {
        Deed::Join => Part::Lives(Lives::join(me)),
        Deed::Recover => Part::Lives(Lives::recover(me)),
        Deed::Leave => Part::Lives(Lives::leave(me)),
        Deed::Alloc => Part::Alloc(Alloc::asked(me, request)),
        Deed::Share => Part::Roots(Roots::share(me, block)),
        Deed::Drop => Part::Roots(Roots::clear(me, root)),
        Deed::Read => Part::Words(Words::read(me, block, index)),
        Deed::Follow => Part::Words(Words::look(me, block, index)),
        Deed::Set | Deed::Clear => Part::Words(Words::set(me, block, index, to)),
        Deed::Send => Part::Queues(Queues::send(me, peer, block)),
        Deed::Receive => Part::Queues(Queues::receive(me, peer)),
        Deed::Drain => Part::Queues(Queues::drain(me)),
    }
}

/// The machine that comes next.
#[tactic(auto, using(shm_words::proofs::Placing::total_small))]
fn part(state: ScriptState) -> Part
    requires { control.ScriptInRange state }
    ensures { result ≡ control.part state state.point }
{
    let ScriptState {
        me,
        root,
        other,
        author,
        block,
        to,
        point,
        ..
    } = state;
    match point {
        Point::Only | Point::Act => act(state),
        Point::Named => Part::Roots(Roots::name(me, root)),
        Point::Other => Part::Roots(Roots::name(me, other)),
        Point::Tagged => Part::Words(Words::load(me, block + 1)),
        Point::Held => Part::Latches(Latches::hold(me, author)),
        Point::Rooted => Part::Roots(Roots::share(me, to)),
        Point::Released => Part::Latches(Latches::release(me)),
    }
}

impl Steers for Script {
    type Call = Part;

    type CallAnswer = PartAnswer;

    type Answer = Outcome;

    ghost control = { part_control };

    ghost steered = { control.script_steered };

    fn call(&self) -> Part {
        part(self.state)
    }

    fn next(&mut self, answer: PartAnswer) -> Option<Outcome> {
        match answer {
            PartAnswer::Lives(answer) => Some(said::lived(answer)),
            PartAnswer::Alloc(answer) => Some(said::ended(said::made(answer))),
            PartAnswer::Roots(answer) => self.of_roots(answer),
            PartAnswer::Words(answer) => self.of_words(answer),
            PartAnswer::Latches(answer) => self.of_latches(answer),
            PartAnswer::Queues(answer) => Some(said::ended(said::queued(answer))),
        }
    }

    #[inline(always)]
    fn is_over(call: &Part) -> bool {
        call.is_over()
    }

    #[inline(always)]
    fn ask(call: &Part) -> Ask {
        call.ask()
    }

    #[inline(always)]
    fn take(call: &mut Part, seen: u64) -> Turn<PartAnswer> {
        call.take(seen)
    }
}
