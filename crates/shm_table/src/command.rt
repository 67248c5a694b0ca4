//! A command on a table, by the line of a script that tells it.

ghost use Rattle.std.specs.{Prelude.{◌≡◌, ◌<◌, false}, Option.option_map};
ghost use Rattle.shm_words.specs.Layout.{GeometryFits};
ghost use Rattle.shm_graph.specs.{Laws.turn_of, ManySteps.{HasRun, MayRun}, Mapped.{mapped, told_turn}};
ghost use Rattle.plans.specs.Deciding.{either};
ghost use Rattle.shm_script.specs.Text.{line_spelled};
ghost use Rattle.shm_table.specs.Command.{CommandFits, CommandGives, LineMayStand, command_control, command_does, command_effect, command_of};
ghost use Rattle.shm_table.specs.{Command.Operates.{CommandLeaves, CommandMay}, Proved.Command.Laws.command_laws};
ghost use Rattle.shm_table.specs.Proved.{Command.Operates.command_operation, CopyKey.Laws.copy_laws, Del.Laws.del_laws};
ghost use Rattle.shm_table.specs.Proved.{Enter.Laws.enter_laws, FetchHead.Laws.fetch_head_laws, Fetch.Laws.fetch_laws};
ghost use Rattle.shm_table.specs.Proved.{Get.Laws.get_laws, Locate.Laws.locate_laws, OpenTable.Laws.open_laws};
ghost use Rattle.shm_table.specs.Proved.{Put.Laws.put_laws, PutRoot.Laws.put_root_laws, RecvKey.Laws.recv_laws};
ghost use Rattle.shm_table.specs.Proved.{Replace.Laws.replace_laws, SendKey.Laws.send_key_laws};
ghost use Rattle.shm_table.specs.Proved.TakeHead.Laws.{take_head_laws};
ghost use Rattle.shm_table.specs.Command as control;

use crate::copy::CopyKey;
use crate::del::Del;
use crate::get::Get;
use crate::put::Put;
use crate::recv::RecvKey;
use crate::send_key::SendKey;
use plans::{Begin, Or};
use shm_graph::{Ask, Life, Machine, Me, Operation, Site, Turn};
use shm_script::{Answer, Line};
use std::marker::Model;

/// One of the commands.
type One = Or<Or<Put, CopyKey>, Or<Or<Del, Get>, Or<SendKey, RecvKey>>>;

/// What it answers, as one of them.
type OneAnswer = Or<Or<Answer, Answer>, Or<Or<Answer, Answer>, Or<Answer, Answer>>>;

/// A command: it answers what a script is told of it.
pub struct Command {
    one: One,
}

// by hand, so that who lets a command go needn't know what it is made of
impl Drop for Command {
    #[inline(always)]
    fn drop(self) {
        let Command { one: _one } = self;
    }
}

impl Model for Command {
    ghost use Rattle.shm_table.specs.Command.{CommandCall};

    ghost Value = { CommandCall };

    ghost view = { λ a. a.one };
}

/// Of one of two commands what it answers.
#[inline(always)]
fn either(answer: Or<Answer, Answer>) -> Answer
    ensures { result ≡ either (λ a. a) (λ a. a) answer }
{
    match answer {
        Or::First(answer) => answer,
        Or::Second(answer) => answer,
    }
}

/// What the one of them answers.
#[inline(always)]
fn given(answer: OneAnswer) -> Answer
    ensures { result ≡ control.given answer }
{
    match answer {
        Or::First(answer) => either(answer),
        Or::Second(Or::First(answer)) => either(answer),
        Or::Second(Or::Second(answer)) => either(answer),
    }
}

/// What word steps of the one of them tell.
#[inline(always)]
fn told(turn: Turn<OneAnswer>) -> Turn<Answer>
    ensures { result ≡ told_turn control.given turn }
{
    match turn {
        Turn::Done(answer) => Turn::Done(given(answer)),
        Turn::More => Turn::More,
        Turn::Died => Turn::Died,
    }
}

/// Has the one of them take the word that was found.
#[inline(always)]
fn take_told<M: Machine<Answer = OneAnswer>>(one: &mut M, seen: u64) -> Turn<Answer>
    requires { M.control.finished one.old ≡ false }
    ensures machine { one.new ≡ M.control.after one.old seen }
    ensures turn { result ≡ turn_of (option_map control.given (M.control.turns one.old seen)) }
{
    told(one.take(seen))
}

/// Has the one of them make many word steps.
#[inline(always)]
fn run_told<M: Machine<Answer = OneAnswer>, S: Site>(
    one: &mut M,
    site: &S,
    words: &mut S::Words,
    life: &mut Life,
) -> Turn<Answer>
    requires { MayRun (mapped control.given M.control) (S.may site.now) (S.made site.now) (S.seen site.now) life.old.left one.old words.old }
    ensures { HasRun (mapped control.given M.control) (S.made site.now) (S.seen site.now) life.old.left one.old words.old (record { left = life.new.left; machine = one.new; words = words.new; turn = result }) }
{
    told(one.run(site, words, life))
}

impl Command {
    /// The command of a line, for the identity `me`.
    #[inline(always)]
    pub fn new(me: Me, line: &Line) -> Command
        requires geometry { GeometryFits me.geometry }
        requires who { me.who < me.geometry.clients }
        requires line { LineMayStand me line.now }
        ensures command { result ≡ command_of me line.now }
        ensures line { command_control.line result ≡ line_spelled line.now }
    {
        let one = match *line {
            Line::Put { key, number } => Or::First(Or::First(Put::new(me, key, number))),
            Line::Copy { key, author, other } => {
                Or::First(Or::Second(CopyKey::new(me, key, author, other)))
            }
            Line::Del { key } => Or::Second(Or::First(Or::First(Del::new(me, key)))),
            Line::Get { author, key } => {
                Or::Second(Or::First(Or::Second(Get::new(me, author, key))))
            }
            Line::Send { to, key } => Or::Second(Or::Second(Or::First(SendKey::new(me, to, key)))),
            Line::Recv { from, key } => {
                Or::Second(Or::Second(Or::Second(RecvKey::new(me, from, key))))
            }
        };
        Command { one }
    }

    /// What it will answer, where its deciding step was made; otherwise none.
    ///
    /// Of a put, a copy and a receive that step is the exchange that raises the new entry for its bucket, or, where an entry has the key, the
    /// new value block for the entry; of a removal the first exchange for the word that leads to the entry; of a send the store of the tail.
    /// A reading has none, nor has a copy or a receive of the value block that the key has.
    #[inline(always)]
    pub fn effect(&self) -> Option<Answer>
        ensures { result ≡ command_effect self.now }
    {
        match &self.one {
            Or::First(Or::First(put)) => put.effect(),
            Or::First(Or::Second(copy)) => copy.effect(),
            Or::Second(Or::First(Or::First(del))) => del.effect(),
            Or::Second(Or::First(Or::Second(get))) => get.effect(),
            Or::Second(Or::Second(Or::First(send))) => send.effect(),
            Or::Second(Or::Second(Or::Second(recv))) => recv.effect(),
        }
    }
}

impl Machine for Command {
    type Answer = Answer;

    ghost control = { command_control };

    ghost fits = { CommandFits };

    ghost gives = { CommandGives };

    #[inline(always)]
    fn me(&self) -> Me {
        self.one.me()
    }

    #[inline(always)]
    fn finished(&self) -> bool {
        self.one.finished()
    }

    #[inline(always)]
    fn ask(&self) -> Ask {
        self.one.ask()
    }

    #[inline(always)]
    fn take(&mut self, seen: u64) -> Turn<Answer> {
        take_told(&mut self.one, seen)
    }

    #[inline(always)]
    fn act<S: Site>(&mut self, site: &S, words: &mut S::Words) -> Turn<Answer> {
        match self.one.act(site, words) {
            Turn::Done(answer) => Turn::Done(given(answer)),
            Turn::More => Turn::More,
            Turn::Died => Turn::Died,
        }
    }

    #[inline(always)]
    fn run<S: Site>(&mut self, site: &S, words: &mut S::Words, life: &mut Life) -> Turn<Answer> {
        run_told(&mut self.one, site, words, life)
    }

    ghost laws = { command_laws (put_laws (put_root_laws open_laws locate_laws replace_laws enter_laws)) (copy_laws fetch_laws (put_root_laws open_laws locate_laws replace_laws enter_laws)) del_laws get_laws send_key_laws (recv_laws fetch_head_laws take_head_laws (put_root_laws open_laws locate_laws replace_laws enter_laws)) };
}

impl Operation for Command {
    ghost may = { CommandMay };

    ghost leaves = { CommandLeaves };

    ghost does = { command_does };

    ghost operates = { command_operation (put_laws (put_root_laws open_laws locate_laws replace_laws enter_laws)) (copy_laws fetch_laws (put_root_laws open_laws locate_laws replace_laws enter_laws)) del_laws get_laws send_key_laws (recv_laws fetch_head_laws take_head_laws (put_root_laws open_laws locate_laws replace_laws enter_laws)) };
}

impl Begin for Command {
    type Op = Command;

    ghost op = { λ m. m };

    #[inline(always)]
    fn begin(self) -> Command {
        self
    }
}
