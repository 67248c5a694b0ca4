//! Pieces of work at their machines.

ghost use Rattle.std.specs.Prelude.{◌≡◌, false};
ghost use Rattle.shm_graph.specs.Laws.{turn_of};

use crate::piece::{Outcome, Piece};
use plans::{Calls, Or};
use shm_graph::{Ask, Life, Machine, Me, Site, Turn};
use shm_recover::{Join, Leave, Recover};
use shm_script::{Answer, Line};
use shm_table::Command;
use std::marker::Model;

/// One of the machines.
type One = Or<Or<Join, Calls<Recover>>, Or<Command, Calls<Leave>>>;

/// The machine of a join, a recovery, a command or a leaving.
pub struct WorkMachine {
    one: One,
}

// by hand, so that who lets it go needn't know what it is made of
impl Drop for WorkMachine {
    #[inline(always)]
    fn drop(self) {
        let WorkMachine { one: _one } = self;
    }
}

impl Model for WorkMachine {
    ghost use Rattle.shm_agents.specs.Work.{Work as AWork};

    ghost Value = { AWork };

    ghost view = { λ x. x.one };
}

impl Piece for WorkMachine {
    ghost work = { λ x. x };

    #[inline(always)]
    fn joining(me: Me) -> WorkMachine {
        WorkMachine {
            one: Or::First(Or::First(Join::new(me))),
        }
    }

    #[inline(always)]
    fn recovering(me: Me) -> WorkMachine {
        WorkMachine {
            one: Or::First(Or::Second(Calls::new(Recover::new(me)))),
        }
    }

    #[inline(always)]
    fn commanding(me: Me, line: &Line) -> WorkMachine {
        WorkMachine {
            one: Or::Second(Or::First(Command::new(me, line))),
        }
    }

    #[inline(always)]
    fn leaving(me: Me) -> WorkMachine {
        WorkMachine {
            one: Or::Second(Or::Second(Calls::new(Leave::new(me)))),
        }
    }

    #[inline(always)]
    fn is_command(&self) -> bool {
        matches!(self.one, Or::Second(Or::First(_)))
    }

    #[inline(always)]
    fn effect(&self) -> Option<Answer> {
        match &self.one {
            Or::Second(Or::First(command)) => command.effect(),
            _ => None,
        }
    }

    #[inline(always)]
    fn me(&self) -> Me {
        self.one.me()
    }

    #[inline(always)]
    fn finished(&self) -> bool {
        self.one.finished()
    }

    #[inline(always)]
    fn ask(&self) -> Ask {
        self.one.ask()
    }

    #[inline(always)]
    fn take(&mut self, seen: u64) -> Turn<Outcome> {
        self.one.take(seen)
    }

    // Nearly all word steps are a command's: it alone is made here, so that what is inlined stays small.
    #[inline(always)]
    fn act<S: Site>(&mut self, site: &S, words: &mut S::Words) -> Turn<Outcome> {
        match &mut self.one {
            Or::First(first) => match act_apart(first, site, words) {
                Turn::Done(answer) => Turn::Done(Or::First(answer)),
                Turn::More => Turn::More,
                Turn::Died => Turn::Died,
            },
            Or::Second(Or::First(command)) => match command.act(site, words) {
                Turn::Done(answer) => Turn::Done(Or::Second(Or::First(answer))),
                Turn::More => Turn::More,
                Turn::Died => Turn::Died,
            },
            Or::Second(Or::Second(leave)) => match act_apart(leave, site, words) {
                Turn::Done(answer) => Turn::Done(Or::Second(Or::Second(answer))),
                Turn::More => Turn::More,
                Turn::Died => Turn::Died,
            },
        }
    }

    #[inline(always)]
    fn run<S: Site>(&mut self, site: &S, words: &mut S::Words, life: &mut Life) -> Turn<Outcome> {
        self.one.run(site, words, life)
    }
}

/// Makes the word step that a machine asks for next, as a call of its own.
#[inline(never)]
fn act_apart<M: Machine, S: Site>(
    machine: &mut M,
    site: &S,
    words: &mut S::Words,
) -> Turn<M::Answer>
    requires runs { M.control.finished machine.old ≡ false }
    requires may { S.may site.now words.old (M.control.asks machine.old) }
    ensures made { S.made site.now words.old (M.control.asks machine.old) words.new }
    ensures machine { let a = M.control.asks machine.old in machine.new ≡ M.control.after machine.old (S.seen site.now words.old a words.new) }
    ensures turn { let a = M.control.asks machine.old in result ≡ turn_of (M.control.turns machine.old (S.seen site.now words.old a words.new)) }
{
    machine.act(site, words)
}
