//! A join, a recovery, a command or a leaving, by numbers.

ghost use Rattle.std.specs.{Prelude.{◌≡◌, ◌<◌, IfSome, true}, Option.option_map};
ghost use Rattle.shm_words.specs.Layout.{GeometryFits};
ghost use Rattle.shm_table.specs.Command.{LineMayStand};
ghost use Rattle.shm_sitting.specs.Tables.{command_by, lived as tables_lived, may_be, settled as outcome_reply, tables};
ghost use Rattle.shm_sitting.specs.declared.work.WorkAnswer.TheVariants as whole;

use crate::numbers::{answered, line_of};
use plans::Or;
use shm_count::EraSpent;
use shm_graph::{Ask, Life, Machine, Me, Site, Turn};
use shm_script::{Answer, Line};
use shm_session::{Call, Misuse, Reply, Said, Sits, Stage, work_at};
use shm_singles::{Lives, LivesAnswer};
use shm_table::Command;

/// A piece of work of an identity.
#[derive(Drop)]
pub enum Work {
    /// A join, a recovery or a leaving.
    Lives(Lives),
    /// A command.
    Command(Command),
}

/// What it answers.
#[derive(Drop)]
pub enum WorkAnswer {
    Lives(LivesAnswer),
    Command(Answer),
}

/// The operations of an identity in a pool for tables.
#[derive(Drop)]
pub struct Tables;

/// Whether this identity may be given the command.
fn may_stand(me: Me, line: Line) -> bool
    ensures is { result ≡ may_be me line }
    ensures may { result ≡ true → LineMayStand me line }
{
    let clients = me.geometry.clients();
    match line {
        Line::Put { .. } | Line::Del { .. } => true,
        Line::Get { author, .. } | Line::Copy { author, .. } => author < clients,
        Line::Send { to, .. } => to < clients && me.who != to,
        Line::Recv { from, .. } => from < clients && from != me.who,
    }
}

/// The line of a command that this identity may be given; none where a number is out of its range.
fn command_of(me: Me, call: Call) -> Option<Line>
    ensures is { result ≡ command_by me call }
    ensures may { IfSome result (λ l. LineMayStand me l) }
{
    let line = line_of(call)?;
    if may_stand(me, line) {
        Some(line)
    } else {
        None
    }
}

/// After a recovery or a leaving: the identity is new or gone, where its era isn't spent, and stands as before where it is.
fn settled(outcome: Result<(), EraSpent>, before: Stage) -> Reply
    ensures { result ≡ outcome_reply outcome before }
{
    match outcome {
        Ok(()) => Reply {
            said: Said::of(16),
            stage: Stage::Vacant,
        },
        Err(spent) => Reply {
            said: Said::new(25, 0, spent.era, 0),
            stage: before,
        },
    }
}

/// What came of a join, a recovery or a leaving.
fn lived(answer: LivesAnswer, before: Stage) -> Reply
    ensures { result ≡ tables_lived answer before }
{
    match answer {
        Or::First(()) => Reply {
            said: Said::of(16),
            stage: Stage::Live,
        },
        Or::Second(Or::First(outcome)) => settled(outcome, before),
        Or::Second(Or::Second(outcome)) => settled(outcome, before),
    }
}

/// What a join, a recovery or a leaving answered, as an answer of the work.
#[inline(always)]
fn of_life(answer: Option<LivesAnswer>) -> Option<WorkAnswer>
    ensures { result ≡ option_map whole.Lives answer }
{
    match answer {
        Some(answer) => Some(WorkAnswer::Lives(answer)),
        None => None,
    }
}

/// What a command answered, as an answer of the work.
#[inline(always)]
fn of_command(answer: Option<Answer>) -> Option<WorkAnswer>
    ensures { result ≡ option_map whole.Command answer }
{
    match answer {
        Some(answer) => Some(WorkAnswer::Command(answer)),
        None => None,
    }
}

impl Sits for Tables {
    type Work = Work;

    type Answer = WorkAnswer;

    ghost operations = { tables };

    fn begin(me: Me, stage: Stage, call: Call) -> Result<Work, Misuse> {
        match call.op {
            1 => match stage {
                Stage::Vacant => Ok(Work::Lives(Lives::join(me))),
                Stage::Live | Stage::Dead => Err(Misuse::Stage),
            },
            2 => match stage {
                Stage::Live => Ok(Work::Lives(Lives::leave(me))),
                Stage::Vacant | Stage::Dead => Err(Misuse::Stage),
            },
            3 => match stage {
                Stage::Dead => Ok(Work::Lives(Lives::recover(me))),
                Stage::Vacant | Stage::Live => Err(Misuse::Stage),
            },
            _ => match command_of(me, call) {
                Some(line) => match stage {
                    Stage::Live => Ok(Work::Command(Command::new(me, &line))),
                    Stage::Vacant | Stage::Dead => Err(Misuse::Stage),
                },
                None => Err(Misuse::Range),
            },
        }
    }

    #[inline(always)]
    fn is_over(work: &Work) -> bool {
        match work {
            Work::Lives(machine) => machine.is_over(),
            Work::Command(machine) => machine.finished(),
        }
    }

    #[inline(always)]
    fn ask(work: &Work) -> Ask {
        match work {
            Work::Lives(machine) => machine.ask(),
            Work::Command(machine) => machine.ask(),
        }
    }

    #[inline(always)]
    fn take(work: &mut Work, seen: u64) -> Option<WorkAnswer> {
        match work {
            Work::Lives(machine) => match machine.take(seen) {
                Turn::Done(answer) => Some(WorkAnswer::Lives(answer)),
                Turn::More | Turn::Died => None,
            },
            Work::Command(machine) => match machine.take(seen) {
                Turn::Done(answer) => Some(WorkAnswer::Command(answer)),
                Turn::More | Turn::Died => None,
            },
        }
    }

    #[inline(always)]
    fn run<T: Site>(
        work: &mut Work,
        site: &T,
        words: &mut T::Words,
        life: &mut Life,
    ) -> Option<WorkAnswer> {
        match work {
            Work::Lives(machine) => of_life(machine.run(site, words, life)),
            Work::Command(machine) => of_command(work_at(machine, site, words, life)),
        }
    }

    fn reply(answer: WorkAnswer, stage: Stage) -> Reply {
        match answer {
            WorkAnswer::Lives(answer) => lived(answer, stage),
            WorkAnswer::Command(answer) => Reply {
                said: answered(answer),
                stage,
            },
        }
    }

    fn effect(work: &Work) -> Option<Said> {
        match work {
            Work::Lives(_) => None,
            Work::Command(command) => Some(answered(command.effect()?)),
        }
    }
}
