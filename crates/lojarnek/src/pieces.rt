//! Calls of a client that are made some word steps at a time.

ghost use Rattle.std.specs.Prelude.{◌≡◌, ◌+◌, ℕ, true, false};
ghost use Rattle.shm_script.specs.{Ranges.LineFits, declared.line.Line.Line as ALine};
ghost use Rattle.shm_graph.specs.declared.ask.Turn.TheVariants.{More};
ghost use Rattle.shm_pool.specs.{Calls.IsBetween, Tokens.me_of};
ghost use Rattle.shm_table.specs.Command.{command_effect};
ghost use Rattle.lojarnek.specs.{Amid.{HasGone, IsAmid}, Pending.{HasGoneOn, IsAmidLine}};
ghost use Rattle.lojarnek.specs.Standing.{Acts, IsReadyForCall, acts_of};

use shm_graph::{Life, Operation, Turn};
use shm_pool::SharedPool;
use shm_script::{Answer, Line};
use shm_table::{Command, command_maps, command_sends};

/// Before its first word step an operation is in the middle of its call.
fn begun<O: Operation>(token: &shm_pool::Client, operation: &O)
    requires alive { token.now.dead ≡ false }
    requires between { IsBetween token.now.account }
    requires me { O.control.me operation.now ≡ me_of token.now.of token.now.account }
    requires may { O.may operation.now token.now.account.memo }
    ensures { (left : ℕ) → IsAmid O.control O.fits O.gives O.may operation.now operation.now (acts_of token.now left) (acts_of token.now left) }
{
    // for the proof: the contract alone speaks of the operation, and the account stood
    let _ = operation;
    token.client();
}

/// Makes so many word steps of an operation at most: `More` where it hasn't answered by then.
fn go_on<O: Operation>(
    token: &mut shm_pool::Client,
    pool: &SharedPool,
    life: &mut Life,
    operation: &mut O,
    steps: u64,
) -> Turn<O::Answer>
    requires pool { token.old.of ≡ pool.now }
    requires amid { (n : O) × (c : Acts) × IsAmid O.control O.fits O.gives O.may n operation.old c (acts_of token.old life.old.left) }
    ensures gone { (n : O) (c : Acts) → IsAmid O.control O.fits O.gives O.may n operation.old c (acts_of token.old life.old.left) → HasGone O.control O.fits O.gives O.may O.does O.leaves O.rests n operation.new c (acts_of token.new life.new.left) result }
    ensures steps { result ≡ More → life.new.left + steps ≡ life.old.left }
{
    let mut rest = steps;
    'goes: while 0 < rest {
        rest -= 1;
        // for the proof: its account stood
        token.client();
        match token.step(pool, operation, life) {
            Turn::More => {}
            Turn::Done(answer) => return Turn::Done(answer),
            Turn::Died => return Turn::Died,
        }
    }
    Turn::More
}

/// The command of a line, before its first word step.
pub(crate) fn begin(token: &shm_pool::Client, line: &Line) -> Command
    requires alive { token.now.dead ≡ false }
    requires ready { IsReadyForCall token.now }
    requires tables { token.now.of.start.tables ≡ true }
    requires fits { LineFits token.now.of.start.geometry.clients token.now.account.who line.now }
    ensures { (left : ℕ) → IsAmidLine line.now result (acts_of token.now left) (acts_of token.now left) }
{
    let command = Command::new(token.me(), line);
    begun(token, &command);
    command
}

/// Makes so many word steps of a line's command at most.
pub(crate) fn go(
    token: &mut shm_pool::Client,
    pool: &SharedPool,
    life: &mut Life,
    command: &mut Command,
    steps: u64,
) -> Turn<Answer>
    requires pool { token.old.of ≡ pool.now }
    requires amid { (l : ALine) × (c : Acts) × IsAmidLine l command.old c (acts_of token.old life.old.left) }
    ensures gone { (l : ALine) (c : Acts) → IsAmidLine l command.old c (acts_of token.old life.old.left) → IsReadyForCall c.token → c.token.of.start.tables ≡ true → HasGoneOn l command.new c (acts_of token.new life.new.left) (command_effect command.new) result }
    ensures steps { result ≡ More → life.new.left + steps ≡ life.old.left }
{
    // for the proof: while a command runs, the map and what was sent are what its effect says
    command_maps();
    command_sends();
    go_on(token, pool, life, command, steps)
}
