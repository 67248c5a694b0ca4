//! Commands on tables that are made some word steps at a time, for whoever must not wait.

ghost use Rattle.std.specs.Prelude.{◌≡◌, None, IfOk, IfErr};
ghost use Rattle.lojarnek.specs.{Running.wrong_of, Standing.corpse_of, Pending.IsUnstarted, Progressing.Goes};

use crate::client::Client;
use crate::corpse::Corpse;
use crate::desk::Rest;
use crate::error::Error;
use crate::outcome::{Outcome, outcome_of};
use crate::pieces::{begin, go};
use crate::place::Place;
use crate::run::{had_effect, in_range};
use shm_graph::{Life, Turn};
use shm_script::Line;
use shm_table::Command;
use std::marker::Model;
use std::snapshot::Snapshot;
use std::{error, fmt};

/// A client in the middle of a command. Whoever drops it has the client die there (`Pool::corpse`).
pub struct Call<'p> {
    place: Place<'p>,
    token: shm_pool::Client,
    life: Life,
    line: Line,
    command: Command,
    from: Snapshot<Client<'p>>,
}

impl<'p> Model for Call<'p> {
    ghost use Rattle.std.specs.Prelude.{◌≡◌, true};
    ghost use Rattle.lojarnek.specs.{Homes.IsHome, Pending.{IsAmidLine, Started}, Standing.{IsReadyForCall, acts_of}};

    ghost Value = { Started };

    ghost view = { λ c. record { from = c.from.value; now = acts_of c.token c.life.left; line = c.line } };

    ghost invariant = { λ c. IsHome c.place c.token.of c.token.account.who × IsReadyForCall c.from.value.token × (c.from.value.token.of.start.tables ≡ true) × IsAmidLine c.line c.command c.from.value (acts_of c.token c.life.left) };
}

/// How far a command has come.
#[derive(Debug, Drop)]
pub enum Progress<'p> {
    /// It hasn't answered yet.
    Pending(Call<'p>),
    /// It has answered or was refused, or the client died in it.
    Done(Client<'p>, Result<Outcome, Error>),
}

/// A command that wasn't begun: the client as it was, and why.
#[derive(Debug, Drop)]
pub struct NotStarted<'p> {
    pub client: Client<'p>,
    pub error: Error,
}

impl<'p> Client<'p> {
    /// Begins a command on tables, without a word step.
    ///
    /// # Errors
    ///
    /// The client, and what the call of the command answers before its first word step: `WrongKind`, `NoSuchClient`, `ToItself`, and `Died`.
    pub fn start(self, command: Line) -> Result<Call<'p>, NotStarted<'p>>
        ensures ok { IfOk result (λ s. (s.from ≡ self.entry) × (s.now ≡ self.entry) × (s.line ≡ command) × (wrong_of self.entry command ≡ None)) }
        ensures err { IfErr result (λ r. (r.client ≡ self.entry) × IsUnstarted command self.entry r.error) }
    {
        if let Some(error) = self.wrong(&command) {
            return Err(NotStarted {
                client: self,
                error,
            });
        }
        if self.dead {
            return Err(NotStarted {
                client: self,
                error: Error::Died { done: false },
            });
        }
        // for the proof: keys and numbers are in their ranges
        in_range(command);
        let from = Snapshot::of(&self);
        let (place, token, life) = self.into_parts();
        let machine = begin(&token, &command);
        Ok(Call {
            place,
            token,
            life,
            line: command,
            command: machine,
            from,
        })
    }
}

impl<'p> Call<'p> {
    /// The number of the identity.
    pub fn number(&self) -> u8
        ensures { result ≡ self.now.now.token.account.who }
    {
        self.token.client()
    }

    /// How many word steps are left of the client's budget.
    pub fn budget(&self) -> u64
        ensures { result ≡ self.now.now.left }
    {
        self.life.left
    }

    /// Goes on by so many word steps at most. While it says `Pending` it made just so many; the call of the same name tells what an answer says.
    pub fn go(self, steps: u64) -> Progress<'p>
        ensures { Goes steps self.entry result }
    {
        let Call {
            place,
            mut token,
            mut life,
            line,
            mut command,
            from,
        } = self;
        match go(&mut token, place.pool, &mut life, &mut command, steps) {
            Turn::More => Progress::Pending(Call {
                place,
                token,
                life,
                line,
                command,
                from,
            }),
            Turn::Done(answer) => {
                let client = Client::after(place, token, life, false);
                Progress::Done(client, outcome_of(&line, answer))
            }
            Turn::Died => {
                let done = had_effect(&line, command.effect());
                let client = Client::after(place, token, life, true);
                Progress::Done(client, Err(Error::Died { done }))
            }
        }
    }

    /// The client dies in the middle of the command.
    pub fn fall(self) -> Corpse<'p>
        ensures { result ≡ corpse_of self.entry.now }
    {
        let Call {
            place,
            token,
            life: _,
            line: _,
            command: _command,
            from: _,
        } = self;
        Corpse::at(place, token.fall())
    }
}

impl Drop for Call<'_> {
    fn drop(self) {
        let Call {
            place,
            token,
            life: _,
            line: _,
            command: _command,
            from: _,
        } = self;
        place.desk.lay(Rest::Corpse(token.fall()));
    }
}

impl fmt::Debug for Call<'_> {
    fn fmt<W: fmt::Write>(&self, f: &mut fmt::Formatter<W>) -> fmt::Result {
        write!(f, "Call({}, {:?})", self.number(), self.line)
    }
}

impl fmt::Display for Call<'_> {
    fn fmt<W: fmt::Write>(&self, f: &mut fmt::Formatter<W>) -> fmt::Result {
        write!(f, "client {} in the middle of a command", self.number())
    }
}

impl<'p> From<NotStarted<'p>> for Error {
    ghost use Rattle.std.specs.Prelude.{◌≡◌};

    ghost from_gives = { λ s e. e ≡ s.error };

    fn from(stopped: NotStarted<'p>) -> Error {
        stopped.error
    }
}

impl fmt::Display for NotStarted<'_> {
    fn fmt<W: fmt::Write>(&self, f: &mut fmt::Formatter<W>) -> fmt::Result {
        write!(
            f,
            "the command of {} isn't begun: {}",
            self.client, self.error
        )
    }
}

impl error::Error for NotStarted<'_> {}
