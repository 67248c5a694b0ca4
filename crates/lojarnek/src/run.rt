//! Commands, before their answers are put in a caller's words.

ghost use Rattle.std.specs.Prelude.{◌≡◌, ◌≢◌, ◌<◌, ◌==◌, true, false, if◌then◌else◌, Some, None, IfSome, IsNone};
ghost use Rattle.shm_script.specs.Ranges.{LineFits};
ghost use Rattle.shm_pool.specs.{Called.HasCommanded, Replies.{IfReply, IsLost}};
ghost use Rattle.lojarnek.specs.Standing.{IsReadyForCall};
ghost use Rattle.lojarnek.specs.Running.{CameOf, IsWrong, KeysFit, MayBeRun, had_effect, wrong_of};
ghost use Rattle.lojarnek.specs.Tables.{WasTested, unknown_of};

use crate::client::Client;
use crate::error::Error;
use shm_graph::Life;
use shm_pool::{Reply, SharedPool};
use shm_script::{Answer, Line};

/// Whether this answer, which the command of a line was going to give, says that it took effect.
#[inline(never)]
pub(crate) fn had_effect(line: &Line, effect: Option<Answer>) -> bool
    ensures { result ≡ had_effect line.now effect }
{
    match (*line, effect) {
        (Line::Put { .. }, Some(Answer::Stored { .. })) => true,
        (Line::Copy { .. } | Line::Recv { .. }, Some(Answer::Value { .. })) => true,
        (Line::Del { .. } | Line::Send { .. }, Some(Answer::Ok)) => true,
        _ => false,
    }
}

/// The same line: its keys and numbers are in the ranges of their types.
pub(crate) fn in_range(line: Line) -> Line
    ensures is { result ≡ line }
    ensures fits { KeysFit line }
{
    match line {
        Line::Put { key, number } => Line::Put { key, number },
        Line::Del { key } => Line::Del { key },
        Line::Get { author, key } => Line::Get { author, key },
        Line::Copy { key, author, other } => Line::Copy { key, author, other },
        Line::Send { to, key } => Line::Send { to, key },
        Line::Recv { from, key } => Line::Recv { from, key },
    }
}

impl Client<'_> {
    /// What is wrong with the call of a line: whether the pool is for tables is tested, and the clients that it names.
    #[inline(always)]
    pub(crate) fn wrong(&self, line: &Line) -> Option<Error>
        ensures is { result ≡ wrong_of self.now line.now }
        ensures why { IfSome result (IsWrong self.now) }
        ensures tables { IsNone result → self.now.token.of.start.tables ≡ true }
        ensures fits { IsNone result → KeysFit line.now → LineFits self.now.token.of.start.geometry.clients self.now.token.account.who line.now }
    {
        if !self.place.tables {
            return Some(Error::WrongKind);
        }
        match *line {
            Line::Put { .. } | Line::Del { .. } => None,
            Line::Get { author, .. } | Line::Copy { author, .. } => self.unknown(author),
            Line::Send { to, .. } => self.no_peer(to),
            Line::Recv { from, .. } => self.no_peer(from),
        }
    }

    /// Tests the number of a client.
    #[inline(always)]
    pub(crate) fn unknown(&self, client: u8) -> Option<Error>
        ensures is { result ≡ unknown_of self.now client }
        ensures why { IfSome result (IsWrong self.now) }
        ensures known { IsNone result → client < self.now.token.of.start.geometry.clients }
    {
        let clients = self.place.pool.geometry().clients();
        if clients <= client {
            return Some(Error::NoSuchClient { client, clients });
        }
        None
    }

    /// Tests whether it is the number of another client.
    #[inline(always)]
    pub(crate) fn no_peer(&self, client: u8) -> Option<Error>
        ensures is { result ≡ (if client == self.now.token.account.who then Some (Error.ToItself client) else unknown_of self.now client) }
        ensures why { IfSome result (IsWrong self.now) }
        ensures known { IsNone result → client < self.now.token.of.start.geometry.clients }
        ensures other { IsNone result → client ≢ self.now.token.account.who }
    {
        if client == self.number() {
            return Some(Error::ToItself { client });
        }
        self.unknown(client)
    }

    /// Runs the command of a line.
    #[inline(always)]
    pub(crate) fn run(&mut self, line: &Line) -> Result<Answer, Error>
        requires { KeysFit line.now }
        ensures tested { WasTested (wrong_of self.old line.now) self.old self.new result }
        ensures ran { CameOf line.now self.old self.new result }
    {
        if let Some(error) = self.wrong(line) {
            return Err(error);
        }
        if self.dead {
            return Err(Error::Died { done: false });
        }
        self.command(line)
    }

    /// Runs the command of a line with which nothing is wrong, by a client that lives.
    #[inline(always)]
    fn command(&mut self, line: &Line) -> Result<Answer, Error>
        requires may { MayBeRun self.old }
        requires right { wrong_of self.old line.now ≡ None }
        requires fits { LineFits self.old.token.of.start.geometry.clients self.old.token.account.who line.now }
        ensures tested { WasTested (wrong_of self.old line.now) self.old self.new result }
        ensures ran { CameOf line.now self.old self.new result }
    {
        match carry(&mut self.token, self.place.pool, &mut self.life, line) {
            Reply::Done(answer) => Ok(answer),
            Reply::Died => {
                self.dead = true;
                Err(Error::Died {
                    done: had_effect(line, self.token.effect()),
                })
            }
        }
    }
}

/// Runs the command of a line by a client that is ready for it.
#[inline(always)]
fn carry(
    token: &mut shm_pool::Client,
    pool: &SharedPool,
    life: &mut Life,
    line: &Line,
) -> Reply<Answer>
    requires pool { token.old.of ≡ pool.now }
    requires ready { IsReadyForCall token.old }
    requires tables { token.old.of.start.tables ≡ true }
    requires fits { LineFits token.old.of.start.geometry.clients token.old.account.who line.now }
    ensures called { HasCommanded line.now token.old token.new life.old.left life.new.left result }
    ensures same { (token.new.of ≡ token.old.of) × (token.new.account.who ≡ token.old.account.who) }
    ensures ready { IsReadyForCall token.new }
    ensures lives { IfReply result (λ a. token.new.dead ≡ false) }
    ensures died { IsLost result → token.new.dead ≡ true }
{
    // for the proof: it is a client's
    token.me();
    token.command(pool, life, line)
}
