//! Calls on tables. Each client has a table of its own, which it alone changes; all may read it.

ghost use Rattle.std.specs.Prelude.{◌≡◌, ◌≢◌, ◌<◌, ◌≤◌, true, false, Some, None, Ok, Err, IfOk, IfErr, MatchOption, if◌then◌else◌};
ghost use Rattle.lojarnek.specs.Standing.{KeepsMap};
ghost use Rattle.lojarnek.specs.Tables.{HasNone, HasNumber, WasTested, OnlyKey, Refuses, SameClient, author_wrong, own_wrong, peer_wrong, found_of, refusal_of, stored_of, there_of};
ghost use Rattle.lojarnek.specs.Queues.{HasReceived, HasSent, WasThere};

use crate::client::Client;
use crate::error::Error;
use shm_script::{Answer, Line};

/// The error of an answer that refuses; `to` is the client whose queue was asked for.
fn refusal(answer: Answer, to: u8) -> Error
    ensures { result ≡ refusal_of answer to }
{
    match answer {
        Answer::Full { segments, blocks } => Error::Full { segments, blocks },
        Answer::CountFull { block, count } => Error::CountFull { block, count },
        Answer::RootsFull => Error::RootsFull,
        Answer::EraSpent { era } => Error::EraSpent { era },
        _ => Error::QueueFull { to },
    }
}

/// Whether a number was stored.
#[inline(always)]
pub(crate) fn stored(answer: Answer) -> Result<(), Error>
    ensures { result ≡ stored_of answer }
{
    match answer {
        Answer::Stored { .. } => Ok(()),
        answer => Err(refusal(answer, 0)),
    }
}

/// The number that was found.
#[inline(always)]
pub(crate) fn found(answer: Answer) -> Result<Option<u64>, Error>
    ensures { result ≡ found_of answer }
{
    match answer {
        Answer::Value { number, .. } => Ok(Some(number)),
        Answer::Missing | Answer::Empty { .. } => Ok(None),
        answer => Err(refusal(answer, 0)),
    }
}

/// Whether the key was there.
#[inline(always)]
pub(crate) fn was_there(answer: Answer, to: u8) -> Result<bool, Error>
    ensures { result ≡ there_of answer to }
{
    match answer {
        Answer::Ok => Ok(true),
        Answer::Missing => Ok(false),
        answer => Err(refusal(answer, to)),
    }
}

impl Client<'_> {
    /// Gives the key this number, in the client's own table.
    ///
    /// # Errors
    ///
    /// `Full`, `RootsFull`, `EraSpent`, and `CountFull`: the table is what it was.
    pub fn put(&mut self, key: u32, number: u64) -> Result<(), Error>
        ensures tested { WasTested (own_wrong self.old) self.old self.new result }
        ensures stored { IfOk result (λ u. HasNumber key number self.new.token.account) }
        ensures others { OnlyKey key self.old.token.account self.new.token.account }
        ensures refused { IfErr result (Refuses (HasNumber key number) self.old self.new) }
        ensures stays { SameClient self.old self.new }
    {
        match self.run(&Line::Put { key, number }) {
            Ok(answer) => stored(answer),
            Err(error) => Err(error),
        }
    }

    /// The number that the key has in the table of `author`, or none. Where that client died with its latch the call tries again until it is recovered,
    /// or until this client's budget is used up.
    ///
    /// # Errors
    ///
    /// `NoSuchClient`.
    pub fn get(&mut self, author: u8, key: u32) -> Result<Option<u64>, Error>
        ensures tested { WasTested (author_wrong self.old author) self.old self.new result }
        ensures found { author ≡ self.old.token.account.who → IfOk result (λ o. MatchOption o (HasNone key self.old.token.account) (λ n. HasNumber key n self.old.token.account)) }
        ensures same { KeepsMap self.old.token.account self.new.token.account }
        ensures refused { IfErr result (Refuses (KeepsMap self.old.token.account) self.old self.new) }
        ensures stays { SameClient self.old self.new }
    {
        match self.run(&Line::Get { author, key }) {
            Ok(answer) => found(answer),
            Err(error) => Err(error),
        }
    }

    /// Removes the key from the client's own table. Answers whether it was there.
    ///
    /// # Errors
    ///
    /// `EraSpent`, and `CountFull`: the table is what it was.
    pub fn del(&mut self, key: u32) -> Result<bool, Error>
        ensures tested { WasTested (own_wrong self.old) self.old self.new result }
        ensures gone { IfOk result (λ b. HasNone key self.new.token.account) }
        ensures was { IfOk result (λ b. WasThere key b self.old.token.account) }
        ensures others { OnlyKey key self.old.token.account self.new.token.account }
        ensures refused { IfErr result (Refuses (HasNone key) self.old self.new) }
        ensures stays { SameClient self.old self.new }
    {
        match self.run(&Line::Del { key }) {
            Ok(answer) => was_there(answer, 0),
            Err(error) => Err(error),
        }
    }

    /// Gives the key, in the client's own table, the value that `other` has in the table of `author`; both tables share it then. Answers its number,
    /// or none where `other` has none there: then nothing changed. It waits as `get` does.
    ///
    /// # Errors
    ///
    /// `NoSuchClient`; `Full`, `RootsFull`, `EraSpent`, and `CountFull` where 1,023 references name the value: the table is what it was.
    pub fn copy(&mut self, key: u32, author: u8, other: u32) -> Result<Option<u64>, Error>
        ensures tested { WasTested (author_wrong self.old author) self.old self.new result }
        ensures stored { IfOk result (λ o. MatchOption o (KeepsMap self.old.token.account self.new.token.account) (λ n. HasNumber key n self.new.token.account)) }
        ensures found { author ≡ self.old.token.account.who → IfOk result (λ o. MatchOption o (HasNone other self.old.token.account) (λ n. HasNumber other n self.old.token.account)) }
        ensures others { OnlyKey key self.old.token.account self.new.token.account }
        ensures refused { IfErr result (Refuses (WasThere key true) self.old self.new) }
        ensures stays { SameClient self.old self.new }
    {
        match self.run(&Line::Copy { key, author, other }) {
            Ok(answer) => found(answer),
            Err(error) => Err(error),
        }
    }

    /// Sends the value that the key has in the client's own table to the client `to`, which shares it then. Answers whether the key was there.
    ///
    /// # Errors
    ///
    /// `NoSuchClient`, `ToItself`; `QueueFull` where eight values wait there, `EraSpent`, `CountFull`: nothing was sent.
    pub fn send_key(&mut self, to: u8, key: u32) -> Result<bool, Error>
        ensures tested { WasTested (peer_wrong self.old to) self.old self.new result }
        ensures was { IfOk result (λ b. WasThere key b self.old.token.account) }
        ensures sent { IfOk result (λ b. HasSent to key b self.old.token.account self.new.token.account) }
        ensures same { KeepsMap self.old.token.account self.new.token.account }
        ensures refused { IfErr result (Refuses (KeepsMap self.old.token.account) self.old self.new) }
        ensures stays { SameClient self.old self.new }
    {
        match self.run(&Line::Send { to, key }) {
            Ok(answer) => was_there(answer, to),
            Err(error) => Err(error),
        }
    }

    /// Gives the key, in the client's own table, the next value that the client `from` has sent. Answers its number, or none where no value waits: then
    /// nothing changed.
    ///
    /// # Errors
    ///
    /// `NoSuchClient`, `ToItself`; `Full`, `RootsFull`, `EraSpent`, `CountFull`: the table is what it was, and the value waits still.
    pub fn recv_key(&mut self, from: u8, key: u32) -> Result<Option<u64>, Error>
        ensures tested { WasTested (peer_wrong self.old from) self.old self.new result }
        ensures stored { IfOk result (λ o. MatchOption o (KeepsMap self.old.token.account self.new.token.account) (λ n. HasNumber key n self.new.token.account)) }
        ensures received { IfOk result (λ o. HasReceived from key o self.old.token.account self.new.token.account) }
        ensures others { OnlyKey key self.old.token.account self.new.token.account }
        ensures refused { IfErr result (Refuses (WasThere key true) self.old self.new) }
        ensures stays { SameClient self.old self.new }
    {
        match self.run(&Line::Recv { from, key }) {
            Ok(answer) => found(answer),
            Err(error) => Err(error),
        }
    }
}
