//! A morgue, its porters and its medics.

ghost use Rattle.std.specs.Prelude.{◌≡◌, ◌+◌, ◌-◌, ◌^◌, ◌<◌, ◌∷◌, ◌++◌, ℕ, [], length, IfOk, IfErr, MatchOption};
ghost use Rattle.std.specs.List.{All, Contains};
ghost use Rattle.crossbeam_queue.specs.Fifo.{Held};
ghost use Rattle.shm_morgue.specs.{Entries.{entry, IsOf, MayHold}, Hands.{IsMedic, IsPorter, puts_of, takes_of}};

use crate::rule::{Place, Pools, Put, Queue, Take, Taken};
use shm_pool::Corpse;
use std::marker::{Model, PhantomData};
use std::sync::Wait;

/// A queue that corpses go through, with room for one of each client. To a contract it is its name.
pub struct Morgue<J: Pools> {
    pub(crate) queue: Queue<J>,
    pub(crate) clients: u8,
    pub(crate) medics: u8,
}

// by hand, so that who lets it go needn't know what it is made of
impl<J: Pools> Drop for Morgue<J> {
    fn drop(self) {
        let Morgue {
            queue: _queue,
            clients: _clients,
            medics: _medics,
        } = self;
    }
}

impl<J: Pools> Model for Morgue<J> {
    ghost use Rattle.std.specs.Prelude.{◌≡◌, ◌<◌};
    ghost use Rattle.shm_morgue.specs.Entries.{Which};

    ghost Value = { Which };

    ghost view = { λ m. record { queue = m.queue.table.shared.table_id; clients = m.clients; medics = m.medics } };

    ghost invariant = { λ m. (m.queue.cap ≡ m.clients) × (0 < m.clients) × (0 < m.medics) };
}

/// Who puts the corpses of one client. Contracts see all that it has put.
pub struct Porter<J: Pools> {
    pub(crate) place: Place,
    pub(crate) client: u8,
    pub(crate) puts: u32,
    pub(crate) pools: PhantomData<J>,
}

impl<J: Pools> Drop for Porter<J> {
    fn drop(self) {
        let Porter {
            place: _place,
            client: _client,
            puts: _puts,
            pools: _pools,
        } = self;
    }
}

impl<J: Pools> Model for Porter<J> {
    ghost use Rattle.shm_morgue.specs.Entries.{Puts};

    ghost Value = { Puts };

    ghost use Rattle.shm_morgue.specs.Hands.{IsPorter, puts_of};

    ghost view = { λ p. puts_of p.place p.client };

    ghost invariant = { λ p. IsPorter p.place p.client p.puts };
}

/// Who takes corpses. Contracts see all that it has taken.
pub struct Medic<J: Pools> {
    pub(crate) place: Place,
    pub(crate) pools: PhantomData<J>,
}

impl<J: Pools> Drop for Medic<J> {
    fn drop(self) {
        let Medic {
            place: _place,
            pools: _pools,
        } = self;
    }
}

impl<J: Pools> Model for Medic<J> {
    ghost use Rattle.shm_morgue.specs.Entries.{Takes};

    ghost Value = { Takes };

    ghost use Rattle.shm_morgue.specs.Hands.{IsMedic, takes_of};

    ghost view = { λ m. takes_of m.place };

    ghost invariant = { λ m. IsMedic m.place };
}

/// A put that was refused, with its corpse.
#[derive(Drop)]
pub struct NoRoom {
    pub corpse: Corpse,
}

impl<J: Pools> Porter<J> {
    /// Its pass of the queue.
    pub(crate) fn into_place(self) -> Place
        ensures view { puts_of result self.client ≡ self }
        ensures porter { (n : ℕ) × IsPorter result self.client n }
    {
        let Porter {
            place,
            client: _,
            puts: _,
            pools: _,
        } = self;
        place
    }

    /// Whose corpses it puts.
    pub fn client(&self) -> u8
        ensures { result ≡ self.now.client }
    {
        self.client
    }

    /// How many corpses it has put.
    pub fn puts(&self) -> u32
        ensures { result ≡ length self.now.entries }
    {
        self.puts
    }

    /// Puts a corpse of the porter's client, and answers how many this porter had put before. It may wait in the queue.
    ///
    /// # Errors
    ///
    /// `NoRoom` with the corpse, where the queue held a corpse for each client of the morgue at one step of this call: that it comes nowhere else is tested, and no clause says it.
    pub fn put<R: Wait>(
        &mut self,
        rt: &R,
        morgue: &Morgue<J>,
        corpse: Corpse,
    ) -> Result<u32, NoRoom>
        requires of { self.old.of ≡ morgue.now }
        requires few { length self.old.entries + 1 < 2 ^ 32 }
        requires client { corpse.account.who ≡ self.old.client }
        requires pool { Contains J.pools corpse.of }
        ensures same { (self.new.of ≡ self.old.of) × (self.new.client ≡ self.old.client) }
        ensures put { IfOk result (λ n. (n ≡ length self.old.entries) × (self.new.entries ≡ self.old.entries ++ entry corpse n ∷ [])) }
        ensures full { IfErr result (λ e. (e.corpse ≡ corpse) × (self.new ≡ self.old) × Held morgue.now.clients (MayHold J.pools self.old.client (length self.old.entries))) }
    {
        let number = self.puts;
        match morgue
            .queue
            .push_as::<Put<J>, R>(rt, &mut self.place, Taken { corpse, number })
        {
            Ok(()) => {
                self.puts = number + 1;
                Ok(number)
            }
            Err(Taken { corpse, number: _ }) => Err(NoRoom { corpse }),
        }
    }
}

impl<J: Pools> Medic<J> {
    /// Its pass of the queue.
    pub(crate) fn into_place(self) -> Place
        ensures view { takes_of result ≡ self }
        ensures medic { IsMedic result }
    {
        let Medic { place, pools: _ } = self;
        place
    }

    /// Takes a corpse that waits: those of each porter in the order of its puts. It may wait in the queue. `None` comes where the queue was empty at one step of this call: that it comes nowhere else is tested, and no clause says it.
    pub fn take<R: Wait>(&mut self, rt: &R, morgue: &Morgue<J>) -> Option<Taken>
        requires of { self.old.of ≡ morgue.now }
        ensures same { self.new.of ≡ self.old.of }
        ensures taken { MatchOption result ((self.new ≡ self.old) × Held 0 (All (IsOf J.pools))) (λ x. (self.new.entries ≡ self.old.entries ++ x ∷ []) × IsOf J.pools x) }
    {
        morgue.queue.pop_as::<Take<J>, R>(rt, &mut self.place)
    }
}
