//! A morgue is made.

ghost use Rattle.std.specs.Prelude.{◌≡◌, ◌<◌, ◌≤◌, [], IfOk, OnOk};
ghost use Rattle.crossbeam_queue.specs.Passes.{IsPassOf, view};
ghost use Rattle.shm_morgue.specs.{Closing.IsPlaceOf, Entries.{first_medics, first_porters}};
ghost use Rattle.shm_morgue.specs.Hands.{blank_desks, blank_lists, hands, newborn, which, whole};

use crate::morgue::{Medic, Morgue, Porter};
use crate::rule::{CutsMedic, CutsPorter, Opens, Place, Pools, Queue, Sizes};
use std::alloc::{AllocError, Global};
use std::marker::{Brand, PhantomData};

/// A morgue as it is made: with a porter for each client, in order, and its medics.
#[derive(Drop)]
pub struct Made3<J: Pools> {
    pub morgue: Morgue<J>,
    pub porters: Vec<Porter<J>>,
    pub medics: Vec<Medic<J>>,
}

/// All desks and all lists are set up at the first pass.
fn open<J: Pools, K: Sizes>(queue: &Queue<J>, home: &mut Place, clients: u8, doctors: u8)
    requires of { IsPassOf queue.now home.old }
    requires fresh { view home.old ≡ newborn }
    requires sizes { (clients ≡ K.clients) × (doctors ≡ K.doctors) }
    ensures of { IsPassOf queue.now home.new }
    ensures view { view home.new ≡ whole clients doctors }
{
    let _ = (clients, doctors);
    queue.another::<Opens<K>>(home);
}

/// A porter for each client, in order, at the first pass.
fn cut_porters<J: Pools>(
    alloc: Global,
    queue: &Queue<J>,
    home: &mut Place,
    clients: u8,
    doctors: u8,
) -> Result<Vec<Porter<J>>, AllocError>
    requires of { IsPassOf queue.now home.old }
    requires some { 0 < clients }
    requires view { view home.old ≡ whole clients doctors }
    ensures of { OnOk result (IsPassOf queue.now home.new) }
    ensures which { OnOk result (which home.new ≡ which home.old) }
    ensures view { OnOk result (view home.new ≡ hands [] (blank_lists doctors) clients doctors) }
    ensures porters { IfOk result (λ v. v.items ≡ first_porters (which home.old) 0 clients) }
{
    let _ = doctors;
    let mut porters = Vec::with_capacity(alloc, clients as usize)?;
    for client in 0..clients {
        let place = queue.another::<CutsPorter>(home);
        porters.push_reserved(Porter {
            place,
            client,
            puts: 0,
            pools: PhantomData,
        });
    }
    Ok(porters)
}

/// The medics, at a pass at which no porter is left.
fn cut_medics<J: Pools>(
    alloc: Global,
    queue: &Queue<J>,
    home: &mut Place,
    clients: u8,
    doctors: u8,
) -> Result<Vec<Medic<J>>, AllocError>
    requires of { IsPassOf queue.now home.old }
    requires some { 0 < clients }
    requires view { view home.old ≡ hands [] (blank_lists doctors) clients doctors }
    ensures medics { IfOk result (λ v. v.items ≡ first_medics (which home.old) doctors) }
{
    let _ = clients;
    let mut medics = Vec::with_capacity(alloc, doctors as usize)?;
    for _medic in 0..doctors {
        let place = queue.another::<CutsMedic>(home);
        medics.push_reserved(Medic {
            place,
            pools: PhantomData,
        });
    }
    Ok(medics)
}

/// A morgue whose desks and lists aren't set up yet, and its first pass.
fn begun<J: Pools>(alloc: Global, clients: u8, medics: u8) -> Result<(Morgue<J>, Place), AllocError>
    requires clients { 0 < clients }
    requires medics { 0 < medics }
    ensures which { IfOk result (λ r. r.0 ≡ record { queue = r.1.table_id; clients = clients; medics = medics }) }
    ensures of { IfOk result (λ r. IsPlaceOf r.0 r.1) }
    ensures fresh { IfOk result (λ r. view r.1 ≡ newborn) }
{
    let (queue, home) = Queue::ruled(alloc, clients as usize)?;
    Ok((
        Morgue {
            queue,
            clients,
            medics,
        },
        home,
    ))
}

/// A porter for each client, in order, and the medics, by the first pass of a morgue.
fn cut_all<J: Pools>(
    alloc: Global,
    queue: &Queue<J>,
    mut home: Place,
    clients: u8,
    doctors: u8,
) -> Result<(Vec<Porter<J>>, Vec<Medic<J>>), AllocError>
    requires of { IsPassOf queue.now home }
    requires fresh { view home ≡ newborn }
    requires some { 0 < clients }
    ensures porters { IfOk result (λ v. v.0.items ≡ first_porters (record { queue = home.table_id; clients = clients; medics = doctors }) 0 clients) }
    ensures medics { IfOk result (λ v. v.1.items ≡ first_medics (record { queue = home.table_id; clients = clients; medics = doctors }) doctors) }
{
    open::<J, Brand>(queue, &mut home, clients, doctors);
    let porters = cut_porters(alloc, queue, &mut home, clients, doctors)?;
    let medics = cut_medics(alloc, queue, &mut home, clients, doctors)?;
    Ok((porters, medics))
}

impl<J: Pools> Morgue<J> {
    /// A queue with room for a corpse of each of 1 to 16 clients, a porter for each client, in order, and 1 to 4 medics.
    ///
    /// # Errors
    ///
    /// Want of memory.
    pub fn make(alloc: Global, clients: u8, medics: u8) -> Result<Made3<J>, AllocError>
        requires clients { (0 < clients) × (clients ≤ 16) }
        requires medics { (0 < medics) × (medics ≤ 4) }
        ensures morgue { IfOk result (λ m. (m.morgue.clients ≡ clients) × (m.morgue.medics ≡ medics)) }
        ensures porters { IfOk result (λ m. m.porters.items ≡ first_porters m.morgue 0 clients) }
        ensures medics { IfOk result (λ m. m.medics.items ≡ first_medics m.morgue medics) }
    {
        let (morgue, home) = begun(alloc, clients, medics)?;
        let (porters, medics) = cut_all(alloc, &morgue.queue, home, clients, medics)?;
        Ok(Made3 {
            morgue,
            porters,
            medics,
        })
    }
}
