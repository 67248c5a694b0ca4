//! A morgue is closed.

ghost use Rattle.std.specs.Prelude.{◌≡◌, ◌-◌, ◌<◌, ◌≤◌, [], length, IfOk, IfErr, vec_len, vec_capacity};
ghost use Rattle.std.specs.List.{All, AllByRecursion};
ghost use Rattle.crossbeam_queue.specs.Passes.{view};
ghost use Rattle.shm_morgue.specs.Closing.{IsCause, IsEmptied, IsPlaceOf, desks_of, lists_of};
ghost use Rattle.shm_morgue.specs.{Entries.{IsCarried, IsOf, Puts as APorter, Takes as AMedic}, Hands.hands};

use crate::morgue::{Medic, Morgue, Porter};
use crate::rule::{Gathers, Place, Pools, Take, Taken};
use std::alloc::{AllocError, Global};
use std::sync::Wait;

/// Why a closing was refused.
#[derive(Drop)]
pub enum MorgueCause {
    /// There was no memory for what is left.
    Memory(AllocError),
    /// Porters or medics of the morgue aren't in the lists: so many of each.
    Absent { porters: u8, medics: u8 },
}

/// A closing that was refused: all that it was given, as it was, and why.
#[derive(Drop)]
pub struct MorgueStop<J: Pools> {
    pub morgue: Morgue<J>,
    pub porters: Vec<Porter<J>>,
    pub medics: Vec<Medic<J>>,
    pub cause: MorgueCause,
}

/// How many are missing.
fn missing(all: u8, here: usize) -> u8
    ensures { result ≡ all - here }
{
    (all as usize).saturating_sub(here) as u8
}

/// One pass for all medics.
fn gather_medics<J: Pools>(morgue: &Morgue<J>, mut medics: Vec<Medic<J>>) -> Place
    requires some { 0 < vec_len medics }
    requires of { AllByRecursion (λ (m : AMedic). m.of ≡ morgue.now) medics.items }
    ensures of { IsPlaceOf morgue.now result }
    ensures view { view result ≡ hands [] (lists_of medics.items) morgue.now.clients morgue.now.medics }
{
    let Some(first) = medics.pop() else {
        unreachable!()
    };
    let mut place = first.into_place();
    while let Some(medic) = medics.pop() {
        let other = medic.into_place();
        morgue.queue.absorb::<Gathers>(&mut place, other);
    }
    place
}

/// And for all porters too.
fn gather_porters<J: Pools>(
    morgue: &Morgue<J>,
    mut place: Place,
    mut porters: Vec<Porter<J>>,
) -> Place
    requires place { IsPlaceOf morgue.now place }
    requires view { view place ≡ hands [] (view place).medics morgue.now.clients morgue.now.medics }
    requires of { AllByRecursion (λ (p : APorter). p.of ≡ morgue.now) porters.items }
    ensures of { IsPlaceOf morgue.now result }
    ensures view { view result ≡ hands (desks_of porters.items) (view place).medics morgue.now.clients morgue.now.medics }
{
    while let Some(porter) = porters.pop() {
        let other = porter.into_place();
        morgue.queue.absorb::<Gathers>(&mut place, other);
    }
    place
}

/// All that the queue holds, by a pass that answers for all porters and medics.
fn empty<J: Pools, R: Wait>(
    rt: &R,
    morgue: &Morgue<J>,
    mut place: Place,
    mut left: Vec<Taken>,
) -> Vec<Taken>
    requires place { IsPlaceOf morgue.now place }
    requires all { (morgue.now.clients ≤ length (view place).porters) × (morgue.now.medics ≤ length (view place).medics) }
    requires view { view place ≡ hands (view place).porters (view place).medics morgue.now.clients morgue.now.medics }
    requires left { left.items ≡ [] }
    requires room { morgue.now.clients ≤ vec_capacity left }
    ensures emptied { IsEmptied (view place).porters (view place).medics result.items }
    ensures of { All (IsOf J.pools) result.items }
{
    let count = morgue.queue.len_as::<Take<J>, R>(rt, &mut place);
    for _turn in 0..count {
        let Some(taken) = morgue.queue.pop_as::<Take<J>, R>(rt, &mut place) else {
            unreachable!()
        };
        left.push_reserved(taken);
    }
    morgue.queue.learn_as::<Take<J>>(&mut place);
    left
}

impl<J: Pools> Morgue<J> {
    /// Takes back all porters and medics, and gives what is left, in the order of the puts. It takes its memory first. It may wait in the queue.
    ///
    /// # Errors
    ///
    /// `Absent` exactly where a porter or a medic of this morgue isn't in the lists; else `Memory` where there is none for what is left. All
    /// is as it was.
    pub fn close<R: Wait>(
        self,
        rt: &R,
        alloc: Global,
        porters: Vec<Porter<J>>,
        medics: Vec<Medic<J>>,
    ) -> Result<Vec<Taken>, MorgueStop<J>>
        requires porters { AllByRecursion (λ (p : APorter). p.of ≡ self) porters.items }
        requires medics { AllByRecursion (λ (m : AMedic). m.of ≡ self) medics.items }
        ensures carried { IfOk result (λ v. IsCarried porters.items medics.items v.items) }
        ensures of { IfOk result (λ v. All (IsOf J.pools) v.items) }
        ensures all { IfOk result (λ v. (self.clients ≤ length porters.items) × (self.medics ≤ length medics.items)) }
        ensures same { IfErr result (λ e. (e.morgue ≡ self) × (e.porters ≡ porters) × (e.medics ≡ medics)) }
        ensures cause { IfErr result (λ e. IsCause (self.clients - length porters.items) (self.medics - length medics.items) e.cause) }
    {
        let no_porters = missing(self.clients, porters.len());
        let no_medics = missing(self.medics, medics.len());
        if no_porters > 0 || no_medics > 0 {
            return Err(MorgueStop {
                morgue: self,
                porters,
                medics,
                cause: MorgueCause::Absent {
                    porters: no_porters,
                    medics: no_medics,
                },
            });
        }
        match Vec::with_capacity(alloc, self.clients as usize) {
            Ok(left) => {
                let place = gather_medics(&self, medics);
                let place = gather_porters(&self, place, porters);
                Ok(empty(rt, &self, place, left))
            }
            Err(error) => Err(MorgueStop {
                morgue: self,
                porters,
                medics,
                cause: MorgueCause::Memory(error),
            }),
        }
    }
}
