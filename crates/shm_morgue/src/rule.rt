//! What the queue of the dead keeps.

use crossbeam_queue::protocol::{Join, Lesson, Outcome, Protocol, Split};
use crossbeam_queue::{Pass, RuledArrayQueue};
use shm_pool::Corpse;
use std::collections::LinkedList;
use std::marker::{Brand, PhantomData};

/// The pools whose dead go through a morgue, for contracts alone. Whoever uses the morgue picks them.
pub trait Pools {
    ghost use Rattle.std.specs.Prelude.{List};
    ghost use Rattle.shm_pool.specs.Tokens.{Its};

    ghost pools: { List Its };
}

impl Pools for Brand {
    ghost use Rattle.std.specs.Prelude.{[]};

    ghost pools = { [] };
}

/// A corpse that went through a morgue, and how many corpses its porter had put before it.
#[derive(Drop)]
pub struct Taken {
    pub corpse: Corpse,
    pub number: u32,
}

/// What the porter of a client has put. No value of it is made.
pub struct Desk {
    pub client: u8,
    pub entries: LinkedList<Taken>,
}

/// What a pass of the queue answers for: desks of porters, and lists of what medics have taken; and how many porters and medics there are.
/// No value of it is made.
pub struct Hands {
    pub porters: LinkedList<Desk>,
    pub medics: LinkedList<LinkedList<Taken>>,
    pub fresh: bool,
    pub clients: u8,
    pub doctors: u8,
}

/// The rule: what was put is what was taken and what the queue holds.
pub(crate) struct Carries<J> {
    pools: PhantomData<J>,
}

impl<J: Pools> Protocol<Taken, Hands> for Carries<J> {
    ghost use Rattle.shm_morgue.specs.Hands.{newborn};
    ghost use Rattle.shm_morgue.specs.Keeps.{MorgueKeeps};

    ghost holds = { MorgueKeeps J.pools };

    ghost first = { newborn };
}

pub(crate) type Queue<J> = RuledArrayQueue<Taken, Hands, Carries<J>>;

pub(crate) type Place = Pass<Taken, Hands>;

/// How many porters and medics a morgue is made with. A call picks them.
pub(crate) trait Sizes {
    ghost use Rattle.std.specs.Prelude.{ℕ};

    ghost clients: { ℕ };

    ghost doctors: { ℕ };
}

impl Sizes for Brand {
    ghost clients = { 0 };

    ghost doctors = { 0 };
}

/// All desks and lists are set up.
pub(crate) struct Opens<K> {
    sizes: PhantomData<K>,
}

impl<K: Sizes> Split<Hands> for Opens<K> {
    ghost use Rattle.shm_morgue.specs.Hands.{spent, whole};

    ghost left = { λ v. whole K.clients K.doctors };

    ghost right = { λ v. spent };
}

/// The first desk is cut off.
pub(crate) struct CutsPorter;

impl Split<Hands> for CutsPorter {
    ghost use Rattle.std.specs.Prelude.{[], drop, take};
    ghost use Rattle.shm_morgue.specs.Hands.{hands};

    ghost left = { λ v. record v { porters = drop 1 v.porters } };

    ghost right = { λ v. hands (take 1 v.porters) [] v.clients v.doctors };
}

/// The first list is cut off.
pub(crate) struct CutsMedic;

impl Split<Hands> for CutsMedic {
    ghost use Rattle.std.specs.Prelude.{[], drop, take};
    ghost use Rattle.shm_morgue.specs.Hands.{hands};

    ghost left = { λ v. record v { medics = drop 1 v.medics } };

    ghost right = { λ v. hands [] (take 1 v.medics) v.clients v.doctors };
}

/// All that another pass answers for comes before what this one answers for.
pub(crate) struct Gathers;

impl Join<Hands> for Gathers {
    ghost use Rattle.std.specs.Prelude.{◌++◌};
    ghost use Rattle.shm_morgue.specs.Hands.{spent};

    ghost both = { λ v w. record v { porters = w.porters ++ v.porters; medics = w.medics ++ v.medics } };

    ghost spent = { spent };
}

/// A corpse is put.
pub(crate) struct Put<J> {
    pools: PhantomData<J>,
}

impl<J: Pools> Outcome<Taken, Hands> for Put<J> {
    ghost use Rattle.shm_morgue.specs.Keeps.{PutsOne};

    ghost then = { PutsOne };
}

impl<J: Pools> Lesson<Taken, Hands> for Put<J> {
    ghost use Rattle.shm_morgue.specs.Keeps.{MayWait};

    ghost fact = { MayWait J.pools };
}

/// A corpse is taken.
pub(crate) struct Take<J> {
    pools: PhantomData<J>,
}

impl<J: Pools> Outcome<Taken, Hands> for Take<J> {
    ghost use Rattle.shm_morgue.specs.Keeps.{TakesOne};

    ghost then = { TakesOne J.pools };
}

impl<J: Pools> Lesson<Taken, Hands> for Take<J> {
    ghost use Rattle.shm_morgue.specs.Keeps.{KnowsAll};

    ghost fact = { KnowsAll J.pools };
}
