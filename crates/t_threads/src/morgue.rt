//! Corpses that go through a morgue, and corpses that find no room.

ghost use Rattle.std.specs.{Prelude.{◌≡◌, IfSome}, List.{AllByRecursion, Contains}};
ghost use Rattle.shm_pool.specs.Tokens.{AllOf};
ghost use Rattle.shm_morgue.specs.Entries.{Puts as APorter};

mod beside;
mod runs;

use shm_graph::Life;
use shm_morgue::{Medic, Morgue, MorgueCause, MorgueStop, Pools, Porter, Taken};
use shm_pool::{Corpse, SharedPool, Stopped, Vacant};
use shm_words::Geometry;
use std::alloc::{AllocError, Global};
use std::marker::Brand;
use std::sync::Wait;
use std::test::Fail;

/// A corpse of an identity whose join had no word step left.
fn corpse_of(pool: &SharedPool, token: Vacant) -> Option<Corpse>
    requires { token.of ≡ pool.now }
    ensures { IfSome result (λ c. c.of ≡ pool.now) }
{
    match token.join(pool, &mut Life::of(0)) {
        Ok(_) => None,
        Err(Stopped { corpse, cause: _ }) => Some(corpse),
    }
}

/// Takes the last token.
fn pop_token(pool: &SharedPool, tokens: &mut Vec<Vacant>) -> Option<Vacant>
    requires { AllOf pool.now tokens.old.items }
    ensures rest { AllOf pool.now tokens.new.items }
    ensures of { IfSome result (λ t. t.of ≡ pool.now) }
{
    let _ = pool;
    tokens.pop()
}

/// Takes the last porter.
fn pop_porter<J: Pools>(morgue: &Morgue<J>, porters: &mut Vec<Porter<J>>) -> Option<Porter<J>>
    requires { AllByRecursion (λ (p : APorter). p.of ≡ morgue.now) porters.old.items }
    ensures rest { AllByRecursion (λ (p : APorter). p.of ≡ morgue.now) porters.new.items }
    ensures of { IfSome result (λ p. p.of ≡ morgue.now) }
{
    let _ = morgue;
    porters.pop()
}

/// What a porter answers to a corpse of its client: the number, or that there is no room. `None` where the porter has put a corpse for each
/// identity that a pool may have, or the corpse is another client's.
fn puts<J: Pools, R: Wait>(
    rt: &R,
    pool: &SharedPool,
    morgue: &Morgue<J>,
    porter: &mut Porter<J>,
    token: Vacant,
) -> Option<Option<u32>>
    requires of { (porter.old.of ≡ morgue.now) × (token.of ≡ pool.now) }
    requires pool { Contains J.pools pool.now }
    ensures of { porter.new.of ≡ porter.old.of }
{
    if porter.puts() > 15 {
        return None;
    }
    let corpse = corpse_of(pool, token)?;
    if corpse.client() != porter.client() {
        return None;
    }
    Some(porter.put(rt, morgue, corpse).ok())
}

/// Whether the next corpse is the first one of this client.
fn takes_first_of<J: Pools, R: Wait>(
    rt: &R,
    morgue: &Morgue<J>,
    medic: &mut Medic<J>,
    client: u8,
) -> bool
    requires { medic.old.of ≡ morgue.now }
    ensures { medic.new.of ≡ medic.old.of }
{
    match medic.take(rt, morgue) {
        Some(Taken { corpse, number }) => corpse.client() == client && number == 0,
        None => false,
    }
}

/// Whether no corpse comes.
fn takes_nothing<J: Pools, R: Wait>(rt: &R, morgue: &Morgue<J>, medic: &mut Medic<J>) -> bool
    requires { medic.old.of ≡ morgue.now }
    ensures { medic.new.of ≡ medic.old.of }
{
    match medic.take(rt, morgue) {
        Some(_) => false,
        None => true,
    }
}

/// Whether the first corpses of three clients come, in their order, and no other.
fn takes_three<J: Pools, R: Wait>(rt: &R, morgue: &Morgue<J>, medic: &mut Medic<J>) -> bool
    requires { medic.old.of ≡ morgue.now }
    ensures { medic.new.of ≡ medic.old.of }
{
    let zero = takes_first_of(rt, morgue, medic, 0);
    let one = takes_first_of(rt, morgue, medic, 1);
    let two = takes_first_of(rt, morgue, medic, 2);
    let nothing = takes_nothing(rt, morgue, medic);
    zero && one && two && nothing
}

/// Whether a closing is refused since so many porters and medics are missing.
fn is_absent<J: Pools>(stop: &MorgueStop<J>, no_porters: u8, no_medics: u8) -> bool {
    match &stop.cause {
        MorgueCause::Absent { porters, medics } => *porters == no_porters && *medics == no_medics,
        MorgueCause::Memory(_) => false,
    }
}

/// Whether a closing that was refused gives nothing once it has this medic too.
fn closes_with<J: Pools, R: Wait>(
    rt: &R,
    alloc: Global,
    stop: MorgueStop<J>,
    medic: Medic<J>,
) -> Result<bool, AllocError>
    requires porters { AllByRecursion (λ (p : APorter). p.of ≡ stop.morgue) stop.porters.items }
    requires medic { medic.of ≡ stop.morgue }
{
    let medics = vec![in alloc; medic]?;
    match stop.morgue.close(rt, alloc, stop.porters, medics) {
        Ok(left) => Ok(left.is_empty()),
        Err(_) => Ok(false),
    }
}

/// Three corpses are put and taken in one order; a closing without the medic is refused, and one with it gives nothing.
fn three_in<J: Pools, R: Wait>(
    rt: &R,
    alloc: Global,
    pool: &SharedPool,
    mut tokens: Vec<Vacant>,
) -> Result<bool, AllocError>
    requires tokens { AllOf pool.now tokens.items }
    requires pool { Contains J.pools pool.now }
{
    let made = Morgue::<J>::make(alloc, 3, 1)?;
    let (morgue, mut porters, mut medics) = (made.morgue, made.porters, made.medics);
    let (Some(third), Some(second), Some(first)) = (
        pop_token(pool, &mut tokens),
        pop_token(pool, &mut tokens),
        pop_token(pool, &mut tokens),
    ) else {
        return Ok(false);
    };
    let (Some(mut two), Some(mut one), Some(mut zero)) = (
        pop_porter(&morgue, &mut porters),
        pop_porter(&morgue, &mut porters),
        pop_porter(&morgue, &mut porters),
    ) else {
        return Ok(false);
    };
    let Some(mut medic) = medics.pop() else {
        return Ok(false);
    };
    let put_zero = puts(rt, pool, &morgue, &mut zero, first) == Some(Some(0));
    let put_one = puts(rt, pool, &morgue, &mut one, second) == Some(Some(0));
    let put_two = puts(rt, pool, &morgue, &mut two, third) == Some(Some(0));
    let taken = takes_three(rt, &morgue, &mut medic);
    let all = vec![in alloc; zero, one, two]?;
    let Err(stop) = morgue.close(rt, alloc, all, Vec::new(alloc)) else {
        return Ok(false);
    };
    let refused = is_absent(&stop, 0, 1);
    let emptied = closes_with(rt, alloc, stop, medic)?;
    Ok(put_zero && put_one && put_two && taken && refused && emptied)
}

/// A pool of three clients, whose dead go through a morgue.
fn three<R: Wait>(rt: &R, alloc: Global) -> Result<bool, AllocError> {
    let Ok(geometry) = Geometry::new(3, 3) else {
        return Ok(false);
    };
    let (pool, tokens) = SharedPool::make(alloc, geometry, 1, true)?;
    three_in::<Brand, R>(rt, alloc, &pool, tokens)
}

/// A second corpse, of another pool, finds no room; the first one is left at the closing.
fn one_room_in<J: Pools, R: Wait>(
    rt: &R,
    alloc: Global,
    one: &SharedPool,
    other: &SharedPool,
    mut first: Vec<Vacant>,
    mut second: Vec<Vacant>,
) -> Result<bool, AllocError>
    requires tokens { AllOf one.now first.items × AllOf other.now second.items }
    requires pools { Contains J.pools one.now × Contains J.pools other.now }
{
    let made = Morgue::<J>::make(alloc, 1, 1)?;
    let (morgue, mut porters, medics) = (made.morgue, made.porters, made.medics);
    let (Some(a), Some(b), Some(mut porter)) = (
        pop_token(one, &mut first),
        pop_token(other, &mut second),
        pop_porter(&morgue, &mut porters),
    ) else {
        return Ok(false);
    };
    let put = puts(rt, one, &morgue, &mut porter, a) == Some(Some(0));
    let refused = puts(rt, other, &morgue, &mut porter, b) == Some(None);
    let all = vec![in alloc; porter]?;
    match morgue.close(rt, alloc, all, medics) {
        Ok(left) => Ok(put && refused && left.len() == 1),
        Err(_) => Ok(false),
    }
}

/// Two pools of one client each, whose dead go through a morgue with one room.
fn one_room<R: Wait>(rt: &R, alloc: Global) -> Result<bool, AllocError> {
    let Ok(geometry) = Geometry::new(1, 1) else {
        return Ok(false);
    };
    let (one, first) = SharedPool::make(alloc, geometry, 1, true)?;
    let (other, second) = SharedPool::make(alloc, geometry, 1, true)?;
    one_room_in::<Brand, R>(rt, alloc, &one, &other, first, second)
}

#[test]
fn corpses_come_out_in_order(rt: HostRuntime) -> Result<(), Fail> {
    let came = three(&rt, rt.alloc())?;
    assert!(rt; came);
    Ok(())
}

#[test]
fn a_second_corpse_finds_no_room(rt: HostRuntime) -> Result<(), Fail> {
    let refused = one_room(&rt, rt.alloc())?;
    assert!(rt; refused);
    Ok(())
}
