//! Clients on threads, and one that dies between two word steps.

ghost use Rattle.std.specs.Prelude.{◌≡◌, true, IfSome};
ghost use Rattle.shm_pool.specs.Tokens.{token_first};
ghost use Rattle.shm_words.specs.Layout.{GeometryFits};

use shm_alloc::AllocFault;
use shm_count::Made;
use shm_pool::{Cause, CloseCause, CloseStop, SharedPool, Stopped, Vacant};
use shm_script::Answer;
use shm_words::Geometry;
use std::alloc::{AllocError, Global};
use std::test::Fail;
use std::thread::Threads;
use t_pool::team::{pass_and_close, pass_by, pop_of, put_back};
use t_pool::{
    Refused, Team, TwoMade, close_at_last, make_two, pass_all, play_and_close, put_in,
    recover_and_close, refuse_both, run_two,
};

/// The word at an address of a pool.
fn word(pool: &SharedPool, at: u32) -> u64 {
    if at < pool.geometry().total() {
        pool.peek(at)
    } else {
        0
    }
}

/// Whether these words stand at these addresses.
fn stand(pool: &SharedPool, wanted: &[(u32, u64)]) -> bool {
    for (at, value) in wanted {
        if word(pool, *at) != *value {
            return false;
        }
    }
    true
}

/// The word at an address of a closed pool.
fn closed_word(words: &[u64], at: usize) -> u64 {
    match words.get(at) {
        Some(word) => *word,
        None => u64::MAX,
    }
}

/// How many words aren't 0.
fn count_set(words: &[u64]) -> usize {
    let mut count = 0usize;
    for word in words {
        if *word != 0 {
            count = count.wrapping_add(1);
        }
    }
    count
}

/// Whether these words stand at these addresses of a closed pool, and all others are 0.
fn stand_alone(words: &[u64], wanted: &[(usize, u64)]) -> bool {
    for (at, value) in wanted {
        if closed_word(words, *at) != *value {
            return false;
        }
    }
    count_set(words) == wanted.len()
}

/// Whether both clients are live, and worked, and what they made, which are two blocks, is free again.
fn have_worked(team: &Team) -> bool {
    match (&team.first, &team.second) {
        (Ok(first), Ok(second)) => {
            first.block != second.block
                && stand(
                    &team.pool,
                    &[(1, 1), (2, 1), (first.block, 0), (second.block, 0)],
                )
        }
        _ => false,
    }
}

/// Whether two clients work on two threads.
fn is_worked<R: Threads + Sync>(
    rt: &R,
    alloc: Global,
    geometry: Geometry,
) -> Result<bool, AllocError>
    requires { GeometryFits geometry }
{
    let team = run_two(rt, alloc, geometry, (1_000, 1_000))?;
    Ok(match &team {
        Some(team) => have_worked(team),
        None => false,
    })
}

#[test]
fn two_clients_work_on_two_threads(rt: HostRuntime) -> Result<(), Fail> {
    let geometry = Geometry::new(2, 2)?;
    for _ in 0..20 {
        assert!(rt; is_worked(&rt, rt.alloc(), geometry)?);
    }
    Ok(())
}

/// Whether the second client worked, and the first one died, or worked too with so many word steps: a join, an allocation and three count steps
/// take more than 20.
fn has_died(team: &Team, steps: u64) -> bool {
    let first = match &team.first {
        Ok(first) => 20 < steps && word(&team.pool, first.block) == 0,
        Err(corpse) => corpse.client() == 0,
    };
    match &team.second {
        Ok(second) => first && word(&team.pool, second.block) == 0,
        Err(_) => false,
    }
}

/// Whether a client that has so many word steps dies, and the other one works.
fn is_left<R: Threads + Sync>(
    rt: &R,
    alloc: Global,
    geometry: Geometry,
    steps: u64,
) -> Result<bool, AllocError>
    requires { GeometryFits geometry }
{
    let team = run_two(rt, alloc, geometry, (steps, 1_000))?;
    Ok(match &team {
        Some(team) => has_died(team, steps),
        None => false,
    })
}

#[test]
fn a_client_dies_between_two_word_steps(rt: HostRuntime) -> Result<(), Fail> {
    let geometry = Geometry::new(2, 2)?;
    for steps in 0..60u64 {
        assert!(rt; is_left(&rt, rt.alloc(), geometry, steps)?, "{steps}");
    }
    Ok(())
}

#[test]
fn a_pool_that_nobody_joined_is_closed(rt: HostRuntime) -> Result<(), Fail> {
    let (pool, all) = SharedPool::make(rt.alloc(), Geometry::new(2, 1)?, 7, false)?;
    let Ok(closed) = pool.close(rt.alloc(), all) else {
        panic!(rt; "not closed")
    };
    // the own eras
    assert!(rt; stand_alone(closed.words(), &[(11, 7), (14, 7)]));
    Ok(())
}

/// Whether a closing stopped as the token of this client is missing, and has so many tokens.
fn is_missing(stop: &CloseStop, missing: u8, many: usize) -> bool {
    match stop.cause {
        CloseCause::Missing { client } => client == missing && stop.all.len() == many,
        _ => false,
    }
}

#[test]
fn a_missing_token_is_named(rt: HostRuntime) -> Result<(), Fail> {
    let (pool, mut all) = SharedPool::make(rt.alloc(), Geometry::new(3, 1)?, 7, false)?;
    let Some(last) = pop_of(&pool, &mut all) else {
        panic!(rt; "no token")
    };
    let Err(stop) = pool.close(rt.alloc(), all) else {
        panic!(rt; "closed without a token")
    };
    assert!(rt; is_missing(&stop, 2, 2) && last.client() == 2);
    Ok(())
}

#[test]
fn what_a_refused_closing_gave_back_joins_and_leaves(rt: HostRuntime) -> Result<(), Fail> {
    let (pool, mut all) = SharedPool::make(rt.alloc(), Geometry::new(3, 1)?, 7, false)?;
    let Some(last) = pop_of(&pool, &mut all) else {
        panic!(rt; "no token")
    };
    let Err(stop) = pool.close(rt.alloc(), all) else {
        panic!(rt; "closed without a token")
    };
    assert!(rt; is_missing(&stop, 2, 2));
    let CloseStop { pool, all, .. } = stop;
    let Some(mut all) = pass_all(&pool, rt.alloc(), all, 100)? else {
        panic!(rt; "not joined, or not left")
    };
    put_back(&pool, &mut all, last)?;
    let Ok(closed) = pool.close(rt.alloc(), all) else {
        panic!(rt; "not closed")
    };
    assert!(rt; stand_alone(closed.words(), &[(1, 3), (2, 3), (16, 7), (20, 7), (24, 7)]));
    Ok(())
}

// where an allocation of the closing fails, its tokens are used once more before it is closed
#[test]
fn a_closing_goes_on_after_its_memory_was_refused(rt: HostRuntime) -> Result<(), Fail> {
    let (pool, all) = SharedPool::make(rt.alloc(), Geometry::new(2, 1)?, 7, false)?;
    let Some(closed) = close_at_last(rt.alloc(), pool, all, 100)? else {
        panic!(rt; "not closed")
    };
    assert!(rt; closed_word(closed.words(), 11) == 7);
    Ok(())
}

/// Whether both identities of a pool pass by, and it is closed with these words alone.
fn have_passed<R: Threads + Sync>(
    rt: &R,
    alloc: Global,
    geometry: Geometry,
    wanted: &[(usize, u64)],
) -> Result<bool, AllocError>
    requires { GeometryFits geometry }
{
    let closed = pass_and_close(rt, alloc, geometry, 19)?;
    Ok(match &closed {
        Some(closed) => stand_alone(closed.words(), wanted),
        None => false,
    })
}

#[test]
fn two_identities_pass_by_and_the_pool_is_closed(rt: HostRuntime) -> Result<(), Fail> {
    let (one, two) = (Geometry::new(2, 1)?, Geometry::wide(2, 1)?);
    // both are gone, and their own eras stand; in format 2 two second words of redo records stand before the eras
    for _ in 0..10 {
        assert!(rt; have_passed(&rt, rt.alloc(), one, &[(1, 3), (2, 3), (11, 1), (14, 1)])?);
        assert!(rt; have_passed(&rt, rt.alloc(), two, &[(1, 3), (2, 3), (13, 1), (16, 1)])?);
    }
    Ok(())
}

/// Whether an allocation gave this root and this block.
fn gave(made: &Result<Made, AllocFault>, root: u8, block: u32) -> bool {
    match made {
        Ok(made) => made.root == root && made.block == block,
        Err(_) => false,
    }
}

/// Whether an allocation was refused as the own era is spent.
fn is_refused(made: &Result<Made, AllocFault>, spent: u64) -> bool {
    match made {
        Err(AllocFault::EraSpent { era }) => *era == spent,
        _ => false,
    }
}

/// Whether the leaving of client 0 was refused as the own era is spent.
fn is_stopped(left: &Result<Vacant, Stopped>, spent: u64) -> bool {
    match left {
        Ok(_) => false,
        Err(stopped) => match stopped.cause {
            Cause::EraSpent { era } => era == spent && stopped.corpse.client() == 0,
            Cause::Died => false,
        },
    }
}

/// The last own era but two.
const ERA: u64 = 140_737_488_355_325;

/// Status, own era, root, segment, page and block that stay where the own era is spent.
const SPENT: &[(u32, u64)] = &[
    (1, 1),
    (6, 140_737_488_355_326),
    (7, 50),
    (33, 1),
    (34, 4),
    (50, 9_223_653_511_831_486_461),
    (51, 67_108_864),
    (52, 77),
];

/// Whether client 0 makes one block at the last own era, and then is refused a second one and its leaving.
fn is_spent(pool: &SharedPool, token: Vacant) -> bool
    requires { token.of ≡ pool.now }
{
    match make_two(pool, token, (0, 0), &[77], &[77], 1_000) {
        Some(
            TwoMade {
                first,
                second,
                left,
            },
        ) => { gave(&first, 0, 50) && is_refused(&second, ERA + 1) && is_stopped(&left, ERA + 1) }
        None => false,
    }
}

#[test]
fn a_spent_era_stops_an_allocation_and_a_leaving(rt: HostRuntime) -> Result<(), Fail> {
    let (pool, mut all) = SharedPool::make(rt.alloc(), Geometry::new(1, 1)?, ERA, false)?;
    let Some(token) = pop_of(&pool, &mut all) else {
        panic!(rt; "no token")
    };
    assert!(rt; is_spent(&pool, token));
    assert!(rt; stand(&pool, SPENT));
    Ok(())
}

/// An identity that joins, allocates two blocks of so many reference words and these plain words, and leaves; none unless it left, and the
/// blocks, in its first two roots, are these.
fn make_these(
    pool: &SharedPool,
    token: Vacant,
    refs: (u8, u8),
    plain: (&[u64], &[u64]),
    blocks: (u32, u32),
) -> Option<Vacant>
    requires { token.of ≡ pool.now }
    ensures { IfSome result (λ v. v.of ≡ pool.now) }
{
    let TwoMade {
        first,
        second,
        left,
    } = make_two(pool, token, refs, plain.0, plain.1, 1_000)?;
    if gave(&first, 0, blocks.0) && gave(&second, 1, blocks.1) {
        left.ok()
    } else {
        None
    }
}

/// Gone, the own era grew, and the segment is nobody's; its first page keeps its class.
const GIVEN_UP: &[(u32, u64)] = &[
    (1, 3),
    (11, 5),
    (14, 1),
    (87, 0),
    (88, 4),
    (104, 0),
    (108, 0),
];

/// The other client is gone too, and the second page has a class.
const CLAIMED: &[(u32, u64)] = &[(2, 3), (11, 5), (14, 5), (87, 0), (88, 4), (89, 8)];

/// The first client is gone again.
const AGAIN: &[(u32, u64)] = &[(1, 3), (2, 3), (11, 9), (14, 5), (87, 0), (88, 4), (89, 8)];

#[test]
fn segments_that_were_given_up_are_claimed_as_they_are(rt: HostRuntime) -> Result<(), Fail> {
    let (pool, mut all) = SharedPool::make(rt.alloc(), Geometry::new(2, 1)?, 1, false)?;
    let (Some(one), Some(zero)) = (pop_of(&pool, &mut all), pop_of(&pool, &mut all)) else {
        panic!(rt; "no token")
    };
    let Some(zero) = make_these(&pool, zero, (0, 0), (&[77], &[77]), (104, 108)) else {
        panic!(rt; "other blocks, or it is there still")
    };
    assert!(rt; stand(&pool, GIVEN_UP));
    // the other client claims it: blocks of that class come from the first page, others from the next one
    let other = make_these(&pool, one, (0, 2), (&[77], &[5]), (104, 232));
    assert!(rt; other.is_some() && stand(&pool, CLAIMED));
    // who was gone joins again, and its own era goes on
    let again = make_these(&pool, zero, (2, 0), (&[1], &[]), (232, 104));
    assert!(rt; again.is_some() && stand(&pool, AGAIN));
    Ok(())
}

#[test]
fn a_latch_is_anothers_and_a_refused_closing_gives_all_back(rt: HostRuntime) -> Result<(), Fail> {
    let (pool, mut all) = SharedPool::make(rt.alloc(), Geometry::new(2, 2)?, 7, false)?;
    let (Some(one), Some(zero)) = (pop_of(&pool, &mut all), pop_of(&pool, &mut all)) else {
        panic!(rt; "no token")
    };
    let Some(refused) = refuse_both(&pool, zero, one) else {
        panic!(rt; "nothing was refused")
    };
    let Refused {
        busy,
        made,
        fault,
        zero,
        one,
    } = refused;
    assert!(rt; busy.holder == 1 && made == 16 && fault == AllocFault::RootsFull);
    put_back(&pool, &mut all, zero)?;
    let Err(stop) = pool.close(rt.alloc(), all) else {
        panic!(rt; "closed without a token")
    };
    assert!(rt; is_missing(&stop, 1, 1));
    let CloseStop { pool, mut all, .. } = stop;
    put_back(&pool, &mut all, one)?;
    let Ok(closed) = pool.close(rt.alloc(), all) else {
        panic!(rt; "not closed")
    };
    assert!(rt; are_gone(closed.words()));
    Ok(())
}

/// Whether a put that had so many word steps answered so, and shows that it is done.
fn is_put(pool: &SharedPool, token: Vacant, steps: u64, answered: bool, done: bool) -> bool
    requires { (token ≡ token_first pool.now token.account.who) × (pool.now.start.tables ≡ true) }
{
    match put_in(pool, token, steps) {
        Some((answer, effect)) => {
            matches!(answer, Some(Answer::Stored { .. })) == answered
                && matches!(effect, Some(Answer::Stored { .. })) == done
        }
        None => false,
    }
}

// a join takes one word step, and the put of a first key 105: the 87th decides it
#[test]
fn a_put_shows_what_it_did(rt: HostRuntime) -> Result<(), Fail> {
    for (steps, answered, done) in [
        (86, false, false),
        (87, false, true),
        (104, false, true),
        (105, true, false),
    ] {
        let (pool, mut all) = SharedPool::make(rt.alloc(), Geometry::new(1, 1)?, 1, true)?;
        let Some(token) = pop_of(&pool, &mut all) else {
            panic!(rt; "no token")
        };
        assert!(rt; is_put(&pool, token, steps, answered, done), "{steps}");
    }
    Ok(())
}

/// Whether two clients play, and one that falls after so many word steps is recovered while the other one goes on.
fn is_played<R: Threads + Sync>(
    rt: &R,
    alloc: Global,
    geometry: Geometry,
    steps: u64,
) -> Result<bool, AllocError>
    requires { GeometryFits geometry × (geometry.clients ≡ 2) }
{
    let played = play_and_close(rt, alloc, geometry, steps)?;
    Ok(match &played {
        Some(played) => {
            let words = played.closed.words();
            played.beside == 50
                && played.on == 50
                && closed_word(words, 1) == 3
                && closed_word(words, 2) == 3
        }
        None => false,
    })
}

#[test]
fn two_clients_play_and_one_falls(rt: HostRuntime) -> Result<(), Fail> {
    let geometry = Geometry::new(2, 8)?;
    assert!(rt; is_played(&rt, rt.alloc(), geometry, 500)?);
    Ok(())
}

/// Whether the words from an address on, up to another one, are 0.
fn are_empty(words: &[u64], from: usize, to: usize) -> bool {
    for at in from..to {
        if closed_word(words, at) != 0 {
            return false;
        }
    }
    true
}

/// Whether both clients of a closed pool are gone; no root, no latch, no home, and no segment.
fn are_gone(words: &[u64]) -> bool {
    closed_word(words, 1) == 3
        && closed_word(words, 2) == 3
        && are_empty(words, 5, 11)
        && are_empty(words, 15, 47)
        && are_empty(words, 87, 89)
}

/// Whether a client that falls after so many word steps is recovered beside another one, and both are gone.
fn is_recovered<R: Threads + Sync>(
    rt: &R,
    alloc: Global,
    geometry: Geometry,
    steps: u64,
) -> Result<bool, AllocError>
    requires { GeometryFits geometry }
{
    let closed = recover_and_close(rt, alloc, geometry, steps)?;
    Ok(match &closed {
        Some(closed) => are_gone(closed.words()),
        None => false,
    })
}

#[test]
fn a_corpse_is_recovered_beside_a_client(rt: HostRuntime) -> Result<(), Fail> {
    let geometry = Geometry::new(2, 2)?;
    for steps in 0..60u64 {
        assert!(rt; is_recovered(&rt, rt.alloc(), geometry, steps)?, "{steps}");
    }
    Ok(())
}
