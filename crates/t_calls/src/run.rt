//! A pool, how its first two identities stand, and the rows that it is given.

ghost use Rattle.std.specs.Prelude.{◌≡◌, IfOk};
ghost use Rattle.t_calls.specs.declared.standing.Standing.TheVariants.{Works};
ghost use Rattle.t_calls.specs.Known.{After, IsKnown, Stand, pick, placed_first, placed_second, stood};

use crate::counting;
use crate::row::{Row, refusal};
use crate::seeing::check;
use crate::standing::{Client, JOINED, Known, Standing};
use crate::telling::{tell, tell_left, tell_pool};
use shm_client::{die, mend_fallen, recover};
use shm_graph::Life;
use shm_plain::PlainPool;
use std::io;

/// A pool, the word steps that are left, and how its first two identities stand.
#[derive(Drop)]
pub struct Run {
    pub pool: PlainPool,
    pub life: Life,
    pub first: Standing,
    pub second: Standing,
}

/// How an identity stands.
fn pick(first: Standing, second: Standing, who: u8) -> Standing
    ensures { result ≡ pick first second who }
{
    match who {
        0 => first,
        1 => second,
        _ => Standing::Lost,
    }
}

/// Says how an identity stands from now on.
fn place(first: &mut Standing, second: &mut Standing, who: u8, standing: Standing)
    ensures first { first.new ≡ placed_first who standing first.old }
    ensures second { second.new ≡ placed_second who standing second.old }
{
    match who {
        0 => *first = standing,
        1 => *second = standing,
        _ => {}
    }
}

/// How an identity stands of which this is known.
fn stood(known: Option<Known>) -> Standing
    ensures { result ≡ stood known }
{
    match known {
        Some(known) => Standing::Works(known),
        None => Standing::Lost,
    }
}

/// The client of an identity that is between two calls; the others are refused.
fn client(first: Standing, second: Standing, who: u8) -> io::Result<Client>
    ensures { IfOk result (λ c. (c.who ≡ who) × (pick first second who ≡ Works c.known)) }
{
    match pick(first, second, who) {
        Standing::Works(known) => Ok(Client { who, known }),
        _ => Err(refusal()),
    }
}

/// Makes the call of a row, of an identity whose client is between two calls.
fn call(rt: &HostRuntime, run: &mut Run, name: &str, row: &Row) -> io::Result<()>
    requires stand { Stand run.old.first run.old.second run.old.pool }
    ensures { IfOk result (λ u. Stand run.new.first run.new.second run.new.pool) }
{
    let who = row.small(0, run.pool.geometry().clients())?;
    let client = client(run.first, run.second, who)?;
    let known = counting::call(rt, &mut run.pool, client, name, row, &mut run.life)?;
    place(&mut run.first, &mut run.second, who, stood(known));
    Ok(())
}

/// `join WHO`: an identity joins as which nobody has joined.
fn join(rt: &HostRuntime, run: &mut Run, row: &Row) -> io::Result<()>
    requires stand { Stand run.old.first run.old.second run.old.pool }
    ensures { IfOk result (λ u. Stand run.new.first run.new.second run.new.pool) }
{
    let who = row.small(0, run.pool.geometry().clients())?;
    check(matches!(pick(run.first, run.second, who), Standing::New))?;
    check(shm_client::join(&mut run.pool, who, &mut run.life))?;
    println!(rt; "joined")?;
    place(
        &mut run.first,
        &mut run.second,
        who,
        Standing::Works(JOINED),
    );
    Ok(())
}

/// `die WHO`: the agent of an identity dies between two calls.
fn fall(run: &mut Run, row: &Row) -> io::Result<()>
    requires stand { Stand run.old.first run.old.second run.old.pool }
    ensures { IfOk result (λ u. Stand run.new.first run.new.second run.new.pool) }
{
    let who = row.small(0, run.pool.geometry().clients())?;
    client(run.first, run.second, who)?;
    die(&mut run.pool, who);
    run.first = Standing::Lost;
    run.second = Standing::Lost;
    place(&mut run.first, &mut run.second, who, Standing::Fallen);
    Ok(())
}

/// `mend WHO`: the agent of an identity dies between two calls, and a recoverer mends what it left.
fn mend(rt: &HostRuntime, run: &mut Run, row: &Row) -> io::Result<()>
    requires stand { Stand run.old.first run.old.second run.old.pool }
    ensures { IfOk result (λ u. Stand run.new.first run.new.second run.new.pool) }
{
    let who = row.small(0, run.pool.geometry().clients())?;
    client(run.first, run.second, who)?;
    let answer = mend_fallen(&mut run.pool, who, &mut run.life);
    tell(rt, &answer)?;
    run.first = Standing::Lost;
    run.second = Standing::Lost;
    Ok(())
}

/// `recover WHO`: an identity is recovered whose agent is dead.
fn restore(rt: &HostRuntime, run: &mut Run, row: &Row) -> io::Result<()>
    requires stand { Stand run.old.first run.old.second run.old.pool }
    ensures { IfOk result (λ u. Stand run.new.first run.new.second run.new.pool) }
{
    let who = row.small(0, run.pool.geometry().clients())?;
    check(matches!(pick(run.first, run.second, who), Standing::Fallen))?;
    let answer = recover(&mut run.pool, who, &mut run.life);
    tell(rt, &answer)?;
    run.first = Standing::Lost;
    run.second = Standing::Lost;
    Ok(())
}

/// What a row has a pool do.
pub fn turn(rt: &HostRuntime, run: &mut Run, name: &str, row: &Row) -> io::Result<()>
    requires stand { Stand run.old.first run.old.second run.old.pool }
    ensures { IfOk result (λ u. Stand run.new.first run.new.second run.new.pool) }
{
    match name {
        "join" => join(rt, run, row),
        "die" => fall(run, row),
        "mend" => mend(rt, run, row),
        "recover" => restore(rt, run, row),
        "life" => {
            run.life = Life::of(row.at(0));
            Ok(())
        }
        "left" => tell_left(rt, run.life.left),
        "words" | "word" | "count" | "live" | "still" | "pool" => tell_pool(
            rt, &run.pool, name, row,
        ),
        _ => call(rt, run, name, row),
    }
}
