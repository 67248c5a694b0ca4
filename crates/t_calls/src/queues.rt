//! Calls on queues. The law that is called before a run is for the proof: it says what the run keeps.

ghost use Rattle.std.specs.Prelude.{IfOk};
ghost use Rattle.t_calls.specs.Known.{After, IsKnown};

use crate::row::{Row, refusal};
use crate::running::run_told;
use crate::seeing::{apart, check, reach};
use crate::standing::{Client, Known, received, settled, told};
use shm_graph::Life;
use shm_plain::PlainPool;
use shm_queue::{
    Drain, Peek, Receive, Send, Take, drain_keeps, peek_keeps, receive_keeps, send_keeps,
    take_keeps,
};
use std::io;

/// `send WHO TO BLOCK`
pub fn send(
    rt: &HostRuntime,
    pool: &mut PlainPool,
    client: Client,
    row: &Row,
    life: &mut Life,
) -> io::Result<Option<Known>>
    requires known { IsKnown client.known client.who pool.old }
    ensures { IfOk result (After client.who pool.old pool.new) }
{
    let to = row.small(1, pool.geometry().clients())?;
    let block = row.block(2)?;
    check(client.known.quiet)?;
    apart(client.who, to)?;
    reach(pool, client, block)?;
    send_keeps();
    let sending = Send::new(pool.me(client.who), to, block);
    let answer = run_told(rt, pool, client.who, sending, life)?;
    Ok(told(&answer, client.known.kept()))
}

/// `peek WHO FROM`
pub fn peek(
    rt: &HostRuntime,
    pool: &mut PlainPool,
    client: Client,
    row: &Row,
    life: &mut Life,
) -> io::Result<Option<Known>>
    requires known { IsKnown client.known client.who pool.old }
    ensures { IfOk result (After client.who pool.old pool.new) }
{
    let from = row.small(1, pool.geometry().clients())?;
    check(client.known.quiet)?;
    apart(from, client.who)?;
    peek_keeps();
    let peeking = Peek::new(pool.me(client.who), from);
    let answer = run_told(rt, pool, client.who, peeking, life)?;
    Ok(told(&answer, client.known.kept()))
}

/// `take WHO FROM`
pub fn take(
    rt: &HostRuntime,
    pool: &mut PlainPool,
    client: Client,
    row: &Row,
    life: &mut Life,
) -> io::Result<Option<Known>>
    requires known { IsKnown client.known client.who pool.old }
    ensures { IfOk result (After client.who pool.old pool.new) }
{
    let from = row.small(1, pool.geometry().clients())?;
    check(client.known.quiet)?;
    apart(from, client.who)?;
    take_keeps();
    let taking = Take::new(pool.me(client.who), from);
    let answer = run_told(rt, pool, client.who, taking, life)?;
    Ok(settled(&answer, client.known))
}

/// `receive WHO FROM`
pub fn receive(
    rt: &HostRuntime,
    pool: &mut PlainPool,
    client: Client,
    row: &Row,
    life: &mut Life,
) -> io::Result<Option<Known>>
    requires known { IsKnown client.known client.who pool.old }
    ensures { IfOk result (After client.who pool.old pool.new) }
{
    let from = row.small(1, pool.geometry().clients())?;
    check(client.known.quiet)?;
    apart(from, client.who)?;
    receive_keeps();
    let receiving = Receive::new(pool.me(client.who), from);
    let answer = run_told(rt, pool, client.who, receiving, life)?;
    Ok(received(&answer, client.known))
}

/// `drain WHO`
pub fn drain(
    rt: &HostRuntime,
    pool: &mut PlainPool,
    client: Client,
    life: &mut Life,
) -> io::Result<Option<Known>>
    requires known { IsKnown client.known client.who pool.old }
    ensures { IfOk result (After client.who pool.old pool.new) }
{
    check(client.known.quiet)?;
    drain_keeps();
    let draining = Drain::new(pool.me(client.who));
    let answer = run_told(rt, pool, client.who, draining, life)?;
    Ok(settled(&answer, client.known))
}

/// Makes the call of a row by its name, if it is one on queues; any other is refused.
pub fn call(
    rt: &HostRuntime,
    pool: &mut PlainPool,
    client: Client,
    name: &str,
    row: &Row,
    life: &mut Life,
) -> io::Result<Option<Known>>
    requires known { IsKnown client.known client.who pool.old }
    ensures { IfOk result (After client.who pool.old pool.new) }
{
    match name {
        "send" => send(rt, pool, client, row, life),
        "peek" => peek(rt, pool, client, row, life),
        "take" => take(rt, pool, client, row, life),
        "receive" => receive(rt, pool, client, row, life),
        "drain" => drain(rt, pool, client, life),
        _ => Err(refusal()),
    }
}
