//! Calls on latches, homes and words of blocks. The law that is called before a run is for the proof: it says what the run keeps.

ghost use Rattle.std.specs.Prelude.{IfOk};
ghost use Rattle.t_calls.specs.Known.{After, IsKnown};

use crate::queues;
use crate::row::Row;
use crate::running::run_told;
use crate::seeing::{check, reach};
use crate::standing::{Client, Known, found, held, settled, told};
use shm_graph::Life;
use shm_plain::PlainPool;
use shm_ref::{
    Hold, HomeOf, Look, Read, Release, RootOf, SetHome, SetRef, Share, hold_keeps, home_of_keeps,
    look_keeps, read_keeps, release_keeps, root_of_keeps, set_home_keeps, set_ref_keeps,
    share_keeps,
};
use std::io;

/// `hold WHO AUTHOR`
pub fn hold(
    rt: &HostRuntime,
    pool: &mut PlainPool,
    client: Client,
    row: &Row,
    life: &mut Life,
) -> io::Result<Option<Known>>
    requires known { IsKnown client.known client.who pool.old }
    ensures { IfOk result (After client.who pool.old pool.new) }
{
    let author = row.small(1, pool.geometry().clients())?;
    check(client.known.free)?;
    hold_keeps();
    let holding = Hold::new(pool.me(client.who), author);
    let answer = run_told(rt, pool, client.who, holding, life)?;
    Ok(held(&answer, client.known))
}

/// `release WHO`
pub fn release(
    rt: &HostRuntime,
    pool: &mut PlainPool,
    client: Client,
    life: &mut Life,
) -> io::Result<Option<Known>>
    requires known { IsKnown client.known client.who pool.old }
    ensures { IfOk result (After client.who pool.old pool.new) }
{
    check(client.known.held)?;
    release_keeps();
    let releasing = Release::new(pool.me(client.who));
    let answer = run_told(rt, pool, client.who, releasing, life)?;
    Ok(told(&answer, client.known.released()))
}

/// `home_of WHO AUTHOR`
pub fn home_of(
    rt: &HostRuntime,
    pool: &mut PlainPool,
    client: Client,
    row: &Row,
    life: &mut Life,
) -> io::Result<Option<Known>>
    requires known { IsKnown client.known client.who pool.old }
    ensures { IfOk result (After client.who pool.old pool.new) }
{
    let author = row.small(1, pool.geometry().clients())?;
    home_of_keeps();
    let finding = HomeOf::new(pool.me(client.who), author);
    let answer = run_told(rt, pool, client.who, finding, life)?;
    Ok(found(&answer, client.known))
}

/// `root_of WHO ROOT`
pub fn root_of(
    rt: &HostRuntime,
    pool: &mut PlainPool,
    client: Client,
    row: &Row,
    life: &mut Life,
) -> io::Result<Option<Known>>
    requires known { IsKnown client.known client.who pool.old }
    ensures { IfOk result (After client.who pool.old pool.new) }
{
    let root = row.small(1, 16)?;
    root_of_keeps();
    let naming = RootOf::new(pool.me(client.who), root);
    let answer = run_told(rt, pool, client.who, naming, life)?;
    Ok(told(&answer, client.known.kept()))
}

/// `read WHO BLOCK INDEX`
pub fn read(
    rt: &HostRuntime,
    pool: &mut PlainPool,
    client: Client,
    row: &Row,
    life: &mut Life,
) -> io::Result<Option<Known>>
    requires known { IsKnown client.known client.who pool.old }
    ensures { IfOk result (After client.who pool.old pool.new) }
{
    let block = row.block(1)?;
    let index = row.small(2, 255)?;
    reach(pool, client, block)?;
    read_keeps();
    let reading = Read::new(pool.me(client.who), block, index);
    let answer = run_told(rt, pool, client.who, reading, life)?;
    Ok(told(&answer, client.known.seeing()))
}

/// `look WHO BLOCK INDEX`
pub fn look(
    rt: &HostRuntime,
    pool: &mut PlainPool,
    client: Client,
    row: &Row,
    life: &mut Life,
) -> io::Result<Option<Known>>
    requires known { IsKnown client.known client.who pool.old }
    ensures { IfOk result (After client.who pool.old pool.new) }
{
    let block = row.block(1)?;
    let index = row.small(2, 255)?;
    reach(pool, client, block)?;
    look_keeps();
    let looking = Look::new(pool.me(client.who), block, index);
    let answer = run_told(rt, pool, client.who, looking, life)?;
    Ok(told(&answer, client.known.seeing()))
}

/// `set_home WHO BLOCK`
pub fn set_home(
    rt: &HostRuntime,
    pool: &mut PlainPool,
    client: Client,
    row: &Row,
    life: &mut Life,
) -> io::Result<Option<Known>>
    requires known { IsKnown client.known client.who pool.old }
    ensures { IfOk result (After client.who pool.old pool.new) }
{
    let block = row.block(1)?;
    reach(pool, client, block)?;
    set_home_keeps();
    let homing = SetHome::new(pool.me(client.who), block);
    let answer = run_told(rt, pool, client.who, homing, life)?;
    Ok(told(&answer, client.known.unsettled()))
}

/// `empty WHO BLOCK INDEX`
pub fn empty_ref(
    rt: &HostRuntime,
    pool: &mut PlainPool,
    client: Client,
    row: &Row,
    life: &mut Life,
) -> io::Result<Option<Known>>
    requires known { IsKnown client.known client.who pool.old }
    ensures { IfOk result (After client.who pool.old pool.new) }
{
    let block = row.block(1)?;
    let index = row.small(2, 255)?;
    reach(pool, client, block)?;
    set_ref_keeps();
    let setting = SetRef::new(pool.me(client.who), block, index, 0);
    let answer = run_told(rt, pool, client.who, setting, life)?;
    Ok(settled(&answer, client.known))
}

/// `set WHO BLOCK INDEX TARGET`
pub fn set_ref(
    rt: &HostRuntime,
    pool: &mut PlainPool,
    client: Client,
    row: &Row,
    life: &mut Life,
) -> io::Result<Option<Known>>
    requires known { IsKnown client.known client.who pool.old }
    ensures { IfOk result (After client.who pool.old pool.new) }
{
    let block = row.block(1)?;
    let index = row.small(2, 255)?;
    let target = row.block(3)?;
    reach(pool, client, block)?;
    reach(pool, client, target)?;
    set_ref_keeps();
    let setting = SetRef::new(pool.me(client.who), block, index, target);
    let answer = run_told(rt, pool, client.who, setting, life)?;
    Ok(settled(&answer, client.known))
}

/// `share WHO BLOCK`
pub fn share(
    rt: &HostRuntime,
    pool: &mut PlainPool,
    client: Client,
    row: &Row,
    life: &mut Life,
) -> io::Result<Option<Known>>
    requires known { IsKnown client.known client.who pool.old }
    ensures { IfOk result (After client.who pool.old pool.new) }
{
    let block = row.block(1)?;
    reach(pool, client, block)?;
    share_keeps();
    let sharing = Share::new(pool.me(client.who), block);
    let answer = run_told(rt, pool, client.who, sharing, life)?;
    Ok(told(&answer, client.known.kept()))
}

/// Makes the call of a row by its name, if it is one on latches, homes and words of blocks, or on queues.
pub fn call(
    rt: &HostRuntime,
    pool: &mut PlainPool,
    client: Client,
    name: &str,
    row: &Row,
    life: &mut Life,
) -> io::Result<Option<Known>>
    requires known { IsKnown client.known client.who pool.old }
    ensures { IfOk result (After client.who pool.old pool.new) }
{
    match name {
        "hold" => hold(rt, pool, client, row, life),
        "release" => release(rt, pool, client, life),
        "home_of" => home_of(rt, pool, client, row, life),
        "root_of" => root_of(rt, pool, client, row, life),
        "read" => read(rt, pool, client, row, life),
        "look" => look(rt, pool, client, row, life),
        "set_home" => set_home(rt, pool, client, row, life),
        "set" => set_ref(rt, pool, client, row, life),
        "empty" => empty_ref(rt, pool, client, row, life),
        "share" => share(rt, pool, client, row, life),
        _ => queues::call(rt, pool, client, name, row, life),
    }
}
