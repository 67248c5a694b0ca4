//! Calls that make blocks and count what names them, and leaving. The law that is called before a run is for the proof: it says what the
//! run keeps.

ghost use Rattle.std.specs.Prelude.{IfOk};
ghost use Rattle.t_calls.specs.Known.{After, IsKnown};

use crate::latches;
use crate::row::Row;
use crate::running::run_told;
use crate::seeing::{check, differ, reach, rooted};
use crate::standing::{BARE, Client, Known, dying, settled, told};
use crate::telling::tell;
use shm_count::TearDown;
use shm_graph::Life;
use shm_plain::PlainPool;
use shm_recover::Leave;
use shm_ref::{
    ChangeRoot, DropRoot, LowerRoot, RaiseRoot, change_root_keeps, drop_root_keeps,
    lower_root_keeps, raise_root_keeps,
};
use std::io;

/// `allocate WHO REFS WORD ..`
pub fn allocate(
    rt: &HostRuntime,
    pool: &mut PlainPool,
    client: Client,
    row: &Row,
    life: &mut Life,
) -> io::Result<Option<Known>>
    requires known { IsKnown client.known client.who pool.old }
    ensures { IfOk result (After client.who pool.old pool.new) }
{
    let refs = row.small(1, 255)?;
    match shm_client::allocate(pool, client.who, refs, row.from(2), life) {
        Ok(answer) => {
            tell(rt, &answer)?;
            Ok(told(&answer, client.known.kept()))
        }
        Err(large) => {
            tell(rt, &Some(large))?;
            Ok(Some(client.known))
        }
    }
}

/// `drop WHO ROOT`
pub fn drop_root(
    rt: &HostRuntime,
    pool: &mut PlainPool,
    client: Client,
    row: &Row,
    life: &mut Life,
) -> io::Result<Option<Known>>
    requires known { IsKnown client.known client.who pool.old }
    ensures { IfOk result (After client.who pool.old pool.new) }
{
    let root = row.small(1, 16)?;
    drop_root_keeps();
    let dropping = DropRoot::new(pool.me(client.who), root);
    let answer = run_told(rt, pool, client.who, dropping, life)?;
    Ok(settled(&answer, client.known))
}

/// `raise WHO ROOT BLOCK`
pub fn raise(
    rt: &HostRuntime,
    pool: &mut PlainPool,
    client: Client,
    row: &Row,
    life: &mut Life,
) -> io::Result<Option<Known>>
    requires known { IsKnown client.known client.who pool.old }
    ensures { IfOk result (After client.who pool.old pool.new) }
{
    let root = row.small(1, 16)?;
    let block = row.block(2)?;
    rooted(pool, client.who, root, 0)?;
    reach(pool, client, block)?;
    raise_root_keeps();
    let raising = RaiseRoot::new(pool.me(client.who), root, block);
    let answer = run_told(rt, pool, client.who, raising, life)?;
    Ok(told(&answer, BARE))
}

/// `lower WHO ROOT BLOCK`
pub fn lower(
    rt: &HostRuntime,
    pool: &mut PlainPool,
    client: Client,
    row: &Row,
    life: &mut Life,
) -> io::Result<Option<Known>>
    requires known { IsKnown client.known client.who pool.old }
    ensures { IfOk result (After client.who pool.old pool.new) }
{
    let root = row.small(1, 16)?;
    let block = row.block(2)?;
    check(block != 0)?;
    rooted(pool, client.who, root, block)?;
    lower_root_keeps();
    let lowering = LowerRoot::new(pool.me(client.who), root, block);
    let answer = run_told(rt, pool, client.who, lowering, life)?;
    Ok(dying(&answer, block))
}

/// `change WHO ROOT BEFORE AFTER`
pub fn change(
    rt: &HostRuntime,
    pool: &mut PlainPool,
    client: Client,
    row: &Row,
    life: &mut Life,
) -> io::Result<Option<Known>>
    requires known { IsKnown client.known client.who pool.old }
    ensures { IfOk result (After client.who pool.old pool.new) }
{
    let root = row.small(1, 16)?;
    let before = row.block(2)?;
    let after = row.block(3)?;
    check(before != 0)?;
    differ(before, after)?;
    rooted(pool, client.who, root, before)?;
    reach(pool, client, after)?;
    change_root_keeps();
    let changing = ChangeRoot::new(pool.me(client.who), root, before, after);
    let answer = run_told(rt, pool, client.who, changing, life)?;
    Ok(dying(&answer, before))
}

/// `tear_down WHO BLOCK`
pub fn tear_down(
    rt: &HostRuntime,
    pool: &mut PlainPool,
    client: Client,
    row: &Row,
    life: &mut Life,
) -> io::Result<Option<Known>>
    requires known { IsKnown client.known client.who pool.old }
    ensures { IfOk result (After client.who pool.old pool.new) }
{
    let block = row.block(1)?;
    check(block != 0 && block == client.known.dying)?;
    let tearing = TearDown::new(pool.me(client.who), block);
    let answer = pool.run(client.who, tearing, life);
    tell(rt, &answer)?;
    Ok(None)
}

/// `leave WHO`
pub fn leave(
    rt: &HostRuntime,
    pool: &mut PlainPool,
    client: Client,
    life: &mut Life,
) -> io::Result<Option<Known>>
    requires known { IsKnown client.known client.who pool.old }
    ensures { IfOk result (After client.who pool.old pool.new) }
{
    check(client.known.free)?;
    check(client.known.quiet)?;
    let leaving = Leave::new(pool.me(client.who));
    run_told(rt, pool, client.who, leaving, life)?;
    Ok(None)
}

/// Makes the call of a row by its name.
pub fn call(
    rt: &HostRuntime,
    pool: &mut PlainPool,
    client: Client,
    name: &str,
    row: &Row,
    life: &mut Life,
) -> io::Result<Option<Known>>
    requires known { IsKnown client.known client.who pool.old }
    ensures { IfOk result (After client.who pool.old pool.new) }
{
    match name {
        "allocate" => allocate(rt, pool, client, row, life),
        "drop" => drop_root(rt, pool, client, row, life),
        "raise" => raise(rt, pool, client, row, life),
        "lower" => lower(rt, pool, client, row, life),
        "change" => change(rt, pool, client, row, life),
        "tear_down" => tear_down(rt, pool, client, row, life),
        "leave" => leave(rt, pool, client, life),
        _ => latches::call(rt, pool, client, name, row, life),
    }
}
