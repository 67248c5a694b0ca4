//! Homes, references and roots that change.

ghost use Rattle.std.specs.Prelude.{◌<◌, ◌≤◌, ◌+◌, IfSome};
ghost use Rattle.shm_words.specs.Layout.{GeometryFits, total_of};

use shm_graph::Me;
use shm_ref::parts::DropRoots;
use shm_ref::{DropRoot, SetHome, SetRef, Share};
use std::io;
use t_runs::{Case, address, byte, go_calls, root};

/// Runs the machine of a name, where it is one of these.
pub fn run(rt: &HostRuntime, case: &mut Case, me: Me, name: &str, f: &[u64; 6]) -> io::Result<bool>
    requires fits { GeometryFits me.geometry }
    requires who { me.who < me.geometry.clients }
{
    match name {
        "set_home" => go_calls(rt, set_home(me, f), case)?,
        "set_ref" => go_calls(rt, set_ref(me, f), case)?,
        "share" => go_calls(rt, share(me, f), case)?,
        "drop_root" => go_calls(rt, drop_root(me, f), case)?,
        "drop_roots" => go_calls(rt, Some(DropRoots::new(me)), case)?,
        _ => return Ok(false),
    }
    Ok(true)
}

/// who, block
fn set_home(me: Me, f: &[u64; 6]) -> Option<SetHome>
    requires fits { GeometryFits me.geometry }
    requires who { me.who < me.geometry.clients }
{
    Some(SetHome::new(me, address(f[1])?))
}

/// A block whose header and tag lie in the pool.
fn block(me: Me, number: u64) -> Option<u32>
    requires { GeometryFits me.geometry }
    ensures { IfSome result (λ b. b + 2 ≤ total_of me.geometry) }
{
    let block = address(number)?;
    if block + 2 <= me.geometry.total() {
        Some(block)
    } else {
        None
    }
}

/// who, block, index, target
fn set_ref(me: Me, f: &[u64; 6]) -> Option<SetRef>
    requires fits { GeometryFits me.geometry }
    requires who { me.who < me.geometry.clients }
{
    let (block, target) = (block(me, f[1])?, address(f[3])?);
    Some(SetRef::new(me, block, byte(f[2])?, target))
}

/// who, block
fn share(me: Me, f: &[u64; 6]) -> Option<Share>
    requires fits { GeometryFits me.geometry }
    requires who { me.who < me.geometry.clients }
{
    Some(Share::new(me, address(f[1])?))
}

/// who, root
fn drop_root(me: Me, f: &[u64; 6]) -> Option<DropRoot>
    requires fits { GeometryFits me.geometry }
    requires who { me.who < me.geometry.clients }
{
    Some(DropRoot::new(me, root(f[1])?))
}
