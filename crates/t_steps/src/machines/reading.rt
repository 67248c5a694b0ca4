//! Latches, and what is read.

ghost use Rattle.std.specs.Prelude.{◌<◌};
ghost use Rattle.shm_words.specs.Layout.{GeometryFits};

use shm_graph::Me;
use shm_ref::{Hold, HomeOf, Look, Read, Release, RootOf};
use std::io;
use t_runs::{Case, address, byte, client, go_calls, root};

/// Runs the machine of a name, where it is one of these.
pub fn run(rt: &HostRuntime, case: &mut Case, me: Me, name: &str, f: &[u64; 6]) -> io::Result<bool>
    requires fits { GeometryFits me.geometry }
    requires who { me.who < me.geometry.clients }
{
    match name {
        "release" => go_calls(rt, Some(Release::new(me)), case)?,
        "hold" => go_calls(rt, hold(me, f), case)?,
        "home_of" => go_calls(rt, home_of(me, f), case)?,
        "root_of" => go_calls(rt, root_of(me, f), case)?,
        "look" => go_calls(rt, look(me, f), case)?,
        "read" => go_calls(rt, read(me, f), case)?,
        _ => return Ok(false),
    }
    Ok(true)
}

/// who, author
fn hold(me: Me, f: &[u64; 6]) -> Option<Hold>
    requires fits { GeometryFits me.geometry }
    requires who { me.who < me.geometry.clients }
{
    Some(Hold::new(me, client(me, f[1])?))
}

/// who, author
fn home_of(me: Me, f: &[u64; 6]) -> Option<HomeOf>
    requires fits { GeometryFits me.geometry }
    requires who { me.who < me.geometry.clients }
{
    Some(HomeOf::new(me, client(me, f[1])?))
}

/// who, root
fn root_of(me: Me, f: &[u64; 6]) -> Option<RootOf>
    requires fits { GeometryFits me.geometry }
    requires who { me.who < me.geometry.clients }
{
    Some(RootOf::new(me, root(f[1])?))
}

/// who, block, index
fn look(me: Me, f: &[u64; 6]) -> Option<Look>
    requires fits { GeometryFits me.geometry }
    requires who { me.who < me.geometry.clients }
{
    Some(Look::new(me, address(f[1])?, byte(f[2])?))
}

/// who, block, index
fn read(me: Me, f: &[u64; 6]) -> Option<Read>
    requires fits { GeometryFits me.geometry }
    requires who { me.who < me.geometry.clients }
{
    Some(Read::new(me, address(f[1])?, byte(f[2])?))
}
