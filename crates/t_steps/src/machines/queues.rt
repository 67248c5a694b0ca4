//! Sends, takes, peeks, receives and drains.

ghost use Rattle.std.specs.Prelude.{◌<◌};
ghost use Rattle.shm_words.specs.Layout.{GeometryFits};

use shm_graph::Me;
use shm_queue::{Drain, Peek, Receive, Send, Take};
use std::io;
use t_runs::{Case, address, client, go_calls};

/// Runs the machine of a name, where it is one of these.
pub fn run(rt: &HostRuntime, case: &mut Case, me: Me, name: &str, f: &[u64; 6]) -> io::Result<bool>
    requires fits { GeometryFits me.geometry }
    requires who { me.who < me.geometry.clients }
{
    match name {
        "send" => go_calls(rt, send(me, f), case)?,
        "take" => go_calls(rt, take(me, f), case)?,
        "peek" => go_calls(rt, peek(me, f), case)?,
        "receive" => go_calls(rt, receive(me, f), case)?,
        "drain" => go_calls(rt, Some(Drain::new(me)), case)?,
        _ => return Ok(false),
    }
    Ok(true)
}

/// who, to, block
fn send(me: Me, f: &[u64; 6]) -> Option<Send>
    requires fits { GeometryFits me.geometry }
    requires who { me.who < me.geometry.clients }
{
    Some(Send::new(me, client(me, f[1])?, address(f[2])?))
}

/// who, from
fn take(me: Me, f: &[u64; 6]) -> Option<Take>
    requires fits { GeometryFits me.geometry }
    requires who { me.who < me.geometry.clients }
{
    Some(Take::new(me, client(me, f[1])?))
}

/// who, from
fn peek(me: Me, f: &[u64; 6]) -> Option<Peek>
    requires fits { GeometryFits me.geometry }
    requires who { me.who < me.geometry.clients }
{
    Some(Peek::new(me, client(me, f[1])?))
}

/// who, from
fn receive(me: Me, f: &[u64; 6]) -> Option<Receive>
    requires fits { GeometryFits me.geometry }
    requires who { me.who < me.geometry.clients }
{
    Some(Receive::new(me, client(me, f[1])?))
}
