//! Joins, leavings and recoveries, and what a recovery is made of.

ghost use Rattle.std.specs.Prelude.{◌<◌};
ghost use Rattle.shm_words.specs.Layout.{GeometryFits};

use shm_graph::Me;
use shm_recover::parts::{FinishTakes, TakeBack};
use shm_recover::{Join, Leave, Mend, Recover, Scan};
use std::io;
use t_runs::{Case, go, go_calls};

/// Runs the machine of a name, where it is one of these.
pub fn run(rt: &HostRuntime, case: &mut Case, me: Me, name: &str) -> io::Result<bool>
    requires fits { GeometryFits me.geometry }
    requires who { me.who < me.geometry.clients }
{
    match name {
        "join" => go(rt, Some(Join::new(me)), case)?,
        "leave" => go_calls(rt, Some(Leave::new(me)), case)?,
        "recover" => go_calls(rt, Some(Recover::new(me)), case)?,
        _ => return run_part(rt, case, me, name),
    }
    Ok(true)
}

/// The same of the parts of a recovery.
fn run_part(rt: &HostRuntime, case: &mut Case, me: Me, name: &str) -> io::Result<bool>
    requires fits { GeometryFits me.geometry }
    requires who { me.who < me.geometry.clients }
{
    match name {
        "mend" => go_calls(rt, Some(Mend::new(me)), case)?,
        "scan" => go_calls(rt, Some(Scan::new(me)), case)?,
        "take_back" => go_calls(rt, take_back(me), case)?,
        "finish_takes" => go_calls(rt, finish_takes(me), case)?,
        _ => return Ok(false),
    }
    Ok(true)
}

fn take_back(me: Me) -> Option<TakeBack>
    requires fits { GeometryFits me.geometry }
    requires who { me.who < me.geometry.clients }
{
    if me.geometry.clients() > 1 {
        Some(TakeBack::new(me))
    } else {
        None
    }
}

fn finish_takes(me: Me) -> Option<FinishTakes>
    requires fits { GeometryFits me.geometry }
    requires who { me.who < me.geometry.clients }
{
    if me.geometry.clients() > 1 {
        Some(FinishTakes::new(me))
    } else {
        None
    }
}
