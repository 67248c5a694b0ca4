//! Count steps, commit tests and tear-downs.

ghost use Rattle.std.specs.Prelude.{◌<◌};
ghost use Rattle.shm_words.specs.Layout.{GeometryFits};

use shm_count::{CommitTest, StepChange, StepDown, StepUp, TearDown};
use shm_graph::Me;
use std::io;
use t_runs::{Case, address, go, go_calls};

/// Runs the machine of a name, where it is one of these.
pub fn run(rt: &HostRuntime, case: &mut Case, me: Me, name: &str, f: &[u64; 6]) -> io::Result<bool>
    requires fits { GeometryFits me.geometry }
    requires who { me.who < me.geometry.clients }
{
    match name {
        "step_up" => go(rt, step_up(me, f), case)?,
        "step_down" => go(rt, step_down(me, f), case)?,
        "step_change" => go(rt, step_change(me, f), case)?,
        "commit_test" => go_calls(rt, commit_test(me, f), case)?,
        "tear_down" => go(rt, tear_down(me, f), case)?,
        _ => return Ok(false),
    }
    Ok(true)
}

/// who, slot, block
fn step_up(me: Me, f: &[u64; 6]) -> Option<StepUp>
    requires fits { GeometryFits me.geometry }
    requires who { me.who < me.geometry.clients }
{
    Some(StepUp::new(me, address(f[1])?, address(f[2])?))
}

/// who, slot, block
fn step_down(me: Me, f: &[u64; 6]) -> Option<StepDown>
    requires fits { GeometryFits me.geometry }
    requires who { me.who < me.geometry.clients }
{
    Some(StepDown::new(me, address(f[1])?, address(f[2])?))
}

/// who, slot, block before, block after
fn step_change(me: Me, f: &[u64; 6]) -> Option<StepChange>
    requires fits { GeometryFits me.geometry }
    requires who { me.who < me.geometry.clients }
{
    let (before, after) = (address(f[2])?, address(f[3])?);
    Some(StepChange::new(me, address(f[1])?, before, after))
}

/// who, block, era
fn commit_test(me: Me, f: &[u64; 6]) -> Option<CommitTest>
    requires fits { GeometryFits me.geometry }
    requires who { me.who < me.geometry.clients }
{
    Some(CommitTest::new(me, address(f[1])?, f[2]))
}

/// who, block
fn tear_down(me: Me, f: &[u64; 6]) -> Option<TearDown>
    requires fits { GeometryFits me.geometry }
    requires who { me.who < me.geometry.clients }
{
    Some(TearDown::new(me, address(f[1])?))
}
