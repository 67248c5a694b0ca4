//! Allocations.

ghost use Rattle.std.specs.Prelude.{◌<◌};
ghost use Rattle.shm_words.specs.Layout.{GeometryFits};

use shm_alloc::{Alloc, Near, TooLarge};
use shm_graph::Me;
use std::io;
use t_runs::{Case, byte, go};

/// Runs the machine of a name, where it is this one.
pub fn run(rt: &HostRuntime, case: &mut Case, me: Me, name: &str, f: &[u64; 6]) -> io::Result<bool>
    requires fits { GeometryFits me.geometry }
    requires who { me.who < me.geometry.clients }
{
    let asked = match name {
        "alloc" => alloc(me, f),
        "near" => near(me, f),
        _ => return Ok(false),
    };
    match asked {
        Ok(machine) => go(rt, Some(machine), case)?,
        Err(fault) => println!(rt; "  = Err({fault:?})")?,
    }
    Ok(true)
}

/// who, how many reference words, how many plain words, and what each of them is to be; more than 9 plain words are 9
fn alloc(me: Me, f: &[u64; 6]) -> Result<Alloc, TooLarge>
    requires fits { GeometryFits me.geometry }
    requires who { me.who < me.geometry.clients }
{
    let words = [f[3]; 9];
    let plain = f[2].min(9) as usize;
    Alloc::new(me, byte(f[1]).unwrap_or(u8::MAX), &words[..plain])
}

/// who, how many reference words, how many plain words, which are 7, and the segment, the page and the block that the search begins at
fn near(me: Me, f: &[u64; 6]) -> Result<Alloc, TooLarge>
    requires fits { GeometryFits me.geometry }
    requires who { me.who < me.geometry.clients }
{
    let words = [7; 9];
    let plain = f[2].min(9) as usize;
    let near = Near {
        segment: u16::try_from(f[3]).unwrap_or(u16::MAX),
        page: byte(f[4]).unwrap_or(u8::MAX),
        index: byte(f[5]).unwrap_or(u8::MAX),
    };
    Alloc::new_near(me, byte(f[1]).unwrap_or(u8::MAX), &words[..plain], near)
}
