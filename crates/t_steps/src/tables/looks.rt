//! Machines that look for a key.

ghost use Rattle.std.specs.Prelude.{◌<◌, IfSome};
ghost use Rattle.shm_words.specs.Layout.{GeometryFits};

use crate::tables::lines::refuse;
use shm_graph::Me;
use shm_table::parts::{Fetch, Find, Locate, Unlatch};
use std::io;
use t_runs::{Case, client, go_calls, key};

/// Who looks, whose table it is, and a key.
#[derive(Clone, Copy, Drop)]
struct Look {
    me: Me,
    author: u8,
    key: u32,
}

/// Who, author, key; none where the pool hasn't them.
fn look_of(case: &Case, f: &[u64; 6]) -> Option<Look>
    ensures { IfSome result (λ l. GeometryFits l.me.geometry × (l.me.who < l.me.geometry.clients) × (l.author < l.me.geometry.clients)) }
{
    let me = case.me(f[0])?;
    let author = client(me, f[1])?;
    let key = key(f[2])?;
    Some(Look { me, author, key })
}

/// who, author, key
pub fn find(rt: &HostRuntime, case: &mut Case, f: &[u64; 6]) -> io::Result<()> {
    let Some(look) = look_of(case, f) else {
        return refuse(rt);
    };
    go_calls(rt, Some(Find::new(look.me, look.author, look.key)), case)
}

/// who, author, key
pub fn locate(rt: &HostRuntime, case: &mut Case, f: &[u64; 6]) -> io::Result<()> {
    let Some(look) = look_of(case, f) else {
        return refuse(rt);
    };
    go_calls(rt, Some(Locate::new(look.me, look.author, look.key)), case)
}

/// who, author
pub fn unlatch(rt: &HostRuntime, case: &mut Case, f: &[u64; 6]) -> io::Result<()> {
    let Some(look) = look_of(case, f) else {
        return refuse(rt);
    };
    go_calls(rt, Some(Unlatch::new(look.me, look.author)), case)
}

/// who, author, key
pub fn fetch(rt: &HostRuntime, case: &mut Case, f: &[u64; 6]) -> io::Result<()> {
    let Some(look) = look_of(case, f) else {
        return refuse(rt);
    };
    go_calls(rt, Some(Fetch::new(look.me, look.author, look.key)), case)
}
