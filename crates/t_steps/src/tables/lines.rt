//! Commands of a row.

ghost use Rattle.std.specs.Prelude.{◌<◌, IfSome};
ghost use Rattle.shm_words.specs.Layout.{GeometryFits};
ghost use Rattle.shm_table.specs.Command.{LineMayStand};

use shm_graph::Me;
use shm_script::Line;
use std::io;
use t_runs::{Case, line_of, may_stand};

/// Tells that no machine is made of the numbers of a row.
pub fn refuse(rt: &HostRuntime) -> io::Result<()> {
    println!(rt; "  refused")
}

/// An identity, and a line that may stand in its script.
#[derive(Clone, Copy, Drop)]
pub struct OwnLine {
    pub me: Me,
    pub line: Line,
}

/// The identity and the line of a row; none where the pool hasn't them.
pub fn line_for(case: &Case, name: &str, f: &[u64; 6]) -> Option<OwnLine>
    ensures who { IfSome result (λ o. GeometryFits o.me.geometry × (o.me.who < o.me.geometry.clients)) }
    ensures line { IfSome result (λ o. LineMayStand o.me o.line) }
{
    let me = case.me(f[0])?;
    let line = line_of(name, [f[1], f[2], f[3]])?;
    if may_stand(me, line) {
        Some(OwnLine { me, line })
    } else {
        None
    }
}
