//! Scripts and traces.

use crate::line::{Item, Line};
use std::marker::Model;

/// What a client does: the lives of its agents, where any are given, and its commands.
#[derive(Debug, Drop)]
pub struct Script {
    pub client: u8,
    pub life: Vec<u64>,
    pub lines: Vec<Line>,
}

impl Model for Script {
    ghost use Rattle.shm_script.specs.Values.{Scripted};

    ghost Value = { Scripted };

    ghost view = { λ s. record { client = s.client; life = s.life.items; lines = s.lines.items } };
}

/// The size and the format of a pool, an order of turns, and at most one script for each client, in the ranges of the grammar.
#[derive(Debug, Drop)]
pub struct Trace {
    pub clients: u8,
    /// 1 to 256, or 1 to 8,000 in format 2.
    pub segments: u16,
    /// Whether the pool is of format 2.
    pub wide: bool,
    pub order: Vec<Item>,
    pub scripts: Vec<Script>,
}

impl Model for Trace {
    ghost use Rattle.shm_script.specs.Values.{Traced};
    ghost use Rattle.shm_script.specs.Ranges.{IsTrace};

    ghost Value = { Traced };

    ghost view = { λ t. record { clients = t.clients; segments = t.segments; wide = t.wide; order = t.order.items; scripts = t.scripts.items } };

    ghost invariant = { λ t. IsTrace (record { clients = t.clients; segments = t.segments; wide = t.wide; order = t.order.items; scripts = t.scripts.items }) };
}

impl Trace {
    ghost use Rattle.shm_script.specs.Ranges.{IsTrace as IsInGrammar};

    /// The trace is in the ranges of the grammar.
    pub fn in_grammar(&self)
        ensures { IsInGrammar self.now }
    {
        // for the proof: what is read shows what the type keeps
        let _ = &self.order;
    }
}
