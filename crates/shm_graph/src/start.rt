//! How a pool begins.

ghost use Rattle.std.specs.Prelude.{◌≡◌, IfOk};
ghost use Rattle.shm_words.specs.Layout.{GeometryFits};
ghost use Rattle.shm_graph.specs.declared.run.Start.{Start as AStart};
ghost use Rattle.shm_graph.specs.Runs.{EraFits, Held, accounts_from, first_words as words_first};

use crate::run::Start;
use std::alloc::{AllocError, Global};

/// The first words of a pool: all are 0, but each identity's own era.
pub fn first_words(alloc: Global, start: Start) -> Result<Vec<u64>, AllocError>
    requires geometry { GeometryFits start.geometry }
    requires era { EraFits start.first_era }
    ensures { IfOk result (λ ws. ws.items ≡ words_first start) }
{
    let geometry = start.geometry;
    let mut words = vec![in alloc; 0u64; geometry.total() as usize]?;
    for client in 0..geometry.clients() {
        words[geometry.era(client, client) as usize] = start.first_era;
    }
    Ok(words)
}

/// Every pool begins in a state that holds.
pub fn first_state_holds()
    ensures { (s : AStart) → GeometryFits s.geometry → EraFits s.first_era → Held s.geometry (words_first s) (accounts_from s 0 s.geometry.clients) }
{}
