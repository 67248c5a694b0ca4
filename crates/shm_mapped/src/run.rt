//! Many word steps of a session.

ghost use Rattle.std.specs.Prelude.{◌≡◌, ◌<◌, ◌≤◌, length};
ghost use Rattle.shm_words.specs.Layout.{total_of};
ghost use Rattle.shm_session.specs.{Sessions.refusal_said, declared.said.Misuse.TheVariants.Range};
ghost use Rattle.shm_mapped.specs.Runs.{HasRun};

use crate::site::{Found, OnAtomics};
use shm_graph::Life;
use shm_session::{Misuse, Ran, Said, Session, Sits};
use std::sync::atomic::AtomicU64;

/// Makes the word steps that the session asks for on these words, its pool's first ones, until no operation is in progress or so many were made: what
/// it then says, and how many were made.
///
/// Fewer words than the pool has are the refusal `Range`, and no operation in progress is `Idle`: then nothing changes. Where a word is asked for that
/// there isn't (the words are no pool's), code 36 is said, and what was in progress is given up.
#[inline(always)]
pub fn run_on<S: Sits>(session: &mut Session<S>, words: &[AtomicU64], steps: u64) -> Ran
    ensures me { session.new.me ≡ session.old.me }
    ensures few { length words.now < total_of session.old.me.geometry → (result ≡ record { said = refusal_said Range; steps = 0 }) × (session.new.stage ≡ session.old.stage) × (session.new.work ≡ session.old.work) }
    ensures ran { total_of session.old.me.geometry ≤ length words.now → HasRun S.operations (length words.now) steps session.old.stage session.old.work result session.new.stage session.new.work }
{
    if words.len() < session.total() as usize {
        return Ran {
            said: Said::refusal(Misuse::Range),
            steps: 0,
        };
    }
    let site = OnAtomics { words };
    let mut found = Found {
        word: 0,
        beyond: false,
    };
    let mut life = Life::of(steps);
    let said = session.run(&site, &mut found, &mut life);
    let steps = steps - life.left;
    if found.beyond {
        session.fall();
        return Ran {
            said: Said::of(36),
            steps,
        };
    }
    Ran { said, steps }
}
