//! The agents of a script at their machines.

use crate::play::Play;
use shm_agents::agents::{Agents, Standing};
use shm_agents::machine::WorkMachine;
use shm_agents::piece::Piece;
use shm_graph::Me;
use shm_plain::{PlainPool, Workplace};
use shm_script::{Log, Script};
use std::alloc::{AllocError, Global};

/// The agents of a script at their machines.
pub type Cast = Agents<WorkMachine>;

impl<P: Piece> Play for Agents<P> {
    ghost playing = { λ x. x };

    #[inline(always)]
    fn new(alloc: Global, me: Me, at: usize, script: &Script) -> Result<Agents<P>, AllocError> {
        Agents::new(alloc, me, at, script)
    }

    #[inline(always)]
    fn script(&self) -> usize {
        Agents::script(self)
    }

    #[inline(always)]
    fn standing(&self) -> Standing {
        Agents::standing(self)
    }

    #[inline(always)]
    fn is_client(&self) -> bool {
        Agents::is_client(self)
    }

    #[inline(always)]
    fn client(&self) -> u8 {
        Agents::client(self)
    }

    #[inline(always)]
    fn is_at_command(&self) -> bool {
        Agents::is_at_command(self)
    }

    #[inline(always)]
    fn answered(&self) -> usize {
        Agents::answered(self)
    }

    #[inline(always)]
    fn turn<W: Workplace>(&mut self, script: &Script, pool: &mut W) {
        Agents::turn(self, script, pool)
    }

    #[inline(always)]
    fn turns(&mut self, script: &Script, pool: &mut PlainPool) {
        Agents::turns(self, script, pool)
    }

    #[inline(always)]
    fn cut<W: Workplace>(&mut self, script: &Script, pool: &mut W) -> bool {
        Agents::cut(self, script, pool)
    }

    #[inline(always)]
    fn log(self) -> Log {
        Agents::log(self)
    }
}
