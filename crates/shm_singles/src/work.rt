//! A join, a recovery, a leaving, or an operation on single blocks, by numbers.

ghost use Rattle.std.specs.Prelude.{◌≡◌, ◌<◌};
ghost use Rattle.shm_words.specs.Layout.{GeometryFits};
ghost use Rattle.shm_singles.specs.Singles.{singles, alone};

use crate::numbers::{begun, script_of};
use crate::script::{Deed, Outcome, Point, Script};
use crate::steering::Steering;
use shm_graph::{Ask, Me};
use shm_session::{Call, Misuse, Reply, Said, Sits, Stage};

/// The operations of an identity in a pool for single blocks.
#[derive(Drop)]
pub struct Singles;

/// A join, a recovery or a leaving.
fn alone(me: Me, deed: Deed) -> Steering<Script>
    requires geometry { GeometryFits me.geometry }
    requires who { me.who < me.geometry.clients }
    ensures { result ≡ alone me deed }
{
    Steering::new(Script::new(begun(me, deed, Point::Only)))
}

impl Sits for Singles {
    type Work = Steering<Script>;

    type Answer = Outcome;

    ghost operations = { singles };

    fn begin(me: Me, stage: Stage, call: Call) -> Result<Steering<Script>, Misuse> {
        match call.op {
            1 => match stage {
                Stage::Vacant => Ok(alone(me, Deed::Join)),
                Stage::Live | Stage::Dead => Err(Misuse::Stage),
            },
            2 => match stage {
                Stage::Live => Ok(alone(me, Deed::Leave)),
                Stage::Vacant | Stage::Dead => Err(Misuse::Stage),
            },
            3 => match stage {
                Stage::Dead => Ok(alone(me, Deed::Recover)),
                Stage::Vacant | Stage::Live => Err(Misuse::Stage),
            },
            _ => match script_of(me, call) {
                Some(state) => match stage {
                    Stage::Live => Ok(Steering::new(Script::new(state))),
                    Stage::Vacant | Stage::Dead => Err(Misuse::Stage),
                },
                None => Err(Misuse::Range),
            },
        }
    }

    #[inline(always)]
    fn is_over(work: &Steering<Script>) -> bool {
        work.is_over()
    }

    #[inline(always)]
    fn ask(work: &Steering<Script>) -> Ask {
        work.ask()
    }

    #[inline(always)]
    fn take(work: &mut Steering<Script>, seen: u64) -> Option<Outcome> {
        work.take(seen)
    }

    fn reply(answer: Outcome, stage: Stage) -> Reply {
        Reply {
            said: answer.said,
            stage: answer.stands.unwrap_or(stage),
        }
    }

    fn effect(_work: &Steering<Script>) -> Option<Said> {
        None
    }
}
