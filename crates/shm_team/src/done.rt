//! What is done of an identity, once none of its agents has anything left to do.

ghost use Rattle.std.specs.Prelude.{◌≡◌, ◌≢◌};
ghost use Rattle.shm_agents.specs.Agents.{AgentsStand};
ghost use Rattle.shm_pool.specs.Posts.{IsPosted};
ghost use Rattle.shm_script.specs.Values.{Scripted as AScript};
ghost use Rattle.shm_team.specs.{Dones.IsFinished, Lefts.account_in};

use crate::left::Left;
use shm_agents::agents::Standing;
use shm_play::play::Play;
use shm_play::players::Players;
use shm_pool::Post;
use shm_script::Log;

/// What is done of an identity: the log of its client, where it has a script, and its token.
#[derive(Drop)]
pub struct Done {
    pub log: Option<Log>,
    pub left: Left,
}

/// The log of a client whose identity's agents have nothing left to do, and the token of the identity.
#[derive(Drop)]
pub struct Finish {
    pub log: Log,
    pub token: Left,
}

/// The log and the token, where none of the agents of a script has anything left to do.
pub fn hand_back<A: Play>(agents: Players<A>, post: Post<'_>) -> Finish
    requires posted { IsPosted post agents.me.who }
    requires stands { (s : AScript) × AgentsStand post.of.start s agents post.account }
    requires rests { agents.standing ≢ Standing.AtWork }
    ensures finished { (s : AScript) → AgentsStand post.entry.of.start s agents post.entry.account → IsFinished post.entry.of s result.log result.token }
    ensures account { account_in result.token ≡ post.entry.account }
{
    let token = if agents.standing() == Standing::Dead {
        Left::Corpse(post.corpse())
    } else {
        Left::Vacant(post.vacate())
    };
    Finish {
        log: agents.log(),
        token,
    }
}
