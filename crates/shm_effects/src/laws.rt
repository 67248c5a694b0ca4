//! What holds of the logs of a trace, at each word step of its run.

ghost use Rattle.std.specs.{Prelude.{List, []}, List.AllByRecursion};
ghost use Rattle.shm_effects.specs.{Effects.TakesEffect, Lived.HasLived, Taken.IsInterleaved};
ghost use Rattle.shm_headline.specs.{Headline.{geometry_of, words_first}, TurnsOf.turns_of};
ghost use Rattle.shm_plain.specs.Pools.{Pool as APool};
ghost use Rattle.shm_replay.specs.Replays.{IsReplay};
ghost use Rattle.shm_script.specs.{Logged.Logged as ALogged, Ranges.IsTrace, Values.Traced as ATrace};
ghost use Rattle.shm_team.specs.Rans.{IsTeamRun};

use shm_table::{command_foretells, command_maps};

/// In the turns that a trace gives each command of a log takes effect at one word step of its client, or of who recovers it, wholly or not at
/// all; and what a get answered stood in the author's map at a time since the command before it. So it is in whatever order the turns come,
/// where each identity takes those that its script gives; a replay is one such run. In a run by threads, with medics or by polls it is so in all
/// turns, those of the closing among them, which leave each map as it was.
pub fn logs_take_effect()
    ensures replay { (t : ATrace) (p : APool) (ls : List ALogged) → IsTrace t → (r : IsReplay t p ls) → AllByRecursion (λ (l : ALogged). TakesEffect (geometry_of t) l 0 [] (words_first t) (turns_of r.played.turns)) ls }
    ensures interleaved { (t : ATrace) (p : APool) (ls : List ALogged) → IsTrace t → (r : IsInterleaved t p ls) → AllByRecursion (λ (l : ALogged). TakesEffect (geometry_of t) l 0 [] (words_first t) (turns_of r.played.turns)) ls }
    ensures team { (t : ATrace) (p : APool) (ls : List ALogged) → IsTrace t → IsTeamRun t p ls → AllByRecursion (λ (l : ALogged). TakesEffect (geometry_of t) l 0 [] (words_first t) (turns_of p.turns)) ls }
    ensures one_such { (t : ATrace) (p : APool) (ls : List ALogged) → IsTrace t → IsReplay t p ls → IsInterleaved t p ls }
{
    // by their laws: what the map is while a command runs, and what the command shows of its answer
    command_maps();
    command_foretells();
}

/// Where the client of a log ended, nobody of its identity died, in the turns of the trace or in the closing: of a replay, and of a run by
/// threads, with medics or by polls.
pub fn ended_clients_lived()
    ensures replay { (t : ATrace) (p : APool) (ls : List ALogged) → IsTrace t → IsReplay t p ls → AllByRecursion (HasLived (turns_of p.turns)) ls }
    ensures team { (t : ATrace) (p : APool) (ls : List ALogged) → IsTrace t → IsTeamRun t p ls → AllByRecursion (HasLived (turns_of p.turns)) ls }
{
    // by their laws, as above
    command_maps();
    command_foretells();
}
