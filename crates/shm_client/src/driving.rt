//! Pools that an identity has just joined.

ghost use Rattle.std.specs.Prelude.{◌≡◌, ◌≢◌, ℕ, ◌+◌, ◌<◌, false, true, [], IfOk, IfSome, IsNone, IsSome};
ghost use Rattle.shm_words.specs.Layout.{GeometryFits};
ghost use Rattle.shm_graph.specs.declared.{spot.Spot.TheVariants.{Era, Root}, memo.Kind.TheVariants.Client};
ghost use Rattle.shm_graph.specs.{Agents.{entered, recovers}, Held.is_loose, Runs.{EraFits, first_memo}};
ghost use Rattle.shm_graph.specs.Views.{own_word};
ghost use Rattle.shm_plain.specs.{Pools.{IsRun, first_pool, memo_of}, Calls.{Did, IsAtWork, Ran}};
ghost use Rattle.shm_recover.specs.Join.{JoinGives, join_fresh};

use shm_graph::{Life, Me};
use shm_plain::PlainPool;
use shm_recover::Join;
use shm_words::Geometry;
use std::alloc::{AllocError, Global};

/// Makes a pool and runs a join of `who` on it; none exactly where no word step was left.
pub fn joined(
    alloc: Global,
    geometry: Geometry,
    first_era: u64,
    tables: bool,
    life: &mut Life,
    who: u8,
) -> Result<Option<PlainPool>, AllocError>
    requires geometry { GeometryFits geometry }
    requires era { EraFits first_era }
    requires who { who < geometry.clients }
    ensures start { IfOk result (λ o. IfSome o (λ p. p.start ≡ record { geometry = geometry; first_era = first_era; tables = tables })) }
    ensures era { IfOk result (λ o. IfSome o (λ p. own_word (memo_of p who).own (Era who who) ≡ first_era)) }
    ensures roots { IfOk result (λ o. IfSome o (λ p. (k : ℕ) → own_word (memo_of p who).own (Root who k) ≡ 0)) }
    ensures loose { IfOk result (λ o. IfSome o (λ p. tables ≡ false → is_loose (memo_of p who).part ≡ true)) }
    ensures gives { IfOk result (λ o. IfSome o (λ p. JoinGives (join_fresh (record { geometry = geometry; who = who })) (entered Client (first_memo p.start who)) (memo_of p who) (memo_of p who).call tt)) }
    ensures others { IfOk result (λ o. IfSome o (λ p. (d : ℕ) → d < geometry.clients → d ≢ who → memo_of p d ≡ first_memo p.start d)) }
    ensures died { IfOk result (λ o. IsNone o → life.new.left ≡ 0) }
    ensures answers { IfOk result (λ o. 0 < life.old.left → IsSome o) }
    ensures spent { IfOk result (λ o. IfSome o (λ p. life.new.left + 1 ≡ life.old.left)) }
    ensures run { IfOk result (λ o. IfSome o IsRun) }
    ensures at_work { IfOk result (λ o. IfSome o (λ p. IsAtWork who p)) }
    ensures client { IfOk result (λ o. IfSome o (λ p. recovers (memo_of p who) ≡ false)) }
    ensures ran { IfOk result (λ o. IfSome o (λ p. Ran who true true (first_pool p.start) p life.old.left life.new.left)) }
    ensures events { IfOk result (λ o. IfSome o (λ p. Did who (first_pool p.start) p [])) }
{
    let mut pool = PlainPool::make(alloc, geometry, first_era, tables)?;
    let mut join = Join::new(Me::new(geometry, who));
    match pool.call(who, &mut join, life) {
        Some(()) => Ok(Some(pool)),
        None => Ok(None),
    }
}
