//! Identities that join a pool that stands, and allocations on it.

ghost use Rattle.std.specs.Prelude.{◌≡◌, ◌≢◌, ℕ, ◌+◌, ◌<◌, ◌↔◌, ◌⊎◌, true, false, [], length, is_err, IfErr, IfOk, IfSome};
ghost use Rattle.std.specs.Option.{is_some};
ghost use Rattle.shm_words.specs.Layout.{GeometryFits};
ghost use Rattle.shm_graph.specs.{declared.memo.Kind.TheVariants.Client, Agents.{acts, recovers}, Held.is_loose};
ghost use Rattle.shm_graph.specs.Tells.{happens_along};
ghost use Rattle.shm_graph.specs.declared.memo.Status.TheVariants as status;
ghost use Rattle.shm_plain.specs.{Pools.{MayStep, memo_of, readied}, Calls.{Did, IsAtWork, Ran}, Tracks.kind_next};
ghost use Rattle.shm_recover.specs.Join.{JoinGives, join_fresh};
ghost use Rattle.shm_alloc.specs.{declared.point.AllocState.AllocState as AState, Alloc.Control.alloc_control};
ghost use Rattle.shm_alloc.specs.Alloc.{Events.{alloc_event, own_events}, AllocGives};
ghost use Rattle.shm_count.specs.{Step.Control.IsInside, Roots.{AreRootsReached, member, root_word}};
ghost use Rattle.shm_client.specs.Allocating.{IsAsked, IsAskedNear};

use shm_alloc::{Alloc, AllocFault, Near, TooLarge};
use shm_count::Made;
use shm_graph::{Life, Me};
use shm_plain::PlainPool;
use shm_recover::Join;

/// Runs a join of `who` on a pool that stands; false where no word step was left.
pub fn join(pool: &mut PlainPool, who: u8, life: &mut Life) -> bool
    requires geometry { GeometryFits pool.old.start.geometry }
    requires who { who < pool.old.start.geometry.clients }
    requires status { ((memo_of pool.old who).status ≡ status.New) ⊎ ((memo_of pool.old who).status ≡ status.Gone) }
    requires agent { MayStep pool.old who }
    ensures gives { result ≡ true → JoinGives (join_fresh (record { geometry = pool.old.start.geometry; who = who })) (memo_of (readied pool.old who) who) (memo_of pool.new who) (memo_of pool.new who).call tt }
    ensures at_work { result ≡ true → IsAtWork who pool.new }
    ensures client { result ≡ true → acts (memo_of pool.old who) ≡ false → kind_next (memo_of pool.old who) ≡ Client → recovers (memo_of pool.new who) ≡ false }
    ensures spent { result ≡ true → life.new.left + 1 ≡ life.old.left }
    ensures ran { Ran who true result pool.old pool.new life.old.left life.new.left }
    ensures events { result ≡ true → Did who pool.old pool.new [] }
{
    let mut join = Join::new(Me::new(pool.geometry(), who));
    pool.call(who, &mut join, life).is_some()
}

/// Runs an allocation of `who` on a pool; none where no word step was left.
///
/// # Errors
///
/// `TooLarge` where more than 16 reference words or more than 8 plain words are asked for.
pub fn allocate(
    pool: &mut PlainPool,
    who: u8,
    refs: u8,
    plain: &[u64],
    life: &mut Life,
) -> Result<Option<Result<Made, AllocFault>>, TooLarge>
    requires at_work { IsAtWork who pool.old }
    ensures refused { is_err result ≡ true ↔ ((16 < refs) ⊎ (8 < length plain.now)) }
    ensures fault { IfErr result (λ e. (e ≡ record { refs = refs; plain = length plain.now }) × (pool.new ≡ pool.old) × (life.new ≡ life.old)) }
    ensures gives { IfOk result (λ o. IfSome o (λ a. (m : AState) × IsAsked pool.old.start.geometry who refs plain.now m × AllocGives m (memo_of pool.old who) (memo_of pool.new who) (memo_of pool.new who).call a)) }
    ensures number { IfOk result (λ o. IfSome o (λ a. IfOk a (λ made. made.root < 16))) }
    ensures root { IfOk result (λ o. IfSome o (λ a. IfOk a (λ made. root_word who (memo_of pool.new who) made.root ≡ made.block))) }
    ensures roots { IfOk result (λ o. IfSome o (λ a. IfOk a (λ made. (k : ℕ) → k ≢ made.root → root_word who (memo_of pool.new who) k ≡ root_word who (memo_of pool.old who) k))) }
    ensures inside { IfOk result (λ o. IfSome o (λ a. IfOk a (λ made. IsInside (member pool.old.start.geometry who) made.block))) }
    ensures none_made { IfOk result (λ o. IfSome o (λ a. IfErr a (λ e. (k : ℕ) → root_word who (memo_of pool.new who) k ≡ root_word who (memo_of pool.old who) k))) }
    ensures loose { IfOk result (λ o. IfSome o (λ a. is_loose (memo_of pool.new who).part ≡ is_loose (memo_of pool.old who).part)) }
    ensures reached { IfOk result (λ o. IfSome o (λ a. AreRootsReached who (memo_of pool.new who))) }
    ensures at_work { IfOk result (λ o. IfSome o (λ a. IsAtWork who pool.new)) }
    ensures kind { IfOk result (λ o. IfSome o (λ a. recovers (memo_of pool.new who) ≡ recovers (memo_of pool.old who))) }
    ensures ran { IfOk result (λ o. Ran who true (is_some o) pool.old pool.new life.old.left life.new.left) }
    ensures events { IfOk result (λ o. IfSome o (λ a. Did who pool.old pool.new (own_events (member pool.old.start.geometry who) a))) }
    ensures told { IfOk result (λ o. 0 < life.old.left → (m : AState) × IsAsked pool.old.start.geometry who refs plain.now m × Did who pool.old pool.new (happens_along alloc_control alloc_event m (memo_of pool.new who).call)) }
{
    let near = Near {
        segment: 0,
        page: 0,
        index: 0,
    };
    allocate_near(pool, who, refs, plain, near, life)
}

/// The same, where the search for a free block begins near a place.
///
/// # Errors
///
/// `TooLarge` where more than 16 reference words or more than 8 plain words are asked for.
pub fn allocate_near(
    pool: &mut PlainPool,
    who: u8,
    refs: u8,
    plain: &[u64],
    near: Near,
    life: &mut Life,
) -> Result<Option<Result<Made, AllocFault>>, TooLarge>
    requires at_work { IsAtWork who pool.old }
    ensures refused { is_err result ≡ true ↔ ((16 < refs) ⊎ (8 < length plain.now)) }
    ensures fault { IfErr result (λ e. (e ≡ record { refs = refs; plain = length plain.now }) × (pool.new ≡ pool.old) × (life.new ≡ life.old)) }
    ensures gives { IfOk result (λ o. IfSome o (λ a. (m : AState) × IsAskedNear pool.old.start.geometry who refs plain.now near m × AllocGives m (memo_of pool.old who) (memo_of pool.new who) (memo_of pool.new who).call a)) }
    ensures number { IfOk result (λ o. IfSome o (λ a. IfOk a (λ made. made.root < 16))) }
    ensures root { IfOk result (λ o. IfSome o (λ a. IfOk a (λ made. root_word who (memo_of pool.new who) made.root ≡ made.block))) }
    ensures roots { IfOk result (λ o. IfSome o (λ a. IfOk a (λ made. (k : ℕ) → k ≢ made.root → root_word who (memo_of pool.new who) k ≡ root_word who (memo_of pool.old who) k))) }
    ensures inside { IfOk result (λ o. IfSome o (λ a. IfOk a (λ made. IsInside (member pool.old.start.geometry who) made.block))) }
    ensures none_made { IfOk result (λ o. IfSome o (λ a. IfErr a (λ e. (k : ℕ) → root_word who (memo_of pool.new who) k ≡ root_word who (memo_of pool.old who) k))) }
    ensures loose { IfOk result (λ o. IfSome o (λ a. is_loose (memo_of pool.new who).part ≡ is_loose (memo_of pool.old who).part)) }
    ensures reached { IfOk result (λ o. IfSome o (λ a. AreRootsReached who (memo_of pool.new who))) }
    ensures at_work { IfOk result (λ o. IfSome o (λ a. IsAtWork who pool.new)) }
    ensures kind { IfOk result (λ o. IfSome o (λ a. recovers (memo_of pool.new who) ≡ recovers (memo_of pool.old who))) }
    ensures ran { IfOk result (λ o. Ran who true (is_some o) pool.old pool.new life.old.left life.new.left) }
    ensures events { IfOk result (λ o. IfSome o (λ a. Did who pool.old pool.new (own_events (member pool.old.start.geometry who) a))) }
    ensures told { IfOk result (λ o. 0 < life.old.left → (m : AState) × IsAskedNear pool.old.start.geometry who refs plain.now near m × Did who pool.old pool.new (happens_along alloc_control alloc_event m (memo_of pool.new who).call)) }
{
    let alloc = Alloc::new_near(pool.me(who), refs, plain, near)?;
    Ok(pool.run(who, alloc, life))
}
