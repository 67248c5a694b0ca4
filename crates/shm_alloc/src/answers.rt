//! What the trails of an allocation tell: how many word steps it makes, and why it made no block.

ghost use Rattle.std.specs.Prelude.{◌≡◌, ℕ, ◌<◌, ◌≤◌, Result, Err, length};
ghost use Rattle.shm_graph.specs.{declared.memo.Memo.Memo as AMemo, Asks.Trail, Bounds.alloc_steps};
ghost use Rattle.shm_count.specs.declared.answer.Made.{Made as AMade};
ghost use Rattle.shm_alloc.specs.declared.alloc.AllocFault.{AllocFault as AFault, TheVariants.Full};
ghost use Rattle.shm_alloc.specs.{declared.point.AllocState.AllocState as AState, Alloc.Control.{RequestFits, turned}};
ghost use Rattle.shm_alloc.specs.Alloc.{AllocGives, Counts.{taken_in, used_in}, Seen.HasNoneFree};

/// Whatever an allocation has found, it took at most 546 word steps for each segment of the pool, and 46 more, in format 2 47.
pub fn alloc_bound()
    ensures { (m : AState) (r0 r : AMemo) (tr : Trail) (a : Result AMade AFault) → RequestFits m.request → AllocGives m r0 r tr a → length tr ≤ alloc_steps m.me.geometry.wide m.me.geometry.segments }
{}

/// An allocation that found no free block answers how many segments of others its trail shows, by a load that found another's number or an exchange that found somebody's, and how many blocks in use.
pub fn alloc_trails()
    ensures { (m : AState) (r0 r : AMemo) (tr : Trail) (taken used : ℕ) → m.me.who < m.me.geometry.clients → AllocGives m r0 r tr (Err (Full taken used)) → (taken ≡ taken_in m.me tr) × (used ≡ used_in m.me tr) }
{}

/// Without a hint a search goes to segments, pages and blocks in their order; with any hint it goes to each of them, and to a hint that is one
/// of them first.
pub fn search_goes_to_each()
    ensures plain { (n j : ℕ) → turned n 0 j ≡ j }
    ensures first { (n d : ℕ) → d < n → turned n d 0 ≡ d }
    ensures each { (n d k : ℕ) → k < n → (j : ℕ) × (j < n) × (turned n d j ≡ k) }
{}

/// An allocation that is refused as full has seen no free block in any segment of the pool, whatever its hint. It has seen that the segment is
/// another's, or that it is an own one; then each of its 16 pages has another class, or has the class, and no block of it was free.
pub fn search_finds_none()
    ensures { (m : AState) (r0 r : AMemo) (tr : Trail) (taken used s : ℕ) → AllocGives m r0 r tr (Err (Full taken used)) → s < m.me.geometry.segments → HasNoneFree m.me m.request tr s }
{}
