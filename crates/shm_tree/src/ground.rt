//! The pool that a forest stands on, and where its next node is likely to find room.

ghost use Rattle.std.specs.Prelude.{◌≡◌, ◌<◌, true, false, IfSome};
ghost use Rattle.std.specs.Option.{is_some};
ghost use Rattle.shm_words.specs.Layout.{GeometryFits};
ghost use Rattle.shm_graph.specs.{Tells.happens_along, Whole.{fits_now, gives_now}};
ghost use Rattle.shm_plain.specs.{Pools.{IsRun, memo_of, readied}, Calls.{Did, IsAtWork, Ran, TookSteps}};
ghost use Rattle.shm_tree.specs.Asking.{Allocates, BeginsBy};

use crate::hints::Hints;
use plans::Begin;
use shm_alloc::{AllocFault, Hint, Near, TooLarge};
use shm_client::allocate_near;
use shm_count::Made;
use shm_graph::{Life, Machine, Me};
use shm_plain::PlainPool;
use std::marker::Model;

/// The pool of a forest, and a hint for the next node.
#[derive(Drop)]
pub struct Ground {
    pool: PlainPool,
    hint: Hint,
}

impl Model for Ground {
    ghost use Rattle.shm_plain.specs.Pools.{Pool};

    ghost Value = { Pool };

    ghost view = { λ g. g.pool };
}

impl Ground {
    /// A pool, with no hint yet.
    pub fn new(pool: PlainPool) -> Ground
        ensures { result ≡ pool }
    {
        let hint = Hint::new(pool.geometry(), 2, 3);
        Ground { pool, hint }
    }

    /// The pool.
    pub fn pool(&self) -> &PlainPool
        ensures { result.now ≡ self.now }
    {
        &self.pool
    }

    /// The pool, without its hint.
    pub fn into_pool(self) -> PlainPool
        ensures { result ≡ self }
    {
        self.pool
    }

    /// The client, as its machines have it.
    pub fn me(&self, who: u8) -> Me
        requires { who < self.now.start.geometry.clients }
        ensures is { result ≡ record { geometry = self.now.start.geometry; who = who } }
        ensures fits { GeometryFits result.geometry }
        ensures inside { result.who < result.geometry.clients }
        ensures run { IsRun self.now }
    {
        self.pool.me(who)
    }

    /// Runs an operation of the client, as the pool does.
    pub fn run<B: Begin>(
        &mut self,
        who: u8,
        begins: B,
        life: &mut Life,
    ) -> Option<<B::Op as Machine>::Answer>
        requires at_work { IsAtWork who self.old }
        requires me { B.Op.control.me (B.op begins) ≡ record { geometry = self.old.start.geometry; who = who } }
        requires may { B.Op.may (B.op begins) (memo_of self.old who) }
        ensures leaves { IfSome result (λ a. let tr = (memo_of self.new who).call in let es = happens_along B.Op.control B.Op.does (B.op begins) tr in Did who self.old self.new es × B.Op.leaves (B.op begins) (memo_of self.old who) (memo_of self.new who) tr es a) }
        ensures gives { IfSome result (λ a. gives_now B.Op.gives (B.op begins) (memo_of self.old who) (memo_of self.new who) a) }
        ensures took { IfSome result (λ a. TookSteps B.Op.control who self.old (B.op begins) self.new) }
        ensures at_work { IfSome result (λ a. B.Op.rests (B.op begins) a → IsAtWork who self.new) }
        ensures cut { is_some result ≡ false → (m : B.Op) × (B.Op.control.finished m ≡ false) × fits_now B.Op.control B.Op.fits m (memo_of self.old who) (memo_of (readied self.new who) who) }
        ensures ran { Ran who true (is_some result) self.old self.new life.old.left life.new.left }
        ensures told { 0 < life.old.left → Did who self.old self.new (happens_along B.Op.control B.Op.does (B.op begins) (memo_of self.new who).call) }
    {
        self.pool.run(who, begins, life)
    }
}

/// Where the search for a node's block begins.
fn begins(hint: &Hint, hints: Hints) -> Near
    ensures { BeginsBy hints result }
{
    match hints {
        Hints::Off => Near {
            segment: 0,
            page: 0,
            index: 0,
        },
        Hints::On => hint.near(),
    }
}

/// An allocation of a node came to this.
fn remember(hint: &mut Hint, came: Option<Result<Made, AllocFault>>) {
    if let Some(Ok(node)) = came {
        hint.made(node.block);
    }
}

/// Runs an allocation of a node with these plain words, and tells the hint what came of it; none where no word step was left.
fn allocate_by(
    pool: &mut PlainPool,
    hint: &mut Hint,
    hints: Hints,
    plain: &[u64],
    life: &mut Life,
) -> Result<Option<Result<Made, AllocFault>>, TooLarge>
    requires at_work { IsAtWork 0 pool.old }
    ensures { Allocates hints plain.now result pool.old pool.new life.old.left life.new.left }
{
    let near = begins(hint, hints);
    let made = allocate_near(pool, 0, 2, plain, near, life)?;
    remember(hint, made);
    Ok(made)
}

/// Runs an allocation of a node with these plain words; none where no word step was left.
///
/// # Errors
///
/// `TooLarge` where more than 8 plain words are asked for.
pub fn allocate(
    pool: &mut Ground,
    hints: Hints,
    plain: &[u64],
    life: &mut Life,
) -> Result<Option<Result<Made, AllocFault>>, TooLarge>
    requires at_work { IsAtWork 0 pool.old }
    ensures { Allocates hints plain.now result pool.old pool.new life.old.left life.new.left }
{
    allocate_by(&mut pool.pool, &mut pool.hint, hints, plain, life)
}
