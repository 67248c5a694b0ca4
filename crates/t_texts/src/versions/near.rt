//! A forest with hints beside one without: the same lines on both.

ghost use Rattle.std.specs.Prelude.{◌≤◌};

use shm_graph::Life;
use shm_tree::{Forest, TreeAnswer, TreeLine, TreeTurn};
use std::alloc::{AllocError, Global};

/// How many word steps a line may take.
const LIFE: u64 = 1 << 40;

/// What a line came to, and how many word steps it took.
#[derive(Clone, Copy, Drop)]
struct Outcome {
    turn: TreeTurn,
    steps: u64,
}

/// What came of the same sets on two forests.
#[derive(Clone, Copy, Drop)]
pub struct Beside {
    pub sets: u32,
    /// How many were answered by the same.
    pub same: u32,
    /// How many word steps they took without hints.
    pub plain: u64,
    /// And with hints.
    pub near: u64,
    /// The first answer that was a refusal, with hints.
    pub refusal: Option<TreeAnswer>,
}

/// A forest without hints, one with hints, and what came of the sets on them.
#[derive(Drop)]
struct Pair {
    plain: Forest,
    near: Forest,
    beside: Beside,
    /// The random number that was drawn last.
    drawn: u64,
}

/// Sets a key of register 0.
fn set(forest: &mut Forest, key: u32, number: u64) -> Outcome {
    let mut life = Life::of(LIFE);
    let line = TreeLine::Set {
        to: 0,
        from: 0,
        key,
        number,
    };
    let turn = forest.run(&line, &mut life);
    Outcome {
        turn,
        steps: LIFE.saturating_sub(life.left),
    }
}

impl Pair {
    /// Two empty forests in pools of so many segments.
    fn new(alloc: Global, segments: u16) -> Result<Pair, AllocError>
        requires { (1 ≤ segments) × (segments ≤ 256) }
    {
        Ok(Pair {
            plain: Forest::make(alloc, segments)?,
            near: Forest::make_near(alloc, segments)?,
            beside: Beside {
                sets: 0,
                same: 0,
                plain: 0,
                near: 0,
                refusal: None,
            },
            drawn: 1,
        })
    }

    /// A random number below `end`.
    fn draw(&mut self, end: u32) -> u32 {
        self.drawn = self
            .drawn
            .wrapping_mul(6_364_136_223_846_793_005)
            .wrapping_add(1_442_695_040_888_963_407);
        ((self.drawn >> 33) % u64::from(end.max(1))) as u32
    }

    /// Sets a key on both.
    fn set(&mut self, key: u32, number: u64) {
        let plain = set(&mut self.plain, key, number);
        let near = set(&mut self.near, key, number);
        let beside = &mut self.beside;
        beside.sets = beside.sets.saturating_add(1);
        beside.same = beside
            .same
            .saturating_add(u32::from(plain.turn == near.turn));
        beside.plain = beside.plain.saturating_add(plain.steps);
        beside.near = beside.near.saturating_add(near.steps);
        match near.turn {
            TreeTurn::Done(answer) if beside.refusal.is_none() && answer != TreeAnswer::Ok => {
                beside.refusal = Some(answer)
            }
            _ => {}
        }
    }

    /// Sets so many keys, each once, in an order that isn't theirs.
    fn fill(&mut self, keys: u32) {
        for i in 0..keys {
            let key = (u64::from(i) * 7919 % u64::from(keys.max(1))) as u32;
            self.set(key, u64::from(i));
        }
    }
}

/// Sets so many keys on both forests, in pools of 64 segments, and then `more` times a random one of them.
pub fn sets(alloc: Global, keys: u32, more: u32) -> Result<Beside, AllocError> {
    let mut pair = Pair::new(alloc, 64)?;
    pair.fill(keys);
    for _ in 0..more {
        let key = pair.draw(keys);
        pair.set(key, 0);
    }
    Ok(pair.beside)
}

/// Sets so many keys on both forests, in pools of one segment.
pub fn brim(alloc: Global, keys: u32) -> Result<Beside, AllocError> {
    let mut pair = Pair::new(alloc, 1)?;
    pair.fill(keys);
    Ok(pair.beside)
}
