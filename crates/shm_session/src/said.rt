//! What a session is called with, and what it says.

ghost use Rattle.std.specs.Prelude.{◌≡◌, ◌≤◌};
ghost use Rattle.shm_session.specs.Sessions.{code_said, refusal_said, standing_said, step_said};

use shm_graph::Ask;

/// How an identity stands, as far as its session knows.
#[derive(Clone, Copy, Debug, PartialEq, Eq, Drop)]
pub enum Stage {
    /// It is new or gone: it may join.
    Vacant,
    /// It has joined.
    Live,
    /// It is to be recovered.
    Dead,
}

/// Why a call did nothing.
#[derive(Clone, Copy, Debug, PartialEq, Eq, Drop)]
pub enum Misuse {
    /// A number is out of its range.
    Range,
    /// The identity doesn't stand so.
    Stage,
    /// The operation before hasn't answered.
    Busy,
    /// No operation is in progress.
    Idle,
}

/// An operation by its number, with its numbers; of an allocation `words` are the plain words of the new block.
#[derive(Clone, Copy, Debug, PartialEq, Eq, Drop)]
pub struct Call {
    pub op: u32,
    pub first: u64,
    pub second: u64,
    pub third: u64,
    pub words: [u64; 8],
}

/// What is said: a word step, an answer or a refusal, by its code.
#[repr(C)]
#[derive(Clone, Copy, Debug, PartialEq, Eq, Drop)]
pub struct Said {
    pub code: u32,
    pub at: u32,
    pub first: u64,
    pub second: u64,
}

/// What is said after some word steps, and how many were made.
#[repr(C)]
#[derive(Clone, Copy, Debug, PartialEq, Eq, Drop)]
pub struct Ran {
    pub said: Said,
    pub steps: u64,
}

/// What an answer is as numbers, and how the identity stands after it.
#[derive(Clone, Copy, Debug, PartialEq, Eq, Drop)]
pub struct Reply {
    pub said: Said,
    pub stage: Stage,
}

impl Said {
    /// These numbers.
    #[inline(always)]
    pub fn new(code: u32, at: u32, first: u64, second: u64) -> Said
        ensures { (result.code ≡ code) × (result.at ≡ at) × (result.first ≡ first) × (result.second ≡ second) }
    {
        Said {
            code,
            at,
            first,
            second,
        }
    }

    /// The code alone.
    pub fn of(code: u32) -> Said
        ensures { result ≡ code_said code }
    {
        Said::new(code, 0, 0, 0)
    }

    /// A word step: 0 is a load of `at`, 1 a store of `second`, 2 an exchange of `first` with `second`.
    #[inline(always)]
    pub fn step(ask: Ask) -> Said
        ensures step { result ≡ step_said ask }
        ensures code { result.code ≤ 2 }
    {
        match ask {
            Ask::Load { at } => Said::new(0, at, 0, 0),
            Ask::Store { at, value } => Said::new(1, at, 0, value),
            Ask::Exchange { at, from, to } => Said::new(2, at, from, to),
        }
    }

    /// A refusal.
    pub fn refusal(misuse: Misuse) -> Said
        ensures { result ≡ refusal_said misuse }
    {
        match misuse {
            Misuse::Range => Said::of(64),
            Misuse::Stage => Said::of(65),
            Misuse::Busy => Said::of(66),
            Misuse::Idle => Said::of(67),
        }
    }

    /// How an identity stands, and whether an operation is in progress.
    pub fn standing(stage: Stage, busy: bool) -> Said
        ensures { result ≡ standing_said stage busy }
    {
        let code = match stage {
            Stage::Vacant => 32,
            Stage::Live => 33,
            Stage::Dead => 34,
        };
        Said::new(code, 0, u64::from(busy), 0)
    }
}
