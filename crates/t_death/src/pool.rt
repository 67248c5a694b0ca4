//! The words of a pool, and the number that is made of the word steps on them.

ghost use Rattle.shm_words.specs.Layout.{GeometryFits};

use plans::{Calls, Plan};
use shm_graph::Machine;
use shm_words::Geometry;
use std::alloc::{AllocError, Global};
use t_runs::{Sum, make};

/// The words of a pool, and the number that is made of the word steps on them.
#[derive(Drop)]
pub struct Pool {
    pub words: Vec<u64>,
    pub sum: Sum,
}

impl Pool {
    /// A pool of these sizes in which nobody has joined.
    pub fn new(alloc: Global, geometry: Geometry) -> Result<Pool, AllocError>
        requires { GeometryFits geometry }
    {
        let mut words = vec![in alloc; 0u64; geometry.total() as usize]?;
        for who in 0..geometry.clients() {
            if let Some(word) = words.get_mut(geometry.era(who, who) as usize) {
                *word = 1;
            }
        }
        let sum = Sum::new();
        Ok(Pool { words, sum })
    }

    /// A pool of the same words, before its first word step.
    pub fn copy(&self, alloc: Global) -> Result<Pool, AllocError> {
        let words = self.words.as_slice().to_vec(alloc)?;
        let sum = Sum::new();
        Ok(Pool { words, sum })
    }

    /// Makes at most so many word steps of a machine; how many were made. None where it asks for a word that isn't there.
    pub fn advance<M: Machine>(&mut self, machine: &mut M, most: u32) -> Option<u32>
    where
        M::Answer: Drop,
    {
        for made in 0..most {
            if machine.finished() {
                return Some(made);
            }
            let ask = machine.ask();
            let seen = make(&mut self.words, ask)?;
            self.sum.step(ask, seen);
            machine.take(seen);
        }
        Some(most)
    }

    /// The same of the machine of a plan, from its first word step. (A function that names that machine itself is proved more slowly.)
    pub fn follow<P: Plan>(&mut self, plan: P, most: u32) -> Option<u32>
    where
        P: Drop,
        P::Answer: Drop,
    {
        self.advance(&mut Calls::new(plan), most)
    }

    /// The word at an address; the greatest number where there is none.
    pub fn word(&self, at: u32) -> u64 {
        self.words.get(at as usize).copied().unwrap_or(u64::MAX)
    }

    /// The number that is made of all words.
    pub fn number(&self) -> u64 {
        let mut sum = Sum::new();
        for &word in self.words.as_slice() {
            sum.add(word);
        }
        sum.sum
    }
}
