//! One number for many word steps.

use shm_graph::Ask;

/// How many word steps there were, and the number that is made of them.
#[derive(Drop)]
pub struct Sum {
    pub steps: u64,
    pub sum: u64,
}

impl Sum {
    /// Before the first word step.
    pub fn new() -> Sum {
        Sum {
            steps: 0,
            sum: 14_695_981_039_346_656_037,
        }
    }

    /// Takes one more number into the sum.
    pub fn add(&mut self, number: u64) {
        self.sum = (self.sum ^ number).wrapping_mul(1_099_511_628_211);
    }

    /// A kind of thing by its number, and two numbers of it.
    pub fn add_two(&mut self, kind: u64, first: u64, second: u64) {
        self.add(kind);
        self.add(first);
        self.add(second);
    }

    /// What was asked and found.
    pub fn step(&mut self, ask: Ask, seen: u64) {
        self.steps = self.steps.wrapping_add(1);
        match ask {
            Ask::Load { at } => {
                self.add(0);
                self.add(u64::from(at));
            }
            Ask::Store { at, value } => self.add_two(1, u64::from(at), value),
            Ask::Exchange { at, from, to } => {
                self.add_two(2, u64::from(at), from);
                self.add(to);
            }
        }
        self.add(seen);
    }
}
