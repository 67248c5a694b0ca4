//! What lines of standard input say of a pool before an operation is cut in it.

use crate::op::Op;
use crate::reading::{begin_of, command_of, op_of};
use shm_script::Line;
use std::alloc::{AllocError, Global};
use t_runs::numbers;

/// A pool that all identities joined, and where operations were made one after the other; and what comes after the death.
#[derive(Drop)]
pub struct Case {
    pub clients: u64,
    pub segments: u64,
    /// What was made, each operation by an identity.
    pub before: Vec<(u8, Op)>,
    /// What another identity runs between the death and the recovery.
    pub between: Option<(u8, Line)>,
}

impl Case {
    /// No pool.
    pub fn new(alloc: Global) -> Case {
        Case {
            clients: 0,
            segments: 0,
            before: Vec::new(alloc),
            between: None,
        }
    }

    /// Begins with a pool of these sizes: `CLIENTS SEGMENTS`.
    pub fn begin(&mut self, text: &str) {
        let sizes = numbers(text);
        self.clients = sizes[0];
        self.segments = sizes[1];
        self.before.truncate(0);
        self.between = None;
    }

    /// Adds operations of an identity, `WHO OP, OP ..`; false where one of them is none.
    pub fn add_before(&mut self, text: &str) -> Result<bool, AllocError> {
        let Some((who, ops)) = begin_of(text) else {
            return Ok(false);
        };
        for op in ops.split(", ") {
            let Some(op) = op_of(op) else {
                return Ok(false);
            };
            self.before.push((who, op))?;
        }
        Ok(true)
    }

    /// Takes what another identity runs after the death, `WHO COMMAND`; false where that is none.
    pub fn set_between(&mut self, text: &str) -> bool {
        self.between = between_of(text);
        self.between.is_some()
    }
}

/// An identity and a command.
fn between_of(text: &str) -> Option<(u8, Line)> {
    let (who, command) = begin_of(text)?;
    Some((who, command_of(command)?))
}
