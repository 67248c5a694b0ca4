//! What workers pass before their commands.

use std::marker::Sync;

/// A worker passes it before each command, with its client and the command's number, from 0. It promises nothing.
pub trait Gate: Sync {
    fn pass(&self, client: u8, command: u32);
}

/// A gate that does nothing.
#[derive(Drop)]
pub struct NoGate;

impl Gate for NoGate {
    fn pass(&self, client: u8, command: u32) {
        let _ = (client, command);
    }
}
