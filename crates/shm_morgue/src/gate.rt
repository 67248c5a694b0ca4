//! What workers pass before their commands, and medics before they recover.

use std::marker::Sync;

/// A worker passes it before each command, with its client and the command's number, from 0; and a medic tells it, with its own number, of
/// each client whose corpse it took. It promises nothing.
pub trait Gate: Sync {
    fn pass(&self, client: u8, command: u32);

    fn rescue(&self, medic: u8, client: u8);
}

/// A gate that does nothing.
#[derive(Drop)]
pub struct NoGate;

impl Gate for NoGate {
    fn pass(&self, client: u8, command: u32) {
        let _ = (client, command);
    }

    fn rescue(&self, medic: u8, client: u8) {
        let _ = (medic, client);
    }
}
