//! A gate at which clients meet.

use crate::call::Made;
use crate::left;
use shm_team::Gate;
use std::io;
use std::sync::atomic::{AtomicBool, AtomicU32, Ordering};

/// How often a client looks whether all have come before it gives up.
const LOOKS: u32 = 1 << 30;

/// Where it is held, four clients meet at their first command, and the first two of them at their hundredth again; else each passes.
#[derive(Drop)]
pub struct Meetings {
    is_held: bool,
    first: AtomicU32,
    second: AtomicU32,
    given_up: AtomicBool,
}

impl Meetings {
    /// Before anybody has come.
    pub fn held() -> Meetings {
        Meetings::new(true)
    }

    /// A gate that everybody passes.
    pub fn none() -> Meetings {
        Meetings::new(false)
    }

    /// Before anybody has come.
    fn new(is_held: bool) -> Meetings {
        Meetings {
            is_held,
            first: AtomicU32::new(0),
            second: AtomicU32::new(0),
            given_up: AtomicBool::new(false),
        }
    }

    /// Comes to a meeting and waits until all have come. Once somebody gave up nobody waits.
    fn meet(&self, come: &AtomicU32, all: u32) {
        come.fetch_add(1, Ordering::SeqCst);
        for _look in 0..LOOKS {
            if all <= come.load(Ordering::SeqCst) || self.given_up.load(Ordering::SeqCst) {
                return;
            }
        }
        self.given_up.store(true, Ordering::SeqCst);
    }
}

impl Gate for Meetings {
    fn pass(&self, client: u8, command: u32) {
        if self.is_held && command == 0 {
            self.meet(&self.first, 4);
        }
        if self.is_held && client < 2 && command == 99 {
            self.meet(&self.second, 2);
        }
    }
}

/// The status of a call, how many came to each meeting of its gate, whether one of them waited in vain, and how many logs there are.
pub fn tell(rt: &HostRuntime, made: &Made, gate: &Meetings) -> io::Result<()> {
    let first = gate.first.load(Ordering::SeqCst);
    let second = gate.second.load(Ordering::SeqCst);
    let waited = if gate.given_up.load(Ordering::SeqCst) {
        "somebody"
    } else {
        "nobody"
    };
    let logs = left::count_logs(&made.outcome.finished);
    println!(rt;
        "status {}: {first} and {second} met, {waited} waited in vain, {logs} logs",
        made.outcome.status
    )
}
