//! A medic at work beside the workers.

use shm_morgue::{Gate, run_morgue};
use shm_script::parse;
use std::alloc::{AllocError, Global};
use std::sync::Wait;
use std::sync::atomic::{AtomicBool, AtomicU32, Ordering};
use std::test::Fail;
use std::thread::Threads;

/// How often somebody looks whether others have come before it gives up.
const LOOKS: u32 = 1 << 30;

/// How long client 1 waits still once a rescue has begun.
const FURTHER: u32 = 1 << 24;

/// Clients 0 and 2 die in their put, and client 1 has two.
const TRACE: &str =
    "pool 3 3\nclient 0\nlife 60\nput 1 10\nclient 1\nput 2 20\nput 3 30\nclient 2\nlife 60\nput 4 40\n";

/// Client 1 is held at its last command until a first rescue has begun, and then some time longer; and that rescue until client 1 goes on.
#[derive(Drop)]
struct Holds {
    /// How many rescues have begun.
    begun: AtomicU32,
    /// Whether client 1 was let through, and whether the first rescue was.
    passed: AtomicBool,
    let_go: AtomicBool,
    /// Rescues of clients 0 and 2.
    zero: AtomicU32,
    two: AtomicU32,
    /// Whether a rescue began while the first one was held.
    overlaps: AtomicBool,
    given_up: AtomicBool,
}

impl Holds {
    /// Before anybody has come.
    fn new() -> Holds {
        Holds {
            begun: AtomicU32::new(0),
            passed: AtomicBool::new(false),
            let_go: AtomicBool::new(false),
            zero: AtomicU32::new(0),
            two: AtomicU32::new(0),
            overlaps: AtomicBool::new(false),
            given_up: AtomicBool::new(false),
        }
    }

    /// Whether clients 0 and 2 were rescued once each, one after the other, while client 1 was at work.
    fn went_well(&self) -> bool {
        let zero = self.zero.load(Ordering::SeqCst);
        let two = self.two.load(Ordering::SeqCst);
        let late = self.given_up.load(Ordering::SeqCst);
        let both = self.overlaps.load(Ordering::SeqCst);
        zero == 1 && two == 1 && !late && !both
    }

    /// Waits for a rescue.
    fn await_rescue(&self) {
        for _look in 0..LOOKS {
            if self.begun.load(Ordering::SeqCst) > 0 {
                return;
            }
        }
        self.given_up.store(true, Ordering::SeqCst);
    }

    /// Waits until client 1 was let through.
    fn await_client(&self) {
        for _look in 0..LOOKS {
            if self.passed.load(Ordering::SeqCst) {
                return;
            }
        }
        self.given_up.store(true, Ordering::SeqCst);
    }
}

impl Gate for Holds {
    fn pass(&self, client: u8, command: u32) {
        if client != 1 || command != 1 {
            return;
        }
        self.await_rescue();
        for _turn in 0..FURTHER {
            self.begun.load(Ordering::SeqCst);
        }
        self.passed.store(true, Ordering::SeqCst);
    }

    fn rescue(&self, medic: u8, client: u8) {
        let _ = medic;
        if client == 0 {
            self.zero.fetch_add(1, Ordering::SeqCst);
        } else {
            self.two.fetch_add(1, Ordering::SeqCst);
        }
        if self.begun.fetch_add(1, Ordering::SeqCst) == 0 {
            self.await_client();
            self.let_go.store(true, Ordering::SeqCst);
        } else if !self.let_go.load(Ordering::SeqCst) {
            self.overlaps.store(true, Ordering::SeqCst);
        }
    }
}

/// Whether a medic recovered the dead one after the other, while client 1 was at work.
fn recovers_beside<R: Threads + Wait + Sync>(rt: &R, alloc: Global) -> Result<bool, AllocError> {
    let Ok(trace) = parse(alloc, TRACE.as_bytes()) else {
        return Ok(false);
    };
    let holds = Holds::new();
    let rescued = run_morgue(rt, alloc, &trace, 1, &holds)?;
    Ok(holds.went_well() && rescued.logs.len() == 3)
}

#[test]
fn a_medic_recovers_beside_the_workers(rt: HostRuntime) -> Result<(), Fail> {
    let beside = recovers_beside(&rt, rt.alloc())?;
    assert!(rt; beside);
    Ok(())
}
