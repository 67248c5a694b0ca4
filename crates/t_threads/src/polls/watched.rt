//! A runtime that notes whether random bytes were asked of it.

use std::alloc::Alloc;
use std::io;
use std::random::RandomSource;
use std::sync::Wait;
use std::sync::atomic::{AtomicBool, Ordering};

/// It hands on what it is asked for, and notes that random bytes were.
#[derive(Drop)]
pub struct Watched<'r, R> {
    rt: &'r R,
    has_asked: AtomicBool,
}

impl<'r, R> Watched<'r, R> {
    /// Before anything was asked.
    pub fn new(rt: &'r R) -> Watched<'r, R> {
        Watched {
            rt,
            has_asked: AtomicBool::new(false),
        }
    }

    /// Whether random bytes were asked of it.
    pub fn has_asked(&self) -> bool {
        self.has_asked.load(Ordering::SeqCst)
    }
}

impl<'r, R: Wait> Wait for Watched<'r, R> {}

impl<'r, R: Alloc> Alloc for Watched<'r, R> {
    type A = R::A;

    fn alloc(&self) -> R::A {
        self.rt.alloc()
    }
}

impl<'r, R: RandomSource> RandomSource for Watched<'r, R> {
    fn fill_bytes(&self, buf: &mut [u8]) -> io::Result<()> {
        self.has_asked.store(true, Ordering::SeqCst);
        self.rt.fill_bytes(buf)
    }
}
