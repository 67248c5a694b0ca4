//! A sink into memory.
ghost use Rattle.std.specs.Prelude.{◌≡◌, ◌<◌, ◌≤◌, ◌⊎◌, ◌↔◌, [], min, length, take, Some, IfOk, OnOk, OnErr, IsErr, IsTrue};
ghost use Rattle.std.specs.List.{Contains};
ghost use Rattle.shm_io.specs.{Faults.{Rose, next_count}, Writing.Appends};
ghost use Rattle.shm_io.specs.Store.{after_write, after_failed_write, IsUsedUp, free_room};

use crate::calls::is_listed;
use crate::filling::put_at;
use crate::{Failed, Sink};
use std::alloc::{AllocError, Global};
use std::marker::Model;

/// A sink into memory, which takes pieces of a set size, has a set room and fails at set calls.
#[derive(Drop)]
pub struct MemorySink {
    bytes: Vec<u8>,
    len: usize,
    piece: usize,
    fails: Vec<u32>,
    calls: u64,
    faults: u64,
}

impl Model for MemorySink {
    ghost use Rattle.std.specs.Prelude.{◌<◌, ◌≤◌, length, take};
    ghost use Rattle.shm_io.specs.Store.{Store, IsStore};

    ghost Value = { Store };

    ghost view = { λ s. record { held = take s.len s.bytes.items; room = length s.bytes.items; piece = s.piece; fails = s.fails.items; calls = s.calls; faults = s.faults } };

    ghost invariant = { λ s. IsStore s.piece s.len (length s.bytes.items) };
}

impl MemorySink {
    /// An empty sink with room for `room` bytes, whose memory it takes here. Each write takes at most `piece`
    /// bytes. The writes whose numbers, from 1, stand in `fails` fail, and so does a write of a piece that
    /// isn't empty once the room is used up.
    pub fn new(
        alloc: Global,
        room: usize,
        piece: usize,
        fails: Vec<u32>,
    ) -> Result<MemorySink, AllocError>
        requires { 0 < piece }
        ensures { IfOk result (λ sink. sink ≡ record { held = []; room = room; piece = piece; fails = fails.items; calls = 0; faults = 0 }) }
    {
        Ok(MemorySink {
            bytes: vec![in alloc; 0; room]?,
            len: 0,
            piece,
            fails,
            calls: 0,
            faults: 0,
        })
    }

    /// The bytes that were written.
    pub fn bytes(&self) -> &[u8]
        ensures { result.now ≡ self.now.held }
    {
        &self.bytes[..self.len]
    }

    // Whether the next write fails, of a piece of this length.
    fn is_to_fail(&self, len: usize) -> bool
        ensures { IsTrue result ↔ (Contains self.now.fails (next_count self.now.calls) ⊎ IsUsedUp self.now len) }
    {
        if len > 0 && self.len == self.bytes.len() {
            return true;
        }
        is_listed(&self.fails, self.calls.saturating_add(1))
    }

    // A write that fails.
    fn fail(&mut self) -> Failed
        ensures after { self.new ≡ after_failed_write self.old }
        ensures rising { self.old.faults ≤ self.new.faults }
    {
        self.calls = self.calls.saturating_add(1);
        self.faults = self.faults.saturating_add(1);
        Failed
    }

    // A write that doesn't fail, and how many bytes it takes.
    fn append(&mut self, piece: &[u8]) -> usize
        ensures some { 0 < free_room self.old → 0 < length piece.now → 0 < result }
        ensures exact { result ≡ min (min self.old.piece (length piece.now)) (free_room self.old) }
        ensures after { self.new ≡ after_write self.old (take result piece.now) }
    {
        self.calls = self.calls.saturating_add(1);
        let free = self.bytes.len() - self.len;
        let n = self.piece.min(piece.len()).min(free);
        put_at(&mut self.bytes, self.len, &piece[..n]);
        self.len += n;
        n
    }
}

impl Sink for MemorySink {
    ghost held = { λ s. Some s.held };

    ghost faults = { λ s. s.faults };

    fn write(&mut self, piece: &[u8]) -> Result<usize, Failed>
        ensures count { IfOk result (λ n. n ≤ length piece.now) }
        ensures some { IfOk result (λ n. 0 < length piece.now → 0 < n) }
        ensures appended { IfOk result (λ n. Appends (Some self.old.held) (Some self.new.held) (take n piece.now)) }
        ensures no_fault { OnOk result (self.new.faults ≡ self.old.faults) }
        ensures kept { OnErr result (Some self.new.held ≡ Some self.old.held) }
        ensures failed { OnErr result (Rose self.old.faults self.new.faults) }
        ensures rising { self.old.faults ≤ self.new.faults }

        // A call fails exactly where its number stands in the list or no room is left for its piece.
        ensures fails { IsErr result ↔ (Contains self.old.fails (next_count self.old.calls) ⊎ IsUsedUp self.old (length piece.now)) }
        ensures exact { IfOk result (λ n. n ≡ min (min self.old.piece (length piece.now)) (free_room self.old)) }
        ensures after { IfOk result (λ n. self.new ≡ after_write self.old (take n piece.now)) }
        ensures after_failed { OnErr result (self.new ≡ after_failed_write self.old) }
    {
        if self.is_to_fail(piece.len()) {
            return Err(self.fail());
        }
        Ok(self.append(piece))
    }
}
