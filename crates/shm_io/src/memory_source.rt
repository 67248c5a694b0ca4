//! A source over bytes in memory.
ghost use Rattle.std.specs.Prelude.{◌≡◌, ◌<◌, ◌≤◌, ◌↔◌, ◌++◌, min, length, take, drop, Some, IfOk, OnOk, OnErr, IsErr, IsTrue};
ghost use Rattle.std.specs.{List.Contains, Io.KnownBytes.IsAtEnd};
ghost use Rattle.shm_io.specs.{Faults.{Rose, next_count}, Reading.Moves, Supply.{after_read, after_failed_read}};

use crate::calls::is_listed;
use crate::filling::put_at;
use crate::{Failed, Source};
use std::marker::Model;

/// A source over bytes in memory, which gives pieces of a set size and fails at set calls.
#[derive(Drop)]
pub struct MemorySource {
    bytes: Vec<u8>,
    at: usize,
    piece: usize,
    fails: Vec<u32>,
    calls: u64,
    faults: u64,
}

impl Model for MemorySource {
    ghost use Rattle.std.specs.Prelude.{◌<◌, ◌≤◌, length, drop};
    ghost use Rattle.shm_io.specs.Supply.{Supply, IsSupply};

    ghost Value = { Supply };

    ghost view = { λ s. record { left = drop s.at s.bytes.items; piece = s.piece; fails = s.fails.items; calls = s.calls; faults = s.faults } };

    ghost invariant = { λ s. IsSupply s.piece s.at (length s.bytes.items) };
}

impl MemorySource {
    /// A source of these bytes. Each read gives at most `piece` of them, and the reads whose numbers, from 1,
    /// stand in `fails` fail.
    pub fn new(bytes: Vec<u8>, piece: usize, fails: Vec<u32>) -> MemorySource
        requires { 0 < piece }
        ensures { result ≡ record { left = bytes.items; piece = piece; fails = fails.items; calls = 0; faults = 0 } }
    {
        MemorySource {
            bytes,
            at: 0,
            piece,
            fails,
            calls: 0,
            faults: 0,
        }
    }

    // Whether the next read fails.
    fn is_to_fail(&self) -> bool
        ensures { IsTrue result ↔ Contains self.now.fails (next_count self.now.calls) }
    {
        is_listed(&self.fails, self.calls.saturating_add(1))
    }

    // A read that fails.
    fn fail(&mut self) -> Failed
        ensures after { self.new ≡ after_failed_read self.old }
        ensures rising { self.old.faults ≤ self.new.faults }
    {
        self.calls = self.calls.saturating_add(1);
        self.faults = self.faults.saturating_add(1);
        Failed
    }

    // A read that doesn't fail, and how many bytes it gives.
    fn give(&mut self, into: &mut [u8]) -> usize
        ensures end { result ≡ 0 → 0 < length into.old → IsAtEnd (Some self.old.left) }
        ensures exact { result ≡ min (min self.old.piece (length into.old)) (length self.old.left) }
        ensures after { self.new ≡ after_read self.old result }
        ensures given { into.new ≡ take result self.old.left ++ drop result into.old }
    {
        self.calls = self.calls.saturating_add(1);
        let left = &self.bytes[self.at..];
        let n = self.piece.min(into.len()).min(left.len());
        put_at(into, 0, &left[..n]);
        self.at += n;
        n
    }
}

impl Source for MemorySource {
    ghost left = { λ s. Some s.left };

    ghost faults = { λ s. s.faults };

    fn read(&mut self, into: &mut [u8]) -> Result<usize, Failed>
        ensures count { IfOk result (λ n. n ≤ length into.old) }
        ensures moved { IfOk result (Moves (Some self.old.left) (Some self.new.left) into.old into.new) }
        ensures end { IfOk result (λ n. n ≡ 0 → 0 < length into.old → IsAtEnd (Some self.old.left)) }
        ensures no_fault { OnOk result (self.new.faults ≡ self.old.faults) }
        ensures kept { OnErr result (Some self.new.left ≡ Some self.old.left) }
        ensures failed { OnErr result (Rose self.old.faults self.new.faults) }
        ensures rising { self.old.faults ≤ self.new.faults }

        // A call fails exactly where its number stands in the list, and each count is exact.
        ensures fails { IsErr result ↔ Contains self.old.fails (next_count self.old.calls) }
        ensures exact { IfOk result (λ n. n ≡ min (min self.old.piece (length into.old)) (length self.old.left)) }
        ensures after { IfOk result (λ n. self.new ≡ after_read self.old n) }
        ensures after_failed { OnErr result (self.new ≡ after_failed_read self.old) }
        ensures piece_kept { OnErr result (into.new ≡ into.old) }
    {
        if self.is_to_fail() {
            return Err(self.fail());
        }
        Ok(self.give(into))
    }
}
