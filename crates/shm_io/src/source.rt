//! Where bytes come from.
ghost use Rattle.std.specs.{Prelude.{◌≡◌, ◌<◌, ◌≤◌, ℕ, List, Option, length, IfOk, OnOk, OnErr}, Io.KnownBytes.IsAtEnd};
ghost use Rattle.shm_io.specs.{Faults.Rose, Reading.Moves};

use crate::Failed;

/// A source of bytes, read piece by piece.
pub trait Source {
    /// The bytes that are left, where the source tells them.
    ghost left: { Self → Option (List ℕ) };

    /// How often a read has failed: a count of 64 bits that never falls.
    ghost faults: { Self → ℕ };

    /// Moves the next bytes into the front of the piece and answers their number, or fails and takes none.
    /// 0 into a piece that isn't empty is the end.
    fn read(&mut self, into: &mut [u8]) -> Result<usize, Failed>
        ensures count { IfOk result (λ n. n ≤ length into.old) }
        ensures moved { IfOk result (Moves (left self.old) (left self.new) into.old into.new) }
        ensures end { IfOk result (λ n. n ≡ 0 → 0 < length into.old → IsAtEnd (left self.old)) }
        ensures no_fault { OnOk result (faults self.new ≡ faults self.old) }
        ensures kept { OnErr result (left self.new ≡ left self.old) }
        ensures failed { OnErr result (Rose (faults self.old) (faults self.new)) }
        ensures rising { faults self.old ≤ faults self.new };
}
