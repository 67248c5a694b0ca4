//! Bytes that are put into others.
ghost use Rattle.std.specs.Prelude.{◌≡◌, ◌+◌, ◌≤◌, ◌++◌, length, take, drop};

// Puts a piece in the place of as many bytes, from a place on.
pub(crate) fn put_at(bytes: &mut [u8], at: usize, piece: &[u8])
    requires { at + length piece.now ≤ length bytes.old }
    ensures put { bytes.new ≡ take at bytes.old ++ (piece.now ++ drop (at + length piece.now) bytes.old) }
    ensures front { take (at + length piece.now) bytes.new ≡ take at bytes.old ++ piece.now }
    ensures size { length bytes.new ≡ length bytes.old }
{
    bytes[at..at + piece.len()].copy_from_slice(piece);
}
