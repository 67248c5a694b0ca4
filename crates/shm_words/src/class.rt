//! The size classes of blocks.

ghost use Rattle.std.specs.Prelude.{◌≡◌, ◌≤◌};
ghost use Rattle.shm_words.specs.Classes.{class_for, IsClass, IsLeastClass};

/// The least class, 4, 8, 16 or 32 words, whose blocks hold a header, a tag and this many reference and plain words.
pub fn class_of(refs: u8, plain: u8) -> u8
    requires refs { refs ≤ 16 }
    requires plain { plain ≤ 8 }
    ensures is { result ≡ class_for refs plain }
    ensures least { IsLeastClass refs plain result }
{
    match refs + plain {
        0..=2 => 4,
        3..=6 => 8,
        7..=14 => 16,
        _ => 32,
    }
}
