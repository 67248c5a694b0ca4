//! A text and a number appended to a vector of bytes.

ghost use Rattle.std.specs.{Prelude.{◌≡◌, ◌++◌, OnOk, OnErr}, Fmt.decimal};
ghost use Rattle.shm_script.specs.Text.{spaced};

use itoa::Buffer;
use std::alloc::AllocError;

/// Appends `more` to the text.
pub fn push_text(text: &mut Vec<u8>, more: &str) -> Result<(), AllocError>
    ensures ok { OnOk result (text.new.items ≡ text.old.items ++ more.now) }
    ensures err { OnErr result (text.new.items ≡ text.old.items) }
{
    text.extend_from_slice(more.as_bytes())
}

/// Appends a number in decimal, as `{}` prints it.
pub fn push_number(text: &mut Vec<u8>, number: u64) -> Result<(), AllocError>
    ensures ok { OnOk result (text.new.items ≡ text.old.items ++ decimal number) }
    ensures err { OnErr result (text.new.items ≡ text.old.items) }
{
    push_text(text, Buffer::new().format(number))
}

/// Appends a blank and a number. After an error a part may be there.
pub fn push_spaced(text: &mut Vec<u8>, number: u64) -> Result<(), AllocError>
    ensures { OnOk result (text.new.items ≡ text.old.items ++ spaced number) }
{
    text.push(b' ')?;
    push_number(text, number)
}
