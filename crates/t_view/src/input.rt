//! What a call reads.

ghost use Rattle.std.specs.Prelude.{IfSome};
ghost use Rattle.shm_words.specs.Layout.{GeometryFits};

use shm_audit::write_image;
use shm_words::Geometry;
use std::alloc::{AllocError, Global};

/// The sizes that a row says, by the format and the numbers of clients and of segments.
fn sizes_of(rest: &str) -> Option<Geometry>
    ensures fits { IfSome result GeometryFits }
{
    let mut words = rest.split(' ');
    let format = words.next()?;
    let clients = words.next()?.parse::<u8>().ok()?;
    let segments = words.next()?.parse::<u16>().ok()?;
    if format == "2" {
        Geometry::wide(clients, segments).ok()
    } else {
        Geometry::new(clients, segments).ok()
    }
}

/// The image of a pool of these sizes whose words are 0; an empty input where they aren't those of a pool.
fn new_image(alloc: Global, rest: &str) -> Result<Vec<u8>, AllocError> {
    match sizes_of(rest) {
        Some(geometry) => {
            let words: Vec<u64> = vec![in alloc; 0; geometry.total() as usize]?;
            write_image(alloc, geometry, words.as_slice())
        }
        None => Ok(Vec::new(alloc)),
    }
}

/// Sets the word of the pool at an address, where the input has it.
fn set_word(input: &mut [u8], at: u64, word: u64) {
    let mut place = at.saturating_mul(8).saturating_add(24);
    for byte in word.to_le_bytes() {
        set_byte(input, place, u64::from(byte));
        place = place.saturating_add(1);
    }
}

/// Sets a byte, where the input has it.
fn set_byte(input: &mut [u8], at: u64, byte: u64) {
    if at < input.len() as u64 {
        input[at as usize] = (byte % 256) as u8;
    }
}

/// The two numbers of a row, 0 where there is none.
fn numbers(rest: &str) -> (u64, u64) {
    let (first, second) = rest.split_once(' ').unwrap_or((rest, ""));
    (first.parse().unwrap_or(0), second.parse().unwrap_or(0))
}

/// Adds a line.
fn add_line(input: &mut Vec<u8>, line: &str) -> Result<(), AllocError> {
    input.extend_from_slice(line.as_bytes())?;
    input.push(b'\n')?;
    Ok(())
}

/// Changes an input as a row of this kind says. A row of a kind that says nothing of it leaves it as it is.
pub fn change(
    alloc: Global,
    input: &mut Vec<u8>,
    kind: &str,
    rest: &str,
) -> Result<(), AllocError> {
    let (first, second) = numbers(rest);
    match kind {
        "image" => *input = new_image(alloc, rest)?,
        "and" => input.extend_from_slice(new_image(alloc, rest)?.as_slice())?,
        "+" => add_line(input, rest)?,
        "lines" => {
            let (_, line) = rest.split_once(' ').unwrap_or((rest, ""));
            for _ in 0..first {
                add_line(input, line)?;
            }
        }
        "set" => set_word(input.as_mut_slice(), first, second),
        "byte" => set_byte(input.as_mut_slice(), first, second),
        "cut" => input.truncate(usize::try_from(first).unwrap_or(0)),
        _ => {}
    }
    Ok(())
}
