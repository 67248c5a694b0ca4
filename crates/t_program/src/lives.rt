//! Calls for a client that dies after each number of word steps, and for a recoverer of it that dies too.

use crate::call::{Call, Made};
use crate::meeting::Meetings;
use crate::telling;
use shm_script::{push_number, push_text};
use std::alloc::{AllocError, AllocGlobal, Global};
use std::io;
use std::random::RandomSource;
use std::sync::Wait;
use std::thread::Threads;

/// For each life of the client tells with how many lives of a recoverer the call comes to the same as without that, and then what it comes to,
/// unless that is the same as with the life before.
///
/// `most` are the greatest lives: of the client, and of the recoverer.
pub fn tell<R: Threads + Wait + Sync + RandomSource + AllocGlobal>(
    rt: &HostRuntime,
    threads: &R,
    call: &Call,
    form: &[u8],
    most: (u64, u64),
) -> io::Result<()> {
    let mut before = Made::nothing(rt.alloc());
    for life in 1..=most.0 {
        let made = make(threads, rt.alloc(), call, form, life, None)?;
        let alike = count_alike(threads, rt.alloc(), call, form, life, most.1, &made)?;
        println!(rt; "life {life}: {alike} alike")?;
        if !made.is_same(&before) {
            telling::text(rt, &made)?;
        }
        before = made;
    }
    Ok(())
}

/// With how many lives of a recoverer, of 1 to the greatest, the call comes to the same.
fn count_alike<R: Threads + Wait + Sync + RandomSource + AllocGlobal>(
    threads: &R,
    alloc: Global,
    call: &Call,
    form: &[u8],
    life: u64,
    most: u64,
    made: &Made,
) -> Result<u64, AllocError> {
    let mut count = 0u64;
    for second in 1..=most {
        if make(threads, alloc, call, form, life, Some(second))?.is_same(made) {
            count = count.wrapping_add(1);
        }
    }
    Ok(count)
}

/// Makes the call with the lives in the form.
fn make<R: Threads + Wait + Sync + RandomSource + AllocGlobal>(
    threads: &R,
    alloc: Global,
    call: &Call,
    form: &[u8],
    life: u64,
    second: Option<u64>,
) -> Result<Made, AllocError> {
    let input = fill(alloc, form, life, second)?;
    call.make(threads, alloc, input.as_slice(), &Meetings::none())
}

/// The form, with the life for each `N`, and for each `M` a space and the second life, or nothing where there is none.
fn fill(alloc: Global, form: &[u8], life: u64, second: Option<u64>) -> Result<Vec<u8>, AllocError> {
    let mut input = Vec::new(alloc);
    for byte in form {
        match (*byte, second) {
            (b'N', _) => push_number(&mut input, life)?,
            (b'M', Some(second)) => {
                push_text(&mut input, " ")?;
                push_number(&mut input, second)?;
            }
            (b'M', None) => {}
            (other, _) => input.push(other)?,
        }
    }
    Ok(input)
}
