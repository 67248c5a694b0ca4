//! Commands and their answers as numbers.

ghost use Rattle.std.specs.Prelude.{◌≡◌};
ghost use Rattle.shm_sitting.specs.Numbers.{answered as answer_numbers, byte_of, line_of as command_line, word_of};

use shm_script::{Answer, Line};
use shm_session::{Call, Said};

/// The number of an identity; none where it is too large for one.
fn byte(number: u64) -> Option<u8>
    ensures { result ≡ byte_of number }
{
    if number < 256 {
        Some(number as u8)
    } else {
        None
    }
}

/// A key; none where the number is too large for one.
fn word(number: u64) -> Option<u32>
    ensures { result ≡ word_of number }
{
    if number < 4_294_967_296 {
        Some(number as u32)
    } else {
        None
    }
}

/// The line of a command by its number; none where a number is out of its range.
pub(crate) fn line_of(call: Call) -> Option<Line>
    ensures { result ≡ command_line call }
{
    let Call {
        op,
        first,
        second,
        third,
        ..
    } = call;
    match op {
        4 => {
            let key = word(first)?;
            Some(Line::Put {
                key,
                number: second,
            })
        }
        5 => {
            let author = byte(first)?;
            let key = word(second)?;
            Some(Line::Get { author, key })
        }
        6 => {
            let key = word(first)?;
            Some(Line::Del { key })
        }
        7 => {
            let key = word(first)?;
            let author = byte(second)?;
            let other = word(third)?;
            Some(Line::Copy { key, author, other })
        }
        8 => {
            let to = byte(first)?;
            let key = word(second)?;
            Some(Line::Send { to, key })
        }
        9 => {
            let from = byte(first)?;
            let key = word(second)?;
            Some(Line::Recv { from, key })
        }
        _ => None,
    }
}

/// What a command answered.
pub(crate) fn answered(answer: Answer) -> Said
    ensures { result ≡ answer_numbers answer }
{
    match answer {
        Answer::Ok => Said::of(16),
        Answer::Stored { block } => Said::new(17, block, 0, 0),
        Answer::Value { number, block } => Said::new(18, block, number, 0),
        Answer::Missing => Said::of(19),
        Answer::Full { segments, blocks } => {
            Said::new(20, 0, u64::from(segments), u64::from(blocks))
        }
        Answer::CountFull { block, count } => Said::new(21, block, u64::from(count), 0),
        Answer::QueueFull { head, tail } => Said::new(22, 0, head, tail),
        Answer::Empty { at } => Said::new(23, 0, at, 0),
        Answer::RootsFull => Said::of(24),
        Answer::EraSpent { era } => Said::new(25, 0, era, 0),
    }
}
