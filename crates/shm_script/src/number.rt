//! Numbers of a line, of any size.

ghost use Rattle.std.specs.{Prelude.{◌≡◌, ℕ, ◌+◌, ◌*◌, ◌<◌, if◌then◌else◌, not}, Str.all_ascii_digits};
ghost use Rattle.shm_script.specs.{Numbers.{leads_well, number_of, small, value_after}, Pieces.pieces_left};
ghost use Rattle.shm_script.specs.Shapes.{one_of, two_of, three_of};

use crate::pieces::split_word;

/// The number that the word spells, where it spells one; `None` inside from 2^64 on.
#[tactic(auto, unfolding(crate::specs::Numbers::number_of), using(crate::proofs::Digits::number_by))]
pub fn number(word: &[u8]) -> Option<Option<u64>>
    ensures { result ≡ number_of word.now }
{
    if has_leading_zero(word) {
        None
    } else {
        value(word)
    }
}

/// Whether the word is empty, or goes on behind a first zero.
fn has_leading_zero(word: &[u8]) -> bool
    ensures { result ≡ not (leads_well word.now) }
{
    word.len() != 1 && (word.is_empty() || word[0] == b'0')
}

/// The value of digits, where there is nothing else; `None` inside from 2^64 on.
fn value(word: &[u8]) -> Option<Option<u64>>
    ensures { result ≡ (if all_ascii_digits word.now then Some (small (value_after 0 word.now)) else None) }
{
    let mut value = Some(0);
    for byte in word {
        if !byte.is_ascii_digit() {
            return None;
        }
        value = push_digit(value, *byte - b'0');
    }
    Some(value)
}

/// The value with one more digit.
fn push_digit(value: Option<u64>, digit: u8) -> Option<u64>
    requires { digit < 10 }
    ensures { (n : ℕ) → value ≡ small n → result ≡ small (n * 10 + digit) }
{
    value?.checked_mul(10)?.checked_add(u64::from(digit))
}

/// The number that is left alone.
#[tactic(auto, unfolding(crate::specs::Shapes::one_of), using(crate::proofs::Cuts::one_more))]
pub fn one(words: Option<&[u8]>) -> Option<Option<u64>>
    ensures { result ≡ one_of (pieces_left 32 words.entry) }
{
    let (word, rest) = split_word(words)?;
    match rest {
        None => number(word),
        Some(_) => None,
    }
}

/// The two numbers that are left alone.
#[tactic(auto, unfolding(crate::specs::Shapes::two_of))]
pub fn two(words: Option<&[u8]>) -> Option<(Option<u64>, Option<u64>)>
    ensures { result ≡ two_of (pieces_left 32 words.entry) }
{
    let (word, rest) = split_word(words)?;
    let first = number(word)?;
    let second = one(rest)?;
    Some((first, second))
}

/// The three numbers that are left alone.
#[tactic(auto, unfolding(crate::specs::Shapes::three_of))]
pub fn three(words: Option<&[u8]>) -> Option<(Option<u64>, Option<u64>, Option<u64>)>
    ensures { result ≡ three_of (pieces_left 32 words.entry) }
{
    let (word, rest) = split_word(words)?;
    let first = number(word)?;
    let (second, third) = two(rest)?;
    Some((first, second, third))
}
