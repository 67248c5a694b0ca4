//! The word and the numbers of a row.

ghost use Rattle.std.specs.Prelude.{◌≡◌, ◌<◌, IfSome};
ghost use Rattle.shm_words.specs.Layout.{place_limit};

/// The word that a row begins with.
pub fn kind(line: &str) -> &str {
    match line.split_whitespace().next() {
        Some(word) => word,
        None => "",
    }
}

/// A number; none where the word is none.
fn number(word: &str) -> Option<u64> {
    match word.parse() {
        Ok(number) => Some(number),
        Err(_) => None,
    }
}

/// The numbers behind the word, 0 where there are fewer than six; none where one of them is no number.
pub fn numbers(line: &str) -> Option<[u64; 6]> {
    let mut found = [0; 6];
    let mut words = line.split_whitespace();
    let _kind = words.next();
    for place in &mut found {
        if let Some(word) = words.next() {
            *place = number(word)?;
        }
    }
    Some(found)
}

/// A number below a limit.
pub fn below(number: u64, limit: u8) -> Option<u8>
    ensures { IfSome result (λ n. n < limit) }
{
    let small = u8::try_from(number).ok()?;
    if small < limit { Some(small) } else { None }
}

/// Which addresses a tag or a redo record has room for, in format 2 or in format 1: those below this number.
fn limit(wide: bool) -> u32
    ensures { result ≡ place_limit wide }
{
    if wide { 1 << 24 } else { 1 << 20 }
}

/// An address below 2^20, in format 2 below 2^24.
pub fn address(wide: bool, number: u64) -> Option<u32>
    ensures { IfSome result (λ n. n < place_limit wide) }
{
    let small = u32::try_from(number).ok()?;
    if small < limit(wide) {
        Some(small)
    } else {
        None
    }
}
