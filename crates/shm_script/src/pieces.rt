//! Pieces of a text: lines at line feeds, words at blanks.

ghost use Rattle.std.specs.{Prelude.{◌≡◌, ◌∷◌, [], ◌<◌, ◌==◌, length, position, IfSome, MatchOption}, List.slice_split};
ghost use Rattle.std.specs.Str.{bytes_eq};
ghost use Rattle.shm_script.specs.Pieces.{pieces_left, room_left};

/// What stands before the first `byte`, and what stands behind it where there is one.
pub fn cut(text: &[u8], byte: u8) -> (&[u8], Option<&[u8]>)
    ensures pieces { slice_split (λ b. b == byte) text.now ≡ result.0.now ∷ pieces_left byte result.1 }
    ensures less { IfSome result.1 (λ rest. length rest.now < length text.now) }
{
    match find(text, byte) {
        None => (text, None),
        Some(at) => {
            let (front, back) = text.split_at(at);
            (front, Some(&back[1..]))
        }
    }
}

/// The place of the first `byte`.
fn find(text: &[u8], byte: u8) -> Option<usize>
    ensures { result ≡ position (λ b. b == byte) text.now }
{
    text.iter().position(|b| *b == byte)
}

/// The first of the words that are left, and the others.
pub fn split_word(words: Option<&[u8]>) -> Option<(&[u8], Option<&[u8]>)>
    ensures pieces { MatchOption result (pieces_left 32 words.entry ≡ []) (λ x. pieces_left 32 words.entry ≡ x.0.now ∷ pieces_left 32 x.1) }
    ensures less { IfSome result (λ x. room_left x.1 < room_left words.entry) }
{
    let text = words?;
    Some(cut(text, b' '))
}

/// Whether the text is this word.
pub fn is_word(text: &[u8], word: &str) -> bool
    ensures { result ≡ bytes_eq text.now word.now }
{
    text == word.as_bytes()
}
