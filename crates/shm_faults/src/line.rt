//! The lines of an input, by their numbers.

/// A line of an input, without its line feed.
#[derive(Clone, Copy, Drop)]
pub struct Line<'a> {
    pub bytes: &'a [u8],
    /// Whether a line feed stands at its end.
    pub is_ended: bool,
}

impl<'a> Line<'a> {
    /// Its text, where it is of printable ASCII and short enough to be shown.
    pub fn shown(&self) -> Option<&'a str> {
        let is_plain = self.bytes.iter().all(|&byte| (32..127).contains(&byte));
        if is_plain && self.bytes.len() <= 80 {
            self.text()
        } else {
            None
        }
    }

    /// Its text, where it is one.
    pub fn text(&self) -> Option<&'a str> {
        std::str::from_utf8(self.bytes).ok()
    }
}

/// The line of this number, from 1, where the input has one. Behind the last line feed no line stands.
pub fn line_at(input: &[u8], number: usize) -> Option<Line<'_>> {
    let before = number.checked_sub(1)?;
    let mut lines = input.split(|&byte| byte == b'\n');
    let bytes = lines.nth(before)?;
    let is_ended = lines.next().is_some();
    if !is_ended && bytes.is_empty() {
        return None;
    }
    Some(Line { bytes, is_ended })
}
