//! What is wrong with an image that the program refused.

use std::fmt;

/// What is wrong with an image.
#[derive(Clone, Copy, Drop)]
pub struct ImageFinding<'a> {
    /// The front of the image.
    input: &'a [u8],
    /// The word after `refused`, and up to three after it.
    words: (&'a str, &'a str, &'a str, &'a str),
}

impl<'a> ImageFinding<'a> {
    /// What is wrong with the image with this front that the program refused by this line: `refused short 0`. Nothing where that isn't what
    /// it says.
    pub fn new(input: &'a [u8], said: &'a str) -> Option<ImageFinding<'a>> {
        let mut words = said.strip_prefix("refused ")?.trim_end().split(' ');
        let kind = words.next().unwrap_or("");
        let first = words.next().unwrap_or("");
        let second = words.next().unwrap_or("");
        let third = words.next().unwrap_or("");
        Some(ImageFinding {
            input,
            words: (kind, first, second, third),
        })
    }

    /// Where a word of the pool stands in the image, in bytes.
    fn place_of(word: &str) -> u64 {
        let number = word.parse::<u64>().unwrap_or(0);
        number.saturating_mul(8).saturating_add(24)
    }

    /// Writes the first bytes: as a text, where they are one, and otherwise in hexadecimal.
    fn write_mark<W: fmt::Write>(&self, f: &mut fmt::Formatter<W>) -> fmt::Result {
        let front = &self.input[..self.input.len().min(8)];
        let is_plain = front.iter().all(|&byte| (32..127).contains(&byte));
        if is_plain {
            return write!(f, " `{}`", std::str::from_utf8(front).unwrap_or(""));
        }
        for byte in front {
            write!(f, " {byte:02x}")?;
        }
        Ok(())
    }
}

impl fmt::Display for ImageFinding<'_> {
    fn fmt<W: fmt::Write>(&self, f: &mut fmt::Formatter<W>) -> fmt::Result {
        let (kind, a, b, c) = self.words;
        match kind {
            "short" => write!(
                f,
                "the image has {a} bytes, and the first 24 say what it is: `CXLSHM01` or `CXLSHM02`, how many clients, and how many segments"
            ),
            "magic" => {
                write!(
                    f,
                    "an image begins with `CXLSHM01` or `CXLSHM02`, and this one with"
                )?;
                self.write_mark(f)
            }
            "geometry" => write!(
                f,
                "the image says {a} clients and {b} segments: a pool has 1 to 16 clients and 1 to 256 segments, or 1 to 8000 in format 2"
            ),
            "length" => write!(
                f,
                "the image has {a} bytes, and by its clients and segments it has {c}"
            ),
            "format" => write!(f, "the image is of format 2 already"),
            _ => self.write_pool(f),
        }
    }
}

impl ImageFinding<'_> {
    /// Writes what is wrong with a word of the pool, or that the pool isn't clean.
    fn write_pool<W: fmt::Write>(&self, f: &mut fmt::Formatter<W>) -> fmt::Result {
        let (kind, a, b, _) = self.words;
        let place = Self::place_of(a);
        match kind {
            "page" => write!(
                f,
                "word {a} of the pool, at byte {place} of the image, is {b}: the word of a page is 0, 4, 8, 16 or 32"
            ),
            "header" => write!(
                f,
                "word {a} of the pool, at byte {place} of the image, is {b}: the header of a block is 0, or that of a live block of a client of the pool"
            ),
            "tag" => write!(
                f,
                "word {a} of the pool, at byte {place} of the image, is {b}: it isn't the tag of a block of its size by a client of the pool"
            ),
            "reference" => write!(
                f,
                "word {a} of the pool, at byte {place} of the image, is {b}: a reference is 0, or names a live block with a count above 0"
            ),
            "pending" => write!(
                f,
                "the pool isn't clean: client {a} has neither left nor been recovered"
            ),
            "uncounted" => write!(
                f,
                "the pool isn't clean: the live block at word {a} has the count 0"
            ),
            "wrong" => write!(
                f,
                "the pool isn't clean: the count of the block at word {a} isn't the number of the words that name it"
            ),
            _ => write!(f, "the image is refused"),
        }
    }
}
