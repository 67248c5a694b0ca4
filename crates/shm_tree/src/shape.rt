//! The shape of a line: its word and its numbers, which may have any size.

ghost use Rattle.std.specs.Prelude.{◌≡◌};
ghost use Rattle.shm_script.specs.Pieces.{pieces_left};
ghost use Rattle.shm_tree.specs.Shapes.{heading_of, set_of, shape_by, shape_of};

use shm_script::parts::{cut, is_word, number, one, split_word, three, two};

/// A line by its shape alone; a number from 2^64 on is `None`.
#[derive(Clone, Copy, Drop)]
pub enum RawTree {
    Tree(Option<u64>),
    Life(Option<u64>),
    Set(Option<u64>, Option<u64>, Option<u64>, Option<u64>),
    Del(Option<u64>, Option<u64>, Option<u64>),
    Get(Option<u64>, Option<u64>),
    Copy(Option<u64>, Option<u64>),
    Clear(Option<u64>),
}

/// The line of a set with the four numbers that are left alone.
#[tactic(auto, unfolding(crate::specs::Shapes::set_of))]
fn set(words: Option<&[u8]>) -> Option<RawTree>
    ensures { result ≡ set_of (pieces_left 32 words.entry) }
{
    let (word, rest) = split_word(words)?;
    let to = number(word)?;
    let (from, key, put) = three(rest)?;
    Some(RawTree::Set(to, from, key, put))
}

/// A line with this word and others.
#[tactic(auto, unfolding(crate::specs::Shapes::shape_by))]
fn shape_with(head: &[u8], words: Option<&[u8]>) -> Option<RawTree>
    ensures { result ≡ shape_by head.now (pieces_left 32 words.entry) }
{
    if is_word(head, "set") {
        set(words)
    } else if is_word(head, "del") {
        let (to, from, key) = three(words)?;
        Some(RawTree::Del(to, from, key))
    } else if is_word(head, "get") {
        let (at, key) = two(words)?;
        Some(RawTree::Get(at, key))
    } else if is_word(head, "copy") {
        let (to, from) = two(words)?;
        Some(RawTree::Copy(to, from))
    } else if is_word(head, "clear") {
        let at = one(words)?;
        Some(RawTree::Clear(at))
    } else {
        heading(head, words)
    }
}

/// A line at the head of a script.
#[tactic(auto, unfolding(crate::specs::Shapes::heading_of))]
fn heading(head: &[u8], words: Option<&[u8]>) -> Option<RawTree>
    ensures { result ≡ heading_of head.now (pieces_left 32 words.entry) }
{
    if is_word(head, "tree") {
        let segments = one(words)?;
        Some(RawTree::Tree(segments))
    } else if is_word(head, "life") {
        let life = one(words)?;
        Some(RawTree::Life(life))
    } else {
        None
    }
}

/// The shape of a line, where it has one.
#[tactic(auto, unfolding(crate::specs::Shapes::shape_from))]
pub fn tree_shape(line: &[u8]) -> Option<RawTree>
    ensures { result ≡ shape_of line.now }
{
    let (head, words) = cut(line, b' ');
    shape_with(head, words)
}
