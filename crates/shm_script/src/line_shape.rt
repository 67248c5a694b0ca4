//! The shape of a line.

ghost use Rattle.std.specs.{Prelude.{◌≡◌, ◌==◌, true, false, IfOk, MatchOption, Some, None}, List.slice_split};
ghost use Rattle.shm_script.specs.Pieces.{pieces_left};
ghost use Rattle.shm_script.specs.Shapes.{Client, Command, Life, Order, Pool, command_of, given, item_from, items_of, numbers_of, one_of, shape_by, shape_of, two_of};
ghost use Rattle.shm_script.specs.RawShapes.{line_seen};

use crate::number::{number, one, three, two};
use crate::pieces::{cut, is_word, split_word};
use crate::raw::{RawCommand, RawItem, RawLine};
use std::alloc::{AllocError, Global};

/// The shape of a line, where it has one.
#[tactic(auto, unfolding(crate::specs::Shapes::shape_from), using(crate::proofs::Cuts::shape_more))]
pub fn line_shape(alloc: Global, line: &[u8]) -> Result<Option<RawLine>, AllocError>
    ensures { IfOk result (λ o. line_seen o ≡ shape_of line.now) }
{
    let (head, words) = cut(line, b' ');
    if words.is_none() {
        return Ok(None);
    }
    shape_with(alloc, head, words)
}

/// The shape of a line with this word and others.
#[tactic(auto, unfolding(crate::specs::Shapes::shape_by))]
fn shape_with(
    alloc: Global,
    head: &[u8],
    words: Option<&[u8]>,
) -> Result<Option<RawLine>, AllocError>
    ensures { IfOk result (λ o. line_seen o ≡ shape_by head.now (pieces_left 32 words.entry)) }
{
    if is_word(head, "order") {
        order(alloc, words)
    } else if is_word(head, "life") {
        life(alloc, words)
    } else if is_word(head, "pool") {
        Ok(pool(false, words))
    } else if is_word(head, "pool2") {
        Ok(pool(true, words))
    } else if is_word(head, "client") {
        Ok(client(words))
    } else {
        Ok(other(head, words))
    }
}

/// The line of an order with these items.
fn order(alloc: Global, words: Option<&[u8]>) -> Result<Option<RawLine>, AllocError>
    ensures { IfOk result (λ o. line_seen o ≡ given Order (items_of (pieces_left 32 words.entry))) }
{
    match items(alloc, words)? {
        None => Ok(None),
        Some(items) => Ok(Some(RawLine::Order(items))),
    }
}

/// The line of these lives.
fn life(alloc: Global, words: Option<&[u8]>) -> Result<Option<RawLine>, AllocError>
    ensures { IfOk result (λ o. line_seen o ≡ given Life (numbers_of (pieces_left 32 words.entry))) }
{
    match numbers(alloc, words)? {
        None => Ok(None),
        Some(numbers) => Ok(Some(RawLine::Life(numbers))),
    }
}

/// The line of a pool of this format with these numbers.
fn pool(wide: bool, words: Option<&[u8]>) -> Option<RawLine>
    ensures { line_seen result ≡ given (λ n. Pool wide n.0 n.1) (two_of (pieces_left 32 words.entry)) }
{
    let (clients, segments) = two(words)?;
    Some(RawLine::Pool(wide, clients, segments))
}

/// The line of a client with this number.
fn client(words: Option<&[u8]>) -> Option<RawLine>
    ensures { line_seen result ≡ given Client (one_of (pieces_left 32 words.entry)) }
{
    let client = one(words)?;
    Some(RawLine::Client(client))
}

/// The line of a command with this word and others.
fn other(head: &[u8], words: Option<&[u8]>) -> Option<RawLine>
    ensures { line_seen result ≡ given Command (command_of head.now (pieces_left 32 words.entry)) }
{
    let command = command(head, words)?;
    Some(RawLine::Command(command))
}

/// The command with this word and others.
#[tactic(auto, unfolding(crate::specs::Shapes::command_of))]
fn command(head: &[u8], words: Option<&[u8]>) -> Option<RawCommand>
    ensures { result ≡ command_of head.now (pieces_left 32 words.entry) }
{
    if is_word(head, "put") {
        let (key, number) = two(words)?;
        Some(RawCommand::Put(key, number))
    } else if is_word(head, "del") {
        let key = one(words)?;
        Some(RawCommand::Del(key))
    } else if is_word(head, "get") {
        let (author, key) = two(words)?;
        Some(RawCommand::Get(author, key))
    } else if is_word(head, "copy") {
        let (key, author, other) = three(words)?;
        Some(RawCommand::Copy(key, author, other))
    } else if is_word(head, "send") {
        let (to, key) = two(words)?;
        Some(RawCommand::Send(to, key))
    } else if is_word(head, "recv") {
        let (from, key) = two(words)?;
        Some(RawCommand::Recv(from, key))
    } else {
        None
    }
}

/// The numbers that are left.
fn numbers(alloc: Global, words: Option<&[u8]>) -> Result<Option<Vec<Option<u64>>>, AllocError>
    ensures { IfOk result (λ o. MatchOption o (numbers_of (pieces_left 32 words.entry) ≡ None) (λ v. numbers_of (pieces_left 32 words.entry) ≡ Some v.items)) }
{
    let mut numbers = Vec::new(alloc);
    let mut rest = words;
    while let Some((word, after)) = split_word(rest) {
        let Some(next) = number(word) else {
            return Ok(None);
        };
        numbers.push(next)?;
        rest = after;
    }
    Ok(Some(numbers))
}

/// The items that are left.
fn items(alloc: Global, words: Option<&[u8]>) -> Result<Option<Vec<RawItem>>, AllocError>
    ensures { IfOk result (λ o. MatchOption o (items_of (pieces_left 32 words.entry) ≡ None) (λ v. items_of (pieces_left 32 words.entry) ≡ Some v.items)) }
{
    let mut items = Vec::new(alloc);
    let mut rest = words;
    while let Some((word, after)) = split_word(rest) {
        let Some(next) = item(word) else {
            return Ok(None);
        };
        items.push(next)?;
        rest = after;
    }
    Ok(Some(items))
}

/// The item that the word spells.
#[tactic(auto, unfolding(crate::specs::Shapes::item_from), using(crate::proofs::Cuts::item_more))]
fn item(word: &[u8]) -> Option<RawItem>
    ensures { result ≡ item_from (slice_split (λ b. b == 58) word.now) }
{
    let (front, back) = cut(word, b':');
    match back {
        None => {
            let client = number(front)?;
            Some(RawItem {
                client,
                turns: None,
            })
        }
        Some(text) => {
            let (turns, more) = cut(text, b':');
            if more.is_some() {
                return None;
            }
            let client = number(front)?;
            let turns = number(turns)?;
            Some(RawItem {
                client,
                turns: Some(turns),
            })
        }
    }
}
