//! Commands at the front of a text, read in one pass.
//!
//! What is told here is a command in its one spelling, with its numbers in range. Of any other line nothing is told: the reading by
//! shapes tells what it is, or its fault.

ghost use Rattle.std.specs.{Prelude.{◌≡◌, ◌≢◌, ◌+◌, ◌*◌, ◌^◌, ◌<◌, [], ◌∷◌, ◌++◌, IfSome, codes}, Fmt.decimal};
ghost use Rattle.shm_script.specs.{Text.spaced, Ranges.{IsCommand, IsNext}};

use crate::line::Line;

/// The most that a number may be before one more digit, whichever it is.
const MOST_BEFORE: u64 = (u64::MAX - 9) / 10;

/// A command at the front of a text, and what stands behind its line feed.
#[inline(always)]
pub fn next_command(clients: u8, me: u8, text: &[u8]) -> Option<(Line, &[u8])>
    ensures next { IfSome result (λ x. IsNext clients me text.now x.0 x.1.now) }
    // A client's number fits a byte.
    ensures few { clients < 256 }
{
    let (line, rest) = command(clients, me, text)?;
    let [b'\n', rest @ ..] = rest else {
        return None;
    };
    Some((line, rest))
}

/// A command at the front of a text, and what stands behind it.
#[inline(always)]
fn command(clients: u8, me: u8, text: &[u8]) -> Option<(Line, &[u8])>
    ensures { IfSome result (λ x. IsCommand clients me [] text.now x.0 x.1.now) }
{
    match text {
        [b'p', b'u', b't', rest @ ..] => put(clients, me, rest),
        [b'd', b'e', b'l', rest @ ..] => del(clients, me, rest),
        [b'g', b'e', b't', rest @ ..] => get(clients, me, rest),
        _ => command_of_four(clients, me, text),
    }
}

/// The same of a command whose word has four letters.
#[inline(always)]
fn command_of_four(clients: u8, me: u8, text: &[u8]) -> Option<(Line, &[u8])>
    ensures { IfSome result (λ x. IsCommand clients me [] text.now x.0 x.1.now) }
{
    match text {
        [b'c', b'o', b'p', b'y', rest @ ..] => copy(clients, me, rest),
        [b's', b'e', b'n', b'd', rest @ ..] => send(clients, me, rest),
        [b'r', b'e', b'c', b'v', rest @ ..] => recv(clients, me, rest),
        _ => None,
    }
}

/// A put, behind its word.
#[inline(always)]
fn put(clients: u8, me: u8, text: &[u8]) -> Option<(Line, &[u8])>
    ensures { IfSome result (λ x. IsCommand clients me (codes "put") text.now x.0 x.1.now) }
{
    let (key, rest) = key(text)?;
    let (number, rest) = number(rest)?;
    Some((Line::Put { key, number }, rest))
}

/// A removal, behind its word.
#[inline(always)]
fn del(clients: u8, me: u8, text: &[u8]) -> Option<(Line, &[u8])>
    ensures { IfSome result (λ x. IsCommand clients me (codes "del") text.now x.0 x.1.now) }
{
    let (key, rest) = key(text)?;
    Some((Line::Del { key }, rest))
}

/// A get, behind its word.
#[inline(always)]
fn get(clients: u8, me: u8, text: &[u8]) -> Option<(Line, &[u8])>
    ensures { IfSome result (λ x. IsCommand clients me (codes "get") text.now x.0 x.1.now) }
{
    let (author, rest) = client(clients, text)?;
    let (key, rest) = key(rest)?;
    Some((Line::Get { author, key }, rest))
}

/// A copy, behind its word.
#[inline(always)]
fn copy(clients: u8, me: u8, text: &[u8]) -> Option<(Line, &[u8])>
    ensures { IfSome result (λ x. IsCommand clients me (codes "copy") text.now x.0 x.1.now) }
{
    let (own, rest) = key(text)?;
    let (author, rest) = client(clients, rest)?;
    let (other, rest) = key(rest)?;
    Some((
        Line::Copy {
            key: own,
            author,
            other,
        },
        rest,
    ))
}

/// A send, behind its word.
#[inline(always)]
fn send(clients: u8, me: u8, text: &[u8]) -> Option<(Line, &[u8])>
    ensures { IfSome result (λ x. IsCommand clients me (codes "send") text.now x.0 x.1.now) }
{
    let (to, rest) = other_client(clients, me, text)?;
    let (key, rest) = key(rest)?;
    Some((Line::Send { to, key }, rest))
}

/// A receive, behind its word.
#[inline(always)]
fn recv(clients: u8, me: u8, text: &[u8]) -> Option<(Line, &[u8])>
    ensures { IfSome result (λ x. IsCommand clients me (codes "recv") text.now x.0 x.1.now) }
{
    let (from, rest) = other_client(clients, me, text)?;
    let (key, rest) = key(rest)?;
    Some((Line::Recv { from, key }, rest))
}

/// A blank and a key.
#[inline(always)]
fn key(text: &[u8]) -> Option<(u32, &[u8])>
    ensures { IfSome result (λ x. text.now ≡ spaced x.0 ++ x.1.now) }
{
    let (number, rest) = number(text)?;
    if number < 1 << 32 {
        Some((number as u32, rest))
    } else {
        None
    }
}

/// A blank and a client.
#[inline(always)]
fn client(clients: u8, text: &[u8]) -> Option<(u8, &[u8])>
    ensures { IfSome result (λ x. (text.now ≡ spaced x.0 ++ x.1.now) × (x.0 < clients)) }
{
    let (number, rest) = number(text)?;
    if number < u64::from(clients) {
        Some((number as u8, rest))
    } else {
        None
    }
}

/// A blank and another client.
#[inline(always)]
fn other_client(clients: u8, me: u8, text: &[u8]) -> Option<(u8, &[u8])>
    ensures { IfSome result (λ x. (text.now ≡ spaced x.0 ++ x.1.now) × (x.0 < clients) × (x.0 ≢ me)) }
{
    let (client, rest) = client(clients, text)?;
    if client == me {
        None
    } else {
        Some((client, rest))
    }
}

/// A blank and a number.
#[inline(always)]
fn number(text: &[u8]) -> Option<(u64, &[u8])>
    ensures { IfSome result (λ x. text.now ≡ spaced x.0 ++ x.1.now) }
{
    match text {
        [b' ', rest @ ..] => digits(rest),
        _ => None,
    }
}

/// The digits of a number, where it isn't among the greatest ones.
#[inline(always)]
fn digits(text: &[u8]) -> Option<(u64, &[u8])>
    ensures { IfSome result (λ x. text.now ≡ decimal x.0 ++ x.1.now) }
{
    let (mut number, mut rest) = digit(text)?;
    if number == 0 {
        return Some((number, rest));
    }
    while let Some((digit, others)) = digit(rest) {
        number = one_more(number, digit)?;
        rest = others;
    }
    Some((number, rest))
}

/// A number with one more digit behind it, where it isn't among the greatest ones.
#[inline(always)]
fn one_more(number: u64, digit: u64) -> Option<u64>
    requires { digit < 10 }
    ensures { IfSome result (λ n. (n ≡ number * 10 + digit) × (n < 2 ^ 64)) }
{
    if number > MOST_BEFORE {
        return None;
    }
    Some(number * 10 + digit)
}

/// A digit.
#[inline(always)]
fn digit(text: &[u8]) -> Option<(u64, &[u8])>
    ensures { IfSome result (λ x. (text.now ≡ (48 + x.0) ∷ x.1.now) × (x.0 < 10)) }
{
    match text {
        [byte, rest @ ..] if byte.is_ascii_digit() => Some((u64::from(*byte - b'0'), rest)),
        _ => None,
    }
}
