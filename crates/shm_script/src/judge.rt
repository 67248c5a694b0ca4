//! Where a line may stand, and whether its numbers are in range.

ghost use Rattle.std.specs.{Prelude.{◌≡◌, ◌≤◌, ◌==◌, ◌^◌, None, IfOk, MatchOption}, List.list_any};
ghost use Rattle.shm_script.specs.Faults.{below, between, command_fit, fit_of, is_second, items_fit, key_of, life_fit, may_stand, other_than, takes_commands, too_many, turns_fit};
ghost use Rattle.shm_script.specs.{Ranges.segments_limit, RawShapes.shape_seen, Drafts.fit_seen, Shapes.given};

use crate::fit::{FitLine, TracePlace};
use crate::line::{Item, Line};
use crate::raw::{RawCommand, RawItem, RawLine};
use std::alloc::{AllocError, Global};

/// The most items of an order.
const MOST_ITEMS: usize = 1_000;

/// The most turns of an item.
const MOST_TURNS: u64 = 100_000;

/// What the numbers of a life line make together at most.
const MOST_LIFE: u64 = 1 << 40;

/// Whether the line may stand behind one of this kind.
pub fn may_stand(place: TracePlace, line: &RawLine) -> bool
    ensures { result ≡ may_stand place (shape_seen line.now) }
{
    match line {
        RawLine::Pool(..) => matches!(place, TracePlace::Start),
        RawLine::Order(_) => matches!(place, TracePlace::Pool),
        RawLine::Client(_) => !matches!(place, TracePlace::Start),
        RawLine::Life(_) => matches!(place, TracePlace::Client),
        RawLine::Command(_) => matches!(place, TracePlace::Client | TracePlace::Body),
    }
}

/// Whether a command may stand behind a line of this kind.
pub fn takes_commands(place: TracePlace) -> bool
    ensures { result ≡ takes_commands place }
{
    matches!(place, TracePlace::Client | TracePlace::Body)
}

/// Whether the line is an order of too many items.
pub fn too_many(line: &RawLine) -> bool
    ensures { result ≡ too_many (shape_seen line.now) }
{
    match line {
        RawLine::Order(items) => items.len() > MOST_ITEMS,
        _ => false,
    }
}

/// Whether the line begins a script of a client that has one.
pub fn is_second(taken: &[u8], line: &FitLine) -> bool
    ensures { result ≡ is_second taken.now (fit_seen line.now) }
{
    match line {
        FitLine::Client(client) => has_client(taken, *client),
        _ => false,
    }
}

/// Whether the client is one of these.
fn has_client(taken: &[u8], client: u8) -> bool
    ensures { result ≡ list_any (λ o. o == client) taken.now }
{
    taken.iter().any(|other| *other == client)
}

/// The number, where it is one of these.
fn between(low: u64, high: u64, number: Option<u64>) -> Option<u64>
    ensures { result ≡ between low high number }
{
    match number {
        Some(n) if low <= n && n <= high => Some(n),
        _ => None,
    }
}

/// The number, where it is a client's.
fn client_below(clients: u8, number: Option<u64>) -> Option<u8>
    ensures { result ≡ below clients number }
{
    match number {
        Some(n) if n < u64::from(clients) => Some(n as u8),
        _ => None,
    }
}

/// The number, where it is another client's.
fn other_client(clients: u8, me: u8, number: Option<u64>) -> Option<u8>
    ensures { result ≡ other_than me (below clients number) }
{
    let client = client_below(clients, number)?;
    if client == me { None } else { Some(client) }
}

/// The number, where it is a key.
fn key(number: Option<u64>) -> Option<u32>
    ensures { result ≡ key_of number }
{
    match number {
        Some(n) if n < 1 << 32 => Some(n as u32),
        _ => None,
    }
}

/// The line, where its numbers are in range.
pub fn fit_line(
    alloc: Global,
    clients: u8,
    me: u8,
    line: RawLine,
) -> Result<Option<FitLine>, AllocError>
    ensures { IfOk result (λ o. given fit_seen o ≡ fit_of clients me (shape_seen line)) }
{
    match line {
        RawLine::Pool(wide, n, g) => Ok(fit_pool(wide, n, g)),
        RawLine::Order(items) => match fit_items(alloc, clients, items.as_slice())? {
            None => Ok(None),
            Some(items) => Ok(Some(FitLine::Order(items))),
        },
        RawLine::Client(n) => Ok(fit_client(clients, n)),
        RawLine::Life(numbers) => match fit_life(alloc, numbers.as_slice())? {
            None => Ok(None),
            Some(life) => Ok(Some(FitLine::Life(life))),
        },
        RawLine::Command(command) => Ok(fit_other(clients, me, command)),
    }
}

/// How many segments a pool of this format may have.
fn most_segments(wide: bool) -> u64
    ensures limit { result ≡ segments_limit wide }
    ensures few { result ≤ 8000 }
{
    if wide { 8_000 } else { 256 }
}

/// The line of a pool of this format, where its numbers are in range.
fn fit_pool(wide: bool, clients: Option<u64>, segments: Option<u64>) -> Option<FitLine>
    ensures { given fit_seen result ≡ fit_of 0 0 (shape_seen (RawLine.Pool wide clients segments)) }
{
    let clients = between(1, 16, clients)?;
    let segments = between(1, most_segments(wide), segments)?;
    Some(FitLine::Pool(wide, clients as u8, segments as u16))
}

/// The line of a client, where there is one of its number.
fn fit_client(clients: u8, number: Option<u64>) -> Option<FitLine>
    ensures { given fit_seen result ≡ fit_of clients 0 (shape_seen (RawLine.Client number)) }
{
    let client = client_below(clients, number)?;
    Some(FitLine::Client(client))
}

/// The line of a command, where its numbers are in range.
fn fit_other(clients: u8, me: u8, command: RawCommand) -> Option<FitLine>
    ensures { given fit_seen result ≡ fit_of clients me (shape_seen (RawLine.Command command)) }
{
    let line = fit_command(clients, me, command)?;
    Some(FitLine::Command(line))
}

/// The command, where its numbers are in range.
#[tactic(auto, unfolding(crate::specs::Faults::command_fit))]
fn fit_command(clients: u8, me: u8, command: RawCommand) -> Option<Line>
    ensures { result ≡ command_fit clients me command }
{
    match command {
        RawCommand::Put(k, n) => {
            let key = key(k)?;
            let number = n?;
            Some(Line::Put { key, number })
        }
        RawCommand::Del(k) => {
            let key = key(k)?;
            Some(Line::Del { key })
        }
        RawCommand::Get(a, k) => {
            let author = client_below(clients, a)?;
            let key = key(k)?;
            Some(Line::Get { author, key })
        }
        RawCommand::Copy(k, a, o) => {
            let own = key(k)?;
            let author = client_below(clients, a)?;
            let other = key(o)?;
            Some(Line::Copy {
                key: own,
                author,
                other,
            })
        }
        RawCommand::Send(c, k) => {
            let to = other_client(clients, me, c)?;
            let key = key(k)?;
            Some(Line::Send { to, key })
        }
        RawCommand::Recv(c, k) => {
            let from = other_client(clients, me, c)?;
            let key = key(k)?;
            Some(Line::Recv { from, key })
        }
    }
}

/// The turns of an item, where they are in range.
fn fit_turns(turns: Option<Option<u64>>) -> Option<u32>
    ensures { result ≡ turns_fit turns }
{
    match turns {
        None => Some(0),
        Some(number) => {
            let turns = between(1, MOST_TURNS, number)?;
            Some(turns as u32)
        }
    }
}

/// The items, where their numbers are in range.
fn fit_items(alloc: Global, clients: u8, items: &[RawItem]) -> Result<Option<Vec<Item>>, AllocError>
    ensures { IfOk result (λ o. MatchOption o (items_fit clients items.now ≡ None) (λ v. items_fit clients items.now ≡ Some v.items)) }
{
    let mut fit = Vec::new(alloc);
    for item in items {
        let Some(client) = client_below(clients, item.client) else {
            return Ok(None);
        };
        let Some(turns) = fit_turns(item.turns) else {
            return Ok(None);
        };
        fit.push(Item { client, turns })?;
    }
    Ok(Some(fit))
}

/// The lives, where they are in range.
fn fit_life(alloc: Global, numbers: &[Option<u64>]) -> Result<Option<Vec<u64>>, AllocError>
    ensures { IfOk result (λ o. MatchOption o (life_fit (2 ^ 40) numbers.now ≡ None) (λ v. life_fit (2 ^ 40) numbers.now ≡ Some v.items)) }
{
    let mut fit = Vec::new(alloc);
    let mut left = MOST_LIFE;
    for number in numbers {
        let Some(steps) = between(1, left, *number) else {
            return Ok(None);
        };
        fit.push(steps)?;
        left -= steps;
    }
    Ok(Some(fit))
}
