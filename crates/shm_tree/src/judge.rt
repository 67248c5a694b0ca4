//! Where a line may stand, and whether its numbers are in range.

ghost use Rattle.std.specs.Prelude.{◌≡◌};
ghost use Rattle.shm_script.specs.Faults.{between, key_of};
ghost use Rattle.shm_tree.specs.Scripts.{fit_of, may_stand, register_of};
ghost use Rattle.shm_tree.specs.declared.shape.RawTree.TheVariants as raw;

use crate::line::TreeLine;
use crate::shape::RawTree;

/// The most segments of a pool.
const MOST_SEGMENTS: u64 = 256;

/// The longest life.
const MOST_LIFE: u64 = 1 << 40;

/// How many registers there are.
const REGISTERS: u64 = 12;

/// Behind which line the next one stands.
#[derive(Clone, Copy, PartialEq, Eq, Drop)]
pub enum TreePlace {
    Start,
    Tree,
    Body,
}

/// A line whose numbers are in range.
#[derive(Clone, Copy, Drop)]
pub enum FitTree {
    Tree(u16),
    Life(u64),
    Line(TreeLine),
}

/// Whether the line may stand behind one of this kind.
pub fn may_stand(place: TreePlace, line: RawTree) -> bool
    ensures { result ≡ may_stand place line }
{
    match line {
        RawTree::Tree(_) => matches!(place, TreePlace::Start),
        RawTree::Life(_) => matches!(place, TreePlace::Tree),
        _ => !matches!(place, TreePlace::Start),
    }
}

/// The number, where it is one of these.
fn between(low: u64, high: u64, number: Option<u64>) -> Option<u64>
    ensures { result ≡ between low high number }
{
    match number {
        Some(n) if low <= n && n <= high => Some(n),
        _ => None,
    }
}

/// The number, where it is a register's.
fn register(number: Option<u64>) -> Option<u8>
    ensures { result ≡ register_of number }
{
    match number {
        Some(n) if n < REGISTERS => Some(n as u8),
        _ => None,
    }
}

/// The number, where it is a key.
fn key(number: Option<u64>) -> Option<u32>
    ensures { result ≡ key_of number }
{
    match number {
        Some(n) if n < 1 << 32 => Some(n as u32),
        _ => None,
    }
}

/// How many segments a pool is to have, where it may.
fn fit_segments(segments: Option<u64>) -> Option<FitTree>
    ensures { result ≡ fit_of (raw.Tree segments) }
{
    match segments {
        Some(n) if 1 <= n && n <= MOST_SEGMENTS => Some(FitTree::Tree(n as u16)),
        _ => None,
    }
}

/// The line of a set, where its numbers are in range.
fn fit_set(
    to: Option<u64>,
    from: Option<u64>,
    at: Option<u64>,
    number: Option<u64>,
) -> Option<FitTree>
    ensures { result ≡ fit_of (raw.Set to from at number) }
{
    let to = register(to)?;
    let from = register(from)?;
    let key = key(at)?;
    let number = number?;
    Some(FitTree::Line(TreeLine::Set {
        to,
        from,
        key,
        number,
    }))
}

/// The line of a removal, where its numbers are in range.
fn fit_del(to: Option<u64>, from: Option<u64>, at: Option<u64>) -> Option<FitTree>
    ensures { result ≡ fit_of (raw.Del to from at) }
{
    let to = register(to)?;
    let from = register(from)?;
    let key = key(at)?;
    Some(FitTree::Line(TreeLine::Del { to, from, key }))
}

/// The line with its numbers, where they are in range.
pub fn fit_tree(line: RawTree) -> Option<FitTree>
    ensures { result ≡ fit_of line }
{
    match line {
        RawTree::Tree(segments) => fit_segments(segments),
        RawTree::Life(life) => {
            let life = between(1, MOST_LIFE, life)?;
            Some(FitTree::Life(life))
        }
        RawTree::Set(to, from, at, number) => fit_set(to, from, at, number),
        RawTree::Del(to, from, at) => fit_del(to, from, at),
        RawTree::Get(at, wanted) => {
            let at = register(at)?;
            let key = key(wanted)?;
            Some(FitTree::Line(TreeLine::Get { at, key }))
        }
        RawTree::Copy(to, from) => {
            let to = register(to)?;
            let from = register(from)?;
            Some(FitTree::Line(TreeLine::Copy { to, from }))
        }
        RawTree::Clear(at) => {
            let at = register(at)?;
            Some(FitTree::Line(TreeLine::Clear { at }))
        }
    }
}
