//! A forest beside ordered maps of std: the same lines on both.

ghost use Rattle.std.specs.Prelude.{◌≡◌, true};
ghost use Rattle.shm_tree.specs.Forests.{IsInRange};

use shm_graph::Life;
use shm_tree::{Forest, TreeAnswer, TreeLine, TreeTurn};
use std::alloc::{AllocError, Global};
use std::collections::BTreeMap;

/// How many registers there are.
const REGISTERS: u8 = 12;

/// How many segments the pool has.
const SEGMENTS: u16 = 64;

/// A forest, and a map for each register.
#[derive(Drop)]
struct Pairs {
    forest: Forest,
    maps: Vec<BTreeMap<u32, u64>>,
    /// The random number that was drawn last.
    drawn: u64,
    /// How many answers and sizes were compared.
    compared: u32,
    /// How many of them were the same.
    same: u32,
}

/// How many answers and sizes were compared, and how many of them were the same.
#[derive(Clone, Copy, Drop)]
pub struct Compared {
    pub compared: u32,
    pub same: u32,
}

/// Whether the registers of a line are below 12.
fn is_in_range(line: TreeLine) -> bool
    ensures { result ≡ true → IsInRange line }
{
    match line {
        TreeLine::Set { to, from, .. } => to < REGISTERS && from < REGISTERS,
        TreeLine::Del { to, from, .. } => to < REGISTERS && from < REGISTERS,
        TreeLine::Copy { to, from } => to < REGISTERS && from < REGISTERS,
        TreeLine::Get { at, .. } => at < REGISTERS,
        TreeLine::Clear { at } => at < REGISTERS,
    }
}

/// A map with the same entries.
fn copy_of(
    alloc: Global,
    map: Option<&BTreeMap<u32, u64>>,
) -> Result<BTreeMap<u32, u64>, AllocError> {
    let mut copy = BTreeMap::new(alloc);
    if let Some(map) = map {
        for (key, number) in map {
            copy.insert(*key, *number)?;
        }
    }
    Ok(copy)
}

impl Pairs {
    /// An empty forest and empty maps.
    fn new(alloc: Global) -> Result<Pairs, AllocError> {
        let mut maps = Vec::new(alloc);
        for _ in 0..REGISTERS {
            maps.push(BTreeMap::new(alloc))?;
        }
        Ok(Pairs {
            forest: Forest::make(alloc, SEGMENTS)?,
            maps,
            drawn: 1,
            compared: 0,
            same: 0,
        })
    }

    /// A random number below `end`.
    fn draw(&mut self, end: u32) -> u32 {
        self.drawn = self
            .drawn
            .wrapping_mul(6_364_136_223_846_793_005)
            .wrapping_add(1_442_695_040_888_963_407);
        ((self.drawn >> 33) % u64::from(end.max(1))) as u32
    }

    /// Puts a map in the place of a register's.
    fn put(&mut self, at: u8, map: BTreeMap<u32, u64>) {
        if let Some(place) = self.maps.get_mut(at as usize) {
            *place = map;
        }
    }

    /// The number at a key of a register's map.
    fn number(&self, at: u8, key: u32) -> Option<u64> {
        self.maps.get(at as usize)?.get(&key).copied()
    }

    /// Does a line on the maps; what it is to be answered by.
    fn expect(&mut self, alloc: Global, line: TreeLine) -> Result<TreeAnswer, AllocError> {
        match line {
            TreeLine::Get { at, key } => Ok(match self.number(at, key) {
                Some(number) => TreeAnswer::Value { number },
                None => TreeAnswer::Missing,
            }),
            TreeLine::Clear { at } => {
                self.put(at, BTreeMap::new(alloc));
                Ok(TreeAnswer::Ok)
            }
            TreeLine::Copy { to, from } => {
                let map = copy_of(alloc, self.maps.get(from as usize))?;
                self.put(to, map);
                Ok(TreeAnswer::Ok)
            }
            TreeLine::Set {
                to,
                from,
                key,
                number,
            } => {
                let mut map = copy_of(alloc, self.maps.get(from as usize))?;
                map.insert(key, number)?;
                self.put(to, map);
                Ok(TreeAnswer::Ok)
            }
            TreeLine::Del { to, from, key } => {
                if self.number(from, key).is_none() {
                    return Ok(TreeAnswer::Missing);
                }
                let mut map = copy_of(alloc, self.maps.get(from as usize))?;
                map.remove(&key);
                self.put(to, map);
                Ok(TreeAnswer::Ok)
            }
        }
    }

    /// Counts one comparison.
    fn count(&mut self, same: bool) {
        self.compared = self.compared.saturating_add(1);
        self.same = self.same.saturating_add(u32::from(same));
    }

    /// Does a line on both.
    fn line(&mut self, alloc: Global, line: TreeLine) -> Result<(), AllocError> {
        let expected = self.expect(alloc, line)?;
        let mut life = Life::of(1 << 40);
        let same = is_in_range(line)
            && self.forest.run(&line, &mut life) == TreeTurn::Done(expected);
        self.count(same);
        Ok(())
    }

    /// A random register, 0 to 5.
    fn register(&mut self) -> u8 {
        (self.draw(u32::MAX) % 6) as u8
    }

    /// A random line on the registers 0 to 5.
    fn any(&mut self, keys: u32) -> TreeLine {
        let to = self.register();
        let from = self.register();
        let key = self.draw(keys);
        match self.draw(8) {
            0 | 1 | 2 => TreeLine::Set {
                to,
                from,
                key,
                number: self.drawn,
            },
            3 | 4 => TreeLine::Del { to, from, key },
            5 | 6 => TreeLine::Get { at: from, key },
            _ => TreeLine::Copy { to, from },
        }
    }

    /// Sets each key of register 0 once, in an order that isn't theirs, and keeps four versions on the way.
    fn fill(&mut self, alloc: Global, keys: u32) -> Result<(), AllocError> {
        for i in 0..keys {
            let key = (u64::from(i) * 7919 % u64::from(keys.max(1))) as u32;
            let number = u64::from(i);
            self.line(
                alloc,
                TreeLine::Set {
                    to: 0,
                    from: 0,
                    key,
                    number,
                },
            )?;
            if i % 250 == 249 {
                let to = (1 + i / 250 % 4) as u8;
                self.line(alloc, TreeLine::Copy { to, from: 0 })?;
            }
        }
        Ok(())
    }

    /// How many keys a register's version has; none where the client died.
    fn size(&mut self, at: u8) -> Option<usize> {
        let line = TreeLine::Get { at, key: 0 };
        if !is_in_range(line) {
            return None;
        }
        match self.forest.run(&line, &mut Life::of(1 << 40)) {
            TreeTurn::Done(_) => Some(self.forest.size(at) as usize),
            TreeTurn::Died => None,
        }
    }

    /// Asks each register for each key and for its size.
    fn ask(&mut self, alloc: Global, keys: u32) -> Result<(), AllocError> {
        for at in 0..REGISTERS {
            for key in 0..keys {
                self.line(alloc, TreeLine::Get { at, key })?;
            }
            let size = self.maps.get(at as usize).map_or(0, |map| map.len());
            let same = self.size(at) == Some(size);
            self.count(same);
        }
        Ok(())
    }
}

/// Sets so many keys, does so many random lines, and asks each register for each key: on a forest, and on an ordered map for each register.
pub fn compare(alloc: Global, keys: u32, lines: u32) -> Result<Compared, AllocError> {
    let mut pairs = Pairs::new(alloc)?;
    pairs.fill(alloc, keys)?;
    pairs.ask(alloc, keys)?;
    for _ in 0..lines {
        let line = pairs.any(keys);
        pairs.line(alloc, line)?;
    }
    pairs.ask(alloc, keys)?;
    Ok(Compared {
        compared: pairs.compared,
        same: pairs.same,
    })
}
