//! The names of value blocks: they are numbered in the order in which rows name them first.

ghost use Rattle.std.specs.{Prelude.{◌≡◌, [], eqb, true, IfOk, OnOk}, List.list_any};
ghost use Rattle.shm_report.specs.{Report.{named_from, value_number}, TableRows.rows_seen};

use crate::table_rows::TableRow;
use std::alloc::{AllocError, Global};
use std::collections::BTreeMap;

/// The value blocks that rows name, in the order in which they are named first, and the number of each, from 1.
#[derive(Drop)]
pub struct ValueNames {
    blocks: Vec<u32>,
    numbers: BTreeMap<u32, usize>,
}

impl ValueNames {
    ghost use Rattle.shm_report.specs.ValueNames.{IsNumbered, with_name};

    /// The names of the value blocks of these rows.
    pub fn of_rows(alloc: Global, rows: &[TableRow]) -> Result<ValueNames, AllocError>
        ensures blocks { IfOk result (λ n. n.blocks.items ≡ named_from [] (rows_seen rows.now)) }
        ensures numbered { IfOk result IsNumbered }
    {
        let mut names = ValueNames {
            blocks: Vec::new(alloc),
            numbers: BTreeMap::new(alloc),
        };
        for row in rows {
            names.add(row.value)?;
        }
        Ok(names)
    }

    // names a value block, unless it has a name
    fn add(&mut self, value: u32) -> Result<(), AllocError>
        requires { IsNumbered self.old }
        ensures blocks { OnOk result (self.new.blocks.items ≡ with_name self.old.blocks.items value) }
        ensures numbered { OnOk result (IsNumbered self.new) }
    {
        if !self.numbers.contains_key(&value) {
            self.blocks.push(value)?;
            self.numbers.insert(value, self.blocks.len())?;
        }
        Ok(())
    }

    /// The value blocks, in the order of their numbers.
    pub fn blocks(&self) -> &[u32]
        ensures { result.now ≡ self.now.blocks.items }
    {
        self.blocks.as_slice()
    }

    /// The number of a value block that is named, from 1.
    pub fn number(&self, value: u32) -> usize
        requires numbered { IsNumbered self.now }
        requires named { list_any (eqb value) self.now.blocks.items ≡ true }
        ensures { result ≡ value_number self.now.blocks.items value }
    {
        self.numbers.get(&value).copied().unwrap_or(0)
    }
}
