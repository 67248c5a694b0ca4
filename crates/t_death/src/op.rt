//! The operations of the table, and how an identity begins and makes them.

ghost use Rattle.std.specs.Prelude.{◌<◌, IfSome};
ghost use Rattle.shm_words.specs.Layout.{GeometryFits, address_limit};
ghost use Rattle.shm_table.specs.Command.{LineMayStand};

use crate::pool::Pool;
use shm_alloc::Alloc;
use shm_count::{StepChange, StepDown, StepUp, TearDown};
use shm_graph::Me;
use shm_queue::{Drain, Peek, Receive, Send, Take};
use shm_recover::{Join, Leave, Recover};
use shm_ref::{DropRoot, Hold, HomeOf, Look, Read, Release, RootOf, SetHome, SetRef, Share};
use shm_script::Line;
use shm_table::Command;
use shm_words::ADDRESS_LIMIT;
use t_runs::may_stand;

/// The plain words of a block: so many of these, and at most three.
#[derive(Clone, Copy, Drop)]
pub struct Plain {
    pub words: [u64; 3],
    pub many: usize,
}

/// An operation. Blocks and slots are named by their addresses in format 1, identities and roots by their numbers.
#[derive(Clone, Copy, Drop)]
pub enum Op {
    Join,
    Leave,
    /// The identity died between two operations, and is recovered.
    Recover,
    /// A command of a table.
    Run(Line),
    /// A block of so many reference words and of these plain words.
    Alloc(u8, Plain),
    DropRoot(u8),
    RootOf(u8),
    Share(u32),
    SetHome(u32),
    /// The latch of an identity.
    Hold(u8),
    Release,
    HomeOf(u8),
    /// A reference word of a block, by its number.
    Look(u32, u8),
    /// A plain word of a block, by its number.
    Read(u32, u8),
    /// A reference word of a block, and what it shall name.
    SetRef(u32, u8, u32),
    /// To an identity a block.
    Send(u8, u32),
    Peek(u8),
    Take(u8),
    Receive(u8),
    Drain,
    /// A slot and the block that it shall name.
    Up(u32, u32),
    /// A slot and the block that it names.
    Down(u32, u32),
    /// A slot, the block that it names and the one that it shall name.
    Change(u32, u32, u32),
    /// A block whose count is 0.
    TearDown(u32),
}

/// The address in the pool of what is named by its address in format 1: in format 2 what stands behind the redo records stands further by one
/// word for each client. 0 names nothing.
fn address(me: Me, named: u32) -> Option<u32>
    ensures { IfSome result (λ a. a < address_limit) }
{
    let more = if named != 0 && me.geometry.is_wide() {
        u32::from(me.geometry.clients())
    } else {
        0
    };
    let at = named.saturating_add(more);
    if at < ADDRESS_LIMIT { Some(at) } else { None }
}

/// Makes at most so many word steps of an operation; how many were made. None where it doesn't fit the pool.
pub fn perform(pool: &mut Pool, me: Me, op: Op, most: u32) -> Option<u32>
    requires geometry { GeometryFits me.geometry }
    requires who { me.who < me.geometry.clients }
{
    match op {
        Op::Join => pool.advance(&mut Join::new(me), most),
        Op::Leave => pool.follow(Leave::new(me), most),
        Op::Recover => pool.follow(Recover::new(me), most),
        Op::Run(line) if may_stand(me, line) => perform_line(pool, me, &line, most),
        Op::Alloc(refs, plain) => perform_alloc(pool, me, refs, plain, most),
        Op::Release => pool.follow(Release::new(me), most),
        Op::Drain => pool.follow(Drain::new(me), most),
        _ => match perform_at(pool, me, op, most) {
            None => perform_on(pool, me, op, most),
            made => made,
        },
    }
}

/// The same of the command of a line.
fn perform_line(pool: &mut Pool, me: Me, line: &Line, most: u32) -> Option<u32>
    requires geometry { GeometryFits me.geometry }
    requires who { me.who < me.geometry.clients }
    requires line { LineMayStand me line.now }
{
    pool.advance(&mut Command::new(me, line), most)
}

/// The same of an allocation.
fn perform_alloc(pool: &mut Pool, me: Me, refs: u8, plain: Plain, most: u32) -> Option<u32>
    requires geometry { GeometryFits me.geometry }
    requires who { me.who < me.geometry.clients }
{
    let words = &plain.words[..plain.many.min(3)];
    match Alloc::new(me, refs, words) {
        Ok(mut alloc) => pool.advance(&mut alloc, most),
        Err(_) => None,
    }
}

/// The same of operations that are told a root or an identity.
fn perform_at(pool: &mut Pool, me: Me, op: Op, most: u32) -> Option<u32>
    requires geometry { GeometryFits me.geometry }
    requires who { me.who < me.geometry.clients }
{
    let clients = me.geometry.clients();
    match op {
        Op::DropRoot(root) if root < 16 => { pool.follow(DropRoot::new(me, root), most) }
        Op::RootOf(root) if root < 16 => { pool.follow(RootOf::new(me, root), most) }
        Op::Hold(author) if author < clients => { pool.follow(Hold::new(me, author), most) }
        Op::HomeOf(author) if author < clients => { pool.follow(HomeOf::new(me, author), most) }
        Op::Send(to, block) if to < clients => {
            let block = address(me, block)?;
            pool.follow(Send::new(me, to, block), most)
        }
        Op::Peek(from) if from < clients => { pool.follow(Peek::new(me, from), most) }
        Op::Take(from) if from < clients => { pool.follow(Take::new(me, from), most) }
        Op::Receive(from) if from < clients => { pool.follow(Receive::new(me, from), most) }
        _ => None,
    }
}

/// The same of operations that are told an address.
fn perform_on(pool: &mut Pool, me: Me, op: Op, most: u32) -> Option<u32>
    requires geometry { GeometryFits me.geometry }
    requires who { me.who < me.geometry.clients }
{
    match op {
        Op::Share(block) => {
            let block = address(me, block)?;
            pool.follow(Share::new(me, block), most)
        }
        Op::SetHome(block) => {
            let block = address(me, block)?;
            pool.follow(SetHome::new(me, block), most)
        }
        Op::Look(block, word) => {
            let block = address(me, block)?;
            pool.follow(Look::new(me, block, word), most)
        }
        Op::Read(block, word) => {
            let block = address(me, block)?;
            pool.follow(Read::new(me, block, word), most)
        }
        Op::SetRef(block, word, to) => {
            let (block, to) = (address(me, block)?, address(me, to)?);
            if block + 2 > me.geometry.total() {
                return None;
            }
            pool.follow(SetRef::new(me, block, word, to), most)
        }
        _ => perform_count(pool, me, op, most),
    }
}

/// The same of count steps and tear-downs.
fn perform_count(pool: &mut Pool, me: Me, op: Op, most: u32) -> Option<u32>
    requires geometry { GeometryFits me.geometry }
    requires who { me.who < me.geometry.clients }
{
    match op {
        Op::Up(slot, block) => {
            let (slot, block) = (address(me, slot)?, address(me, block)?);
            pool.advance(&mut StepUp::new(me, slot, block), most)
        }
        Op::Down(slot, block) => {
            let (slot, block) = (address(me, slot)?, address(me, block)?);
            pool.advance(&mut StepDown::new(me, slot, block), most)
        }
        Op::Change(slot, old, new) => {
            let (slot, old) = (address(me, slot)?, address(me, old)?);
            let new = address(me, new)?;
            pool.advance(&mut StepChange::new(me, slot, old, new), most)
        }
        Op::TearDown(block) => {
            let block = address(me, block)?;
            pool.advance(&mut TearDown::new(me, block), most)
        }
        _ => None,
    }
}
