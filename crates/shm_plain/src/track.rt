//! What a pool accounts for of its identities, and its turns, as the view of the one seat of a table of one word.
//!
//! No value of them is made. Each turn changes the view by one load of that word.

ghost use Rattle.std.specs.Prelude.{◌≡◌, ◌<◌, [], IfOk};
ghost use Rattle.shm_plain.specs.{ManySteps.noted_steps, Pools.next_of, Tracks.{first_track, noted, fallen}};

use atomic_table::{Play, Seat, Table, TableRule};
use shm_graph::{Account, Machine, Move, Start};
use std::alloc::{AllocError, Global};
use std::collections::LinkedList;
use std::marker::{Brand, Model, PhantomData};

/// The accounts, by identity, and the turns. No value of it is made.
pub struct Track {
    pub accounts: LinkedList<Account>,
    pub turns: LinkedList<Move>,
}

/// What the seat of a pool knows. No value of it is made.
///
/// To a contract it is a track. It has no field, so that whoever names a pool doesn't name all types that an account is made of.
pub struct Known;

impl Model for Known {
    ghost use Rattle.std.specs.Prelude.{[]};
    ghost use Rattle.shm_plain.specs.declared.track.Track.{Track};

    ghost Value = { Track };

    ghost view = { λ k. record { accounts = []; turns = [] } };
}

/// It asks nothing: the seat alone knows.
pub(crate) struct Anything;

impl TableRule<(), Known, Start> for Anything {
    ghost use Rattle.shm_plain.specs.Tracks.{first_track};

    ghost holds = { λ _ _. Unit {0} };

    ghost first = { λ s. first_track s };
}

/// What a turn does to the view; a call picks it.
pub(crate) trait Change {
    ghost use Rattle.shm_plain.specs.declared.track.Track.{Track};

    ghost to: { Track → Track };
}

impl Change for Brand {
    ghost to = { λ t. t };
}

pub(crate) struct Changes<C> {
    change: PhantomData<C>,
}

impl<C: Change> Play<(), Known> for Changes<C> {
    ghost use Rattle.std.specs.Prelude.{◌≡◌};

    ghost then = { λ step before found now. (now.0 ≡ C.to before.0) × (now.1 ≡ before.1) };
}

pub(crate) type Board = Table<(), Known, Start, Anything, Global>;

pub(crate) type Place = Seat<(), Known>;

/// The table and its seat, with the first accounts and no turn.
pub(crate) fn board(alloc: Global, start: Start) -> Result<(Board, Place), AllocError>
    ensures { IfOk result (λ b. (b.0.shared.table_id.words ≡ 1) × (b.0.shared.table_id.slots ≡ 0) × (b.1.table_id ≡ b.0.shared.table_id) × (b.1.me ≡ (first_track start, []))) }
{
    Table::of_words(alloc, &[0], &start)
}

/// Changes the view by one load.
#[inline(always)]
fn make_change<C: Change>(board: &Board, place: &mut Place)
    requires { (place.old.table_id ≡ board.now.shared.table_id) × (board.now.shared.table_id.words ≡ 1) }
    ensures { (place.new.table_id ≡ place.old.table_id) × (place.new.me.0 ≡ C.to place.old.me.0) × (place.new.me.1 ≡ place.old.me.1) }
{
    board.shared.load::<Changes<C>>(place, 0);
}

/// Notes the step that a machine makes next on these words, after the beginning of an agent where none acts.
#[inline(always)]
pub(crate) fn note<M: Machine>(board: &Board, place: &mut Place, m: &M, words: &Vec<u64>)
    requires { (place.old.table_id ≡ board.now.shared.table_id) × (board.now.shared.table_id.words ≡ 1) }
    ensures { (place.new.table_id ≡ place.old.table_id) × (place.new.me.0 ≡ noted (next_of M.control m.now words.now.items) place.old.me.0) × (place.new.me.1 ≡ place.old.me.1) }
{
    note_as::<Brand, M>(board, place, m, words);
}

#[inline(always)]
fn note_as<C: Change, M: Machine>(board: &Board, place: &mut Place, _m: &M, _words: &Vec<u64>)
    requires { (place.old.table_id ≡ board.now.shared.table_id) × (board.now.shared.table_id.words ≡ 1) }
    ensures { (place.new.table_id ≡ place.old.table_id) × (place.new.me.0 ≡ C.to place.old.me.0) × (place.new.me.1 ≡ place.old.me.1) }
{
    make_change::<C>(board, place);
}

/// Notes the word steps that a machine of `who` makes next on these words, until it has answered or so many are made: the first one after
/// the beginning of an agent where none acts.
#[inline(always)]
pub(crate) fn note_steps<M: Machine>(
    board: &Board,
    place: &mut Place,
    who: u8,
    m: &M,
    words: &Vec<u64>,
    life: u64,
)
    requires { (place.old.table_id ≡ board.now.shared.table_id) × (board.now.shared.table_id.words ≡ 1) }
    ensures { (place.new.table_id ≡ place.old.table_id) × (place.new.me.0 ≡ noted_steps M.control who life m.now words.now.items place.old.me.0) × (place.new.me.1 ≡ place.old.me.1) }
{
    note_steps_as::<Brand, M>(board, place, who, m, words, life);
}

#[inline(always)]
fn note_steps_as<C: Change, M: Machine>(
    board: &Board,
    place: &mut Place,
    _who: u8,
    _m: &M,
    _words: &Vec<u64>,
    _life: u64,
)
    requires { (place.old.table_id ≡ board.now.shared.table_id) × (board.now.shared.table_id.words ≡ 1) }
    ensures { (place.new.table_id ≡ place.old.table_id) × (place.new.me.0 ≡ C.to place.old.me.0) × (place.new.me.1 ≡ place.old.me.1) }
{
    make_change::<C>(board, place);
}

/// Notes the death of the agent of `who`, where one acts.
pub(crate) fn note_death(board: &Board, place: &mut Place, who: u8)
    requires { (place.old.table_id ≡ board.now.shared.table_id) × (board.now.shared.table_id.words ≡ 1) }
    ensures { (place.new.table_id ≡ place.old.table_id) × (place.new.me.0 ≡ fallen who place.old.me.0) × (place.new.me.1 ≡ place.old.me.1) }
{
    note_death_as::<Brand>(board, place, who);
}

fn note_death_as<C: Change>(board: &Board, place: &mut Place, _who: u8)
    requires { (place.old.table_id ≡ board.now.shared.table_id) × (board.now.shared.table_id.words ≡ 1) }
    ensures { (place.new.table_id ≡ place.old.table_id) × (place.new.me.0 ≡ C.to place.old.me.0) × (place.new.me.1 ≡ place.old.me.1) }
{
    make_change::<C>(board, place);
}
