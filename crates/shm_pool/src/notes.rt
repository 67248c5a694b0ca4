//! A table of one word, whose seat keeps the memos of a closed pool.

ghost use Rattle.std.specs.Prelude.{◌≡◌, [], ◌∷◌, IfOk};
ghost use Rattle.shm_pool.specs.Tokens.{by_who};

use crate::rule::{Place, View};
use atomic_table::{Badge, Play, Table, TableRule};
use std::alloc::{AllocError, Global};
use std::marker::{Brand, PhantomData};

/// It asks nothing.
pub struct Anything;

impl TableRule<(), View, ()> for Anything {
    ghost use Rattle.std.specs.Prelude.{[]};

    ghost holds = { λ _ _. Unit {0} };

    ghost first = { λ _. [] };
}

pub(crate) type Board = Table<(), View, (), Anything, Global>;

/// What is kept. A call picks it.
pub(crate) trait Kept {
    ghost use Rattle.std.specs.Prelude.{List};
    ghost use Rattle.shm_graph.specs.declared.run.Account.{Account};

    ghost list: { List Account };
}

impl Kept for Brand {
    ghost use Rattle.std.specs.Prelude.{[]};

    ghost list = { [] };
}

pub(crate) struct Keeps<C> {
    kept: PhantomData<C>,
}

impl<C: Kept> Play<(), View> for Keeps<C> {
    ghost use Rattle.std.specs.Prelude.{◌≡◌};

    ghost then = { λ step before n now. (now.0 ≡ C.list) × (now.1 ≡ before.1) };
}

/// A table of one word for what a call accounts for.
pub(crate) fn board(alloc: Global) -> Result<(Board, Place), AllocError>
    ensures { IfOk result (λ b. (b.0.shared.table_id.words ≡ 1) × (b.1.table_id ≡ b.0.shared.table_id) × (b.1.me.1 ≡ [])) }
{
    Table::of_words(alloc, &[0], &())
}

/// Notes in the own seat what `C` keeps.
fn keep_as<C: Kept>(board: &Board, note: &mut Place, _seat: &Place, _clients: u8)
    requires { (note.old.table_id ≡ board.now.shared.table_id) × (board.now.shared.table_id.words ≡ 1) }
    ensures { (note.new.me.0 ≡ C.list) × (note.new.me.1 ≡ note.old.me.1) }
{
    board.shared.load::<Keeps<C>>(note, 0);
}

/// Keeps the memos of a seat, in the order of the identities.
pub(crate) fn keep(board: &Board, mut note: Place, seat: &Place, clients: u8) -> Badge<View>
    requires { (note.table_id ≡ board.now.shared.table_id) × (board.now.shared.table_id.words ≡ 1) × (note.me.1 ≡ []) }
    ensures { result.views ≡ by_who 0 clients seat.now.me.0 ∷ [] }
{
    keep_as::<Brand>(board, &mut note, seat, clients);
    note.into_badge()
}
