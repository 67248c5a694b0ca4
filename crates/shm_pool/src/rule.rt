//! The rule of the shared words, and what a seat knows.

ghost use Rattle.std.specs.Prelude.{ℕ, List};

use atomic_table::{Join, Play, Seat, Shared, Split, Table, TableRule};
use shm_graph::Start;
use std::alloc::Global;
use std::marker::{Brand, Model, PhantomData};

/// What a seat knows: the accounts of the identities that it answers for. No value of it is made.
///
/// To a contract it is their list. It has no field, so that whoever names a seat doesn't name all types that an account is made of.
pub struct View;

impl Model for View {
    ghost use Rattle.std.specs.Prelude.{List, []};
    ghost use Rattle.shm_graph.specs.declared.run.Account.{Account};

    ghost Value = { List Account };

    ghost view = { λ v. [] };
}

/// The words and the accounts are a state that holds, the last one of a run.
pub struct Runs;

impl TableRule<(), View, Start> for Runs {
    ghost use Rattle.shm_graph.specs.Runs.{accounts_from};
    ghost use Rattle.shm_pool.specs.Rules.{Rule};

    ghost holds = { λ g s. Rule g s.words s.views };

    ghost first = { λ g. accounts_from g 0 g.geometry.clients };
}

/// What a step tells of the view before, the word found and the view after. A call picks it.
pub(crate) trait Say {
    ghost use Rattle.std.specs.Prelude.{ℕ, List};
    ghost use Rattle.shm_graph.specs.declared.run.Account.{Account};

    ghost then: { List Account → ℕ → List Account → Type 0 };
}

impl Say for Brand {
    ghost then = { λ before n now. Unit {0} };
}

pub(crate) struct Says<U> {
    say: PhantomData<U>,
}

impl<U: Say> Play<(), View> for Says<U> {
    ghost use Rattle.std.specs.Prelude.{◌≡◌};

    ghost then = { λ step before n now. U.then before.0 n now.0 × (now.1 ≡ before.1) };
}

pub(crate) type Words = Table<(), View, Start, Runs, Global>;

pub(crate) type Top = Shared<(), View, Start, Runs>;

pub(crate) type Place = Seat<(), View>;

/// Cuts off the first identity.
pub(crate) struct Cut;

impl Split<View> for Cut {
    ghost use Rattle.std.specs.Prelude.{drop, take};

    ghost left = { drop 1 };

    ghost right = { take 1 };
}

/// Takes in all identities of another seat.
pub(crate) struct Glue;

impl Join<View> for Glue {
    ghost use Rattle.std.specs.Prelude.{◌++◌, []};

    ghost both = { λ v w. w ++ v };

    ghost spent = { [] };
}

/// A new seat, which answers for nobody.
pub(crate) struct Sit;

impl Play<(), View> for Sit {
    ghost use Rattle.std.specs.Prelude.{◌≡◌, []};

    ghost then = { λ step before n now. now ≡ ([], []) };
}

/// The death of the identity's agent.
pub(crate) struct Dies;

impl Play<(), View> for Dies {
    ghost use Rattle.std.specs.Prelude.{◌≡◌, map};
    ghost use Rattle.shm_graph.specs.Runs.{account_died};

    ghost then = { λ step before n now. (now.0 ≡ map account_died before.0) × (now.1 ≡ before.1) };
}

/// The beginning of a client of the identity.
pub(crate) struct ClientBegins;

impl Play<(), View> for ClientBegins {
    ghost use Rattle.std.specs.Prelude.{◌≡◌, map};
    ghost use Rattle.shm_graph.specs.declared.memo.Kind.TheVariants.{Client};
    ghost use Rattle.shm_graph.specs.Runs.{account_entered};

    ghost then = { λ step before n now. (now.0 ≡ map (account_entered Client) before.0) × (now.1 ≡ before.1) };
}

/// The beginning of a recoverer of the identity.
pub(crate) struct RecovererBegins;

impl Play<(), View> for RecovererBegins {
    ghost use Rattle.std.specs.Prelude.{◌≡◌, map};
    ghost use Rattle.shm_graph.specs.declared.memo.Kind.TheVariants.{Recoverer};
    ghost use Rattle.shm_graph.specs.Runs.{account_entered};

    ghost then = { λ step before n now. (now.0 ≡ map (account_entered Recoverer) before.0) × (now.1 ≡ before.1) };
}

/// The status word of the identity is read: nothing changes.
pub(crate) struct ReadsStatus;

impl Play<(), View> for ReadsStatus {
    ghost use Rattle.std.specs.Prelude.{◌≡◌};
    ghost use Rattle.shm_graph.specs.Held.{status_word};
    ghost use Rattle.shm_pool.specs.Rules.{head_account};

    ghost then = { λ step before n now. (now.0 ≡ before.0) × (now.1 ≡ before.1) × (n ≡ status_word (head_account before.0).memo.status) };
}
