//! One word step of any machine on the table, or all until it has answered.

ghost use Rattle.std.specs.Prelude.{◌≡◌, ℕ, ◌+◌, ◌<◌, ◌↔◌, [], ◌∷◌, true, false, if◌then◌else◌, IfSome, IsNone};
ghost use Rattle.shm_words.specs.Layout.{GeometryFits, address, total_of};
ghost use Rattle.shm_words.specs.declared.place.Place.TheVariants as APlace;
ghost use Rattle.shm_graph.specs.declared.memo.Kind.TheVariants.{Client as AClient, Recoverer as ARecoverer};
ghost use Rattle.shm_graph.specs.{declared.memo.Memo.Memo, Agents.{acts, recovers}, Held.status_word};
ghost use Rattle.shm_graph.specs.{ManySteps.{HasRun, MayRun}, Laws.{is_died, is_done, is_some, turn_of}};
ghost use Rattle.shm_graph.specs.{Runs.{MayBegin, account_died, account_entered, Stood}, Whole.{fits_now, gives_now}};
ghost use Rattle.shm_pool.specs.{Rules.{IsOf, IsAlone, alone, AccountTold}, Sites.{MayMake, Made, last_word}};
ghost use Rattle.shm_pool.specs.Calls.{ClientStepped, Drives, TellsLine, acts_still, answer_in, StillFits};
ghost use Rattle.shm_pool.specs.Tokens.{has_left};

use crate::rule::{ClientBegins, Dies, Place, ReadsStatus, RecovererBegins, Say, Top};
use crate::site::OnTable;
use shm_graph::{Life, Machine, Turn};
use std::marker::{Brand, PhantomData};

/// One word step of a machine, which takes what it found; it tells what U says.
#[inline(always)]
fn act_as<U: Say, M: Machine>(top: &Top, place: &mut Place, m: &mut M) -> Turn<M::Answer>
    requires runs { M.control.finished m.old ≡ false }
    requires may { MayMake top.now.key top.now.table_id U.then place.old (M.control.asks m.old) }
    ensures made { Made U.then place.old place.new }
    ensures machine { m.new ≡ M.control.after m.old (last_word place.new) }
    ensures turn { result ≡ turn_of (M.control.turns m.old (last_word place.new)) }
{
    let site = OnTable::<U> {
        top,
        says: PhantomData,
    };
    m.act(&site, place)
}

/// One word step of a machine, which takes what it found.
#[inline(always)]
fn act_place<M: Machine>(top: &Top, place: &mut Place, m: &mut M) -> Turn<M::Answer>
    requires table { (place.old.table_id ≡ top.now.table_id) × (top.now.table_id.words ≡ total_of top.now.key.geometry) × IsAlone place.old }
    requires me { IsOf top.now.key.geometry (alone place.old) M.control m.old }
    requires fits { (r0 : Memo) × fits_now M.control M.fits m.old r0 (alone place.old).memo }
    ensures place { (place.new.table_id ≡ place.old.table_id) × (place.new.id ≡ place.old.id) × IsAlone place.new }
    ensures told { AccountTold M.control (fits_now M.control M.fits) (gives_now M.gives) top.now.key m.old (alone place.old) (last_word place.new) (alone place.new) }
    ensures machine { m.new ≡ M.control.after m.old (last_word place.new) }
    ensures turn { result ≡ turn_of (M.control.turns m.old (last_word place.new)) }
{
    act_as::<Brand, M>(top, place, m)
}

/// The word steps of a machine until it is finished or no life is left; each tells what U says.
#[inline(always)]
fn run_as<U: Say, M: Machine>(
    top: &Top,
    place: &mut Place,
    m: &mut M,
    life: &mut Life,
) -> Turn<M::Answer>
    requires { MayRun M.control (MayMake top.now.key top.now.table_id U.then) (λ before ask after. Made U.then before after) (λ before ask after. last_word after) life.old.left m.old place.old }
    ensures { HasRun M.control (λ before ask after. Made U.then before after) (λ before ask after. last_word after) life.old.left m.old place.old (record { left = life.new.left; machine = m.new; words = place.new; turn = result }) }
{
    let site = OnTable::<U> {
        top,
        says: PhantomData,
    };
    m.run(&site, place, life)
}

/// One step of a machine, unless no life is left.
#[inline(always)]
pub(crate) fn step_place<M: Machine>(
    top: &Top,
    place: &mut Place,
    m: &mut M,
    life: &mut Life,
) -> Turn<M::Answer>
    requires table { (place.old.table_id ≡ top.now.table_id) × (top.now.table_id.words ≡ total_of top.now.key.geometry) × IsAlone place.old }
    requires me { IsOf top.now.key.geometry (alone place.old) M.control m.old }
    requires stood { Stood top.now.key (alone place.old) }
    requires fits { (r0 : Memo) × fits_now M.control M.fits m.old r0 (alone place.old).memo }
    ensures place { (place.new.table_id ≡ place.old.table_id) × (place.new.id ≡ place.old.id) × IsAlone place.new }
    ensures stood { Stood top.now.key (alone place.new) }
    ensures died { is_died result ≡ true ↔ (life.old.left ≡ 0) }
    ensures stays { is_died result ≡ true → (alone place.new ≡ alone place.old) × (m.new ≡ m.old) × (life.new ≡ life.old) }
    ensures turn { 0 < life.old.left → (life.new.left + 1 ≡ life.old.left) × ClientStepped M.control (fits_now M.control M.fits) (gives_now M.gives) m.old (alone place.old) (alone place.new) result m.new }
    ensures acts { acts (alone place.new).memo ≡ acts_still (is_done result) (alone place.new).memo }
    ensures serves { is_died result ≡ false → acts (alone place.new).memo ≡ (if has_left (alone place.new).memo then false else true) }
    ensures who { (alone place.new).who ≡ (alone place.old).who }
    ensures kind { recovers (alone place.new).memo ≡ recovers (alone place.old).memo }
{
    if life.left == 0 {
        return Turn::Died;
    }
    life.left -= 1;
    act_place(top, place, m)
}

/// The answer that many word steps told.
#[inline(always)]
fn answered<A>(turn: Turn<A>) -> Option<A>
    ensures { result ≡ answer_in turn }
{
    match turn {
        Turn::Done(answer) => Some(answer),
        Turn::More | Turn::Died => None,
    }
}

/// The steps of a machine until it is finished; none where no life is left before.
#[inline(always)]
pub(crate) fn run_place<M: Machine>(
    top: &Top,
    place: &mut Place,
    m: &mut M,
    life: &mut Life,
) -> Option<M::Answer>
    requires table { (place.old.table_id ≡ top.now.table_id) × (top.now.table_id.words ≡ total_of top.now.key.geometry) × IsAlone place.old }
    requires me { IsOf top.now.key.geometry (alone place.old) M.control m.old }
    requires stood { Stood top.now.key (alone place.old) }
    requires fits { fits_now M.control M.fits m.old (alone place.old).memo (alone place.old).memo }
    ensures place { (place.new.table_id ≡ place.old.table_id) × (place.new.id ≡ place.old.id) × IsAlone place.new }
    ensures stood { Stood top.now.key (alone place.new) }
    ensures call { Drives M.control M.fits m.old m.new (alone place.old) (alone place.new) (is_some result) life.old.left life.new.left }
    ensures cut { IsNone result → StillFits M.control (fits_now M.control M.fits) m.new (alone place.old).memo (alone place.new).memo }
    ensures told { M.control.fresh m.old ≡ true → IfSome result (λ _. TellsLine (M.control.line m.old) (alone place.old) (alone place.new)) }
    ensures spent { IsNone result → life.new.left ≡ 0 }
    ensures gives { IfSome result (gives_now M.gives m.old (alone place.old).memo (alone place.new).memo) }
    ensures acts { acts (alone place.new).memo ≡ acts_still (is_some result) (alone place.new).memo }
    ensures serves { has_left (alone place.old).memo ≡ false → acts (alone place.new).memo ≡ (if has_left (alone place.new).memo then false else true) }
    ensures there { has_left (alone place.old).memo ≡ false → IsNone result → has_left (alone place.new).memo ≡ false }
    ensures who { (alone place.new).who ≡ (alone place.old).who }
    ensures kind { recovers (alone place.new).memo ≡ recovers (alone place.old).memo }
{
    // The first word step begins the machine's call anew; what the others tell is told by that call.
    match step_place(top, place, m, life) {
        Turn::More => answered(run_as::<Brand, M>(top, place, m, life)),
        Turn::Done(answer) => Some(answer),
        Turn::Died => None,
    }
}

/// Notes that the agent is dead, in a load that no life pays for.
pub(crate) fn note_death(top: &Top, place: &mut Place)
    requires table { (place.old.table_id ≡ top.now.table_id) × (top.now.table_id.words ≡ total_of top.now.key.geometry) × IsAlone place.old }
    requires acts { ((alone place.old).who < top.now.key.geometry.clients) × (acts (alone place.old).memo ≡ true) }
    ensures place { (place.new.table_id ≡ place.old.table_id) × (place.new.id ≡ place.old.id) × IsAlone place.new }
    ensures stood { Stood top.now.key (alone place.old) → Stood top.now.key (alone place.new) }
    ensures account { alone place.new ≡ account_died (alone place.old) }
{
    top.load::<Dies>(place, 0);
}

/// Notes that a client begins.
pub(crate) fn note_client(top: &Top, place: &mut Place)
    requires table { (place.old.table_id ≡ top.now.table_id) × (top.now.table_id.words ≡ total_of top.now.key.geometry) × IsAlone place.old }
    requires rests { ((alone place.old).who < top.now.key.geometry.clients) × (acts (alone place.old).memo ≡ false) × MayBegin AClient (alone place.old).memo }
    ensures place { (place.new.table_id ≡ place.old.table_id) × (place.new.id ≡ place.old.id) × IsAlone place.new }
    ensures stood { Stood top.now.key (alone place.old) → Stood top.now.key (alone place.new) }
    ensures account { alone place.new ≡ account_entered AClient (alone place.old) }
{
    top.load::<ClientBegins>(place, 0);
}

/// Notes that a recoverer begins.
pub(crate) fn note_recoverer(top: &Top, place: &mut Place)
    requires table { (place.old.table_id ≡ top.now.table_id) × (top.now.table_id.words ≡ total_of top.now.key.geometry) × IsAlone place.old }
    requires rests { ((alone place.old).who < top.now.key.geometry.clients) × (acts (alone place.old).memo ≡ false) × MayBegin ARecoverer (alone place.old).memo }
    ensures place { (place.new.table_id ≡ place.old.table_id) × (place.new.id ≡ place.old.id) × IsAlone place.new }
    ensures stood { Stood top.now.key (alone place.old) → Stood top.now.key (alone place.new) }
    ensures account { alone place.new ≡ account_entered ARecoverer (alone place.old) }
{
    top.load::<RecovererBegins>(place, 0);
}

/// The status word of the identity, in a load that no life pays for. It stands at `at`.
pub(crate) fn load_status(top: &Top, place: &mut Place, at: u32) -> u64
    requires table { (place.old.table_id ≡ top.now.table_id) × (top.now.table_id.words ≡ total_of top.now.key.geometry) × IsAlone place.old }
    requires fits { GeometryFits top.now.key.geometry }
    requires at { ((alone place.old).who < top.now.key.geometry.clients) × (at ≡ address top.now.key.geometry (APlace.Status (alone place.old).who)) }
    ensures place { (place.new.table_id ≡ place.old.table_id) × (place.new.id ≡ place.old.id) × IsAlone place.new }
    ensures account { alone place.new ≡ alone place.old }
    ensures is { result ≡ status_word (alone place.old).memo.status }
{
    top.load::<ReadsStatus>(place, at as usize)
}
