//! The replay of a trace, told turn by turn with what each one shows of the piece of work that it is of.

ghost use Rattle.std.specs.Prelude.{◌≡◌, List, [], ◌∷◌, ◌++◌, IfOk, IfErr, false};
ghost use Rattle.shm_plain.specs.Pools.{Pool as APool, first_pool};
ghost use Rattle.shm_script.specs.Values.{Traced};
ghost use Rattle.shm_replay.specs.{Orders.IsGivenAll, Replays.start_of};
ghost use Rattle.shm_watch.specs.declared.shown.Shown.{Shown as AShown};
ghost use Rattle.shm_watch.specs.Turns.{shown_of};
ghost use Rattle.shm_watch.specs.declared.span.Span.{Span as ASpan};
ghost use Rattle.shm_watch.specs.Columns.{course_by, first_course, told_by, told_of};

use crate::course::Course;
use crate::shown::{Shown, Watcher};
use crate::span::Span;
use crate::watching::watch;
use shm_agents::machine::WorkMachine;
use shm_agents::piece::Piece;
use shm_script::Trace;
use std::alloc::Global;
use std::marker::{Brand, PhantomData};

/// Who is told the turns of a replay, one after the other.
pub trait Listener: Drop {
    /// What it is after it has been told these turns, the first one first.
    ghost told: { Self → List (AShown × ASpan) → Type 0 };

    /// It is told the next turn, and what it shows of the piece of work that it is of.
    fn tell(&mut self, shown: Shown, span: Span)
        ensures { (before : List (AShown × ASpan)) → told self.old before → told self.new (before ++ (shown, span) ∷ []) };
}

/// The trace that is replayed.
pub trait Of {
    ghost trace: { Traced };
}

impl Of for Brand {
    ghost trace = { record { clients = 1; segments = 1; wide = false; order = []; scripts = [] } };
}

/// Who follows the course of a trace's replay, and tells it.
#[derive(Drop)]
struct Telling<'a, P: Piece, L: Listener, T: Of> {
    course: Course<'a, P>,
    listener: L,
    of: PhantomData<T>,
}

impl<'a, P: Piece, L: Listener, T: Of> Watcher for Telling<'a, P, L, T> {
    ghost saw = { λ x turns. (x.course ≡ course_by (first_course T.trace) turns) × L.told x.listener (told_by (first_course T.trace) turns) };

    fn see(&mut self, shown: Shown) {
        match self.course.turn(shown) {
            Some(span) => self.listener.tell(shown, span),
            None => {}
        }
    }
}

// whatever the work is made of
fn tell_by<P: Piece, L: Listener, T: Of>(alloc: Global, trace: &Trace, listener: L) -> Result<L, L>
    requires of { T.trace ≡ trace.now }
    requires untold { L.told listener [] }
    ensures told { IfOk result (λ l. (p : APool) × IsGivenAll trace.now (first_pool (start_of trace.now)) p × L.told l (told_of trace.now (shown_of p.turns))) }
    ensures short { IfErr result (λ l. l ≡ listener) }
{
    let course = match Course::<P>::new(alloc, trace) {
        Ok(course) => course,
        Err(_) => return Err(listener),
    };
    let telling = Telling {
        course,
        listener,
        of: PhantomData::<T>,
    };
    match watch(alloc, trace, telling) {
        Ok(telling) => Ok(telling.listener),
        Err(telling) => Err(telling.listener),
    }
}

/// Tells the turns of a trace's replay, each with what it shows of the piece of work that it is of. If memory is wanting, the listener is handed back as it
/// was.
pub fn tell<L: Listener>(alloc: Global, trace: &Trace, listener: L) -> Result<L, L>
    requires { L.told listener [] }
    ensures told { IfOk result (λ l. (p : APool) × IsGivenAll trace.now (first_pool (start_of trace.now)) p × L.told l (told_of trace.now (shown_of p.turns))) }
    ensures short { IfErr result (λ l. l ≡ listener) }
{
    tell_by::<WorkMachine, L, Brand>(alloc, trace, listener)
}
