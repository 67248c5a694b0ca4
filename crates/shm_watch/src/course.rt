//! The course of a run: what each identity's agents are at, turn by turn.

ghost use Rattle.std.specs.Prelude.{◌≡◌, Some, IfOk, MatchOption, slice_get};
ghost use Rattle.shm_watch.specs.Columns.{IsAt, IsNowhere, course_after, first_course, span_in, who_of};

use crate::lane::Lane;
use crate::shown::Shown;
use crate::span::Span;
use shm_agents::piece::Piece;
use shm_graph::Me;
use shm_replay::replaying::geometry_of;
use shm_script::Trace;
use std::alloc::{AllocError, Global};
use std::marker::Model;

/// What the agents of a trace's scripts are at, after some turns of its replay.
#[derive(Drop)]
pub(crate) struct Course<'a, P: Piece> {
    /// Those of each script, in the order of the scripts.
    lanes: Vec<Lane<'a, P>>,
    /// How many turns there were.
    turns: u64,
}

impl<'a, P: Piece> Model for Course<'a, P> {
    ghost use Rattle.shm_watch.specs.Columns.{Coursed};

    ghost Value = { Coursed };

    ghost view = { λ x. record { lanes = x.lanes.items; turns = x.turns } };
}

// which of these is the identity's
fn place_of<P: Piece>(lanes: &[Lane<'_, P>], who: u8) -> Option<usize>
    ensures { MatchOption result (IsNowhere lanes.now who) (IsAt lanes.now who) }
{
    for (at, lane) in lanes.iter().enumerate() {
        if lane.who() == who {
            return Some(at);
        }
    }
    None
}

// whose turn it is
fn who_of(shown: Shown) -> u8
    ensures { result ≡ who_of shown }
{
    match shown {
        Shown::Word { who, .. } | Shown::Death { who } => who,
    }
}

impl<'a, P: Piece> Course<'a, P> {
    /// Before the first turn.
    pub fn new(alloc: Global, trace: &'a Trace) -> Result<Course<'a, P>, AllocError>
        ensures { IfOk result (λ c. c ≡ first_course trace.now) }
    {
        trace.in_grammar();
        let geometry = geometry_of(trace);
        let mut lanes = Vec::with_capacity(alloc, trace.scripts.len())?;
        for script in &trace.scripts {
            let me = Me::new(geometry, script.client);
            lanes.push_reserved(Lane::new(me, script.lines.as_slice()));
        }
        Ok(Course { lanes, turns: 0 })
    }

    /// One turn more. It tells what the agents of its identity are at.
    pub fn turn(&mut self, shown: Shown) -> Option<Span>
        ensures course { self.new ≡ course_after self.old shown }
        ensures span { result ≡ span_in self.old shown }
    {
        self.turns = self.turns.saturating_add(1);
        let at = place_of(self.lanes.as_slice(), who_of(shown))?;
        let lane = &mut self.lanes[at];
        Some(lane.turn(self.turns, shown))
    }
}
