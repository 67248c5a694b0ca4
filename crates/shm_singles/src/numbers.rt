//! Operations by their numbers.

ghost use Rattle.std.specs.Prelude.{◌≡◌, ◌<◌, IfSome};
ghost use Rattle.shm_words.specs.Layout.{GeometryFits};
ghost use Rattle.shm_singles.specs.Scripts.{ScriptInRange, begun};
ghost use Rattle.shm_singles.specs.Singles as singles;

use crate::script::{Deed, Point, ScriptState};
use shm_alloc::{Near, Request};
use shm_graph::Me;
use shm_session::{Call, Said};

/// An operation that has no numbers, or none yet.
pub(crate) fn begun(me: Me, deed: Deed, point: Point) -> ScriptState
    requires geometry { GeometryFits me.geometry }
    requires who { me.who < me.geometry.clients }
    ensures state { result ≡ begun me deed point }
    ensures range { ScriptInRange result }
{
    let near = Near {
        segment: 0,
        page: 0,
        index: 0,
    };
    let plain = [0; 8];
    let request = Request {
        refs: 0,
        count: 0,
        plain,
        near,
    };
    ScriptState {
        me,
        deed,
        request,
        root: 0,
        other: 0,
        index: 0,
        peer: me.who,
        author: me.who,
        block: 0,
        to: 0,
        point,
        said: Said::of(16),
    }
}

/// A number that is below a bound; none where it isn't.
fn below(number: u64, bound: u8) -> Option<u8>
    ensures is { result ≡ singles.below number bound }
    ensures below { IfSome result (λ n. n < bound) }
{
    if number < u64::from(bound) {
        Some(number as u8)
    } else {
        None
    }
}

/// The index of a word; none where no block has so many.
fn word(number: u64) -> Option<u8>
    ensures { result ≡ singles.word number }
{
    if number < 256 {
        Some(number as u8)
    } else {
        None
    }
}

/// Another identity of the pool; none where there is no such one.
fn another(me: Me, number: u64) -> Option<u8>
    ensures is { result ≡ singles.another me number }
    ensures below { IfSome result (λ n. n < me.geometry.clients) }
{
    let who = below(number, me.geometry.clients())?;
    if who == me.who { None } else { Some(who) }
}

/// What an allocation is asked for; none where a number is out of its range.
fn request(call: Call) -> Option<Request>
    ensures is { result ≡ singles.request call }
    ensures range { IfSome result (λ q. (q.refs < 17) × (q.count < 9)) }
{
    let refs = below(call.first, 17)?;
    let count = below(call.second, 9)?;
    if call.third >= 4_294_967_296 {
        return None;
    }
    let near = Near {
        segment: (call.third % 65536) as u16,
        page: (call.third / 65536 % 256) as u8,
        index: (call.third / 16_777_216) as u8,
    };
    let plain = call.words;
    Some(Request {
        refs,
        count,
        plain,
        near,
    })
}

/// An operation at a block that a root names.
fn at_root(me: Me, deed: Deed, root: u64, index: u64, other: u64) -> Option<ScriptState>
    requires geometry { GeometryFits me.geometry }
    requires who { me.who < me.geometry.clients }
    ensures is { result ≡ singles.at_root me deed root index other }
    ensures range { IfSome result ScriptInRange }
{
    let mut state = begun(me, deed, Point::Named);
    state.root = below(root, 16)?;
    state.index = word(index)?;
    state.other = below(other, 16)?;
    Some(state)
}

/// The operation of a number; none where there is no such one, or another number is out of its range.
pub(crate) fn script_of(me: Me, call: Call) -> Option<ScriptState>
    requires geometry { GeometryFits me.geometry }
    requires who { me.who < me.geometry.clients }
    ensures is { result ≡ singles.script_of me call }
    ensures range { IfSome result ScriptInRange }
{
    let Call {
        op,
        first,
        second,
        third,
        ..
    } = call;
    match op {
        20 => {
            let mut state = begun(me, Deed::Alloc, Point::Only);
            state.request = request(call)?;
            Some(state)
        }
        21 => at_root(me, Deed::Share, first, 0, 0),
        22 => at_root(me, Deed::Read, first, second, 0),
        23 => at_root(me, Deed::Set, first, second, third),
        24 => at_root(me, Deed::Clear, first, second, 0),
        25 => {
            let mut state = begun(me, Deed::Drop, Point::Only);
            state.root = below(first, 16)?;
            Some(state)
        }
        26 => {
            let peer = another(me, first)?;
            let mut state = at_root(me, Deed::Send, second, 0, 0)?;
            state.peer = peer;
            Some(state)
        }
        27 => {
            let mut state = begun(me, Deed::Receive, Point::Only);
            state.peer = another(me, first)?;
            Some(state)
        }
        28 => Some(begun(me, Deed::Drain, Point::Only)),
        29 => at_root(me, Deed::Follow, first, second, 0),
        _ => None,
    }
}
