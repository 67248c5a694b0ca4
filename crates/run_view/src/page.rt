//! The replay of a trace as a table, as lines of word steps and as a picture.

ghost use Rattle.std.specs.Prelude.{◌≡◌, Err, IfOk, List, None, OnOk, Some, [], ℕ};
ghost use Rattle.shm_io.specs.{Faults.Rose, Writing.Appends};
ghost use Rattle.shm_view.specs.{Svg.picture_text, declared.svg.Picture.Picture as APicture};
ghost use Rattle.run_view.specs.Replays.{IsStepsText};
ghost use Rattle.run_view.specs.declared.pipe.Stop.TheVariants as stop;

use crate::draw::draw;
use crate::events::Events;
use crate::outgoing::{Out, ROOM};
use crate::pipe::{Begun, Stop, Writer};
use crate::spots::Classes;
use crate::steps::Steps;
use crate::window::Window;
use crate::words::Words;
use shm_io::Sink;
use shm_script::Trace;
use shm_view::svg_text;
use shm_watch::tell;
use std::alloc::{AllocError, Global};
use std::marker::Brand;

/// Writes the pieces of work that a trace's replay shows in these turns, as a table: a row for each join, command, leaving and recovery, as they end. It says at
/// which of its agent's word steps each one begins, decides and ends, and where its agent died. After a write that failed the sink holds a front of the table.
pub fn run_steps<K: Sink>(
    alloc: Global,
    trace: &Trace,
    window: Window,
    sink: &mut K,
) -> Result<(), Stop>
    ensures written { OnOk result ((text : List ℕ) × IsStepsText trace.now window text × Appends (K.held sink.old) (K.held sink.new) text) }
    ensures memory { result ≡ Err stop.Memory → sink.new ≡ sink.old }
    ensures fault { result ≡ Err stop.Fault → Rose (K.faults sink.old) (K.faults sink.new) }
{
    let writer = Writer { sink, stop: None };
    let writer = steps_by::<K, Brand>(alloc, trace, window, writer);
    match writer.stop {
        None => Ok(()),
        Some(stop) => Err(stop),
    }
}

// whatever the sink held before
fn steps_by<'a, K: Sink, B: Begun<K>>(
    alloc: Global,
    trace: &Trace,
    window: Window,
    writer: Writer<'a, K>,
) -> Writer<'a, K>
    requires sink { B.sink ≡ Some writer.sink }
    requires window { B.window ≡ window }
    requires fresh { writer.stop ≡ None }
    ensures name { result.sink.ghost_name ≡ writer.entry.sink.ghost_name }
    ensures written { result.stop ≡ None → (text : List ℕ) × IsStepsText trace.now window text × Appends (K.held writer.entry.sink.now) (K.held result.sink.now) text }
    ensures memory { result.stop ≡ Some stop.Memory → result.sink.now ≡ writer.entry.sink.now }
    ensures fault { result.stop ≡ Some stop.Fault → Rose (K.faults writer.entry.sink.now) (K.faults result.sink.now) }
{
    let kept = match Vec::with_capacity(alloc, ROOM) {
        Ok(kept) => kept,
        Err(_) => return short(writer),
    };
    let steps = Steps {
        out: Out::<K, B>::new(writer, kept),
        window,
        turns: 0,
    };
    match tell(alloc, trace, steps) {
        Ok(steps) => steps.end(),
        Err(steps) => {
            let Steps { out, .. } = steps;
            short(out.writer())
        }
    }
}

/// Writes the word steps and deaths of these turns of a trace's replay, a line each, with the names of their words. After a write that failed the sink holds a
/// front of the lines.
pub fn run_words<K: Sink>(
    alloc: Global,
    trace: &Trace,
    window: Window,
    sink: &mut K,
) -> Result<(), Stop>
    ensures written { OnOk result ((text : List ℕ) × Appends (K.held sink.old) (K.held sink.new) text) }
    ensures memory { result ≡ Err stop.Memory → sink.new ≡ sink.old }
    ensures fault { result ≡ Err stop.Fault → Rose (K.faults sink.old) (K.faults sink.new) }
{
    let writer = Writer { sink, stop: None };
    let writer = words_by::<K, Brand>(alloc, trace, window, writer);
    match writer.stop {
        None => Ok(()),
        Some(stop) => Err(stop),
    }
}

// for want of memory nothing was written
fn short<'a, K: Sink>(writer: Writer<'a, K>) -> Writer<'a, K>
    ensures sink { result.sink ≡ writer.entry.sink }
    ensures stop { result.stop ≡ Some stop.Memory }
{
    let Writer { sink, .. } = writer;
    Writer {
        sink,
        stop: Some(Stop::Memory),
    }
}

// memory for the classes of pages and for what is kept of the lines
fn room(alloc: Global, trace: &Trace) -> Result<(Classes, Vec<u8>), AllocError>
    ensures { IfOk result (λ r. r.1.items ≡ []) }
{
    Ok((
        Classes::new(alloc, trace)?,
        Vec::with_capacity(alloc, ROOM)?,
    ))
}

// whatever the sink held before
fn words_by<'a, 't, K: Sink, B: Begun<K>>(
    alloc: Global,
    trace: &'t Trace,
    window: Window,
    writer: Writer<'a, K>,
) -> Writer<'a, K>
    requires sink { B.sink ≡ Some writer.sink }
    requires fresh { writer.stop ≡ None }
    ensures name { result.sink.ghost_name ≡ writer.entry.sink.ghost_name }
    ensures written { result.stop ≡ None → (text : List ℕ) × Appends (K.held writer.entry.sink.now) (K.held result.sink.now) text }
    ensures memory { result.stop ≡ Some stop.Memory → result.sink.now ≡ writer.entry.sink.now }
    ensures fault { result.stop ≡ Some stop.Fault → Rose (K.faults writer.entry.sink.now) (K.faults result.sink.now) }
{
    let (classes, kept) = match room(alloc, trace) {
        Ok(room) => room,
        Err(_) => return short(writer),
    };
    let words = Words {
        out: Out::<K, B>::new(writer, kept),
        trace,
        classes,
        window,
        turns: 0,
    };
    match tell(alloc, trace, words) {
        Ok(words) => {
            let mut words = words;
            words.end();
            let Words { out, .. } = words;
            out.end()
        }
        Err(words) => {
            let Words { out, .. } = words;
            short(out.writer())
        }
    }
}

/// These turns of a trace's replay as a picture, 2,100 of them at most.
pub fn run_picture(alloc: Global, trace: &Trace, window: Window) -> Result<Vec<u8>, AllocError>
    ensures { IfOk result (λ text. (p : APicture) × (text.items ≡ picture_text p)) }
{
    let events = match tell(alloc, trace, Events::new(alloc, trace, window)) {
        Ok(events) if !events.is_short => events,
        _ => return Err(AllocError),
    };
    let picture = draw(alloc, &events)?;
    Ok(svg_text(alloc, &picture)?)
}
