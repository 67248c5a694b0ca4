//! The program over a source and a sink.

ghost use Rattle.std.specs.Prelude.{◌≡◌, ◌≢◌, Err, IfErr, IfOk, None, Ok, OnOk};
ghost use Rattle.shm_audit.specs.{Faults.image_fault_of, Stops.StopsBy};
ghost use Rattle.shm_io.specs.{Faults.Rose, Reading.TakesFront, Writing.Appends};
ghost use Rattle.shm_script.specs.{Drafts.IsFault, Faults.fault_of};
ghost use Rattle.run_view.specs.declared.pipe.Stop.TheVariants as stop;
ghost use Rattle.view_program.specs.Calls.{AreFaultless, AreFiguresWritten, AskForFigures, HasImageFault, HasTraceFault, HaveFault, IsAnswer, IsFaultless, IsImageWritten, IsRead, IsRefused, IsSent, IsShown, IsShownReplay, IsShownTrace, IsStatus, IsStop, IsTold, IsWritten, ReadsImage, ReadsImages, ReadsTrace, ShowsImage};

use crate::job::{ImageForm, Job, TraceForm, job_of};
use crate::misuse::misuse_text;
use crate::said::{first_refusal, image_refusal, second_refusal, trace_refusal};
use run_view::{Stop, Window, run_picture, run_steps, run_words};
use shm_audit::AuditStop;
use shm_io::{ReadStop, Sink, Source, read_to_limit, write_all};
use shm_script::{ParseStop, Trace, parse};
use shm_view::{
    ChangesStop, changes_picture, image_stats, pool_picture, split_images, stats_json, stats_text,
};
use std::alloc::{AllocError, Global};

/// One byte more than the image of the largest pool has, which is of format 2.
const IMAGE_LIMIT: usize = 132_185_377;

/// One byte more than two of these have.
const IMAGES_LIMIT: usize = 264_370_753;

/// One byte more than the longest trace has.
const TRACE_LIMIT: usize = 1_048_577;

/// What a call came to.
#[derive(Drop)]
pub struct Outcome {
    /// 0 done, 2 words not accepted, 3 input refused, 4 a read failed, 5 a write failed, 6 want of memory.
    pub status: u8,
    /// What is to be said on standard error. It is empty where all was done, and where there is no memory for it.
    pub said: String,
}

/// Does what the words say: it reads an image, two images or a trace to its end, and writes what is shown of it. The figures of an image, and a picture, are made whole
/// before they are written.
///
/// At most 132,185,377 bytes of an image are read, 264,370,753 of two images, and 1,048,577 of a trace. Where the words aren't accepted nothing is read, and where the status is neither 0
/// nor 5 nothing is written. After a write that failed the sink holds a front of the text.
pub fn view<S: Source, K: Sink>(
    alloc: Global,
    words: &[String],
    source: &mut S,
    sink: &mut K,
) -> Outcome
    ensures status { IsStatus result.status }
    ensures shown { result.status ≡ 0 → IsShown (S.left source.old) (S.left source.new) (K.held sink.old) (K.held sink.new) }
    ensures figures { result.status ≡ 0 → AskForFigures words.now → AreFiguresWritten (S.left source.old) (S.left source.new) (K.held sink.old) (K.held sink.new) }
    ensures refused { result.status ≡ 3 → IsRefused (S.left source.old) (S.left source.new) }
    ensures unread { result.status ≡ 2 → source.new ≡ source.old }
    ensures unwritten { result.status ≢ 0 → result.status ≢ 5 → sink.new ≡ sink.old }
    ensures read_fault { result.status ≡ 4 → Rose (S.faults source.old) (S.faults source.new) }
    ensures write_fault { result.status ≡ 5 → Rose (K.faults sink.old) (K.faults sink.new) }
{
    match job_of(alloc, words) {
        Ok(Some(Job::Image(form))) => view_image(alloc, form, source, sink),
        Ok(Some(Job::Changes)) => view_changes(alloc, source, sink),
        Ok(Some(Job::Trace(form, window))) => view_trace(alloc, form, window, source, sink),
        Ok(None) => Outcome::new(alloc, 2, misuse_text(alloc, words)),
        Err(_) => stopped(alloc, 6),
    }
}

/// Reads an image, and writes what is shown of it.
fn view_image<S: Source, K: Sink>(
    alloc: Global,
    form: ImageForm,
    source: &mut S,
    sink: &mut K,
) -> Outcome
    ensures status { IsRead result.status }
    ensures shown { result.status ≡ 0 → ReadsImage (S.left source.old) (S.left source.new) IsFaultless × IsWritten (K.held sink.old) (K.held sink.new) }
    ensures written { result.status ≡ 0 → ReadsImage (S.left source.old) (S.left source.new) (λ image. IsImageWritten form image (K.held sink.old) (K.held sink.new)) }
    ensures refused { result.status ≡ 3 → ReadsImage (S.left source.old) (S.left source.new) HasImageFault }
    ensures unwritten { result.status ≢ 0 → result.status ≢ 5 → sink.new ≡ sink.old }
    ensures read_fault { result.status ≡ 4 → Rose (S.faults source.old) (S.faults source.new) }
    ensures write_fault { result.status ≡ 5 → Rose (K.faults sink.old) (K.faults sink.new) }
{
    match read_input(alloc, source, IMAGE_LIMIT) {
        Ok(image) => show_image(alloc, form, image.as_slice(), sink),
        Err(status) => stopped(alloc, status),
    }
}

/// Reads two images, one behind the other, and draws what changed between them.
fn view_changes<S: Source, K: Sink>(alloc: Global, source: &mut S, sink: &mut K) -> Outcome
    ensures status { IsRead result.status }
    ensures shown { result.status ≡ 0 → ReadsImages (S.left source.old) (S.left source.new) AreFaultless × IsWritten (K.held sink.old) (K.held sink.new) }
    ensures refused { result.status ≡ 3 → ReadsImages (S.left source.old) (S.left source.new) HaveFault }
    ensures unwritten { result.status ≢ 0 → result.status ≢ 5 → sink.new ≡ sink.old }
    ensures read_fault { result.status ≡ 4 → Rose (S.faults source.old) (S.faults source.new) }
    ensures write_fault { result.status ≡ 5 → Rose (K.faults sink.old) (K.faults sink.new) }
{
    match read_input(alloc, source, IMAGES_LIMIT) {
        Ok(images) => show_changes(alloc, images.as_slice(), sink),
        Err(status) => stopped(alloc, status),
    }
}

/// Reads a trace, and writes what is shown of its replay.
fn view_trace<S: Source, K: Sink>(
    alloc: Global,
    form: TraceForm,
    window: Window,
    source: &mut S,
    sink: &mut K,
) -> Outcome
    ensures status { IsRead result.status }
    ensures shown { result.status ≡ 0 → ReadsTrace (S.left source.old) (S.left source.new) (IsShownTrace form window (K.held sink.old) (K.held sink.new)) }
    ensures refused { result.status ≡ 3 → ReadsTrace (S.left source.old) (S.left source.new) HasTraceFault }
    ensures unwritten { result.status ≢ 0 → result.status ≢ 5 → sink.new ≡ sink.old }
    ensures read_fault { result.status ≡ 4 → Rose (S.faults source.old) (S.faults source.new) }
    ensures write_fault { result.status ≡ 5 → Rose (K.faults sink.old) (K.faults sink.new) }
{
    match read_input(alloc, source, TRACE_LIMIT) {
        Ok(trace) => show_trace(alloc, form, window, trace.as_slice(), sink),
        Err(status) => stopped(alloc, status),
    }
}

/// Reads an input. Where a read fails it answers with the status 4, and where memory is wanting with 6.
fn read_input<S: Source>(alloc: Global, source: &mut S, limit: usize) -> Result<Vec<u8>, u8>
    ensures read { IfOk result (λ input. TakesFront (S.left source.old) (S.left source.new) limit input.items) }
    ensures stop { IfErr result (IsStop (S.faults source.old) (S.faults source.new)) }
{
    match read_to_limit(alloc, source, limit) {
        Ok(input) => Ok(input),
        Err(ReadStop::Fault(_)) => Err(4),
        Err(ReadStop::Memory(_)) => Err(6),
    }
}

/// Writes what is shown of an image.
fn show_image<K: Sink>(alloc: Global, form: ImageForm, image: &[u8], sink: &mut K) -> Outcome
    ensures status { IsAnswer result.status }
    ensures shown { result.status ≡ 0 → IsFaultless image.now × IsWritten (K.held sink.old) (K.held sink.new) }
    ensures written { result.status ≡ 0 → IsImageWritten form image.now (K.held sink.old) (K.held sink.new) }
    ensures refused { result.status ≡ 3 → HasImageFault image.now }
    ensures unwritten { result.status ≢ 0 → result.status ≢ 5 → sink.new ≡ sink.old }
    ensures fault { result.status ≡ 5 → Rose (K.faults sink.old) (K.faults sink.new) }
{
    match image_text(alloc, form, image) {
        Ok(text) => write(alloc, text.as_slice(), sink),
        Err(AuditStop::Fault(fault)) => {
            Outcome::new(alloc, 3, image_refusal(alloc, image, fault))
        }
        Err(AuditStop::Memory(_)) => stopped(alloc, 6),
    }
}

/// Draws what changed between two images, one behind the other.
fn show_changes<K: Sink>(alloc: Global, images: &[u8], sink: &mut K) -> Outcome
    ensures status { IsAnswer result.status }
    ensures shown { result.status ≡ 0 → AreFaultless images.now × IsWritten (K.held sink.old) (K.held sink.new) }
    ensures refused { result.status ≡ 3 → HaveFault images.now }
    ensures unwritten { result.status ≢ 0 → result.status ≢ 5 → sink.new ≡ sink.old }
    ensures fault { result.status ≡ 5 → Rose (K.faults sink.old) (K.faults sink.new) }
{
    let (before, after) = split_images(images);
    match changes_picture(alloc, before, after) {
        Ok(text) => write(alloc, text.as_slice(), sink),
        Err(ChangesStop::Before(fault)) => {
            Outcome::new(alloc, 3, first_refusal(alloc, before, fault))
        }
        Err(ChangesStop::After(fault)) => {
            Outcome::new(alloc, 3, second_refusal(alloc, after, fault))
        }
        Err(ChangesStop::Memory(_)) => stopped(alloc, 6),
    }
}

/// Writes what is shown of a trace's replay.
fn show_trace<K: Sink>(
    alloc: Global,
    form: TraceForm,
    window: Window,
    trace: &[u8],
    sink: &mut K,
) -> Outcome
    ensures status { IsAnswer result.status }
    ensures shown { result.status ≡ 0 → IsShownTrace form window (K.held sink.old) (K.held sink.new) trace.now }
    ensures refused { result.status ≡ 3 → HasTraceFault trace.now }
    ensures unwritten { result.status ≢ 0 → result.status ≢ 5 → sink.new ≡ sink.old }
    ensures fault { result.status ≡ 5 → Rose (K.faults sink.old) (K.faults sink.new) }
{
    match parse(alloc, trace) {
        Ok(trace) => show_replay(alloc, form, window, &trace, sink),
        Err(ParseStop::Fault(fault)) => {
            Outcome::new(alloc, 3, trace_refusal(alloc, trace, fault))
        }
        Err(ParseStop::Memory(_)) => stopped(alloc, 6),
    }
}

/// Writes a whole text.
fn write<K: Sink>(alloc: Global, text: &[u8], sink: &mut K) -> Outcome
    ensures status { IsSent result.status }
    ensures written { result.status ≡ 0 → IsWritten (K.held sink.old) (K.held sink.new) }
    ensures text { result.status ≡ 0 → Appends (K.held sink.old) (K.held sink.new) text.now }
    ensures fault { result.status ≡ 5 → Rose (K.faults sink.old) (K.faults sink.new) }
{
    match write_all(sink, text) {
        Ok(()) => Outcome::new(alloc, 0, Ok(String::new(alloc))),
        Err(_) => stopped(alloc, 5),
    }
}

impl Outcome {
    /// With this status, and what is to be said, where there was memory for it.
    fn new(alloc: Global, status: u8, said: Result<String, AllocError>) -> Outcome
        ensures { result.status ≡ status }
    {
        let said = match said {
            Ok(said) => said,
            Err(_) => String::new(alloc),
        };
        Outcome { status, said }
    }
}

/// What a call came to that stopped for another reason than its words or its input.
fn stopped(alloc: Global, status: u8) -> Outcome
    ensures { result.status ≡ status }
{
    let why = match status {
        4 => "standard input can't be read",
        5 => "standard output can't be written",
        _ => "there isn't enough memory",
    };
    Outcome::new(alloc, status, format!(in alloc; "cxlview: {why}\n"))
}

/// What is shown of an image.
fn image_text(alloc: Global, form: ImageForm, image: &[u8]) -> Result<Vec<u8>, AuditStop>
    ensures ok { OnOk result (image_fault_of image.now ≡ None) }
    ensures shown { IfOk result (λ text. ShowsImage form image.now text.items) }
    ensures err { IfErr result (StopsBy (image_fault_of image.now)) }
{
    match form {
        ImageForm::Text => Ok(stats_text(alloc, &image_stats(alloc, image)?)?),
        ImageForm::Json => Ok(stats_json(alloc, &image_stats(alloc, image)?)?),
        ImageForm::Pool(client) => pool_picture(alloc, image, client),
    }
}

/// Writes what is shown of the replay of a trace that has no fault.
fn show_replay<K: Sink>(
    alloc: Global,
    form: TraceForm,
    window: Window,
    trace: &Trace,
    sink: &mut K,
) -> Outcome
    ensures status { IsTold result.status }
    ensures written { result.status ≡ 0 → IsShownReplay form window trace.now (K.held sink.old) (K.held sink.new) }
    ensures unwritten { result.status ≡ 6 → sink.new ≡ sink.old }
    ensures fault { result.status ≡ 5 → Rose (K.faults sink.old) (K.faults sink.new) }
{
    match form {
        TraceForm::Steps => told(alloc, run_steps(alloc, trace, window, sink)),
        TraceForm::Words => told(alloc, run_words(alloc, trace, window, sink)),
        TraceForm::Run => match run_picture(alloc, trace, window) {
            Ok(text) => write(alloc, text.as_slice(), sink),
            Err(_) => stopped(alloc, 6),
        },
    }
}

/// What a call came to whose text was written as it came.
fn told(alloc: Global, written: Result<(), Stop>) -> Outcome
    ensures status { IsTold result.status }
    ensures done { result.status ≡ 0 → written ≡ Ok tt }
    ensures fault { result.status ≡ 5 → written ≡ Err stop.Fault }
    ensures memory { result.status ≡ 6 → written ≡ Err stop.Memory }
{
    match written {
        Ok(()) => Outcome::new(alloc, 0, Ok(String::new(alloc))),
        Err(Stop::Fault) => stopped(alloc, 5),
        Err(Stop::Memory) => stopped(alloc, 6),
    }
}
