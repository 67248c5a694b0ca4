//! A trace that is read line by line.

ghost use Rattle.std.specs.Prelude.{◌≡◌, ◌∷◌, [], ℕ, List, ◌<◌, ◌≤◌, ◌+◌, ◌^◌, ◌==◌, Ok, None, IfErr, IfOk, IfSome, OnOk, MatchOption, MatchResult, count_by, length};
ghost use Rattle.std.specs.List.{slice_split};
ghost use Rattle.shm_script.specs.{Ranges.{IsTrace, IsTraceText}, Text.text_of, Values.Traced};
ghost use Rattle.shm_script.specs.Faults.{FitCommand, fault_of, judged, limit_fault, may_end};
ghost use Rattle.shm_script.specs.Drafts.{Drafted, IsFault, IsMemory, Stops, StopsAt, all_scripts, draft_after, draft_none, drafted_line, fit_seen, reading, trace_of, traced};
ghost use Rattle.shm_script.specs.Shapes.{shape_of};

use crate::commands::next_command;
use crate::fault::{ParseStop, TraceFault, TraceKind};
use crate::fit::{FitLine, TracePlace};
use crate::judge::{fit_line, is_second, may_stand, takes_commands, too_many};
use crate::line::{Item, Line};
use crate::line_shape::line_shape;
use crate::pieces::cut;
use crate::raw::RawLine;
use crate::trace::{Script, Trace};
use std::alloc::{AllocError, Global};
use std::marker::Model;
use std::mem;

/// The most bytes of a trace.
const MOST_BYTES: usize = 1_048_576;

/// What was read: the scripts that are whole, and the client, the lives and the commands of the one that goes on.
#[derive(Drop)]
struct Draft {
    place: TracePlace,
    clients: u8,
    segments: u16,
    wide: bool,
    order: Vec<Item>,
    taken: Vec<u8>,
    scripts: Vec<Script>,
    me: u8,
    life: Vec<u64>,
    lines: Vec<Line>,
}

impl Model for Draft {
    ghost use Rattle.shm_script.specs.Drafts.{Drafted};

    ghost Value = { Drafted };

    ghost view = { λ d. record { seen = record { place = d.place; clients = d.clients; me = d.me; taken = d.taken.items }; segments = d.segments; wide = d.wide; order = d.order.items; scripts = d.scripts.items; life = d.life.items; lines = d.lines.items } };
}

/// The fault of this kind at a line.
fn fault(line: u32, kind: TraceKind) -> ParseStop
    ensures { result ≡ ParseStop.Fault (record { line = line; kind = kind }) }
{
    ParseStop::Fault(TraceFault { line, kind })
}

impl Draft {
    /// Nothing is read.
    fn new(alloc: Global) -> Draft
        ensures { result ≡ draft_none }
    {
        Draft {
            place: TracePlace::Start,
            clients: 0,
            segments: 0,
            wide: false,
            order: Vec::new(alloc),
            taken: Vec::new(alloc),
            scripts: Vec::new(alloc),
            me: 0,
            life: Vec::new(alloc),
            lines: Vec::new(alloc),
        }
    }

    /// Reads one more line, the `at`-th.
    fn take(&mut self, alloc: Global, at: u32, line: &[u8]) -> Result<(), ParseStop>
        ensures ok { OnOk result (drafted_line self.old line.now ≡ Ok self.new) }
        ensures err { IfErr result (λ e. StopsAt at e (drafted_line self.old line.now)) }
    {
        let fit = self.judge(alloc, at, line)?;
        self.add(alloc, fit)?;
        Ok(())
    }

    /// The line with its numbers in range, where it has no fault.
    fn judge(&self, alloc: Global, at: u32, line: &[u8]) -> Result<FitLine, ParseStop>
        ensures { MatchResult result (λ f. judged self.now.seen (shape_of line.now) ≡ Ok (fit_seen f)) (λ e. StopsAt at e (judged self.now.seen (shape_of line.now))) }
    {
        let Some(raw) = line_shape(alloc, line)? else {
            return Err(fault(at, TraceKind::Syntax));
        };
        if !may_stand(self.place, &raw) {
            return Err(fault(at, TraceKind::Syntax));
        }
        if too_many(&raw) {
            return Err(fault(at, TraceKind::Limit));
        }
        let Some(fit) = fit_line(alloc, self.clients, self.me, raw)? else {
            return Err(fault(at, TraceKind::Range));
        };
        if is_second(&self.taken, &fit) {
            return Err(fault(at, TraceKind::Twice));
        }
        Ok(fit)
    }

    /// Adds a line.
    fn add(&mut self, alloc: Global, line: FitLine) -> Result<(), AllocError>
        ensures { OnOk result (self.new ≡ draft_after self.old (fit_seen line)) }
    {
        match line {
            FitLine::Pool(wide, clients, segments) => {
                self.clients = clients;
                self.segments = segments;
                self.wide = wide;
                self.place = TracePlace::Pool;
            }
            FitLine::Order(items) => {
                self.order = items;
                self.place = TracePlace::Order;
            }
            FitLine::Client(client) => {
                self.end_script(alloc)?;
                self.taken.push(client)?;
                self.me = client;
                self.place = TracePlace::Client;
            }
            FitLine::Life(life) => {
                self.life = life;
                self.place = TracePlace::Body;
            }
            FitLine::Command(command) => self.add_command(command)?,
        }
        Ok(())
    }

    /// Adds a command.
    #[inline(always)]
    fn add_command(&mut self, line: Line) -> Result<(), AllocError>
        ensures { OnOk result (self.new ≡ draft_after self.old (FitCommand line)) }
    {
        self.lines.push(line)?;
        self.place = TracePlace::Body;
        Ok(())
    }

    /// Puts the script that goes on to those that are whole.
    fn end_script(&mut self, alloc: Global) -> Result<(), AllocError>
        ensures { OnOk result (self.new ≡ record self.old { scripts = all_scripts self.old; life = []; lines = [] }) }
    {
        let life = mem::replace(&mut self.life, Vec::new(alloc));
        let lines = mem::replace(&mut self.lines, Vec::new(alloc));
        if matches!(self.place, TracePlace::Client | TracePlace::Body) {
            let client = self.me;
            self.scripts.push(Script {
                client,
                life,
                lines,
            })?;
        }
        Ok(())
    }
}

impl Draft {
    /// Reads the command that comes next, where one pass tells it; gives what stands behind its line.
    #[inline(always)]
    fn take_command<'a>(&mut self, text: &'a [u8]) -> Result<Option<&'a [u8]>, AllocError>
        ensures read { IfOk result (λ o. MatchOption o (self.new ≡ self.old) (λ rest. (at : ℕ) → reading self.old at (slice_split (λ b. b == 10) text.now) ≡ reading self.new (at + 1) (slice_split (λ b. b == 10) rest.now))) }
        ensures less { IfOk result (λ o. IfSome o (λ rest. length rest.now < length text.now)) }
    {
        if !takes_commands(self.place) {
            return Ok(None);
        }
        let Some((line, rest)) = next_command(self.clients, self.me, text) else {
            return Ok(None);
        };
        self.add_command(line)?;
        Ok(Some(rest))
    }

    /// Reads commands from the `at`-th line on, as far as one pass tells them; gives the line that comes then, and the text from there on.
    fn take_commands<'a>(
        &mut self,
        mut at: u32,
        text: &'a [u8],
    ) -> Result<(u32, &'a [u8]), AllocError>
        requires few { at + length text.now < 2 ^ 32 }
        ensures read { IfOk result (λ x. reading self.new x.0 (slice_split (λ b. b == 10) x.1.now) ≡ reading self.old at (slice_split (λ b. b == 10) text.now)) }
        ensures small { IfOk result (λ x. (x.0 + length x.1.now ≤ at + length text.now) × (length x.1.now ≤ length text.now)) }
    {
        let mut rest = text;
        while let Some(others) = self.take_command(rest)? {
            at += 1;
            rest = others;
        }
        Ok((at, rest))
    }

    /// Whether the bytes may end here, with `rest` behind the last line feed.
    fn may_end(&self, rest: &[u8]) -> bool
        ensures { result ≡ may_end self.now.seen.place rest.now }
    {
        match self.place {
            TracePlace::Start => false,
            _ => rest.is_empty(),
        }
    }

    /// The trace that was read.
    fn finish(mut self, alloc: Global) -> Result<Trace, AllocError>
        requires { IsTrace (traced self) }
        ensures { IfOk result (λ t. t ≡ traced self) }
    {
        self.end_script(alloc)?;
        let Draft {
            clients,
            segments,
            wide,
            order,
            scripts,
            ..
        } = self;
        Ok(Trace {
            clients,
            segments,
            wide,
            order,
            scripts,
        })
    }
}

/// The next line and what stands behind it, where a line feed ends it.
pub fn split_line(text: &[u8]) -> Option<(&[u8], &[u8])>
    ensures lines { MatchOption result (slice_split (λ b. b == 10) text.now ≡ text.now ∷ []) (λ x. slice_split (λ b. b == 10) text.now ≡ x.0.now ∷ slice_split (λ b. b == 10) x.1.now) }
    ensures less { IfSome result (λ x. length x.1.now < length text.now) }
{
    let (line, rest) = cut(text, b'\n');
    match rest {
        None => None,
        Some(rest) => Some((line, rest)),
    }
}

/// The fault of bytes that are too many: the line of the first one past the limit.
pub fn limit(bytes: &[u8]) -> ParseStop
    requires { 1048576 < length bytes.now }
    ensures { result ≡ ParseStop.Fault (limit_fault bytes.now) }
{
    let (front, _) = bytes.split_at(MOST_BYTES);
    fault(1 + line_feeds(front) as u32, TraceKind::Limit)
}

/// How many line feeds there are.
fn line_feeds(bytes: &[u8]) -> usize
    ensures count { result ≡ count_by (λ b. b == 10) bytes.now }
    ensures few { result ≤ length bytes.now }
{
    bytes.iter().filter(|b| **b == b'\n').count()
}

/// The trace of the bytes, or their first fault.
fn read(alloc: Global, bytes: &[u8]) -> Result<Trace, ParseStop>
    ensures { MatchResult result (λ t. trace_of bytes.now ≡ Ok t) (λ e. Stops e (trace_of bytes.now)) }
{
    if bytes.len() > MOST_BYTES {
        return Err(limit(bytes));
    }
    let mut draft = Draft::new(alloc);
    let mut at = 1;
    let mut rest = bytes;
    while let Some((line, others)) = split_line(rest) {
        draft.take(alloc, at, line)?;
        (at, rest) = draft.take_commands(at + 1, others)?;
    }
    if !draft.may_end(rest) {
        return Err(fault(at, TraceKind::Syntax));
    }
    Ok(draft.finish(alloc)?)
}

/// The trace that the bytes spell.
///
/// Where they spell none, the first line that is at fault and what is wrong with it.
pub fn parse(alloc: Global, bytes: &[u8]) -> Result<Trace, ParseStop>
    // What is read is a trace, and the bytes are its one spelling.
    ensures found { IfOk result (λ t. IsTrace t × (bytes.now ≡ text_of t) × (length bytes.now ≤ 1048576)) }
    // What spells a trace is read as that trace, unless memory runs out.
    ensures only { (t : Traced) → IsTrace t → length bytes.now ≤ 1048576 → bytes.now ≡ text_of t → MatchResult result (λ r. r ≡ t) IsMemory }
    // Which fault it is.
    ensures fault { MatchResult result (λ _. fault_of bytes.now ≡ None) (λ e. IsFault e (fault_of bytes.now)) }
{
    read(alloc, bytes)
}

/// No two traces have one text.
pub fn text_is_one_spelling()
    ensures { (s t : Traced) → IsTrace s → IsTrace t → text_of s ≡ text_of t → s ≡ t }
{}

/// Bytes have no fault exactly where they are the text of a trace.
pub fn faults_are_of_no_trace()
    ensures text { (bytes : List ℕ) → IsTraceText bytes → fault_of bytes ≡ None }
    ensures fault { (bytes : List ℕ) → fault_of bytes ≡ None → IsTraceText bytes }
{}
