//! A script for a forest that is read line by line.

ghost use Rattle.std.specs.Prelude.{◌≡◌, ℕ, List, Ok, OnOk, IfErr, MatchResult};
ghost use Rattle.shm_script.specs.Drafts.{Stops, StopsAt};
ghost use Rattle.shm_tree.specs.ScriptTexts.{SpellsScript};
ghost use Rattle.shm_tree.specs.Scripts.{TreeScripted, draft_after, draft_none, drafted_line, judged, may_end, script_of};
ghost use Rattle.shm_tree.specs.Shapes.{shape_of};

use crate::judge::{FitTree, TreePlace, fit_tree, may_stand};
use crate::line::{TreeLine, TreeScript};
use crate::shape::tree_shape;
use shm_script::parts::{limit, split_line};
use shm_script::{ParseStop, TraceFault, TraceKind};
use std::alloc::{AllocError, Global};
use std::marker::Model;

/// The most bytes of a script.
const MOST_BYTES: usize = 1_048_576;

/// What was read so far.
#[derive(Drop)]
struct Draft {
    place: TreePlace,
    segments: u16,
    life: Option<u64>,
    lines: Vec<TreeLine>,
}

impl Model for Draft {
    ghost use Rattle.shm_tree.specs.Scripts.{Drafted};

    ghost Value = { Drafted };

    ghost view = { λ d. record { place = d.place; script = record { segments = d.segments; life = d.life; lines = d.lines.items } } };
}

/// The line with its numbers in range, or what is wrong with it.
fn judged(place: TreePlace, line: &[u8]) -> Result<FitTree, TraceKind>
    ensures { result ≡ judged place (shape_of line.now) }
{
    let Some(raw) = tree_shape(line) else {
        return Err(TraceKind::Syntax);
    };
    if !may_stand(place, raw) {
        return Err(TraceKind::Syntax);
    }
    fit_tree(raw).ok_or(TraceKind::Range)
}

impl Draft {
    /// Nothing is read.
    fn new(alloc: Global) -> Draft
        ensures { result ≡ draft_none }
    {
        Draft {
            place: TreePlace::Start,
            segments: 0,
            life: None,
            lines: Vec::new(alloc),
        }
    }

    /// Reads one more line, the `at`-th.
    fn take(&mut self, at: u32, line: &[u8]) -> Result<(), ParseStop>
        ensures ok { OnOk result (drafted_line self.old line.now ≡ Ok self.new) }
        ensures err { IfErr result (λ e. StopsAt at e (drafted_line self.old line.now)) }
    {
        match judged(self.place, line) {
            Err(kind) => Err(ParseStop::Fault(TraceFault { line: at, kind })),
            Ok(fit) => Ok(self.add(fit)?),
        }
    }

    /// Adds a line.
    fn add(&mut self, line: FitTree) -> Result<(), AllocError>
        ensures { OnOk result (self.new ≡ draft_after self.old line) }
    {
        self.place = TreePlace::Body;
        match line {
            FitTree::Tree(segments) => {
                self.segments = segments;
                self.place = TreePlace::Tree;
                Ok(())
            }
            FitTree::Life(life) => {
                self.life = Some(life);
                Ok(())
            }
            FitTree::Line(line) => {
                self.lines.push(line)?;
                Ok(())
            }
        }
    }

    /// Whether the bytes may end here, with `rest` behind the last line feed.
    fn may_end(&self, rest: &[u8]) -> bool
        ensures { result ≡ may_end self.now.place rest.now }
    {
        match self.place {
            TreePlace::Start => false,
            _ => rest.is_empty(),
        }
    }

    /// The script that was read.
    fn finish(self) -> TreeScript
        ensures { result ≡ self.script }
    {
        let Draft {
            segments,
            life,
            lines,
            ..
        } = self;
        TreeScript {
            segments,
            life,
            lines,
        }
    }
}

/// The script that the bytes spell.
///
/// # Errors
///
/// Where they spell none, the first line that is at fault and what is wrong with it.
pub fn parse_tree(alloc: Global, bytes: &[u8]) -> Result<TreeScript, ParseStop>
    ensures { MatchResult result (λ t. script_of bytes.now ≡ Ok t) (λ e. Stops e (script_of bytes.now)) }
{
    if bytes.len() > MOST_BYTES {
        return Err(limit(bytes));
    }
    let mut draft = Draft::new(alloc);
    let mut at = 1;
    let mut rest = bytes;
    while let Some((line, others)) = split_line(rest) {
        draft.take(at, line)?;
        at += 1;
        rest = others;
    }
    if !draft.may_end(rest) {
        return Err(ParseStop::Fault(TraceFault {
            line: at,
            kind: TraceKind::Syntax,
        }));
    }
    Ok(draft.finish())
}

/// What is read of bytes is a script in its ranges, of which they are the one spelling; and each such spelling is read so.
pub fn scripts_are_spelled()
    ensures read { (bytes : List ℕ) (s : TreeScripted) → script_of bytes ≡ Ok s → SpellsScript bytes s }
    ensures again { (bytes : List ℕ) (s : TreeScripted) → SpellsScript bytes s → script_of bytes ≡ Ok s }
{}
