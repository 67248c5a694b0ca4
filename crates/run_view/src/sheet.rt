//! The sheet that a run is drawn on: which turns it has, and where they are.

ghost use Rattle.std.specs.Prelude.{◌≤◌};

use crate::window::Window;
use shm_script::Trace;
use shm_view::{Colour, Picture, Shape};
use std::alloc::{AllocError, Global};

/// How wide the sheet is.
pub const WIDTH: u32 = 2400;

/// How high a bar is.
pub const BAR: u32 = 60;

/// Where the first turn begins, and how much room there is for turns.
const LEFT: u32 = 220;

const ROOM: u32 = 2100;

/// Where the first lane begins, and the height of a lane.
const TOP: u32 = 120;

const LANE: u32 = 150;

/// The most turns that fit.
pub const MOST: u64 = 2100;

/// A sheet with some turns of a run.
#[derive(Drop)]
pub struct Sheet<'a> {
    trace: &'a Trace,
    /// The first and the last turn that is shown, and how many there are in all.
    pub from: u64,
    pub to: u64,
    pub all: u64,
    /// How wide a turn is.
    unit: u32,
    shapes: Vec<Shape>,
}

/// A rectangle.
pub fn rect(place: (u32, u32), size: (u32, u32), fill: Colour) -> Shape {
    Shape::Rect {
        x: place.0,
        y: place.1,
        width: size.0,
        height: size.1,
        fill,
    }
}

// how wide a turn is where so many are shown
fn unit_of(shown: u64) -> u32 {
    if shown < 105 {
        20
    } else if shown < MOST {
        ROOM / shown as u32
    } else {
        1
    }
}

// how many turns are between two marks, where a turn is so wide
fn gap_of_marks(unit: u32) -> u64
    ensures { 20 ≤ result }
{
    match unit {
        0 | 1 => 200,
        2 | 3 => 100,
        4..=9 => 50,
        _ => 20,
    }
}

impl<'a> Sheet<'a> {
    /// An empty sheet for the turns of a window, of so many turns in all; it shows 2,100 at most.
    pub fn new(alloc: Global, trace: &'a Trace, window: Window, all: u64) -> Sheet<'a> {
        let from = window.from;
        let to = window.to.min(all);
        Sheet {
            trace,
            from,
            to,
            all,
            unit: unit_of(to.saturating_add(1).saturating_sub(from)),
            shapes: Vec::new(alloc),
        }
    }

    /// Whether a turn is shown.
    pub fn has(&self, turn: u64) -> bool {
        self.from <= turn && turn <= self.to
    }

    /// Where a turn begins.
    pub fn x(&self, turn: u64) -> u32
        ensures least { 220 ≤ result }
        ensures most { result ≤ 2320 }
    {
        let gone = turn.saturating_sub(self.from).min(MOST) as u32;
        LEFT + gone.saturating_mul(self.unit).min(ROOM)
    }

    /// The turn of a mark at the upper edge, by its number.
    pub fn tick(&self, number: u64) -> u64 {
        let step = gap_of_marks(self.unit);
        let first = self.from.saturating_add(step - 1) / step;
        first.saturating_add(number).saturating_mul(step)
    }

    /// Where the lane of an identity begins.
    pub fn lane(&self, who: u8) -> u32
        ensures least { 120 ≤ result }
        ensures most { result ≤ 2520 }
    {
        let trace = self.trace;
        let scripts = trace.scripts.iter();
        let above = scripts.filter(|script| script.client < who).count();
        TOP + LANE * (above.min(16) as u32)
    }

    /// Where the last lane ends.
    pub fn bottom(&self) -> u32
        ensures least { 120 ≤ result }
        ensures most { result ≤ 2520 }
    {
        let trace = self.trace;
        TOP + LANE * (trace.scripts.len().min(16) as u32)
    }

    /// How high it is.
    pub fn height(&self) -> u32 {
        self.bottom() + 140
    }

    /// Adds a shape.
    pub fn push(&mut self, shape: Shape) -> Result<(), AllocError> {
        self.shapes.push(shape)?;
        Ok(())
    }

    /// Adds a line of text.
    pub fn label(&mut self, x: u32, y: u32, text: String) -> Result<(), AllocError> {
        self.push(Shape::Label { x, y, text })
    }

    /// Adds a straight line.
    pub fn line(
        &mut self,
        from: (u32, u32),
        to: (u32, u32),
        width: u32,
        stroke: Colour,
    ) -> Result<(), AllocError> {
        self.push(Shape::Line {
            from,
            to,
            width,
            stroke,
        })
    }

    /// The picture of what was added.
    pub fn picture(self) -> Picture {
        Picture {
            width: WIDTH,
            height: self.height(),
            shapes: self.shapes,
        }
    }
}
