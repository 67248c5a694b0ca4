//! A run as a picture.

ghost use Rattle.std.specs.Prelude.{◌≤◌};

use crate::events::{Events, Message, Wait};
use crate::sheet::{BAR, Sheet, WIDTH, rect};
use crate::text::push_task;
use shm_script::{Line, Trace};
use shm_view::{Colour, Picture};
use shm_watch::{Fate, Point, Span, Task};
use std::alloc::{AllocError, Global};

const GREY: Colour = Colour {
    red: 214,
    green: 214,
    blue: 214,
};

const WHITE: Colour = Colour {
    red: 255,
    green: 255,
    blue: 255,
};

const PALE: Colour = Colour {
    red: 232,
    green: 232,
    blue: 232,
};

const BLACK: Colour = Colour {
    red: 0,
    green: 0,
    blue: 0,
};

const ORANGE: Colour = Colour {
    red: 230,
    green: 159,
    blue: 0,
};

const PURPLE: Colour = Colour {
    red: 123,
    green: 50,
    blue: 148,
};

/// The picture of what happens in the turns of a run: a lane for each identity with a script, from above in order of number.
pub fn draw(alloc: Global, events: &Events<'_>) -> Result<Picture, AllocError> {
    let trace = events.trace;
    let mut sheet = Sheet::new(alloc, trace, events.window, events.turns);
    draw_frame(alloc, &mut sheet, trace)?;
    for span in &events.spans {
        draw_span(alloc, &mut sheet, *span)?;
    }
    for span in &events.spans {
        draw_death(&mut sheet, *span)?;
    }
    draw_waits(alloc, &mut sheet, events.waits.as_slice())?;
    for message in &events.messages {
        draw_message(&mut sheet, *message)?;
    }
    draw_legend(alloc, &mut sheet)?;
    Ok(sheet.picture())
}

// which turns are shown, the numbers of some of them, and whose each lane is
fn draw_frame(alloc: Global, sheet: &mut Sheet, trace: &Trace) -> Result<(), AllocError> {
    sheet.push(rect((0, 0), (WIDTH, sheet.height()), WHITE))?;
    let (from, to, all) = (sheet.from, sheet.to, sheet.all);
    let shown = if from == 1 && to == all {
        format!(in alloc; "all {all} turns")?
    } else if to < from {
        format!(in alloc; "none of the {all} turns")?
    } else {
        format!(in alloc; "turns {from} to {to} of {all}")?
    };
    sheet.label(16, 48, shown)?;
    for number in 0..24 {
        let turn = sheet.tick(number);
        if from <= turn && turn <= to {
            let x = sheet.x(turn);
            sheet.push(rect((x, 112), (2, sheet.bottom() - 112), PALE))?;
            let text = format!(in alloc; "{turn}")?;
            sheet.label(x, 102, text)?;
        }
    }
    for script in &trace.scripts {
        let y = sheet.lane(script.client);
        let text = format!(in alloc; "client {}", script.client)?;
        sheet.label(16, y + 58, text)?;
    }
    Ok(())
}

// a piece of work as a bar from its first word step to its last one, with a thin line from there to the death of its agent
fn draw_span(alloc: Global, sheet: &mut Sheet, span: Span) -> Result<(), AllocError> {
    if span.begins.is_none() {
        return Ok(());
    }
    let (x, y) = (sheet.x(span.first()), sheet.lane(span.who));
    let behind = sheet.x(span.last.turn.saturating_add(1));
    if let Fate::Dies { turn } = span.fate {
        let width = sheet.x(turn).saturating_sub(behind);
        sheet.push(rect((behind, y + 43), (width, 6), colour(span.task)))?;
    }
    let width = behind.saturating_sub(x).saturating_sub(2).max(3);
    draw_bar(alloc, sheet, span, (x, y), width)
}

// the death of an agent
fn draw_death(sheet: &mut Sheet, span: Span) -> Result<(), AllocError> {
    match span.fate {
        Fate::Dies { turn } if sheet.has(turn) => {
            let (x, y) = (sheet.x(turn), sheet.lane(span.who));
            draw_cross(sheet, x, y + 46)
        }
        _ => Ok(()),
    }
}

// the bar of a piece of work, with what it is where there is room for that, and above it a mark where its answer is certain
fn draw_bar(
    alloc: Global,
    sheet: &mut Sheet,
    span: Span,
    place: (u32, u32),
    width: u32,
) -> Result<(), AllocError>
    requires x { place.0 ≤ 10000 }
    requires y { place.1 ≤ 10000 }
{
    let (x, y) = place;
    sheet.push(rect((x, y + 16), (width, BAR), colour(span.task)))?;
    if let Some(Point { turn, .. }) = span.decides {
        if sheet.has(turn) {
            sheet.push(rect((sheet.x(turn), y), (5, 26), BLACK))?;
        }
    }
    let mut text = Vec::new(alloc);
    push_task(&mut text, span.task)?;
    let gap = gap_of(span);
    match std::str::from_utf8(text.as_slice()) {
        Ok(name) if name.len() <= room(width, gap) => {
            sheet.label(x + gap, y + 58, String::from_str(alloc, name)?)
        }
        _ => Ok(()),
    }
}

// where the name in a bar begins: a recoverer's first one stands beside a cross
fn gap_of(span: Span) -> u32
    ensures { result ≤ 30 }
{
    if span.agent > 0 { 30 } else { 8 }
}

// how many letters there is room for in a bar of this width
fn room(width: u32, gap: u32) -> usize {
    width.saturating_sub(gap) as usize / 20
}

// a cross at a place
fn draw_cross(sheet: &mut Sheet, x: u32, y: u32) -> Result<(), AllocError>
    requires x { 200 ≤ x × x ≤ 10000 }
    requires y { 100 ≤ y × y ≤ 10000 }
{
    sheet.line((x - 20, y - 20), (x + 20, y + 20), 8, BLACK)?;
    sheet.line((x - 20, y + 20), (x + 20, y - 20), 8, BLACK)
}

// the colour of a piece of work
fn colour(task: Task) -> Colour {
    let (red, green, blue) = match task {
        Task::Join | Task::Leave => return GREY,
        Task::Command(Line::Put { .. }) => (166, 206, 240),
        Task::Command(Line::Copy { .. }) => (190, 225, 170),
        Task::Command(Line::Del { .. }) => (248, 205, 170),
        Task::Command(Line::Get { .. }) => (240, 232, 170),
        Task::Command(Line::Send { .. }) => (220, 195, 232),
        Task::Command(Line::Recv { .. }) => (170, 225, 215),
        Task::Recovery => (244, 170, 180),
    };
    Colour { red, green, blue }
}

// who waits for whom, below the bars; what doesn't fit beside the words before it has none
fn draw_waits(alloc: Global, sheet: &mut Sheet, waits: &[Wait]) -> Result<(), AllocError> {
    for (place, wait) in waits.iter().enumerate() {
        let (first, last) = (sheet.x(wait.first), sheet.x(wait.last.saturating_add(1)));
        let y = sheet.lane(wait.who);
        let width = last.saturating_sub(first).max(3);
        sheet.push(rect((first, y + 84), (width, 12), ORANGE))?;
        let room = sheet
            .x(next_wait(waits, place, wait.who))
            .saturating_sub(first);
        if room >= 260 {
            let text = format!(in alloc; "waits for {}", wait.holder)?;
            sheet.label(first, y + 130, text)?;
        }
    }
    Ok(())
}

// the first turn of the same identity's next wait
fn next_wait(waits: &[Wait], place: usize, who: u8) -> u64 {
    for wait in waits.iter().skip(place).skip(1) {
        if wait.who == who {
            return wait.first;
        }
    }
    u64::MAX
}

// a line from a send to its receive, and a square where it arrives
fn draw_message(sheet: &mut Sheet, message: Message) -> Result<(), AllocError> {
    let received = match message.received {
        Some(turn) => turn,
        None => return Ok(()),
    };
    let (sent, taken) = (sheet.x(message.sent), sheet.x(received));
    let (leaves, arrives) = edges(sheet, message);
    sheet.line((sent, leaves), (taken, arrives), 5, PURPLE)?;
    sheet.push(rect((taken - 9, arrives - 9), (18, 18), PURPLE))
}

// the edges of two lanes' bars that face each other: that of who sends, and that of who receives
fn edges(sheet: &Sheet, message: Message) -> (u32, u32)
    ensures { 100 ≤ result.1 }
{
    let (from, to) = (sheet.lane(message.from), sheet.lane(message.to));
    if message.from < message.to {
        (from + 76, to + 16)
    } else {
        (from + 16, to + 76)
    }
}

// what the colours and signs mean
fn draw_legend(alloc: Global, sheet: &mut Sheet) -> Result<(), AllocError> {
    let y = sheet.bottom() + 24;
    draw_key(alloc, sheet, (16, y), GREY, "join, leave")?;
    let keys = [
        (306, Line::Put { key: 0, number: 0 }, "put"),
        (
            506,
            Line::Copy {
                key: 0,
                author: 0,
                other: 0,
            },
            "copy",
        ),
        (706, Line::Del { key: 0 }, "del"),
        (906, Line::Get { author: 0, key: 0 }, "get"),
        (1106, Line::Send { to: 0, key: 0 }, "send"),
        (1306, Line::Recv { from: 0, key: 0 }, "recv"),
    ];
    for (x, line, name) in keys {
        draw_key(alloc, sheet, (x, y), colour(Task::Command(line)), name)?;
    }
    draw_key(alloc, sheet, (1506, y), colour(Task::Recovery), "recover")?;
    draw_signs(alloc, sheet, y + 56)
}

// what a colour means
fn draw_key(
    alloc: Global,
    sheet: &mut Sheet,
    place: (u32, u32),
    fill: Colour,
    name: &str,
) -> Result<(), AllocError> {
    sheet.push(rect(place, (34, 34), fill))?;
    let text = format!(in alloc; "{name}")?;
    sheet.label(place.0.saturating_add(46), place.1.saturating_add(29), text)
}

// what the signs mean
fn draw_signs(alloc: Global, sheet: &mut Sheet, y: u32) -> Result<(), AllocError>
    requires { 100 ≤ y × y ≤ 9000 }
{
    sheet.push(rect((30, y + 4), (5, 26), BLACK))?;
    let text = format!(in alloc; "the answer is certain")?;
    sheet.label(62, y + 29, text)?;
    draw_cross(sheet, 503, y + 17)?;
    let text = format!(in alloc; "its agent dies")?;
    sheet.label(542, y + 29, text)?;
    sheet.push(rect((860, y + 12), (40, 12), ORANGE))?;
    let text = format!(in alloc; "waits for a latch that another one holds")?;
    sheet.label(916, y + 29, text)?;
    sheet.line((1650, y + 8), (1700, y + 26), 5, PURPLE)?;
    sheet.push(rect((1691, y + 17), (18, 18), PURPLE))?;
    let text = format!(in alloc; "sent, and received")?;
    sheet.label(1724, y + 29, text)
}
