//! The picture of an event: what a test did, access by access, and which requests came.

ghost use Rattle.std.specs.Prelude.{◌≤◌};

use crate::canvas::Canvas;
use crate::marks::{begin_picture, draw_mark, draw_words};
use crate::scale::Scale;
use std::alloc::AllocError;

/// What an access was: a read that answered as expected, a write, or a read that answered another word.
#[derive(Clone, Copy, Debug, PartialEq, Eq)]
pub enum AccessKind {
    Read,
    Write,
    Differs,
}

/// A test access: how many came before it in its event, the row of its word, and what its title says.
#[derive(Clone, Copy, Debug)]
pub struct Access<'a> {
    pub count: u32,
    pub row: u32,
    pub kind: AccessKind,
    pub title: &'a [u8],
}

/// Some accesses in a row, from a count up to another one: a march element, or a time in which interrupts are held.
#[derive(Clone, Copy, Debug)]
pub struct Stretch<'a> {
    pub from: u32,
    pub to: u32,
    pub title: &'a [u8],
}

/// A request: after how many accesses it came, and after how many it was served.
#[derive(Clone, Copy, Debug)]
pub struct Service<'a> {
    pub offset: u32,
    pub place: u32,
    pub urgent: bool,
    pub title: &'a [u8],
}

/// An event: how many test accesses it has, the words that they are on, and what came in it.
#[derive(Clone, Copy, Debug)]
pub struct EventPicture<'a> {
    pub title: &'a [u8],
    pub length: u32,
    /// The rows of words, and what stands before the first and the last of them.
    pub rows: u32,
    pub first_row: &'a [u8],
    pub last_row: &'a [u8],
    pub elements: &'a [Stretch<'a>],
    pub holds: &'a [Stretch<'a>],
    pub accesses: &'a [Access<'a>],
    pub services: &'a [Service<'a>],
}

/// Where the chart begins, and how wide it is.
const LEFT: u16 = 170;

const WIDTH: u16 = 795;

/// The tops of the march elements, of the holds and of the words' rows, counted from the picture's.
const ELEMENTS: u16 = 26;

const HOLDS: u16 = 46;

const ROWS: u16 = 60;

/// The height of a request's row.
const SERVICE: u32 = 15;

/// The height of the rows of all words.
fn height_of_rows(rows: u32) -> u16 {
    match rows {
        0..=3 => 36,
        4..=32 => rows as u16 * 10,
        _ => 320,
    }
}

/// Where counts and words stand.
#[derive(Clone, Copy)]
struct Layout {
    counts: Scale,
    rows: Scale,
    row_height: u32,
}

impl Layout {
    fn of(picture: &EventPicture<'_>) -> Layout {
        let height = height_of_rows(picture.rows);
        Layout {
            counts: Scale {
                start: LEFT,
                length: WIDTH,
                last: picture.length,
            },
            rows: Scale {
                start: ROWS,
                length: height,
                last: picture.rows,
            },
            row_height: (u32::from(height) / picture.rows.max(1)).max(2),
        }
    }

    // The top of the requests' rows.
    fn services(self) -> u32
        ensures { result ≤ 65603 }
    {
        u32::from(ROWS) + u32::from(self.rows.length) + 8
    }

    // The places of two counts: the left edge, and a width of at least 1.
    fn across(self, from: u32, to: u32) -> (u32, u32) {
        let left = self.counts.place(from);
        (left, self.counts.place(to).saturating_sub(left).max(1))
    }
}

// The parts of attempts, in two shades by turns.
fn draw_elements(
    canvas: &mut Canvas,
    layout: Layout,
    elements: &[Stretch<'_>],
) -> Result<(), AllocError> {
    for (index, element) in elements.iter().enumerate() {
        let class = if index % 2 == 0 {
            "element"
        } else {
            "element next"
        };
        let across = layout.across(element.from, element.to);
        let down = (u32::from(ELEMENTS), u32::from(layout.rows.length) + 34);
        draw_mark(canvas, class, across, down, element.title)?;
    }
    Ok(())
}

// What the parts are called, where there is room.
fn draw_names(
    canvas: &mut Canvas,
    layout: Layout,
    elements: &[Stretch<'_>],
) -> Result<(), AllocError> {
    for element in elements {
        let (left, width) = layout.across(element.from, element.to);
        if width as usize > element.title.len().saturating_mul(7) {
            let down = u32::from(ELEMENTS) + 13;
            draw_words(canvas, "small", left.saturating_add(3), down, element.title)?;
        }
    }
    Ok(())
}

// The bars of the times in which interrupts are held.
fn draw_holds(
    canvas: &mut Canvas,
    layout: Layout,
    holds: &[Stretch<'_>],
) -> Result<(), AllocError> {
    draw_words(
        canvas,
        "label",
        u32::from(LEFT) - 8,
        u32::from(HOLDS) + 9,
        b"held",
    )?;
    for hold in holds {
        let across = layout.across(hold.from, hold.to);
        draw_mark(canvas, "hold", across, (u32::from(HOLDS), 9), hold.title)?;
    }
    Ok(())
}

// The accesses: a write fills its row, a read the middle of it, and a read that differs stands out.
fn draw_accesses(
    canvas: &mut Canvas,
    layout: Layout,
    accesses: &[Access<'_>],
) -> Result<(), AllocError> {
    for access in accesses {
        let across = layout.across(access.count, access.count.saturating_add(1));
        let top = layout.rows.place(access.row);
        let height = layout.row_height;
        let (class, down) = match access.kind {
            AccessKind::Read => ("read", (top + height / 4, (height / 2).max(1))),
            AccessKind::Write => ("write", (top, height)),
            AccessKind::Differs => ("differs", (top, height)),
        };
        draw_mark(canvas, class, across, down, access.title)?;
    }
    Ok(())
}

// The requests, one below the other: from the count at which one came to that at which it was served.
fn draw_services(
    canvas: &mut Canvas,
    layout: Layout,
    services: &[Service<'_>],
) -> Result<(), AllocError> {
    let mut top = layout.services();
    for service in services {
        let class = if service.urgent { "urgent" } else { "ordinary" };
        let across = layout.across(service.offset, service.place);
        draw_words(
            canvas,
            "label",
            u32::from(LEFT) - 8,
            top.saturating_add(11),
            service.title,
        )?;
        draw_mark(
            canvas,
            class,
            across,
            (top.saturating_add(3), 8),
            service.title,
        )?;
        top = top.saturating_add(SERVICE);
    }
    Ok(())
}

// The line of counts, with its ends.
fn draw_counts(
    canvas: &mut Canvas,
    layout: Layout,
    length: u32,
    top: u32,
) -> Result<(), AllocError> {
    canvas.pair("<path class=\"axis\" d=\"M", u32::from(LEFT))?;
    canvas.pair(" ", top)?;
    canvas.pair("H", u32::from(LEFT) + u32::from(WIDTH))?;
    canvas.markup("\"/>\n")?;
    draw_words(
        canvas,
        "small",
        u32::from(LEFT),
        top.saturating_add(14),
        b"0",
    )?;
    canvas.pair(
        "<text class=\"label\" x=\"",
        u32::from(LEFT) + u32::from(WIDTH),
    )?;
    canvas.pair("\" y=\"", top.saturating_add(14))?;
    canvas.pair("\">", length)?;
    canvas.markup(" accesses</text>\n")
}

// What stands before the rows of words: their addresses.
fn draw_rows(
    canvas: &mut Canvas,
    layout: Layout,
    picture: &EventPicture<'_>,
) -> Result<(), AllocError> {
    let first = u32::from(ROWS) + 11;
    draw_words(
        canvas,
        "label",
        u32::from(LEFT) - 8,
        first,
        picture.first_row,
    )?;
    if picture.rows > 1 {
        let last = u32::from(ROWS) + u32::from(layout.rows.length);
        draw_words(canvas, "label", u32::from(LEFT) - 8, last, picture.last_row)?;
    }
    Ok(())
}

/// Draws an event: the march elements as bands, below them the time in which interrupts are held, the accesses by word and
/// count, and the requests, each from where it came to where it was served.
pub fn draw_event(canvas: &mut Canvas, picture: &EventPicture<'_>) -> Result<(), AllocError> {
    let layout = Layout::of(picture);
    let services = picture.services.len().min(64) as u32;
    let bottom = layout.services() + services * SERVICE + 4;
    begin_picture(canvas, bottom + 22, picture.title)?;
    draw_words(canvas, "title", 6, 17, picture.title)?;
    draw_elements(canvas, layout, picture.elements)?;
    draw_names(canvas, layout, picture.elements)?;
    draw_holds(canvas, layout, picture.holds)?;
    draw_rows(canvas, layout, picture)?;
    draw_accesses(canvas, layout, picture.accesses)?;
    draw_services(canvas, layout, picture.services)?;
    draw_counts(canvas, layout, picture.length, bottom)?;
    canvas.markup("</svg>\n")
}
