//! The picture of the memory: which words are tested, how, and where a fault is.

use crate::canvas::Canvas;
use crate::marks::{begin_picture, draw_mark, draw_words};
use crate::scale::Scale;
use std::alloc::AllocError;

/// What a block is: its words are kept or filled, or it is of flash words, or of the copies of some.
#[derive(Clone, Copy, Debug, PartialEq, Eq)]
pub enum AreaKind {
    Kept,
    Filled,
    Flash,
    Copy,
}

/// A block: its first word, its last one, and how many words its slices have.
#[derive(Clone, Copy, Debug)]
pub struct Area<'a> {
    pub kind: AreaKind,
    pub first: u32,
    pub last: u32,
    pub slice: u32,
    pub title: &'a [u8],
}

/// A word that a fault names.
#[derive(Clone, Copy, Debug)]
pub struct Spot<'a> {
    pub word: u32,
    pub title: &'a [u8],
}

/// A memory: how many words it has, its blocks, and the words that faults name.
#[derive(Clone, Copy, Debug)]
pub struct MemoryPicture<'a> {
    pub title: &'a [u8],
    pub words: u32,
    pub areas: &'a [Area<'a>],
    pub spots: &'a [Spot<'a>],
}

/// Where the words begin, and how wide they are.
const LEFT: u16 = 20;

const WIDTH: u16 = 940;

/// The top and the height of the words, and the height of a line of their legend.
const TOP: u32 = 28;

const HEIGHT: u32 = 26;

const ROW: u32 = 16;

fn scale_of(words: u32) -> Scale {
    Scale {
        start: LEFT,
        length: WIDTH,
        last: words,
    }
}

// The place of some words: the left edge, and a width of at least 1.
fn across(words: Scale, first: u32, last: u32) -> (u32, u32) {
    let left = words.place(first);
    let right = words.place(last.saturating_add(1));
    (left, right.saturating_sub(left).max(1))
}

fn class_of(kind: AreaKind) -> &'static str {
    match kind {
        AreaKind::Kept => "kept",
        AreaKind::Filled => "filled",
        AreaKind::Flash => "flash",
        AreaKind::Copy => "copy",
    }
}

// The slices of a block, where there is room for their edges.
fn draw_slices(canvas: &mut Canvas, words: Scale, area: &Area<'_>) -> Result<(), AllocError> {
    let count = (area.last.saturating_sub(area.first) / area.slice.max(1)).saturating_add(1);
    let room = across(words, area.first, area.last).1;
    if count > room / 4 {
        return Ok(());
    }
    for index in 0..count {
        let first = area.first.saturating_add(index.saturating_mul(area.slice));
        let last = first
            .saturating_add(area.slice.saturating_sub(1))
            .min(area.last);
        draw_mark(
            canvas,
            "slice",
            across(words, first, last),
            (TOP, HEIGHT),
            area.title,
        )?;
    }
    Ok(())
}

// The blocks on the line of words, and a line of the legend for each.
fn draw_areas(canvas: &mut Canvas, words: Scale, areas: &[Area<'_>]) -> Result<(), AllocError> {
    let mut top = TOP + HEIGHT + 26;
    for area in areas {
        let class = class_of(area.kind);
        draw_mark(
            canvas,
            class,
            across(words, area.first, area.last),
            (TOP, HEIGHT),
            area.title,
        )?;
        draw_slices(canvas, words, area)?;
        draw_mark(canvas, class, (u32::from(LEFT), 10), (top, 10), area.title)?;
        draw_words(
            canvas,
            "small",
            u32::from(LEFT) + 16,
            top.saturating_add(9),
            area.title,
        )?;
        top = top.saturating_add(ROW);
    }
    Ok(())
}

// The words that faults name: a mark below the line, and a line of the legend for each.
fn draw_spots(
    canvas: &mut Canvas,
    words: Scale,
    spots: &[Spot<'_>],
    first: u32,
) -> Result<(), AllocError> {
    let mut top = first;
    for spot in spots {
        let place = across(words, spot.word, spot.word);
        draw_mark(
            canvas,
            "fault",
            (place.0, place.1.max(3)),
            (TOP + HEIGHT, 10),
            spot.title,
        )?;
        draw_mark(
            canvas,
            "fault",
            (u32::from(LEFT), 10),
            (top, 10),
            spot.title,
        )?;
        draw_words(
            canvas,
            "small",
            u32::from(LEFT) + 16,
            top.saturating_add(9),
            spot.title,
        )?;
        top = top.saturating_add(ROW);
    }
    Ok(())
}

/// Draws a memory: a line of its words with the blocks on it and the words below it that faults name; then what each is.
pub fn draw_memory(canvas: &mut Canvas, picture: &MemoryPicture<'_>) -> Result<(), AllocError> {
    let words = scale_of(picture.words);
    let areas = picture.areas.len().min(1024) as u32;
    let spots = picture.spots.len().min(1024) as u32;
    let legend = TOP + HEIGHT + 26 + areas * ROW;
    begin_picture(canvas, legend + spots * ROW + 8, picture.title)?;
    draw_words(canvas, "title", 6, 17, picture.title)?;
    let all = (u32::from(LEFT), u32::from(WIDTH));
    draw_mark(canvas, "words", all, (TOP, HEIGHT), picture.title)?;
    draw_areas(canvas, words, picture.areas)?;
    draw_spots(canvas, words, picture.spots, legend)?;
    canvas.markup("</svg>\n")
}
