//! The pictures of a job's memory: its blocks and slices, and the words that its faults name.

use crate::deed_text::{Text, event_text};
use anyhow::Result;
use arrayvec::ArrayVec;
use mt_blocks::{FlashBlock, FlsConfig, HasSpan, ParamSet};
use mt_board::Deed;
use mt_conf::Config;
use mt_draw::{Area, AreaKind, Canvas, MemoryPicture, Spot, draw_memory};
use mt_fault::Fault;
use mt_hex::{push_bytes, push_number};
use mt_plan::Policy;
use mt_text::Event;
use std::alloc::{AllocError, Global};

/// The most faults that are shown.
const MOST_FAULTS: usize = 16;

/// A block, as it is shown.
#[derive(Drop)]
struct Shown {
    kind: AreaKind,
    first: u32,
    last: u32,
    slice: u32,
    title: Text,
}

/// A word that a fault names.
#[derive(Drop)]
struct Named {
    word: u32,
    title: Text,
}

// A text of words and numbers by turns, as far as there is room.
fn text_of(parts: &[(&[u8], u32)]) -> Text {
    let mut text = ArrayVec::new();
    for (words, number) in parts {
        let mut shown = ArrayVec::<u8, 10>::new();
        push_number(&mut shown, *number);
        let _ = text.try_extend_from_slice(words);
        let _ = text.try_extend_from_slice(&shown);
    }
    text
}

// The number of a block or a set; there are at most 64.
fn shown_number(number: usize) -> u32 {
    u32::try_from(number).unwrap_or(u32::MAX)
}

fn policy_name(policy: Policy) -> &'static [u8] {
    match policy {
        Policy::NonDestructive => b", words are kept",
        Policy::Destructive => b", words are filled",
    }
}

// The blocks of a parameter set.
fn blocks_of(alloc: Global, set: &ParamSet) -> Result<Vec<Shown>, AllocError> {
    let mut shown = Vec::new(alloc);
    for (number, block) in set.blocks.as_slice().iter().enumerate() {
        let span = block.span();
        let mut title = text_of(&[
            (b"block ", shown_number(number)),
            (b": words ", span.first),
            (b" to ", span.last),
            (b" in slices of ", set.atomic),
        ]);
        let _ = title.try_extend_from_slice(policy_name(block.policy));
        shown.push(Shown {
            kind: match block.policy {
                Policy::NonDestructive => AreaKind::Kept,
                Policy::Destructive => AreaKind::Filled,
            },
            first: span.first,
            last: span.last,
            slice: set.atomic,
            title,
        })?;
    }
    Ok(shown)
}

// Adds some blocks of the flash, and their copies.
fn add_flash(
    shown: &mut Vec<Shown>,
    blocks: &[FlashBlock],
    atomic: u32,
    name: &[u8],
) -> Result<(), AllocError> {
    for (number, block) in blocks.iter().enumerate() {
        let span = block.span();
        let length = span.last.saturating_sub(span.first);
        shown.push(Shown {
            kind: AreaKind::Flash,
            first: span.first,
            last: span.last,
            slice: atomic,
            title: text_of(&[
                (name, shown_number(number)),
                (b": words ", span.first),
                (b" to ", span.last),
            ]),
        })?;
        shown.push(Shown {
            kind: AreaKind::Copy,
            first: block.copy,
            last: block.copy.saturating_add(length),
            slice: atomic,
            title: text_of(&[
                (b"the copy of the words ", span.first),
                (b" to ", span.last),
                (b", from word ", block.copy),
            ]),
        })?;
    }
    Ok(())
}

fn flash_of(alloc: Global, fls: &FlsConfig) -> Result<Vec<Shown>, AllocError> {
    let mut shown = Vec::new(alloc);
    add_flash(
        &mut shown,
        fls.bgnd.as_slice(),
        fls.atomic,
        b"background block ",
    )?;
    add_flash(
        &mut shown,
        fls.fgnd.as_slice(),
        fls.atomic,
        b"foreground block ",
    )?;
    Ok(shown)
}

// The words that a fault names.
fn words_of(fault: Fault) -> (u32, Option<u32>) {
    match fault {
        Fault::StuckAt { vic, .. } | Fault::CannotRise { vic } | Fault::CannotFall { vic } => {
            (vic.word, None)
        }
        Fault::Invert { agg, vic, .. }
        | Fault::Force { agg, vic, .. }
        | Fault::State { agg, vic, .. } => (vic.word, Some(agg.word)),
        Fault::NoCell { addr, .. } => (addr, None),
        Fault::Also { addr, other, .. } | Fault::Instead { addr, other } => (addr, Some(other)),
    }
}

// Adds the words that a fault names.
fn add_fault(named: &mut Vec<Named>, config: &Config, fault: Fault) -> Result<(), AllocError> {
    let line = event_text(config.shape.width, Event::Inject(fault));
    let (word, other) = words_of(fault);
    let mut title = ArrayVec::new();
    let _ = title.try_extend_from_slice(line.trim_ascii());
    named.push(Named { word, title })?;
    if let Some(word) = other {
        let title = text_of(&[(b"the other word of this fault, ", word)]);
        named.push(Named { word, title })?;
    }
    Ok(())
}

// The words that the faults name that were put in.
fn faults_of(alloc: Global, config: &Config, deeds: &[Deed]) -> Result<Vec<Named>, AllocError> {
    let mut named = Vec::new(alloc);
    for deed in deeds {
        if let Deed::Inject { fault } = deed
            && named.len() < MOST_FAULTS
        {
            add_fault(&mut named, config, *fault)?;
        }
    }
    Ok(named)
}

// Draws a memory of some words.
fn draw(
    alloc: Global,
    canvas: &mut Canvas,
    title: &[u8],
    words: u32,
    shown: &[Shown],
    named: &[Named],
) -> Result<(), AllocError> {
    let mut areas = Vec::new(alloc);
    for area in shown {
        areas.push(Area {
            kind: area.kind,
            first: area.first,
            last: area.last,
            slice: area.slice,
            title: &area.title,
        })?;
    }
    let mut spots = Vec::new(alloc);
    for spot in named {
        spots.push(Spot {
            word: spot.word,
            title: &spot.title,
        })?;
    }
    draw_memory(
        canvas,
        &MemoryPicture {
            title,
            words,
            areas: areas.as_slice(),
            spots: spots.as_slice(),
        },
    )
}

/// Draws the memory of a job: for each parameter set the RAM with the set's blocks, and the words that faults name which
/// were put in; and the flash, if there is one.
pub fn draw_map(alloc: Global, canvas: &mut Canvas, config: &Config, deeds: &[Deed]) -> Result<()> {
    let named = faults_of(alloc, config, deeds)?;
    for (number, set) in config.ram_tst.sets.as_slice().iter().enumerate() {
        let title = text_of(&[
            (b"RAM, words 0 to ", config.shape.ram.saturating_sub(1)),
            (b", parameter set ", shown_number(number)),
        ]);
        let shown = blocks_of(alloc, set)?;
        draw(
            alloc,
            canvas,
            &title,
            config.shape.ram,
            shown.as_slice(),
            named.as_slice(),
        )?;
    }
    if config.shape.flash > 0 {
        let title = text_of(&[(b"Flash, words 0 to ", config.shape.flash - 1)]);
        let shown = flash_of(alloc, &config.fls_tst)?;
        draw(
            alloc,
            canvas,
            &title,
            config.shape.flash,
            shown.as_slice(),
            &[],
        )?;
    }
    Ok(())
}
