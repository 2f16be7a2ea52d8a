//! A list of accesses under way.

use crate::deed_text::{event_text, hold_text, left_out_text, read_text, write_text};
use crate::sight::{Seen, Sight};
use anyhow::Result;
use mt_blocks::{FlsConfig, RamConfig};
use mt_board::Deed;
use mt_port::HandlerOp;
use mt_text::{Event, FlsCall, Line, RamCall, number_of};
use mt_word::Width;
use std::alloc::Global;
use std::io::{BufWriter, Write};

/// A list of accesses under way: what is not listed yet, and what is known of this event.
#[derive(Drop)]
pub struct Listing<'a, W: Write + Drop> {
    out: BufWriter<W>,
    deeds: &'a [Deed],
    sight: Sight<'a>,
    width: Width,
    // Whether this line was asked for.
    shown: bool,
    // The request whose handler runs, from 0, and how many of its operations were done.
    handler: usize,
    done: usize,
}

/// Whether a line runs tests.
pub fn runs(event: Event) -> bool {
    matches!(
        event,
        Event::TickRam
            | Event::TickFls
            | Event::Ram(RamCall::RunFullTest | RamCall::RunPartialTest(_))
            | Event::Fls(FlsCall::StartFgnd(_))
    )
}

/// Whether a line does one thing on the board.
pub fn is_operation(event: Event) -> bool {
    matches!(
        event,
        Event::App(_) | Event::Inject(_) | Event::Heal | Event::Burn { .. } | Event::Flip(_)
    )
}

/// The number that a word spells, if there is a word.
pub fn number_in(word: Option<&[u8]>) -> Option<u32> {
    number_of(word?)
}

/// The number after a word, if the text begins with it.
pub fn number_after(text: &[u8], word: &[u8]) -> Option<u32> {
    let rest = text.strip_prefix(word)?;
    let mut words = rest.split(|byte| *byte == b' ');
    number_of(words.next()?)
}

impl<'a, W: Write + Drop> Listing<'a, W> {
    /// A list of these deeds, of which none is listed yet. The power-up belongs to no script line.
    pub fn new(
        alloc: Global,
        out: W,
        deeds: &'a [Deed],
        ram: &'a RamConfig,
        fls: &'a FlsConfig,
        width: Width,
    ) -> Result<Listing<'a, W>> {
        let deeds = match deeds {
            [Deed::PowerUp { .. }, later @ ..] => later,
            _ => deeds,
        };
        Ok(Listing {
            out: BufWriter::new(alloc, out)?,
            deeds,
            sight: Sight::new(ram, fls),
            width,
            shown: true,
            handler: 0,
            done: 0,
        })
    }

    // Writes a text, if its line was asked for.
    fn put(&mut self, text: &[u8]) -> Result<()> {
        if self.shown {
            self.out.write_all(text)?;
        }
        Ok(())
    }

    fn list_event_text(&mut self, event: Event) -> Result<()> {
        self.put(b"  ")?;
        self.put(&event_text(self.width, event))
    }

    // Lists what is seen of a deed.
    fn list_seen(&mut self, seen: Seen) -> Result<()> {
        match seen {
            Seen::Hold { of, place, attempt } => self.put(&hold_text(of, place, attempt)),
            Seen::Release => self.put(b"  release\n"),
            Seen::Read {
                module,
                access,
                expected,
            } => self.put(&read_text(self.width, module, access, expected)),
            Seen::Write { access } => self.put(&write_text(self.width, access)),
            Seen::Asked(event) => self.list_event_text(event),
            Seen::Other => Ok(()),
        }
    }

    // Lists the next deed.
    fn list_next(&mut self) -> Result<()> {
        if let Some((deed, later)) = self.deeds.split_first() {
            self.deeds = later;
            let seen = self.sight.see(*deed, later);
            self.list_seen(seen)?;
        }
        Ok(())
    }

    // Whether the next deed was done before a request that is served at this count.
    fn is_before(&self, at: u32) -> bool {
        match self.deeds.first() {
            Some(Deed::BeginEvent { .. } | Deed::Release) => true,
            Some(_) => self.sight.count() < at,
            None => false,
        }
    }

    // Lists what was done before a request that is served at this count.
    fn list_up_to(&mut self, at: u32) -> Result<()> {
        for _ in 0..self.deeds.len() {
            if !self.is_before(at) {
                break;
            }
            self.list_next()?;
        }
        Ok(())
    }

    // Lists the rest of an event that made so many accesses.
    fn list_event(&mut self, made: Option<u32>) -> Result<()> {
        for _ in 0..self.deeds.len() {
            let ends = matches!(self.deeds.first(), Some(Deed::EndEvent));
            self.list_next()?;
            if ends {
                break;
            }
        }
        let left_out = made.unwrap_or(0).saturating_sub(self.sight.count());
        if left_out > 0 {
            self.put(&left_out_text(left_out))?;
        }
        self.sight.end();
        Ok(())
    }

    // Lists what an operation of a handler did.
    fn list_handler(&mut self, line: &Line) -> Result<()> {
        let op = match line.requests.as_slice().get(self.handler) {
            Some(request) => request.ops.as_slice().get(self.done).copied(),
            None => None,
        };
        self.done = self.done.saturating_add(1);
        if let Some(HandlerOp::App(_)) = op {
            self.list_next()?;
        }
        Ok(())
    }

    // Lists what was done before an entry of a line's trace.
    fn list_before(&mut self, line: &Line, entry: &[u8]) -> Result<()> {
        self.sight.begin(line.event);
        if let Some(number) = number_after(entry, b"irq ") {
            self.handler = number.saturating_sub(1) as usize;
            self.done = 0;
            let mut words = entry.split(|byte| *byte == b' ').skip(3);
            return self.list_up_to(number_in(words.next()).unwrap_or(0));
        }
        if entry.starts_with(b"- ") {
            return self.list_handler(line);
        }
        self.sight.select(entry);
        if runs(line.event) {
            return self.list_event(number_after(entry, b"ran "));
        }
        if is_operation(line.event) {
            return self.list_next();
        }
        Ok(())
    }

    /// Lists what was done before an entry of a line's trace, and then the entry.
    pub fn list_entry(
        &mut self,
        line: &Line,
        text: &[u8],
        entry: &[u8],
        shown: bool,
    ) -> Result<()> {
        self.shown = shown;
        self.list_before(line, entry)?;
        self.put(text)?;
        self.put(b"\n")
    }

    /// Writes a line that is no entry.
    pub fn list_text(&mut self, text: &[u8]) -> Result<()> {
        self.shown = true;
        self.put(text)?;
        self.put(b"\n")
    }

    /// Writes what is not written yet.
    pub fn end(&mut self) -> Result<()> {
        self.out.flush()?;
        Ok(())
    }
}
