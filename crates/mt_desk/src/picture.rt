//! The picture of a job: its memory, its events and its trace, on a page that stands alone.

use crate::accesses::{config_of, numbered, read_script_line, script_of};
use crate::chart::Chart;
use crate::listing::{is_operation, number_after, number_in, runs};
use crate::map::draw_map;
use crate::parts::{Attempt, add_parts};
use crate::place::Blocks;
use crate::sight::{Seen, Sight};
use anyhow::{Context, Result, bail};
use mt_board::{Deed, Deeds, SimBoard, Watched};
use mt_conf::Config;
use mt_draw::{
    Canvas, Line as TraceLine, begin_figure, begin_page, begin_part, end_figure, end_page,
    write_paragraph, write_trace,
};
use mt_port::{MemSink, PlainSource};
use mt_replay::{exit_number, replay};
use mt_text::Line;
use std::alloc::Global;
use std::fs;
use std::io::{self, Write};
use std::process::ExitCode;
use std::rt::Files;

/// The most deeds of a job that are looked at, the most bytes of its trace, and the most events that are drawn.
const ROOM: usize = 1_048_576;

const MOST_TRACE: usize = 67_108_864;

const MOST_FIGURES: usize = 64;

/// The lines of a script that are drawn.
#[derive(Clone, Copy, Debug)]
pub struct Range {
    pub first: u32,
    pub last: u32,
}

/// A page under way: what is drawn, which deeds are not drawn yet, and the lines of the trace so far.
#[derive(Drop)]
struct Page<'a> {
    alloc: Global,
    canvas: Canvas,
    config: &'a Config,
    sight: Sight<'a>,
    deeds: &'a [Deed],
    chosen: Range,
    figures: usize,
    left_out: usize,
    lines: Vec<TraceLine<'a>>,
}

// The block of a slice, as far as it is one of RamTst: the number of its parameter set's block, and its words.
#[derive(Clone, Copy)]
struct Tested {
    block: u32,
    words: u32,
}

fn tested_under(seen: Seen) -> Option<Tested> {
    match seen {
        Seen::Hold {
            of: Blocks::Ram,
            place: Some(place),
            ..
        } => Some(Tested {
            block: place.block,
            words: place.last.saturating_sub(place.first).saturating_add(1),
        }),
        _ => None,
    }
}

impl<'a> Page<'a> {
    // Adds the parts of the attempt whose hold has ended.
    fn add_attempt(&self, chart: &mut Chart, of: Option<Tested>) -> Result<()> {
        let Some(of) = of else {
            return Ok(());
        };
        let sets = self.config.ram_tst.sets.as_slice();
        let Some(set) = sets.get(self.sight.set()) else {
            return Ok(());
        };
        if let (Some(block), Some((from, to))) = (
            set.blocks.as_slice().get(of.block as usize),
            chart.latest_hold(),
        ) {
            let attempt = Attempt {
                from,
                to,
                words: of.words,
            };
            add_parts(chart, attempt, set, block.policy)?;
        }
        Ok(())
    }

    // Takes the next deed into a chart. Answers whether it ends the event.
    fn take_deed(&mut self, chart: &mut Chart, of: &mut Option<Tested>) -> Result<bool> {
        let Some((deed, later)) = self.deeds.split_first() else {
            return Ok(true);
        };
        self.deeds = later;
        let seen = self.sight.see(*deed, later);
        if let Seen::Hold { .. } = seen {
            *of = tested_under(seen);
        }
        chart.see(seen)?;
        if let Seen::Release = seen {
            self.add_attempt(chart, of.take())?;
        }
        Ok(matches!(deed, Deed::EndEvent))
    }

    // Takes all deeds of an event into a chart.
    fn take_event(&mut self, chart: &mut Chart) -> Result<()> {
        let mut of = None;
        for _ in 0..self.deeds.len() {
            if self.take_deed(chart, &mut of)? {
                break;
            }
        }
        self.sight.end();
        Ok(())
    }

    fn is_chosen(&self, number: u32) -> bool {
        self.chosen.first <= number && number <= self.chosen.last
    }

    // Draws the event of a line, if it has an access and is chosen. Answers whether it is drawn.
    fn draw(&mut self, number: u32, chart: &Chart, title: &[u8], ran: &[u8]) -> Result<bool> {
        if !chart.has_accesses() || !self.is_chosen(number) {
            return Ok(false);
        }
        if self.figures >= MOST_FIGURES {
            self.left_out = self.left_out.saturating_add(1);
            return Ok(false);
        }
        self.figures += 1;
        begin_figure(&mut self.canvas, number)?;
        chart.draw(&mut self.canvas, title)?;
        end_figure(&mut self.canvas, ran)?;
        Ok(true)
    }
}

// The requests that a line of a trace has told so far: the number of each, and after how many accesses it was served.
#[derive(Drop)]
struct Served {
    items: Vec<(u32, u32)>,
}

impl Served {
    // Takes in an entry `irq N at P wait W`.
    fn take(&mut self, entry: &[u8]) -> Result<()> {
        if let Some(number) = number_after(entry, b"irq ") {
            let mut words = entry.split(|byte| *byte == b' ').skip(3);
            let place = number_in(words.next()).unwrap_or(0);
            self.items.push((number, place))?;
        }
        Ok(())
    }

    // Adds them to the chart of the line's event.
    fn add_to(&self, chart: &mut Chart, line: &Line) -> Result<()> {
        for (number, place) in self.items.as_slice() {
            let index = number.saturating_sub(1) as usize;
            if let Some(request) = line.requests.as_slice().get(index) {
                chart.add_request(*number, request.offset, *place, request.urgent)?;
            }
        }
        Ok(())
    }
}

impl<'a> Page<'a> {
    // Takes in the reply to a line, after its requests. Answers whether its event is drawn.
    fn take_reply(
        &mut self,
        line: &Line,
        script_line: &[u8],
        number: u32,
        reply: &'a [u8],
        served: &Served,
    ) -> Result<bool> {
        self.sight.select(reply);
        if runs(line.event) {
            let mut chart = Chart::new(self.alloc, self.config.shape.width);
            self.take_event(&mut chart)?;
            served.add_to(&mut chart, line)?;
            return self.draw(number, &chart, script_line, reply);
        }
        if is_operation(line.event)
            && let Some((deed, later)) = self.deeds.split_first()
        {
            self.deeds = later;
            self.sight.see(*deed, later);
        }
        Ok(false)
    }

    // Takes in the trace of a script, line by line.
    fn take_trace(&mut self, script: &[u8], trace: &'a [u8]) -> Result<()> {
        let mut texts = script.split(|byte| *byte == b'\n');
        let mut script_line: &[u8] = b"";
        let mut line = Line::new();
        let mut served = Served {
            items: Vec::new(self.alloc),
        };
        let mut latest = 0;
        for text in trace.split(|byte| *byte == b'\n') {
            let mut has_picture = false;
            let mut number = 0;
            if let Some((of, entry)) = numbered(text) {
                number = of;
                if of > latest {
                    script_line = texts.nth((of - latest - 1) as usize).unwrap_or(b"");
                    read_script_line(&mut line, script_line, self.config.shape);
                    self.sight.begin(line.event);
                    served.items.clear();
                    latest = of;
                }
                served.take(entry)?;
                if !entry.starts_with(b"irq ") && !entry.starts_with(b"- ") {
                    has_picture = self.take_reply(&line, script_line, of, entry, &served)?;
                }
            }
            if !text.is_empty() {
                self.lines.push(TraceLine {
                    number,
                    text,
                    has_picture,
                })?;
            }
        }
        Ok(())
    }
}

// Writes the page of a job that was replayed.
fn write_page(
    alloc: Global,
    file: &str,
    job: &[u8],
    config: &Config,
    trace: &[u8],
    board: &Watched<SimBoard>,
    chosen: Range,
) -> Result<Vec<u8>> {
    let mut canvas = Canvas::new(alloc);
    begin_page(&mut canvas, file.as_bytes())?;
    begin_part(&mut canvas, "Memory")?;
    draw_map(alloc, &mut canvas, config, board.deeds())?;
    begin_part(&mut canvas, "Events")?;
    let mut page = Page {
        alloc,
        canvas,
        config,
        sight: Sight::new(&config.ram_tst, &config.fls_tst),
        deeds: after_power_up(board.deeds()),
        chosen,
        figures: 0,
        left_out: 0,
        lines: Vec::new(alloc),
    };
    page.take_trace(script_of(job), trace)?;
    let Page {
        mut canvas,
        left_out,
        lines,
        ..
    } = page;
    write_paragraph(
        &mut canvas,
        legend(alloc, left_out, board.left_out())?.as_bytes(),
    )?;
    begin_part(&mut canvas, "Trace")?;
    write_trace(&mut canvas, lines.as_slice())?;
    end_page(&mut canvas)?;
    Ok(canvas.into_text())
}

// The deeds after the power-up, which belongs to no line.
fn after_power_up(deeds: &[Deed]) -> &[Deed] {
    match deeds {
        [Deed::PowerUp { .. }, rest @ ..] => rest,
        _ => deeds,
    }
}

// What the marks mean, and what is not drawn.
fn legend(alloc: Global, figures: usize, deeds: u64) -> Result<String> {
    let mut text = String::from_str(
        alloc,
        "A write fills its row, a read the middle of it; a read that answered another word than was expected is red. \
         Grey bands are the parts of an attempt, black bars the time in which interrupts are held. Below are the requests, \
         from where each came to where it was served.",
    )?;
    if figures > 0 {
        let more = format!(in alloc;
            " {figures} further events are not drawn; --lines A-B chooses others."
        )?;
        text.push_str(more.as_str())?;
    }
    if deeds > 0 {
        let more = format!(in alloc;
            " {deeds} further deeds of the job found no room, and are not drawn."
        )?;
        text.push_str(more.as_str())?;
    }
    Ok(text)
}

/// Replays a job and writes its picture, with the events of some script lines.
pub fn draw_picture<R: Files + Print + AllocGlobal>(
    rt: &R,
    file: &str,
    chosen: Range,
) -> Result<ExitCode> {
    let alloc = rt.alloc();
    let job = fs::read(rt, file).context(format_args!("cannot read the file {file}"))?;
    let Ok(deeds) = Deeds::new(alloc, ROOM) else {
        bail!("no memory was found");
    };
    let Ok(mut sink) = MemSink::new(alloc, MOST_TRACE, Vec::new(alloc)) else {
        bail!("no memory was found");
    };
    let mut board = Watched::new(SimBoard::new(), deeds);
    let words = vec![in alloc; String::from_str(alloc, "run")?]?;
    let mut source = PlainSource::new(job.clone()?);
    let status = replay(alloc, &words, &mut source, &mut sink, &mut board);
    let Some(config) = config_of(rt, job.as_slice()) else {
        bail!("the configuration of {file} is refused: ./mt explain {file} says why");
    };
    let page = write_page(
        alloc,
        file,
        job.as_slice(),
        &config,
        sink.bytes(),
        &board,
        chosen,
    )?;
    io::writer(rt).write_all(page.as_slice())?;
    Ok(ExitCode::from(exit_number(&status)))
}
