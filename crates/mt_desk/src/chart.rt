//! What is drawn of an event, as it is collected.

use crate::deed_text::{Text, hold_text, read_text, write_text};
use crate::sight::Seen;
use arrayvec::ArrayVec;
use mt_draw::{Access, AccessKind, Canvas, EventPicture, Service, Stretch, draw_event};
use mt_hex::{push_bytes, push_number};
use mt_word::Width;
use std::alloc::{AllocError, Global};

/// The most accesses that are drawn of an event.
const MOST_ACCESSES: usize = 8192;

/// An access with its title.
#[derive(Drop)]
struct Drawn {
    count: u32,
    addr: u32,
    kind: AccessKind,
    title: Text,
}

/// Some accesses in a row, with their title.
#[derive(Drop)]
pub struct Titled {
    pub from: u32,
    pub to: u32,
    pub title: Text,
}

/// A request, with its title.
#[derive(Drop)]
struct Asked {
    offset: u32,
    place: u32,
    urgent: bool,
    title: Text,
}

/// An event under way: its accesses, its holds, what they are parts of, and its requests.
#[derive(Drop)]
pub struct Chart {
    alloc: Global,
    width: Width,
    // How many accesses it has, and how many of them are drawn at most.
    length: u32,
    accesses: Vec<Drawn>,
    holds: Vec<Titled>,
    parts: Vec<Titled>,
    requests: Vec<Asked>,
    // The hold under way: how many accesses came before it, and its title.
    held: Option<(u32, Text)>,
}

// A text without the spaces before it and the line feed after it.
fn trimmed(text: &[u8]) -> &[u8] {
    text.trim_ascii()
}

// The text of a request.
fn request_text(number: u32, offset: u32, place: u32, urgent: bool) -> Text {
    let mut text = ArrayVec::new();
    push_bytes(
        &mut text,
        if urgent {
            b"urgent ".as_slice()
        } else {
            b"request "
        },
    );
    push_number(&mut text, number);
    push_bytes(&mut text, b", ");
    push_number(&mut text, offset);
    push_bytes(&mut text, b" to ");
    push_number(&mut text, place);
    text
}

impl Chart {
    /// An event of which nothing is known.
    pub fn new(alloc: Global, width: Width) -> Chart {
        Chart {
            alloc,
            width,
            length: 0,
            accesses: Vec::new(alloc),
            holds: Vec::new(alloc),
            parts: Vec::new(alloc),
            requests: Vec::new(alloc),
            held: None,
        }
    }

    /// Whether it has an access.
    pub fn has_accesses(&self) -> bool {
        !self.accesses.is_empty()
    }

    fn add_access(
        &mut self,
        count: u32,
        addr: u32,
        kind: AccessKind,
        title: Text,
    ) -> Result<(), AllocError> {
        self.length = self.length.max(count);
        if self.accesses.len() < MOST_ACCESSES {
            self.accesses.push(Drawn {
                count: count.saturating_sub(1),
                addr,
                kind,
                title,
            })?;
        }
        Ok(())
    }

    // The hold under way ends: it is listed, and what it was for is handed out.
    fn release(&mut self) -> Result<(), AllocError> {
        match self.held.take() {
            Some((from, title)) => self.holds.push(Titled {
                from,
                to: self.length,
                title,
            })?,
            None => {}
        }
        Ok(())
    }

    /// Takes in what was seen.
    pub fn see(&mut self, seen: Seen) -> Result<(), AllocError> {
        match seen {
            Seen::Hold { of, place, attempt } => {
                self.held = Some((self.length, hold_text(of, place, attempt)));
                Ok(())
            }
            Seen::Release => self.release(),
            Seen::Read {
                module,
                access,
                expected,
            } => {
                let differs = expected.is_some_and(|word: u64| word != access.word);
                let kind = if differs {
                    AccessKind::Differs
                } else {
                    AccessKind::Read
                };
                let title = read_text(self.width, module, access, expected);
                self.add_access(access.count, access.addr, kind, title)
            }
            Seen::Write { access } => {
                let title = write_text(self.width, access);
                self.add_access(access.count, access.addr, AccessKind::Write, title)
            }
            Seen::Asked(_) | Seen::Other => Ok(()),
        }
    }

    /// The latest hold, if one has ended: how many accesses came before it, and up to its end.
    pub fn latest_hold(&self) -> Option<(u32, u32)> {
        let hold = self.holds.last()?;
        Some((hold.from, hold.to))
    }

    /// Adds a part of an attempt.
    pub fn add_part(&mut self, part: Titled) -> Result<(), AllocError> {
        self.parts.push(part)?;
        Ok(())
    }

    /// Adds a request that was served.
    pub fn add_request(
        &mut self,
        number: u32,
        offset: u32,
        place: u32,
        urgent: bool,
    ) -> Result<(), AllocError> {
        self.requests.push(Asked {
            offset,
            place,
            urgent,
            title: request_text(number, offset, place, urgent),
        })?;
        Ok(())
    }

    // The least and the greatest address.
    fn addresses(&self) -> (u32, u32) {
        let mut least = u32::MAX;
        let mut greatest = 0;
        for access in self.accesses.as_slice() {
            least = least.min(access.addr);
            greatest = greatest.max(access.addr);
        }
        (least.min(greatest), greatest)
    }

    /// Draws the event under a title.
    pub fn draw(&self, canvas: &mut Canvas, title: &[u8]) -> Result<(), AllocError> {
        let (least, greatest) = self.addresses();
        let accesses = accesses_of(self.alloc, self.accesses.as_slice(), least)?;
        let holds = stretches_of(self.alloc, self.holds.as_slice())?;
        let elements = stretches_of(self.alloc, self.parts.as_slice())?;
        let services = services_of(self.alloc, self.requests.as_slice())?;
        let (first_row, last_row) = (word_text(least), word_text(greatest));
        draw_event(
            canvas,
            &EventPicture {
                title,
                length: self.length,
                rows: greatest.saturating_sub(least).saturating_add(1),
                first_row: &first_row,
                last_row: &last_row,
                elements: elements.as_slice(),
                holds: holds.as_slice(),
                accesses: accesses.as_slice(),
                services: services.as_slice(),
            },
        )
    }
}

// The name of a word.
fn word_text(addr: u32) -> Text {
    let mut text = ArrayVec::new();
    push_bytes(&mut text, b"word ");
    push_number(&mut text, addr);
    text
}

fn accesses_of<'a>(
    alloc: Global,
    drawn: &'a [Drawn],
    least: u32,
) -> Result<Vec<Access<'a>>, AllocError> {
    let mut accesses = Vec::new(alloc);
    for access in drawn {
        accesses.push(Access {
            count: access.count,
            row: access.addr.saturating_sub(least),
            kind: access.kind,
            title: trimmed(&access.title),
        })?;
    }
    Ok(accesses)
}

fn stretches_of<'a>(alloc: Global, titled: &'a [Titled]) -> Result<Vec<Stretch<'a>>, AllocError> {
    let mut stretches = Vec::new(alloc);
    for part in titled {
        stretches.push(Stretch {
            from: part.from,
            to: part.to,
            title: trimmed(&part.title),
        })?;
    }
    Ok(stretches)
}

fn services_of<'a>(alloc: Global, asked: &'a [Asked]) -> Result<Vec<Service<'a>>, AllocError> {
    let mut services = Vec::new(alloc);
    for request in asked {
        services.push(Service {
            offset: request.offset,
            place: request.place,
            urgent: request.urgent,
            title: trimmed(&request.title),
        })?;
    }
    Ok(services)
}
