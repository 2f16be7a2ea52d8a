//! Pictures of memory tests: from data to SVG, in a page that stands alone.
//!
//! What is drawn is given as data: accesses, holds, requests, blocks. Each picture is a text of its own, made of a
//! [`Canvas`], on which words of a job are written as text and never as markup.
#![tactic(auto)]

mod canvas;
mod event;
mod laws;
mod marks;
mod memory;
mod page;
mod scale;

pub use canvas::Canvas;
pub use event::{Access, AccessKind, EventPicture, Service, Stretch, draw_event};
pub use laws::{places_are_in_order, text_is_text};
pub use memory::{Area, AreaKind, MemoryPicture, Spot, draw_memory};
pub use page::{
    Line, begin_figure, begin_page, begin_part, end_figure, end_page, write_paragraph, write_trace,
};
pub use scale::Scale;
