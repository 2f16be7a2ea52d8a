//! What a control unit is given for a configuration: plans and tables, which a loop in C carries out.
#![tactic(auto)]

mod cell;
mod crc;
mod fls_cells;
mod header;
mod laws;
mod numbers;
mod plan;
mod ram_cells;
mod reader;
mod source;
mod state_tables;
mod tables;
mod writer;

pub use cell::CellReply;
pub use crc::checksum;
pub use fls_cells::{FlsColumn, FlsRow, FlsTableCell, fls_cell};
pub use header::{fls_header, longest_lock, ram_header};
pub use laws::{cells_are_the_tables, plans_are_the_steps, plans_make_the_sequence};
pub use numbers::{fls_numbers, ram_numbers};
pub use plan::{push_plan, read_byte, step_byte};
pub use ram_cells::{RamColumn, RamRow, RamTableCell, ram_cell};
pub use reader::numbers_in;
pub use source::{Unwritten, fls_source, ram_source};
pub use tables::{lengths_of, rest_in, slices_in, words_in};

#[cfg(test)]
mod tests;
