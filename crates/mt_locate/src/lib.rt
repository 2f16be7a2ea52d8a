//! Fault location: which single faults explain what was read of a slice.
#![tactic(auto)]

mod disturbance;
mod evidence;
mod explain;
mod faults;
mod kinds;
mod lanes;
mod laws;
mod list;
mod miss_line;
mod moved;
mod page;
mod probe;
mod refusal;
mod schedule;
mod slice_line;
mod stand_in;
mod unseen;
mod words;

pub use explain::explains;
pub use laws::{
    bits_decide, culprits_are_suspects, explaining_is_tested, faults_are_listed_in_order,
    faults_are_listed_once, faults_of_a_slice_stay_well_placed, faults_of_the_slice_are_listed,
    first_miss_tells_what_is_seen, lines_are_exact, misses_are_those_of_the_memory,
    refused_lines_tell_the_least_rule,
};
pub use list::list_faults;
pub use miss_line::read_miss;
pub use probe::{Miss, Probe};
pub use refusal::{LocateKind, LocateRefusal};
pub use slice_line::read_slice;
pub use stand_in::scratch;

#[cfg(test)]
mod line_tests;
#[cfg(test)]
mod tests;
