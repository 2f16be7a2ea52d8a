//! A memory of words with at most one functional fault, after van de Goor's fault classes.
//!
//! `Cells` steps forward at each access. What it has to answer is defined over the whole history of
//! accesses since the fault came, looking backwards, and the public laws carry single accesses to histories.
#![tactic(auto)]

mod access;
mod cells;
mod fault;
mod laws;
mod placement;
#[cfg(test)]
mod tests;

pub use cells::Cells;
pub use fault::{Fault, FaultRefusal, Spot};
pub use laws::{
    last_access_decides, memory_stays_sound, memory_without_a_fault_is_plain,
    other_words_are_plain, other_words_do_not_matter, placement_is_tested,
    rules_agree_with_histories, sound_memory_comes_and_goes, span_begins, span_may_be_cut,
    test_accesses_may_be_cut, two_cells_answer_bit_by_bit,
};
