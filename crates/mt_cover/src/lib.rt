//! Which faults the algorithms of a RAM test catch, and the proof that they do.
#![tactic(auto)]

mod class;
mod coverage;
mod laws;

pub use class::{Class, class_of};
pub use coverage::covers;
pub use laws::{
    attempts_detect, attempts_stay_sound, each_tabled_fault_has_an_index,
    each_tabled_fault_in_a_slice_fails, each_tabled_fault_is_caught, empty_cells_are_missed,
    faults_behave_as_their_class, further_faults_are_caught,
};

#[cfg(test)]
mod tests;
