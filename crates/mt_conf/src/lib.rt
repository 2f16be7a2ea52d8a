//! The configuration of a job: it is read from TOML text, and written as such.
#![tactic(auto)]

mod config;
mod flash;
mod laws;
mod lookup;
mod march;
mod reading;
mod schema;
mod shape;
mod value;
mod values;
mod writing;

pub use config::{Config, ConfigRefusal};
pub use laws::{
    accepted_is_taken, accepted_keys_are_listed, each_is_accepted, fields_are_entries,
    refusal_is_least, the_least_number_is_told,
};
pub use reading::read_config;
pub use schema::{Kind, Otherwise, Part, Row, rows_of};
pub use writing::write_config;

#[cfg(test)]
mod read_back;
#[cfg(test)]
mod tests;
