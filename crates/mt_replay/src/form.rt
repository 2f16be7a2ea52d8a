//! The forms of the program.

use mt_blocks::ParamSet;
use mt_port::Shape;

/// What `cut` asks for: the number of a set, counted from 0; a budget, in accesses per tick; and the longest wait for
/// interrupts, in accesses.
#[derive(Clone, Copy, Debug, PartialEq, Eq)]
pub struct Ask {
    pub set: u32,
    pub budget: u32,
    pub wait: u32,
}

/// What is done with a job: it is replayed; it is read alone; it is written in canonical form, or so with a configuration
/// of version 2; or it is read, and the fewest ticks of one of its sets are told.
#[derive(Clone, Copy, Debug, PartialEq, Eq)]
pub enum Form {
    Run,
    Check,
    Format,
    Migrate,
    Cut(Ask),
}

/// What the words ask for: a form that takes a script; the faults that explain what was missed in a slice; whether a text is
/// the trace of a script; or the sums of a replay of the generated script with a number.
#[derive(Clone, Copy, Debug, PartialEq, Eq)]
pub enum Asked {
    Job(Form),
    Locate,
    Verify,
    Soak(u32),
}

/// How the lines of a script are taken: the form, the shape of the memory for which they are read, and for `cut` the set
/// that it asks for.
#[derive(Drop)]
pub struct Task {
    pub form: Form,
    pub shape: Shape,
    pub set: Option<ParamSet>,
}
