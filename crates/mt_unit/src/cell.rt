//! Replies in the cells of a state table.

/// How a call is answered: it is taken; it is refused, since the module is not initialised or in another state; or it is a tick
/// that tests nothing.
#[derive(Clone, Copy, Debug, PartialEq, Eq)]
pub enum CellReply {
    Taken,
    RefusedUninit,
    RefusedStatus,
    Resting,
}
