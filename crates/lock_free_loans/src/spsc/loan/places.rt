//! The places of an index in the table of a sender.

/// Says where an index is, as its sender knows.
#[derive(Clone, Copy, PartialEq, Eq, Debug)]
pub enum Place {
    Free,
    Loaned,
    Sent,
}
