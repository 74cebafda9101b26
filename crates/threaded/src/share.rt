//! A share of the right to know all that has happened to a structure. No value of this type is made: it is for contracts
//! and proofs.

/// The share is `part` of `parts` equal parts of the whole.
pub struct Share {
    pub part: u64,
    pub parts: u64,
}
