//! Who holds which index.
ghost use Rattle.std.specs.Prelude.{◌≡◌, IfOk, None, replicate, slice_index_or, slice_set};

use std::alloc::{AllocError, Global};
use std::marker::Model;

/// The party that holds each index, by index. One is looked up and changed in place, in room that is made with the
/// machine, so no turn takes memory for it.
#[derive(Drop)]
pub struct Holders {
    parties: Vec<Option<u32>>,
}

impl Model for Holders {
    ghost use Rattle.std.specs.Prelude.{ℕ, Option, List};

    ghost Value = { List (Option ℕ) };

    ghost view = { λ h. h.parties.items };
}

impl Holders {
    /// Nobody holds any of this many indices.
    pub fn new(alloc: Global, capacity: u32) -> Result<Holders, AllocError>
        ensures { IfOk result (λ h. h ≡ replicate capacity None) }
    {
        Ok(Holders {
            parties: Vec::from_elem(alloc, None, capacity as usize)?,
        })
    }

    /// The party that holds this index, if any.
    pub fn of(&self, index: u32) -> Option<u32>
        ensures { result ≡ slice_index_or self.now index None }
    {
        match self.parties.get(index as usize) {
            Some(party) => *party,
            None => None,
        }
    }

    /// This index is held by this party from now on, or by nobody.
    pub fn put(&mut self, index: u32, party: Option<u32>)
        ensures { self.new ≡ slice_set self.old index party }
    {
        if (index as usize) < self.parties.len() {
            self.parties[index as usize] = party;
        }
    }

    /// This index, which can be any number, is held by nobody from now on.
    pub fn leave(&mut self, index: u64)
        ensures { self.new ≡ slice_set self.old index None }
    {
        if index < self.parties.len() as u64 {
            self.parties[index as usize] = None;
        }
    }
}
