//! Where each index of a loan channel is, as its sender knows.
ghost use Rattle.std.specs.Prelude.{◌≡◌, IfOk, replicate, slice_set};
ghost use Rattle.steps.specs.Loan.Places.{is_sent, place_at, next_sent};
ghost use Rattle.steps.specs.declared.loan.places.Place.TheVariants.{Free};

use std::alloc::{AllocError, Global};
use std::marker::Model;

/// Where an index is, as its sender knows.
#[derive(Clone, Copy)]
pub enum Place {
    /// Nobody has it.
    Free,
    /// The sender has it.
    Loaned,
    /// It is on its way to the receiver, with it, or on its way back.
    Sent,
}

/// Where each index is. One is looked up and changed in place, so no call takes memory for it.
#[derive(Drop)]
pub struct Places {
    of: Vec<Place>,
}

/// Contracts see a table as the list of the places of the indices.
impl Model for Places {
    ghost use Rattle.std.specs.Prelude.{List};
    ghost use Rattle.steps.specs.declared.loan.places.Place.{Place};

    ghost Value = { List Place };

    ghost view = { λ p. p.of.items };
}

/// Whether the index is Sent, as the sender's table says.
fn has_sent(places: &Vec<Place>, index: u32) -> bool
    ensures { result ≡ is_sent (place_at places.now.items index) }
{
    match places.get(index as usize) {
        Some(place) => match *place {
            Place::Sent => true,
            Place::Free => false,
            Place::Loaned => false,
        },
        None => false,
    }
}

/// The first index that is Sent, from `from` on and below `slots`, or None.
fn next_sent(places: &Vec<Place>, slots: u32, from: u32) -> Option<u32>
    ensures { result ≡ next_sent places.now.items slots from }
{
    'slots: for index in from..slots {
        if has_sent(places, index) {
            return Some(index);
        }
    }
    None
}

impl Places {
    /// A table in which all indices below `slots` are Free.
    pub fn new(alloc: Global, slots: u32) -> Result<Places, AllocError>
        ensures { IfOk result (λ p. p ≡ replicate slots Free) }
    {
        Ok(Places {
            of: Vec::from_elem(alloc, Place::Free, slots as usize)?,
        })
    }

    /// Notes that the index is at this place from now on.
    pub fn put(&mut self, index: u32, place: Place)
        ensures { self.new ≡ slice_set self.old index place }
    {
        if (index as usize) < self.of.len() {
            self.of[index as usize] = place;
        }
    }

    /// The first index that is Sent, from `from` on and below `slots`, or None.
    pub fn next_sent(&self, slots: u32, from: u32) -> Option<u32>
        ensures { result ≡ next_sent self.now slots from }
    {
        next_sent(&self.of, slots, from)
    }
}
