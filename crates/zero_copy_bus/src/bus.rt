//! A bus (`Bus`): the slots, the registry and the lanes that its publisher and its subscribers share, and how
//! its publisher is made.
ghost use Rattle.std.specs.Prelude.{◌≡◌, ◌-◌, ◌^◌, ◌<◌, None, IfOk, OnOk};
ghost use Rattle.steps.specs.Enums.{capacity_refusal};
ghost use Rattle.threaded.specs.Shares.{all_shares};
ghost use Rattle.lock_free_sets.specs.Unique.Held.{HoldsNothing};
ghost use Rattle.lock_free_sets.specs.UniqueIndexSet.{made, set_of, share};
ghost use Rattle.zero_copy_bus.specs.Books.{AllFree};
ghost use Rattle.zero_copy_bus.specs.Ends as ends;
ghost use Rattle.zero_copy_bus.specs.Outlets.{holders_in, open_in, AllNew, HaveTheirPlaces, NobodyTakesPart};

use crate::error::BusError;
use crate::holders::{Holder, MOST_SUBSCRIBERS};
use crate::lane::Lane;
use crate::outlet::Outlet;
use crate::pool::Pool;
use crate::publisher::Publisher;
use crate::roll::{Members, Roll};
use crate::store::Store;
use lock_free_sets::mpmc::unique_index_set::Pass;
use std::alloc::Global;
use std::sync::Wait;
use zero_copy_slots::{Anything, Keeps};

/// How large a bus is.
#[derive(Clone, Copy, Debug, PartialEq, Eq)]
pub struct Sizes {
    /// How many records there may be at a time, from 1 to 2^24 - 2.
    pub slots: usize,
    /// How many may subscribe at a time, from 1 to 63.
    pub subscribers: usize,
    /// How many records wait for a subscriber at most, up to 2^32 - 1.
    pub queue: usize,
}

/// A bus, from one publisher to many subscribers. Its records are values of type `X`, and each keeps the rule
/// of `K` with its number. A record lies in its slot until the slot is used again or the bus is dropped.
pub struct Bus<X: Drop, K: Keeps<X> = Anything> {
    store: Store<X, K>,
    members: Members,
    lanes: Vec<Lane>,
    sizes: Sizes,
    /// Whether the lanes had a publisher before. A later publisher gets new lanes, so that it has the pass of
    /// each with the whole share.
    is_used: bool,
}

impl<X: Drop, K: Keeps<X>> Drop for Bus<X, K> {
    fn drop(self) {
        let Self {
            store: _store,
            members: _members,
            lanes: _lanes,
            sizes: _,
            is_used: _,
        } = self;
    }
}

/// As many lanes as there may be subscribers.
fn make_lanes(alloc: Global, sizes: Sizes) -> Result<Vec<Lane>, BusError>
    ensures { OnOk result (0 < sizes.subscribers
        → capacity_refusal 0 (2 ^ 32 - 1) sizes.queue ≡ None) }
{
    let mut lanes = Vec::new(alloc);
    for _ in 0..sizes.subscribers {
        let lane = Lane::new(alloc, sizes.slots, sizes.queue)?;
        if lanes.push(lane).is_err() {
            return Err(BusError::NoMemory);
        }
    }
    Ok(lanes)
}

/// The publisher's ends of all lanes. No lane takes part yet.
fn make_outlets(alloc: Global, lanes: &mut [Lane]) -> Result<Vec<Outlet<'_>>, BusError>
    ensures placed { IfOk result (λ o. HaveTheirPlaces (holders_in o.items)) }
    ensures closed { IfOk result (λ o. NobodyTakesPart (open_in o.items)) }
    ensures fresh { IfOk result (λ o. AllNew o.items) }
{
    let mut outlets = Vec::new(alloc);
    for (place, lane) in lanes.iter_mut().enumerate() {
        let Some(holder) = Holder::subscriber(place) else {
            return Err(BusError::TooManySubscribers);
        };
        let Some(outlet) = lane.outlet(holder) else {
            return Err(BusError::NoPass);
        };
        if outlets.push(outlet).is_err() {
            return Err(BusError::NoMemory);
        }
    }
    Ok(outlets)
}

impl<X: Drop, K: Keeps<X>> Bus<X, K> {
    ghost use Rattle.zero_copy_bus.specs.Bus.{slots_of, IsAdmitted, IsPassOf};

    /// A bus whose slots are all free and empty, and the pass of its publisher. That pass has the whole share of the slots.
    ///
    /// Refused are more than 63 subscribers (`TooManySubscribers`), what a part refuses (`Part`), and memory.
    pub fn new(alloc: Global, sizes: Sizes) -> Result<(Bus<X, K>, Pass), BusError>
        ensures pass { IfOk result (λ r. IsPassOf r.0 r.1) }
        ensures nothing { IfOk result (λ r. HoldsNothing (made r.1)) }
        ensures share { IfOk result (λ r. share r.1 ≡ all_shares) }
        ensures slots { IfOk result (λ r. slots_of r.0 ≡ sizes.slots) }
        ensures admitted { OnOk result (IsAdmitted sizes) }
    {
        if sizes.subscribers > MOST_SUBSCRIBERS {
            return Err(BusError::TooManySubscribers);
        }
        let (store, pass) = Store::new(alloc, sizes.slots)?;
        let members = Members::new(alloc, sizes.subscribers)?;
        let lanes = make_lanes(alloc, sizes)?;
        let bus = Bus {
            store,
            members,
            lanes,
            sizes,
            is_used: false,
        };
        Ok((bus, pass))
    }

    /// The publisher, by the pass that the bus was made with. It is given the records to write, which need
    /// not keep the rule yet: one more than there are slots, and one more for each further loan that is in
    /// hand at a time. A later publisher gets new lanes.
    pub fn publisher(
        &mut self,
        rt: &impl Wait,
        alloc: Global,
        pass: Pass,
        spares: Vec<X>,
    ) -> Result<Publisher<'_, X, K>, BusError>
        requires pass { IsPassOf self.old pass }
        requires nothing { HoldsNothing (made pass) }
        ensures set { IfOk result (λ p. ends.set_in p ≡ set_of pass) }
        ensures share { IfOk result (λ p. ends.share_in p ≡ share pass) }
        ensures slots { IfOk result (λ p. ends.slots_of p ≡ slots_of self.old) }
        ensures free { IfOk result (λ p. AllFree (ends.table_of p)) }
        ensures next { IfOk result (λ p. ends.next_of p ≡ 0) }
        ensures fresh { IfOk result (λ p. AllNew (ends.lanes_of p)) }
    {
        let Bus {
            store,
            members,
            lanes,
            sizes,
            is_used,
        } = self;
        if *is_used {
            *lanes = make_lanes(alloc, *sizes)?;
        }
        *is_used = true;
        let Some(member) = members.member() else {
            return Err(BusError::NoPass);
        };
        let Some(roll) = Roll::new(rt, member) else {
            return Err(BusError::NoMemory);
        };
        let store: &Store<X, K> = store;
        let pool = Pool::new(alloc, store.set(), pass)?;
        let outlets = make_outlets(alloc, lanes)?;
        Ok(Publisher::of(pool, store.records(), spares, outlets, roll))
    }
}
