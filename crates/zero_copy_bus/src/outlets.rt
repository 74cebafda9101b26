//! The publisher's ends of all lanes, each at the place by which its subscriber is named.
ghost use Rattle.std.specs.Prelude.{◌≡◌, ◌↔◌, true, false, Some, count_by, length, slice_get, slice_set, IfNone, IfSome, IsFalse, IsTrue};
ghost use Rattle.zero_copy_bus.specs.Books.{GainsNone, GainsOnly, KeepsAllOrNone, KeepsLoans};
ghost use Rattle.lock_free_queues.specs.Queues.Rings.{consumer_queue, consumer_view, queue_of, view};
ghost use Rattle.zero_copy_bus.specs.Outlets.{has_gained, holders_in, open_in, AreShown, AtLane, EachLane, EachOther, HaveTheirPlaces};
ghost use Rattle.zero_copy_bus.specs.Outlets.{waits_queue, IsServed, IsSettled, IsTakenBack, KeepsRest, StaysOrLost, WasLetOf, WasRejoined};
ghost use Rattle.zero_copy_bus.specs.Pools.{slots_of, table_of, IsSame};
ghost use Rattle.zero_copy_bus.specs.declared.outlet.Outlet.{Outlet};
ghost use Rattle.zero_copy_loans.specs.Words.{IsWord};
ghost use Rattle.zero_copy_slots.specs.Slots.{lying_number, lying_slot};

use crate::lane::Inlet;
use crate::outlet::Outlet;
use crate::pool::Pool;
use crate::roll::Roll;
use lock_free_queues::spsc::safely_overflowing_index_queue as overflow;
use std::sync::Wait;
use zero_copy_loans::words::Layout;
use zero_copy_slots::Lying;

/// Lets the first lane that can be let: its subscriber's end, and its place. None where no lane can be let.
pub fn free_inlet<'a>(outlets: &mut Vec<Outlet<'a>>) -> Option<(Inlet<'a>, usize)>
    ensures holders { holders_in outlets.new.items ≡ holders_in outlets.old.items }
    ensures taking { open_in outlets.new.items ≡ open_in outlets.old.items }
    ensures leased { IfSome result (λ r. AtLane r.1 (WasLetOf (consumer_queue r.0.receives) (consumer_view r.0.receives))
        outlets.old.items outlets.new.items) }
    ensures others { IfSome result (λ r. EachOther r.1 StaysOrLost outlets.old.items outlets.new.items) }
    ensures none { IfNone result (EachLane StaysOrLost outlets.old.items outlets.new.items) }
{
    for place in 0..outlets.len() {
        if let Some(inlet) = outlets[place].inlet() {
            return Some((inlet, place));
        }
    }
    None
}

/// Takes in the passes of the lane of this place: that of the subscriber that left, and the publisher's own
/// if it is there.
pub fn rejoin_at(outlets: &mut Vec<Outlet<'_>>, place: usize, other: overflow::Pass)
    requires { (lane : Outlet) × (slice_get outlets.old.items place ≡ Some lane) × (queue_of other ≡ waits_queue lane) }
    ensures holders { holders_in outlets.new.items ≡ holders_in outlets.old.items }
    ensures closed { open_in outlets.new.items ≡ slice_set (open_in outlets.old.items) place false }
    ensures taken_in { AtLane place (WasRejoined (view other)) outlets.old.items outlets.new.items }
    ensures others { EachOther place (λ old new. new ≡ old) outlets.old.items outlets.new.items }
{
    outlets[place].rejoin(other);
}

/// Whether the subscriber of the lane at this place takes part.
pub fn takes_part(outlets: &Vec<Outlet<'_>>, place: u64) -> bool
    ensures { IsTrue result ↔ (slice_get (open_in outlets.now.items) place ≡ Some true) }
{
    match outlets.get(place as usize) {
        Some(outlet) => outlet.is_open(),
        None => false,
    }
}

/// Sends a slot, with its number, to each subscriber that takes part and does not hold the slot. Answers how
/// many have gained it.
pub fn send_to_all(
    outlets: &mut Vec<Outlet<'_>>,
    pool: &mut Pool<'_>,
    layout: &Layout,
    lying: &Lying<'_>,
) -> usize
    requires placed { HaveTheirPlaces (holders_in outlets.old.items) }
    requires word { IsWord layout.now.room layout.now.places (lying_number lying.now) (lying_slot lying.now) }
    ensures holders { holders_in outlets.new.items ≡ holders_in outlets.old.items }
    ensures taking { open_in outlets.new.items ≡ open_in outlets.old.items }
    ensures served { EachLane (IsServed layout.now.room (lying_number lying.now) (lying_slot lying.now) (table_of pool.old) (table_of pool.new))
        outlets.old.items outlets.new.items }
    ensures number { result
        ≡ count_by (has_gained (lying_slot lying.now) (table_of pool.old) (table_of pool.new)) outlets.old.items }
    ensures rest { KeepsRest outlets.old.items (table_of pool.old) (table_of pool.new) }
    ensures gains { GainsOnly (lying_slot lying.now) (table_of pool.old) (table_of pool.new) }
    ensures loans { KeepsLoans (table_of pool.old) (table_of pool.new) }
    ensures nobody { result ≡ 0 → table_of pool.new ≡ table_of pool.old }
    ensures pool { IsSame pool.old pool.new }
{
    let mut number: usize = 0;
    for place in 0..outlets.len() {
        if outlets[place].send(pool, layout, lying) {
            number = number.saturating_add(1);
        }
    }
    number
}

/// Takes back the slots that subscribers have given back, of each lane at most as many as there are slots.
pub fn take_all_back(outlets: &mut Vec<Outlet<'_>>, pool: &mut Pool<'_>)
    requires { HaveTheirPlaces (holders_in outlets.old.items) }
    ensures holders { holders_in outlets.new.items ≡ holders_in outlets.old.items }
    ensures taking { open_in outlets.new.items ≡ open_in outlets.old.items }
    ensures taken { EachLane (IsTakenBack (slots_of pool.old) (table_of pool.old) (table_of pool.new))
        outlets.old.items outlets.new.items }
    ensures rest { KeepsRest outlets.old.items (table_of pool.old) (table_of pool.new) }
    ensures gains { GainsNone (table_of pool.old) (table_of pool.new) }
    ensures loans { KeepsLoans (table_of pool.old) (table_of pool.new) }
    ensures pool { IsSame pool.old pool.new }
{
    for place in 0..outlets.len() {
        outlets[place].take_back(pool);
    }
}

/// Settles each lane by what the roll shows. If the roll has not changed, only the Closed lanes are settled.
pub fn settle_all(
    rt: &impl Wait,
    outlets: &mut Vec<Outlet<'_>>,
    pool: &mut Pool<'_>,
    roll: &Roll<'_>,
    has_changed: bool,
)
    requires placed { HaveTheirPlaces (holders_in outlets.old.items) }
    requires shown { IsFalse has_changed → AreShown roll.now (open_in outlets.old.items) }
    ensures holders { holders_in outlets.new.items ≡ holders_in outlets.old.items }
    ensures settled { EachLane (IsSettled roll.now (table_of pool.old) (table_of pool.new)) outlets.old.items outlets.new.items }
    ensures rest { KeepsRest outlets.old.items (table_of pool.old) (table_of pool.new) }
    ensures all { KeepsAllOrNone (table_of pool.old) (table_of pool.new) }
    ensures loans { KeepsLoans (table_of pool.old) (table_of pool.new) }
    ensures pool { IsSame pool.old pool.new }
{
    for place in 0..outlets.len() {
        outlets[place].settle_by(rt, pool, roll, has_changed);
    }
}
