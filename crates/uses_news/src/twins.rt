//! Calls of the bus once more, each with a clause that the program has no use for, so that the clause cannot go out of the call
//! unnoticed. What a wrong body would leave, and the clause refuses, stands in `proofs/WrongBodies.antt`, `WrongRejoins.antt`,
//! `WrongSubscribers.antt` and `WrongTries.antt` of the bus.
ghost use Rattle.std.specs.Prelude.{◌≡◌, ◌+◌, ◌<◌, Bool, List, ℕ, [], ◌∷◌, true, false, Some, slice_get, slice_set, IfErr, IfNone, IfOk, IfSome, OnErr};
ghost use Rattle.lock_free.specs.Robust.Contracts.{WasFreed};
ghost use Rattle.lock_free.specs.Unique.Held.{HoldsNothing};
ghost use Rattle.lock_free.specs.UniqueIndexSet.{made};
ghost use Rattle.zero_copy_bus.specs.Books.{AllFree, IsLoaned};
ghost use Rattle.zero_copy_bus.specs.Ends.{expected_at, layout_at, loaned, number_of, numbers_of, slots_at, slots_of, CanSendToAll, HasHad, HasTried, TookOut};
ghost use Rattle.zero_copy_bus.specs.Ends.{first_before, inlet_at, inlet_before, lanes_of, layout_before, members_left, members_view};
ghost use Rattle.zero_copy_bus.specs.Ends.{place_at, place_before, place_left, received, receives_left, record_of, roll_of, slots_before};
ghost use Rattle.zero_copy_bus.specs.Ends.{records_of, spares_in, table_of, IsAgain, IsOfLane, IsTakenFor, WasKept, WasNotSubscribed, WasSeated};
ghost use Rattle.zero_copy_bus.specs.Outlets.{open_in, AtLane, EachLane, StaysOrLost, WasRejoined};
ghost use Rattle.zero_copy_bus.specs.Rolls.{HasLooked, HasNotLooked, HasRecovered};
ghost use Rattle.zero_copy_bus.specs.Sequences.{Rises};
ghost use Rattle.zero_copy_slots.specs.Slots.{number_in, slot_in, value_in};

use lock_free::mpmc::container::{ContainerAddFailure, ContainerRemoveError, OwnerId};
use lock_free::mpmc::unique_index_set::Pass;
use std::sync::Wait;
use zero_copy_bus::error::{LoanFailure, SubscribeFailure};
use zero_copy_bus::publisher::{Loan, Publisher};
use zero_copy_bus::subscriber::{Left, Sample, Seat, Subscriber};
use zero_copy_slots::{Keeps, Reading};

/// A subscriber that `subscribe` returns takes part as this owner, as of a look of this
/// call. A refusal says why.
pub fn subscribe<'a, X: Drop, K: Keeps<X>>(
    publisher: &mut Publisher<'a, X, K>,
    rt: &impl Wait,
    owner: OwnerId,
) -> Result<Subscriber<'a, X, K>, SubscribeFailure>
    ensures looked { IfOk result (λ _. (changed : Bool) × HasLooked changed (roll_of publisher.old) (roll_of publisher.new)) }
    ensures part { IfOk result (λ s. slice_get (open_in (lanes_of publisher.new)) (place_at s) ≡ Some true) }
    ensures owner { IfOk result (λ s. (record_of s).owner ≡ owner) }
    ensures settled { IfOk result (WasSeated publisher.old publisher.new) }
    ensures refused { IfErr result (WasNotSubscribed owner publisher.old publisher.new) }
{
    publisher.subscribe(rt, owner)
}

/// If no seat is given, only free lanes may be lost. `seat` makes no look at the registry.
pub fn seat<'a, X: Drop, K: Keeps<X>>(publisher: &mut Publisher<'a, X, K>) -> Option<Seat<'a, X, K>>
    ensures none { IfNone result (EachLane StaysOrLost (lanes_of publisher.old) (lanes_of publisher.new)) }
    ensures looks { HasNotLooked (roll_of publisher.old) (roll_of publisher.new) }
{
    publisher.seat()
}

/// A subscriber has the end of the lane that its seat had. A seat that comes back from a
/// refused `join` is unchanged.
pub fn join<'a, X: Drop, K: Keeps<X>>(
    seat: Seat<'a, X, K>,
    rt: &impl Wait,
    owner: OwnerId,
) -> Result<Subscriber<'a, X, K>, (ContainerAddFailure, Seat<'a, X, K>)>
    ensures inlet { IfOk result (λ s. inlet_at s ≡ inlet_before seat.entry) }
    ensures back { IfErr result (λ e. slots_before e.1 ≡ slots_before seat.entry) }
    ensures place { IfErr result (λ e. place_before e.1 ≡ place_before seat.entry) }
    ensures first_back { IfErr result (λ e. first_before e.1 ≡ first_before seat.entry) }
    ensures layout_back { IfErr result (λ e. layout_before e.1 ≡ layout_before seat.entry) }
    ensures inlet_back { IfErr result (λ e. inlet_before e.1 ≡ inlet_before seat.entry) }
{
    seat.join(rt, owner)
}

/// `update` makes one look at the registry.
pub fn update<X: Drop, K: Keeps<X>>(publisher: &mut Publisher<'_, X, K>, rt: &impl Wait)
    ensures looked { (changed : Bool) × HasLooked changed (roll_of publisher.old) (roll_of publisher.new) }
{
    publisher.update(rt);
}

/// `recover` takes the dead owner's records out of the registry, and then looks at it.
pub fn recover<X: Drop, K: Keeps<X>>(
    publisher: &mut Publisher<'_, X, K>,
    rt: &impl Wait,
    dead: OwnerId,
)
    ensures recovered { HasRecovered dead (roll_of publisher.old) (roll_of publisher.new) }
{
    publisher.recover(rt, dead);
}

/// `borrowed` changes no lane.
pub fn borrowed<X: Drop, K: Keeps<X>>(publisher: &mut Publisher<'_, X, K>) -> usize
    ensures lanes { lanes_of publisher.new ≡ lanes_of publisher.old }
{
    publisher.borrowed()
}

/// A loan that is refused by `NoRecord` finds no record to write. No refused loan uses a record up.
pub fn loan<'a, X: Drop, K: Keeps<X>>(
    publisher: &mut Publisher<'a, X, K>,
    rt: &impl Wait,
) -> Result<Loan<'a, X, K>, LoanFailure>
    ensures kept { OnErr result (spares_in publisher.new ≡ spares_in publisher.old) }
    ensures refused { IfErr result (IsTakenFor (records_of publisher.old) (spares_in publisher.old) (table_of publisher.old) (table_of publisher.new)) }
{
    publisher.loan(rt)
}

/// `collect` uses no record up.
pub fn collect<X: Drop, K: Keeps<X>>(publisher: &mut Publisher<'_, X, K>)
    ensures spares { spares_in publisher.new ≡ spares_in publisher.old }
{
    publisher.collect();
}

/// A loan that is waited for is of a slot that was not on loan, and that no subscriber holds. Meanwhile no
/// record is sent, only the record of the loan is used up, and of a subscriber's slots only those that came
/// back are taken back.
pub fn loan_waiting<'a, X: Drop, K: Keeps<X>>(
    publisher: &mut Publisher<'a, X, K>,
    rt: &impl Wait,
) -> Loan<'a, X, K>
    ensures within { loaned result < slots_of publisher.old }
    ensures fresh { ¬ IsLoaned (table_of publisher.old) (loaned result) }
    ensures loaned { IsLoaned (table_of publisher.new) (loaned result) }
    ensures can { CanSendToAll publisher.new (loaned result) }
    ensures spares { spares_in publisher.new + 1 ≡ spares_in publisher.old }
    ensures tried { HasTried publisher.old publisher.new }
{
    publisher.loan_waiting(rt)
}

/// The clauses of `loan_waiting` hold of `loan_within` too, also if no loan comes.
pub fn loan_within<'a, X: Drop, K: Keeps<X>>(
    publisher: &mut Publisher<'a, X, K>,
    rt: &impl Wait,
    tries: u64,
) -> Option<Loan<'a, X, K>>
    ensures within { IfSome result (λ l. loaned l < slots_of publisher.old) }
    ensures fresh { IfSome result (λ l. ¬ IsLoaned (table_of publisher.old) (loaned l)) }
    ensures loaned { IfSome result (λ l. IsLoaned (table_of publisher.new) (loaned l)) }
    ensures can { IfSome result (λ l. CanSendToAll publisher.new (loaned l)) }
    ensures spares { IfSome result (λ l. spares_in publisher.new + 1 ≡ spares_in publisher.old) }
    ensures kept { IfNone result (spares_in publisher.new ≡ spares_in publisher.old) }
    ensures tried { HasTried publisher.old publisher.new }
{
    publisher.loan_within(rt, tries)
}

/// A record that is waited for is the first one that came with a number not below the one expected.
pub fn receive_waiting<X: Drop, K: Keeps<X>>(
    subscriber: &mut Subscriber<'_, X, K>,
    rt: &impl Wait,
) -> Sample
    ensures within { received result < slots_at subscriber.old }
    ensures oldest { TookOut result subscriber.old subscriber.new }
    ensures rises { Rises (expected_at subscriber.old) (number_of result ∷ []) (expected_at subscriber.new) }
    ensures had { (came : List ℕ) × HasHad came (number_of result ∷ []) subscriber.old subscriber.new }
    ensures same { (slots_at subscriber.new ≡ slots_at subscriber.old) × (layout_at subscriber.new ≡ layout_at subscriber.old)
        × (place_at subscriber.new ≡ place_at subscriber.old) }
{
    subscriber.receive_waiting(rt)
}

/// The clauses of `receive_waiting` hold of `receive_within` too. If no record comes, each number that came
/// was below the one expected.
pub fn receive_within<X: Drop, K: Keeps<X>>(
    subscriber: &mut Subscriber<'_, X, K>,
    rt: &impl Wait,
    tries: u64,
) -> Option<Sample>
    ensures within { IfSome result (λ s. received s < slots_at subscriber.old) }
    ensures oldest { IfSome result (λ s. TookOut s subscriber.old subscriber.new) }
    ensures rises { Rises (expected_at subscriber.old) (numbers_of result) (expected_at subscriber.new) }
    ensures had { (came : List ℕ) × HasHad came (numbers_of result) subscriber.old subscriber.new }
    ensures same { (slots_at subscriber.new ≡ slots_at subscriber.old) × (layout_at subscriber.new ≡ layout_at subscriber.old)
        × (place_at subscriber.new ≡ place_at subscriber.old) }
{
    subscriber.receive_within(rt, tries)
}

/// A loan derefs to its value.
pub fn shown<'b, X: Drop, K: Keeps<X>>(loan: &'b Loan<'_, X, K>) -> &'b X
    ensures { result.now ≡ loan.now.value }
{
    &**loan
}

/// A reading derefs to the value that lies in its slot, which keeps the rule.
pub fn read_shown<'b, X, K: Keeps<X>>(reading: &'b Reading<'_, X, K>) -> &'b X
    ensures fits { K.holds (number_in reading.now) result.now }
    ensures same { value_in reading.now ≡ Some result.now }
{
    &**reading
}

/// The record that is read lies in the slot of the sample, with its number.
pub fn read<'b, X: Drop, K: Keeps<X>>(
    subscriber: &'b Subscriber<'_, X, K>,
    sample: &Sample,
) -> Option<Reading<'b, X, K>>
    ensures slot { IfSome result (λ r. slot_in r ≡ received sample.now) }
{
    subscriber.read(sample).ok()
}

/// A subscriber that leaves has no record in the registry any more. If the registry refuses, it comes back
/// unchanged, with the reason.
pub fn leave<'a, X: Drop, K: Keeps<X>>(
    subscriber: Subscriber<'a, X, K>,
    rt: &impl Wait,
) -> Result<Left<'a>, (ContainerRemoveError, Subscriber<'a, X, K>)>
    ensures removed { IfOk result
        (λ l. WasFreed (record_of subscriber.entry).index (record_of subscriber.entry).owner
        (members_view subscriber.entry) (members_left l)) }
    ensures kept { IfErr result (λ e. WasKept subscriber.entry e.1 e.0) }
    ensures again { IfErr result (λ e. IsAgain subscriber.entry e.1) }
{
    subscriber.leave(rt)
}

/// The lane of a subscriber whose pass is taken in does not become free, and the subscriber takes part no
/// more. The table and the slots that it gave back are unchanged. The pass is taken in also if the publisher
/// has no guard of the lane any more.
pub fn rejoin<X: Drop, K: Keeps<X>>(publisher: &mut Publisher<'_, X, K>, left: Left<'_>)
    requires { IsOfLane left publisher.old }
    ensures taken_in { AtLane (place_left left.entry) (WasRejoined (receives_left left.entry)) (lanes_of publisher.old) (lanes_of publisher.new) }
    ensures taking { open_in (lanes_of publisher.new) ≡ slice_set (open_in (lanes_of publisher.old)) (place_left left.entry) false }
    ensures table { table_of publisher.new ≡ table_of publisher.old }
{
    publisher.rejoin(left);
}

/// A publisher by whose table nobody holds a slot gives up a pass that holds none: also a slot that it kept went
/// back to the pool.
pub fn finish<X: Drop, K: Keeps<X>>(publisher: Publisher<'_, X, K>) -> (Pass, Vec<X>)
    ensures free { AllFree (table_of publisher.entry) → HoldsNothing (made result.0) }
{
    publisher.finish()
}
