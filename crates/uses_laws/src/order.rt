//! Two calls that a caller made itself, pushes or stores, stand in a linearization of the calls of all
//! threads in the order in which it made them. Two looks of one pass agree on the past.

ghost use Rattle.std.specs.Prelude.{IsTrue};
ghost use Rattle.lock_free.specs.Queues.Calls.{producer_queue, producer_view};
ghost use Rattle.lock_free.specs.Value.Calls as values;
ghost use Rattle.uses_laws.specs.Order.{LooksAgree, PushedInOrder, StoredInOrder};

use lock_free::laws::histories::{calls_are_in_order, calls_stand};
use lock_free::laws::queues::{histories_are_linearizable, histories_are_strongly_linearizable};
use lock_free::laws::value;
use lock_free::spmc::unrestricted_atomic;
use lock_free::spsc::index_queue::Producer;

/// Pushes two numbers, one after the other: whether both were taken. Then the calls of all threads have a linearization in
/// which the first push stands before the second.
pub fn push_both(producer: &mut Producer<'_>, first: u64, second: u64) -> bool
    ensures { IsTrue result → PushedInOrder (producer_queue producer.old).capacity first second
        (producer_view producer.new).seen }
{
    calls_stand::<u64>();
    calls_are_in_order::<u64>();
    histories_are_linearizable::<u64>();
    if !producer.push(first) {
        return false;
    }
    let taken = producer.push(second);
    producer.history();
    taken
}

/// Stores two numbers, one after the other: whether both were stored. Then the stores and loads of all threads have a
/// linearization in which the first store stands before the second.
pub fn store_both(
    producer: &mut unrestricted_atomic::Producer<'_, u64>,
    first: u64,
    second: u64,
) -> bool
    ensures { IsTrue result → StoredInOrder first second (values.producer_view producer.new).seen }
{
    calls_stand::<u64>();
    calls_are_in_order::<u64>();
    value::histories_are_linearizable::<u64>();
    if !producer.store(first) {
        return false;
    }
    let stored = producer.store(second);
    producer.history();
    stored
}

/// Pushes a number, and looks at the history before and after. What is known of the past stays: the order in which the calls of
/// all threads took effect, as far as it was known before the push, begins the order that is known after it.
pub fn push_and_look_again(producer: &mut Producer<'_>, number: u64) -> bool
    ensures { LooksAgree (producer_queue producer.old).capacity (producer_view producer.old).seen (producer_view producer.new).seen }
{
    histories_are_strongly_linearizable::<u64>();
    producer.history();
    let taken = producer.push(number);
    producer.history();
    taken
}
