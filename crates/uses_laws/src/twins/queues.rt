//! Laws of an index queue that no other client has a use for, at single calls and of all that a pass has seen.
ghost use Rattle.std.specs.Prelude.{◌≡◌, ◌<◌, ◌+◌, ◌-◌, ◌^◌, ◌++◌, ◌∷◌, [], ℕ, Some, None, List, length, sum_by, IsSome, IsTrue};
ghost use Rattle.model.specs.declared.event.Event.{Event};
ghost use Rattle.model.specs.declared.event.Event.TheVariants.{Published, HandedOut};
ghost use Rattle.model.specs.declared.event.Item.{Item};
ghost use Rattle.model.specs.declared.event.Item.TheVariants.{Index};
ghost use Rattle.steps.specs.declared.queues.roles.Role.TheVariants as roles;
ghost use Rattle.model.specs.Families.Queues.Reading.{published, handed_out, waiting};
ghost use Rattle.lock_free.specs.HistorySteps.{TakesAtMost};
ghost use Rattle.lock_free.specs.Queues.Calls.{producer_queue, producer_view, consumer_view, queue_of, view, IsPassOf, MissesNothing};
ghost use Rattle.lock_free.specs.Queues.Contracts.{HasSeenRole};
ghost use Rattle.lock_free.specs.Queues.Positions.{IsPublished, IsTaken};
ghost use Rattle.lock_free.specs.Queues.Sums.{gets, puts};
ghost use Rattle.lock_free.specs.Shares.{IsAll};

use lock_free::laws::queues;
use lock_free::spsc::index_queue::{Consumer, IndexQueue, Pass, Producer};

/// Pushes a number where the producer has seen room, and not the last position: it is taken, at the position after all that it
/// had seen published.
pub fn push_with_room(producer: &mut Producer<'_>, number: u64) -> bool
    requires room { length (waiting (producer_view producer.old).seen) < (producer_queue producer.old).capacity }
    requires few { length (published (producer_view producer.old).seen) < 2 ^ 64 - 1 }
    ensures taken { IsTrue result }
    ensures next { IsTrue result → (p : ℕ)
        × IsPublished p (length (published (producer_view producer.old).seen)) (Index number) (producer_view producer.new).seen }
    ensures above { (p position : ℕ) (item : Item ℕ) → IsPublished p position item (producer_view producer.old).seen
        → position < length (published (producer_view producer.old).seen) }
    ensures counted { IsTrue result → sum_by puts (producer_view producer.new).made ≡ sum_by puts (producer_view producer.old).made + 1 }
{
    queues::pushes_succeed::<u64>();
    queues::positions_rise::<u64>();
    queues::calls_are_counted::<u64>();
    producer.push(number)
}

/// Pops where the consumer has seen a number wait: there is one, at the position after all that it had seen taken.
pub fn pop_what_waits(consumer: &mut Consumer<'_>) -> Option<u64>
    requires { 0 < length (waiting (consumer_view consumer.old).seen) }
    ensures found { IsSome result }
    ensures next { (number : ℕ) → result ≡ Some number → (p : ℕ)
        × IsTaken p (length (handed_out (consumer_view consumer.old).seen)) (Index number) (consumer_view consumer.new).seen }
    ensures below { (p position : ℕ) (item : Item ℕ) → IsTaken p position item (consumer_view consumer.old).seen
        → position < length (handed_out (consumer_view consumer.old).seen) }
    ensures counted { (number : ℕ) → result ≡ Some number
        → sum_by gets (consumer_view consumer.new).made ≡ sum_by gets (consumer_view consumer.old).made + 1 }
{
    queues::pops_succeed::<u64, u64>();
    queues::positions_rise::<u64>();
    queues::calls_are_counted::<u64>();
    consumer.pop()
}

/// Pops with the whole share. If there is nothing, all that was published was taken, and the consumer had seen that.
pub fn pop_of_all(consumer: &mut Consumer<'_>) -> Option<u64>
    requires whole { IsAll (consumer_view consumer.old).share }
    requires all { MissesNothing (consumer_view consumer.old) }
    ensures emptied { result ≡ None → handed_out (consumer_view consumer.new).seen ≡ published (consumer_view consumer.new).seen }
    ensures seen { result ≡ None → (p position : ℕ) (item : Item ℕ) → IsPublished p position item (consumer_view consumer.old).seen
        → position < length (handed_out (consumer_view consumer.old).seen) }
{
    queues::emptied_is_all::<u64>();
    queues::refusals_are_right::<u64>();
    let popped = consumer.pop();
    consumer.history();
    popped
}

/// Peeks, and then pops, in 7 steps at most. If the peek found a number, the pop takes that one, and nothing else was taken.
pub fn peek_and_pop(consumer: &mut Consumer<'_>) -> (Option<u64>, Option<u64>)
    ensures same { (number : ℕ) → result.0 ≡ Some number → result.1 ≡ Some number }
    ensures taken { (number : ℕ) → result.1 ≡ Some number
        → handed_out (consumer_view consumer.new).seen ≡ handed_out (consumer_view consumer.old).seen ++ Index number ∷ [] }
    ensures counted { (number : ℕ) → result.1 ≡ Some number
        → sum_by gets (consumer_view consumer.new).made ≡ sum_by gets (consumer_view consumer.old).made + 1 }
    ensures steps { TakesAtMost 7 (consumer_view consumer.old) (consumer_view consumer.new) }
{
    queues::peeks_tell_pops::<u64>();
    queues::calls_are_counted::<u64>();
    let seen = consumer.peek();
    let popped = consumer.pop();
    consumer.history();
    (seen, popped)
}

/// Looks whether somebody produces, in one step. It publishes nothing.
pub fn has_producer(queue: &IndexQueue, pass: &mut Pass) -> bool
    requires { IsPassOf queue.now pass.old }
    ensures answer { HasSeenRole roles.Producer result (view pass.old) (view pass.new) }
    ensures counted { sum_by puts (view pass.new).made ≡ sum_by puts (view pass.old).made }
    ensures steps { TakesAtMost 1 (view pass.old) (view pass.new) }
{
    queues::calls_are_counted::<u64>();
    queue.has_producer(pass)
}

/// Looks whether somebody consumes, in one step.
pub fn has_consumer(queue: &IndexQueue, pass: &mut Pass) -> bool
    requires { IsPassOf queue.now pass.old }
    ensures answer { HasSeenRole roles.Consumer result (view pass.old) (view pass.new) }
    ensures steps { TakesAtMost 1 (view pass.old) (view pass.new) }
{
    queue.has_consumer(pass)
}

/// Takes the other pass in. What was published and taken, as far as this one had seen, stays so.
pub fn keep_positions(pass: &mut Pass, other: Pass)
    requires { queue_of other ≡ queue_of pass.old }
    ensures published { (p position : ℕ) (item : Item ℕ) → IsPublished p position item (view pass.old).seen
        → IsPublished p position item (view pass.new).seen }
    ensures taken { (p position : ℕ) (item : Item ℕ) → IsTaken p position item (view pass.old).seen
        → IsTaken p position item (view pass.new).seen }
{
    queues::positions_stay::<u64>();
    pass.join(other);
}

/// No two numbers were published at one position of the queue's history, and no two were taken at one
/// position. The number taken after n others is the one published after n others.
pub fn of_positions(pass: &Pass)
    ensures published { (p q : ℕ) (x y : Item ℕ) (before after earlier later : List (Event ℕ))
        → (view pass.now).seen ≡ before ++ Published p x ∷ after → (view pass.now).seen ≡ earlier ++ Published q y ∷ later
        → length (published before) ≡ length (published earlier) → (p ≡ q) × (x ≡ y) }
    ensures taken { (p q : ℕ) (x y : Item ℕ) (before after earlier later : List (Event ℕ))
        → (view pass.now).seen ≡ before ++ HandedOut p x ∷ after → (view pass.now).seen ≡ earlier ++ HandedOut q y ∷ later
        → length (handed_out before) ≡ length (handed_out earlier) → (p ≡ q) × (x ≡ y) }
    ensures agree { (p q : ℕ) (x y : Item ℕ) (before after earlier later : List (Event ℕ))
        → (view pass.now).seen ≡ before ++ Published p x ∷ after → (view pass.now).seen ≡ earlier ++ HandedOut q y ∷ later
        → length (published before) ≡ length (handed_out earlier) → x ≡ y }
{
    queues::positions_are_once::<u64>();
    queues::values_agree::<u64>();
    pass.history();
}
