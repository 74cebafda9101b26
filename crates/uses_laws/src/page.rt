//! What a thread knows of an index queue, in the words of the queue's page (`pages/specs/IndexQueue.antt`).

ghost use Rattle.std.specs.Prelude.{IsTrue};
ghost use Rattle.lock_free.specs.Queues.Calls.{producer_queue, producer_view};
ghost use Rattle.pages.specs.IndexQueueBridge.{by_role};
ghost use Rattle.pages.specs.RolesBridge.{all_told};
ghost use Rattle.uses_laws.specs.Page.{HasPushedBoth};

use lock_free::spsc::index_queue::Producer;
use pages_threads::{passes_are_linearizable, passes_run_the_pages};

/// Pushes two numbers, one after the other: whether both were taken. Then all threads' pushes and pops that the producer has
/// seen are one run of the page's machine, which had come to the end of the first push, and has gone on to the end of the
/// second. Whoever reads this contract needs the page, and nothing that says how the queue's threads run.
pub fn push_both_by_page(producer: &mut Producer<'_>, first: u64, second: u64) -> bool
    ensures { IsTrue result → HasPushedBoth (producer_queue producer.old).capacity first second
        (all_told by_role (producer_view producer.new).seen) }
{
    passes_run_the_pages::<u64>();
    passes_are_linearizable::<u64>();
    if !producer.push(first) {
        return false;
    }
    producer.history();
    let taken = producer.push(second);
    producer.history();
    taken
}
