//! Both ends of an index queue, made of one pass.

ghost use Rattle.std.specs.Prelude.{◌≡◌, IfSome};
ghost use Rattle.lock_free.specs.Queues.Calls.{consumer_queue, consumer_view, producer_queue, producer_view};
ghost use Rattle.lock_free.specs.Queues.Calls.{queue_of, view, IsPassOf};
ghost use Rattle.uses_laws.specs.Parted.{HasParted};

use lock_free::spsc::index_queue::{Consumer, IndexQueue, Pass, Producer};

/// Parts the pass into both ends of the queue, which may go to a thread each, in at most three steps. Each end has half of the
/// share that the pass had, knows what it knew, and has made one call more, which took its role. None where a part or a role
/// was not to be had, and then the pass is gone.
pub fn both_ends(queue: &IndexQueue, pass: Pass) -> Option<(Producer<'_>, Consumer<'_>)>
    requires { IsPassOf queue.now pass }
    ensures queue { IfSome result (λ e. (producer_queue e.0 ≡ queue_of pass) × (consumer_queue e.1 ≡ queue_of pass)) }
    ensures parted { IfSome result (λ e. HasParted (view pass) (producer_view e.0) (consumer_view e.1)) }
{
    queue.ends(pass)
}
