//! A caller that waits for the producer's role of a queue, with clauses about what its pass has seen.
ghost use Rattle.std.specs.Prelude.{◌≡◌, IfOk};
ghost use Rattle.lock_free.specs.Queues.Calls.{view, queue_of, IsPassOf, producer_view, producer_queue};
ghost use Rattle.lock_free.specs.Queues.Sums.{HasDone};

use lock_free::spsc::index_queue::{IndexQueue, Pass, Producer};
use std::sync::Wait;
use std::test::Fail;
use std::thread;

/// Waits for the producer's role. Each time that another caller has it the pass comes back, and has seen
/// more. No push and no pop is made by it.
fn wait_for_producer<'a>(rt: &impl Wait, queue: &'a IndexQueue, pass: Pass) -> Producer<'a>
    requires { IsPassOf queue.now pass }
    ensures queue { producer_queue result ≡ queue_of pass }
    ensures share { (producer_view result).share ≡ (view pass).share }
    ensures none { HasDone 0 0 (view pass) (producer_view result) }
{
    let mut waiting = pass;
    for _ in rt.forever() {
        match queue.acquire_producer(waiting) {
            Ok(producer) => return producer,
            Err(pass) => waiting = pass,
        }
        thread::yield_now();
    }
    unreachable!()
}

/// A role that is free is got at once, and the producer can push.
#[test]
fn a_role_that_is_free(rt: HostRuntime) -> Result<(), Fail> {
    let (queue, pass) = IndexQueue::new(rt.alloc(), 2)?;
    let mut producer = wait_for_producer(&rt, &queue, pass);
    assert!(rt; producer.push(7));
    Ok(())
}
