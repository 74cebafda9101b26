//! A work queue: one thread hands out jobs, and then the end, and another does each as it comes. Proved: all jobs that were handed
//! out are done, each once and in order.
ghost use Rattle.std.specs.Prelude.{◌≡◌, true, [], map, IfSome};
ghost use Rattle.lock_free_queues.specs.Queues.Values.{queue_id, inner, view, IsPassOf};
ghost use Rattle.uses_streams.specs.Ends.{sent_queue, received_queue, sent, received, has_ended};
ghost use Rattle.uses_streams.specs.Streams.{IsFreshHalf};
ghost use Rattle.uses_services.specs.Jobs.{outcome_of};

use lock_free_queues::spsc::queue::{Pass, Queue};
use std::alloc::Global;
use std::sync::Wait;
use std::thread::Threads;
use std::{io, thread};
use uses_streams::element::Element;
use uses_streams::ends::{Received, Receiver, Sender, Sent, Takes, halves};

type Jobs = Queue<Element<u32>, 16>;

type Half = Pass<Element<u32>>;

/// Hands out all jobs, and then the end.
fn hand_out(rt: &impl Wait, queue: &Jobs, half: Half, jobs: &[u32]) -> Option<Sent<u32>>
    requires pass { IsPassOf (inner queue.now) half }
    requires fresh { IsFreshHalf (view half) }
    ensures queue { IfSome result (λ s. sent_queue s ≡ queue_id (inner queue.now)) }
    ensures sent { IfSome result (λ s. sent s ≡ jobs.now) }
{
    let mut sender = Sender::new(queue, half)?;
    sender.send_all(rt, jobs);
    Some(sender.finish_waiting(rt))
}

/// Who does jobs, and what came of those that are done.
#[derive(Drop)]
struct Worker {
    done: Vec<u64>,
}

impl Takes<u32> for Worker {
    ghost has_taken = { λ jobs worker. worker.done.items ≡ map outcome_of jobs };

    fn take(&mut self, job: u32) -> bool {
        self.done.push(3 * job as u64 + 1).is_ok()
    }
}

/// Does each job as it comes, until the end. What comes of them goes into a list that has room for it.
fn work(
    rt: &impl Wait,
    queue: &Jobs,
    half: Half,
    room: Vec<u64>,
) -> Option<(Received<u32>, Vec<u64>)>
    requires pass { IsPassOf (inner queue.now) half }
    requires fresh { IsFreshHalf (view half) }
    requires empty { room.items ≡ [] }
    ensures queue { IfSome result (λ r. received_queue r.0 ≡ queue_id (inner queue.now)) }
    ensures done { IfSome result (λ r. r.1.items ≡ map outcome_of (received r.0)) }
    ensures end { IfSome result (λ r. has_ended r.0 ≡ true) }
{
    let mut worker = Worker { done: room };
    let mut receiver = Receiver::new(queue, half)?;
    if !receiver.receive_each(rt, &mut worker) {
        return None;
    }
    Some((receiver.leave(), worker.done))
}

/// Has the jobs done by a second thread: what came of them. None where there is no memory, or no further pass. Where no second thread
/// can be made, none is done before all are handed out, and it waits for good if they and the end have no room together.
fn run<R: Threads + Wait + Sync>(rt: &R, alloc: Global, jobs: &[u32]) -> Option<Vec<u64>>
    ensures { IfSome result (λ done. done.items ≡ map outcome_of jobs.now) }
{
    let room = Vec::with_capacity(alloc, jobs.len()).ok()?;
    let (queue, pass) = Jobs::new(alloc).ok()?;
    let (mine, other) = halves::<u32, 16>(pass)?;
    let shared = &queue;
    let (done, sent) = thread::join(
        rt,
        move || work(rt, shared, other, room),
        move || hand_out(rt, shared, mine, jobs),
    );
    let (received, done) = done?;
    sent?.join(received);
    Some(done)
}

/// Has a thousand jobs done, and prints how many were and the last of what came of them.
pub fn report<R: Threads + Wait + Print + Sync>(rt: &R, alloc: Global) -> io::Result<()> {
    let jobs: Vec<u32> = (0..1000u32).collect(alloc)?;
    match run(rt, alloc, &jobs) {
        Some(done) => println!(rt; "jobs done: {}; the last: {:?}", done.len(), done.last()),
        None => println!(rt; "no memory"),
    }
}
