//! Sends numbers from one thread to another, which receives until the end. Proved: what came is what was sent.
#![tactic(auto)]

pub mod twins;

ghost use Rattle.std.specs.Prelude.{◌≡◌, true, [], IfSome};
ghost use Rattle.lock_free_queues.specs.Queues.Values.{queue_id, inner, view, IsPassOf};
ghost use Rattle.uses_streams.specs.Ends.{sent_queue, received_queue, sent, received, has_ended};
ghost use Rattle.uses_streams.specs.Streams.{IsFreshHalf};

use lock_free_queues::spsc::queue::{Pass, Queue};
use std::alloc::Global;
use std::process::ExitCode;
use std::sync::Wait;
use std::thread::Threads;
use std::{io, thread};
use uses_streams::element::Element;
use uses_streams::ends::{Received, Receiver, Sender, Sent, halves};

/// A queue with room for four.
type Stream = Queue<Element<u64>, 4>;

/// A half of its first pass.
type Half = Pass<Element<u64>>;

/// Sends all numbers, and then the end.
fn send(rt: &impl Wait, stream: &Stream, half: Half, numbers: &[u64]) -> Option<Sent<u64>>
    requires pass { IsPassOf (inner stream.now) half }
    requires fresh { IsFreshHalf (view half) }
    ensures stream { IfSome result (λ s. sent_queue s ≡ queue_id (inner stream.now)) }
    ensures sent { IfSome result (λ s. sent s ≡ numbers.now) }
{
    let mut sender = Sender::new(stream, half)?;
    sender.send_all(rt, numbers);
    Some(sender.finish_waiting(rt))
}

/// Receives until the end, into a list that has room.
fn receive(
    rt: &impl Wait,
    stream: &Stream,
    half: Half,
    room: Vec<u64>,
) -> Option<(Received<u64>, Vec<u64>)>
    requires pass { IsPassOf (inner stream.now) half }
    requires fresh { IsFreshHalf (view half) }
    requires empty { room.items ≡ [] }
    ensures stream { IfSome result (λ r. received_queue r.0 ≡ queue_id (inner stream.now)) }
    ensures came { IfSome result (λ r. received r.0 ≡ r.1.items) }
    ensures end { IfSome result (λ r. has_ended r.0 ≡ true) }
{
    let mut came = room;
    let mut receiver = Receiver::new(stream, half)?;
    receiver.receive_all(rt, &mut came).ok()?;
    Some((receiver.leave(), came))
}

/// Sends the numbers from one thread to another: what came. None where there is no memory, or no further pass. Where no second
/// thread can be made it sends before it receives (no test says so), and waits for good if the numbers and the end have no room
/// together.
fn transfer<R: Threads + Wait + Sync>(rt: &R, alloc: Global, numbers: &[u64]) -> Option<Vec<u64>>
    ensures { IfSome result (λ came. came.items ≡ numbers.now) }
{
    // (room for one more, which `receive_all` makes before the end comes, too)
    let room = Vec::with_capacity(alloc, numbers.len() + 1).ok()?;
    let (stream, pass) = Stream::new(alloc).ok()?;
    let (mine, other) = halves::<u64, 4>(pass)?;
    let shared = &stream;
    let (received, sent) = thread::join(
        rt,
        move || receive(rt, shared, other, room),
        move || send(rt, shared, mine, numbers),
    );
    let sent = sent?;
    let (received, came) = received?;
    sent.join(received);
    Some(came)
}

/// Sends twelve numbers, and prints those that came.
fn main(rt: HostRuntime) -> io::Result<ExitCode> {
    let numbers = [3, 1, 4, 1, 5, 9, 2, 6, 5, 3, 5, 8];
    let Some(came) = transfer(&rt, rt.alloc(), &numbers) else {
        eprintln!(rt; "no memory, or no further pass")?;
        return Ok(ExitCode::FAILURE);
    };
    println!(rt; "came, until the end: {came:?}")?;
    Ok(ExitCode::SUCCESS)
}
