//! Lists of thousands of turns that a machine takes in one run, and a run that stops at a
//! turn that is refused.
use machine::{Machine, Stopped};
use model::event::{Event, Start};
use model::families::queues::QueueStart;
use model::turn::{Kind, Refusal, Shape, Turn};
use std::alloc::Global;

/// How often a number goes through the queue.
const ROUNDS: u64 = 1000;

/// The call that takes a number out of the queue.
const POP: Start<u128> = Start::Queues(QueueStart::Pop);

/// Adds the begin of a call of the party, and `turns` turns of it, to the list. None
/// where there is no memory.
fn add(list: &mut Vec<Turn<u128>>, party: u32, call: QueueStart<u128>, turns: u64) -> Option<()> {
    list.push(Turn::Begin(party, Start::Queues(call))).ok()?;
    for _ in 0..turns {
        list.push(Turn::Next(party)).ok()?;
    }
    Some(())
}

/// A list in which parties take both roles of a queue, by four turns, and then push and pop `ROUNDS` numbers,
/// by ten turns each.
fn rounds(alloc: Global) -> Option<Vec<Turn<u128>>> {
    let mut list = Vec::new(alloc);
    add(&mut list, 0, QueueStart::AcquireProducer, 1)?;
    add(&mut list, 1, QueueStart::AcquireConsumer, 1)?;
    for number in 0..ROUNDS {
        add(&mut list, 0, QueueStart::PushIndex(number), 4)?;
        add(&mut list, 1, QueueStart::Pop, 4)?;
    }
    Some(list)
}

/// Whether the machine takes all turns of the list in one run. In the end 1,000 numbers have gone through,
/// the cells hold the last three, and 8,004 events were written down.
fn take_all(machine: &mut Machine<u128>, list: &[Turn<u128>]) -> bool {
    machine.run(list) == list.len()
        && machine.words() == [ROUNDS, ROUNDS, 0, 0, 999, 997, 998].as_slice()
        && machine.events().len() == 8004
}

/// Whether a run stops at the first turn that is refused, keeps the turns before it, and says why: a party
/// that is busy, and one that is idle.
fn stop_right(machine: &mut Machine<u128>) -> bool {
    let busy = [Turn::Begin(1, POP), Turn::Begin(1, POP)];
    let idle = [Turn::Next(1), Turn::Next(1), Turn::Next(1)];
    let last = Event::Finished(1, POP, model::event::Answer::PoppedNone);
    machine.run(&[Turn::Next(1), Turn::Begin(1, POP)]) == 0
        && stops(machine, &busy, 1, Refusal::Busy)
        && machine.run(&busy) == 0
        && stops(machine, &idle, 2, Refusal::Idle)
        && machine.events().last() == Some(&last)
        && machine.run_all(&[]).is_ok()
}

/// Whether the list stops after `taken` turns by this refusal.
fn stops(machine: &mut Machine<u128>, list: &[Turn<u128>], taken: usize, refusal: Refusal) -> bool {
    match machine.run_all(list) {
        Ok(()) => false,
        Err(stopped) => is_so(stopped, taken, refusal),
    }
}

/// Whether a run was stopped after `taken` turns by this refusal.
fn is_so(stopped: Stopped, taken: usize, refusal: Refusal) -> bool {
    stopped.taken as usize == taken && stopped.refusal == refusal
}

/// Whether a new machine takes a list of ten thousand turns, and then stops lists at the
/// turns that it refuses.
pub fn are_taken(alloc: Global) -> bool {
    let Some(list) = rounds(alloc) else {
        return false;
    };
    match Machine::new(alloc, Shape::Of(Kind::IndexQueue, 3), 2) {
        Ok(mut machine) => take_all(&mut machine, &list) && stop_right(&mut machine),
        Err(_) => false,
    }
}
