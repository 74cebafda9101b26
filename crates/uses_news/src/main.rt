//! One thread publishes a hundred blocks of 64 KiB, each full of the mark of its number, and two others read
//! them where they lie. Proved of what each of them reads: they are the marks of numbers that rise strictly
//! and are below 100, though nobody copies a block. Every number that was published went out to both, and of
//! these a beginning was read or came back unread, each once, and both in order (`hear`).
#![tactic(auto)]

pub mod twins;

ghost use Rattle.std.specs.Prelude.{◌≡◌, ◌<◌, ◌≤◌, [], IfSome, IsTrue, replicate};
ghost use Rattle.zero_copy_bus.specs.Ends.{lanes_of, next_of, number_of};
ghost use Rattle.zero_copy_bus.specs.Outlets.{AllNew};
ghost use Rattle.zero_copy_bus.specs.Relays.{HasPublished};
ghost use Rattle.uses_news.specs.Marks.{mark, AreNewsByTwo, AreNewsFrom, HasRead};

use lock_free::mpmc::container::OwnerId;
use std::alloc::Global;
use std::process::ExitCode;
use std::sync::Wait;
use std::thread::Threads;
use std::{io, thread};
use zero_copy_bus::bus::{Bus, Sizes};
use zero_copy_bus::publisher::Publisher;
use zero_copy_bus::subscriber::{Sample, Subscriber};
use zero_copy_slots::Keeps;

/// How many words of 8 bytes a block has: 64 KiB.
const WORDS: usize = 8192;

/// How many blocks are published.
const BLOCKS: u64 = 100;

/// How many times a thread tries, and lets another thread run, before it gives up.
const TRIES: u64 = 1 << 26;

/// The bus: 7 slots, at most 2 subscribers, and a queue of 2 for each.
const SIZES: Sizes = Sizes {
    slots: 7,
    subscribers: 2,
    queue: 2,
};

/// The rule that a block is full of the mark of its number, which is one of a hundred.
struct Marked;

impl Keeps<Vec<u64>> for Marked {
    ghost use Rattle.uses_news.specs.Marks.{IsBlockOf};

    ghost holds = { λ number block. IsBlockOf number block.items };
}

/// Makes `number` blocks to write, each of 64 KiB.
fn blocks(alloc: Global, number: usize) -> Option<Vec<Vec<u64>>> {
    let mut blocks = Vec::new(alloc);
    for _ in 0..number {
        blocks.push(vec![in alloc; 0u64; WORDS].ok()?).ok()?;
    }
    Some(blocks)
}

/// Fills a block. False where it has another size.
fn fill(block: &mut Vec<u64>, word: u64) -> bool
    ensures { IsTrue result → block.new.items ≡ replicate 8192 word }
{
    if block.len() != WORDS {
        return false;
    }
    block.fill(word);
    true
}

/// Publishes the block of the number that comes next. Returns to how many subscribers it went. None where no
/// slot came, all blocks are published, or the block of the slot has another size.
fn publish_one(rt: &impl Wait, publisher: &mut Publisher<'_, Vec<u64>, Marked>) -> Option<usize>
    ensures out { HasPublished publisher.old publisher.new }
    ensures few { next_of publisher.old ≤ 100 → next_of publisher.new ≤ 100 }
{
    let number = publisher.next_number();
    if number >= BLOCKS {
        return None;
    }
    let mut loan = publisher.loan_within(rt, TRIES)?;
    if !fill(&mut loan.value, 3 * number + 1) {
        return None;
    }
    Some(publisher.publish(loan))
}

/// Publishes blocks, at most all, until `publish_one` returns None. Returns to how many subscribers each went, added up.
fn publish_all(rt: &impl Wait, publisher: &mut Publisher<'_, Vec<u64>, Marked>) -> usize
    ensures out { HasPublished publisher.old publisher.new }
    ensures few { next_of publisher.old ≤ 100 → next_of publisher.new ≤ 100 }
{
    let mut sent: usize = 0;
    for _ in 0..BLOCKS {
        match publish_one(rt, publisher) {
            Some(gained) => sent = sent.saturating_add(gained),
            None => return sent,
        }
    }
    sent
}

/// The mark of a block that was received, which is the mark of its number. None where the
/// block could not be read.
fn mark_of(subscriber: &Subscriber<'_, Vec<u64>, Marked>, sample: &Sample) -> Option<u64>
    ensures mark { IfSome result (λ m. m ≡ mark (number_of sample.now)) }
    ensures published { IfSome result (λ m. number_of sample.now < 100) }
{
    let reading = subscriber.read(sample).ok()?;
    reading.get().first().copied()
}

/// Receives a block if one waits, and appends its mark to what was read. Answers whether it was the block of
/// the last number. None where a block could not be read, or there is no memory for its mark.
fn receive_one(
    rt: &impl Wait,
    subscriber: &mut Subscriber<'_, Vec<u64>, Marked>,
    marks: &mut Vec<u64>,
) -> Option<bool>
    ensures { IfSome result (λ _. HasRead marks.old.items marks.new.items subscriber.old subscriber.new) }
{
    let Some(sample) = subscriber.receive(rt) else {
        thread::yield_now();
        return Some(false);
    };
    let read = mark_of(subscriber, &sample);
    let is_last = sample.number() == BLOCKS - 1;
    subscriber.give_back(sample);
    let mark = read?;
    let Ok(()) = marks.push(mark) else {
        return None;
    };
    Some(is_last)
}

/// Receives blocks until the last one comes or `TRIES` tries are used up, and reads their marks. None where one could
/// not be read, or there is no memory for its mark.
fn receive_all(
    rt: &impl Wait,
    alloc: Global,
    subscriber: &mut Subscriber<'_, Vec<u64>, Marked>,
) -> Option<Vec<u64>>
    ensures { IfSome result (λ marks. HasRead [] marks.items subscriber.old subscriber.new) }
{
    let mut marks = Vec::new(alloc);
    for _ in 0..TRIES {
        if receive_one(rt, subscriber, &mut marks)? {
            return Some(marks);
        }
    }
    Some(marks)
}

/// The marks that two subscribers read, each in a thread of its own.
fn read_both<R: Threads + Wait + Sync>(
    rt: &R,
    alloc: Global,
    one: &mut Subscriber<'_, Vec<u64>, Marked>,
    other: &mut Subscriber<'_, Vec<u64>, Marked>,
) -> Option<(Vec<u64>, Vec<u64>)>
    ensures one { IfSome result (λ r. HasRead [] r.0.items one.old one.new) }
    ensures other { IfSome result (λ r. HasRead [] r.1.items other.old other.new) }
{
    let (first, second) = thread::join_mut(
        rt,
        &mut || receive_all(rt, alloc, one),
        &mut || receive_all(rt, alloc, other),
    );
    Some((first?, second?))
}

/// The marks that two subscribers read, each in a thread of its own, of the blocks that a
/// third thread publishes.
fn run<R: Threads + Wait + Sync>(
    rt: &R,
    alloc: Global,
    publisher: &mut Publisher<'_, Vec<u64>, Marked>,
    one: &mut Subscriber<'_, Vec<u64>, Marked>,
    other: &mut Subscriber<'_, Vec<u64>, Marked>,
) -> Option<(Vec<u64>, Vec<u64>)>
    ensures out { HasPublished publisher.old publisher.new }
    ensures few { next_of publisher.old ≤ 100 → next_of publisher.new ≤ 100 }
    ensures one { IfSome result (λ r. HasRead [] r.0.items one.old one.new) }
    ensures other { IfSome result (λ r. HasRead [] r.1.items other.old other.new) }
{
    // (`join_mut` calls its first closure last where no thread can be made)
    let (marks, _) = thread::join_mut(
        rt,
        &mut || read_both(rt, alloc, one, other),
        &mut || publish_all(rt, publisher),
    );
    marks
}

/// Subscribes both, runs the three threads to their end, lets both leave, and takes both passes in. None where one of
/// the two is refused, was not seen to take part or may not leave, where its queue has no room, where a block could not
/// be read, or where there is no memory for its mark.
fn hear<R: Threads + Wait + Sync>(
    rt: &R,
    alloc: Global,
    publisher: &mut Publisher<'_, Vec<u64>, Marked>,
) -> Option<(Vec<u64>, Vec<u64>)>
    requires fresh { AllNew (lanes_of publisher.old) }
    requires first { next_of publisher.old ≡ 0 }
    ensures { IfSome result (λ r. AreNewsByTwo publisher.new r.0.items r.1.items) }
{
    let (first, second) = (OwnerId::new(1).ok()?, OwnerId::new(2).ok()?);
    let Ok(mut one) = publisher.subscribe(rt, first) else {
        return None;
    };
    let Ok(mut other) = publisher.subscribe(rt, second) else {
        return None;
    };
    if !publisher.takes_part(&one) {
        return None;
    }
    if one.room() == 0 {
        return None;
    }
    if other.room() == 0 {
        return None;
    }
    let marks = run(rt, alloc, publisher, &mut one, &mut other)?;
    let Ok(left) = one.leave(rt) else {
        return None;
    };
    publisher.rejoin(left);
    let Ok(left) = other.leave(rt) else {
        return None;
    };
    publisher.rejoin(left);
    publisher.passes_on();
    Some(marks)
}

/// Makes a new bus, and returns the marks that both subscribers read.
fn relay<R: Threads + Wait + Sync>(rt: &R, alloc: Global) -> Option<(Vec<u64>, Vec<u64>)>
    ensures one { IfSome result (λ r. AreNewsFrom 0 r.0.items) }
    ensures other { IfSome result (λ r. AreNewsFrom 0 r.1.items) }
{
    let records = blocks(alloc, SIZES.slots + 1)?;
    let Ok((mut bus, pass)) = Bus::new(alloc, SIZES) else {
        return None;
    };
    let Ok(mut publisher) = bus.publisher(rt, alloc, pass, records) else {
        return None;
    };
    let marks = hear(rt, alloc, &mut publisher)?;
    Some(marks)
}

/// Whether the marks end with that of the last number.
fn has_last(marks: &[u64]) -> bool {
    marks.last().copied() == Some(3 * (BLOCKS - 1) + 1)
}

/// Publishes the hundred blocks, and prints whether both subscribers read the last one.
fn main(rt: HostRuntime) -> io::Result<ExitCode> {
    let Some((one, other)) = relay(&rt, rt.alloc()) else {
        eprintln!(rt; "no memory, or a block could not be read")?;
        return Ok(ExitCode::FAILURE);
    };
    println!(rt;
        "the last of a hundred blocks was read by both: {}",
        has_last(&one) && has_last(&other)
    )?;
    Ok(ExitCode::SUCCESS)
}
