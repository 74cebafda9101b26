//! One thread fills blocks of 64 KiB with the marks of numbers, and another reads them where they lie, until the end. Proved: what was
//! read are the marks of all numbers, in order, though nobody copies a block.
#![tactic(auto)]

ghost use Rattle.std.specs.Prelude.{◌≡◌, ◌+◌, true, [], IfSome};
ghost use Rattle.std.specs.List.{range_with_len};
ghost use Rattle.uses_blocks.specs.Marks.{mark, first_marks};
ghost use Rattle.zero_copy_streams.specs.Ends.{sender_queue, receiver_queue, sent_queue, next_of, sent, is_at_end, HasRead};

use std::alloc::Global;
use std::process::ExitCode;
use std::sync::Wait;
use std::thread::Threads;
use std::{io, thread};
use zero_copy_loans::receiver::Reads;
use zero_copy_loans::sender::Writes;
use zero_copy_slots::Keeps;
use zero_copy_streams::receiver::Receiver;
use zero_copy_streams::sender::{Sender, Sent};
use zero_copy_streams::stream::Stream;

pub mod twins;

/// How many words of 8 bytes a block has: 64 KiB.
const WORDS: usize = 8192;

/// How many numbers have a mark here.
const NUMBERS: u64 = 1 << 60;

/// How many blocks wait or are read at a time.
const SLOTS: u32 = 4;

/// How many blocks are sent.
const BLOCKS: u64 = 12;

type Block = Vec<u64>;

/// The rule that a block is full of the mark of its number.
struct Marked;

impl Keeps<Block> for Marked {
    ghost use Rattle.uses_blocks.specs.Marks.{IsBlockOf};

    ghost holds = { λ number block. IsBlockOf number block.items };
}

/// The writer and reader of this program: it fills blocks with the marks of their numbers,
/// and reads the marks.
#[derive(Drop)]
struct Marks;

impl Writes<Block, Marked> for Marks {
    /// False where the block has another size, or the number is too large.
    fn write(&mut self, number: u64, block: &mut Block) -> bool {
        if number >= NUMBERS {
            return false;
        }
        if block.len() != WORDS {
            return false;
        }
        block.fill(3 * number + 1);
        true
    }
}

impl Reads<Block, Marked, u64> for Marks {
    ghost tells = { λ number word. word ≡ mark number };

    /// The first word.
    fn read(&mut self, block: &Block) -> Option<u64> {
        block.first().copied()
    }
}

/// Makes `number` blocks to write, each of 64 KiB.
fn blocks(alloc: Global, number: u32) -> Option<Vec<Block>> {
    let mut blocks = Vec::new(alloc);
    for _ in 0..number {
        blocks.push(vec![in alloc; 0u64; WORDS].ok()?).ok()?;
    }
    Some(blocks)
}

/// Sends the first blocks, each as soon as a slot is free, and then the end, with which the sender is used up. None where a block
/// could not be written.
fn send(rt: &impl Wait, sender: &mut Option<Sender<'_, Block, Marked>>, count: u64) -> Option<Sent>
    ensures queue { IfSome result (λ s. IfSome sender.old (λ e. sent_queue s ≡ sender_queue e)) }
    ensures sent { IfSome result (λ s. IfSome sender.old (λ e. sent s ≡ range_with_len 0 (next_of e + count))) }
{
    let mut sender = sender.take()?;
    sender.send_each(rt, count, &mut Marks).ok()?;
    Some(sender.finish_waiting(rt))
}

/// Reads blocks until the end, each where it lies, and appends their marks. None where one could not be read, or where there is no
/// memory.
fn read(
    rt: &impl Wait,
    receiver: &mut Receiver<'_, Block, Marked>,
    marks: &mut Vec<u64>,
) -> Option<()>
    ensures queue { IfSome result (λ _. receiver_queue receiver.new ≡ receiver_queue receiver.old) }
    ensures read { IfSome result (λ _. HasRead (λ n m. m ≡ mark n) [] marks.old.items marks.new.items receiver.old receiver.new) }
    ensures end { IfSome result (λ _. is_at_end receiver.new ≡ true) }
{
    let Ok(()) = receiver.read_all(rt, marks, &mut Marks) else {
        return None;
    };
    Some(())
}

/// Both ends at work side by side, until the end: what the sender leaves. None where one of the two came to no end.
fn run<R: Threads + Wait + Sync>(
    rt: &R,
    sender: &mut Option<Sender<'_, Block, Marked>>,
    receiver: &mut Receiver<'_, Block, Marked>,
    marks: &mut Vec<u64>,
    count: u64,
) -> Option<Sent>
    ensures sender { IfSome result (λ s. IfSome sender.old (λ e. sent_queue s ≡ sender_queue e)) }
    ensures sent { IfSome result (λ s. IfSome sender.old (λ e. sent s ≡ range_with_len 0 (next_of e + count))) }
    ensures receiver { IfSome result (λ _. receiver_queue receiver.new ≡ receiver_queue receiver.old) }
    ensures read { IfSome result (λ _. HasRead (λ n m. m ≡ mark n) [] marks.old.items marks.new.items receiver.old receiver.new) }
    ensures end { IfSome result (λ _. is_at_end receiver.new ≡ true) }
{
    let (came, sent) = thread::join_mut(
        rt,
        &mut || read(rt, receiver, marks),
        &mut || send(rt, sender, count),
    );
    came?;
    sent
}

/// Sends the blocks of the first numbers from one thread to another, which reads them: their marks. None where there is no memory, or
/// no further pass, or where a block could not be written or read. Where no second thread can be made it sends before it reads
/// (no test says so), and waits for good if there are more blocks than slots.
fn relay<R: Threads + Wait + Sync>(rt: &R, alloc: Global, count: u64) -> Option<Vec<u64>>
    ensures { IfSome result (λ marks. marks.items ≡ first_marks count) }
{
    let spares = blocks(alloc, SLOTS + 1)?;
    let (stream, passes) = Stream::<Block, 5, Marked>::new(alloc, SLOTS).ok()?;
    let (sender, mut receiver) = stream.ends(passes, spares)?;
    let mut sender = Some(sender);
    let mut marks = Vec::new(alloc);
    let sent = run(rt, &mut sender, &mut receiver, &mut marks, count)?;
    sent.join(receiver.leave());
    Some(marks)
}

/// Sends twelve blocks, and prints the marks that were read.
fn main(rt: HostRuntime) -> io::Result<ExitCode> {
    let Some(marks) = relay(&rt, rt.alloc(), BLOCKS) else {
        eprintln!(rt; "no memory, or a block could not be read")?;
        return Ok(ExitCode::FAILURE);
    };
    println!(rt; "read, until the end: {marks:?}")?;
    Ok(ExitCode::SUCCESS)
}
