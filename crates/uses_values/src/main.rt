//! One thread fills blocks of 64 KiB with the marks of numbers and sends them, and another reads them where they lie. Proved: each
//! block of the first ones, until some point, was read or came back, once and in its order, and what was read is the mark of its
//! number. So where nothing came back the first mark is that of 0, the next that of 1, and so on, though nobody copies a block.
#![tactic(auto)]

ghost use Rattle.std.specs.Prelude.{◌≡◌, IfSome};
ghost use Rattle.zero_copy_loans.specs.Ends.{HasRead, HasSent};
ghost use Rattle.zero_copy_loans.specs.Numbers.{ArePassedOn};
ghost use Rattle.uses_values.specs.Marks.{mark};

use std::alloc::Global;
use std::process::ExitCode;
use std::sync::Wait;
use std::thread::Threads;
use std::{io, thread};
use zero_copy_loans::channel::Channel;
use zero_copy_loans::receiver::{Reads, Receiver};
use zero_copy_loans::sender::{Sender, Writes};
use zero_copy_slots::Keeps;

/// How many words of 8 bytes a block has: 64 KiB.
const WORDS: usize = 8192;

/// How many numbers have a mark here.
const NUMBERS: u64 = 1 << 60;

/// How many times a thread tries, and lets the other one run, before it gives up.
const TRIES: u64 = 1 << 26;

/// The rule that a block is full of the mark of its number.
struct Marked;

impl Keeps<Vec<u64>> for Marked {
    ghost use Rattle.uses_values.specs.Marks.{IsBlockOf};

    ghost holds = { λ number block. IsBlockOf number block.items };
}

/// The writer and reader of this program: it fills blocks with the marks of their numbers,
/// and reads the marks.
#[derive(Drop)]
struct Marks;

impl Writes<Vec<u64>, Marked> for Marks {
    /// False where the block has another size, or the number is too large.
    fn write(&mut self, number: u64, block: &mut Vec<u64>) -> bool {
        if number >= NUMBERS {
            return false;
        }
        if block.len() != WORDS {
            return false;
        }
        block.fill(3 * number + 1);
        true
    }
}

impl Reads<Vec<u64>, Marked, u64> for Marks {
    ghost tells = { λ number word. word ≡ mark number };

    /// The first word.
    fn read(&mut self, block: &Vec<u64>) -> Option<u64> {
        block.first().copied()
    }
}

/// Makes `number` blocks to write, each of 64 KiB.
fn blocks(alloc: Global, number: usize) -> Option<Vec<Vec<u64>>> {
    let mut blocks = Vec::new(alloc);
    for _ in 0..number {
        blocks.push(vec![in alloc; 0u64; WORDS].ok()?).ok()?;
    }
    Some(blocks)
}

/// Both ends at work side by side: the numbers of the blocks that came back, and the marks of those that were read. None where one
/// of the two came to no end.
fn run<R: Threads + Wait + Sync>(
    rt: &R,
    alloc: Global,
    sender: &mut Sender<'_, Vec<u64>, Marked>,
    sent: u32,
    receiver: &mut Receiver<'_, Vec<u64>, Marked>,
    count: usize,
) -> Option<(Vec<u64>, Vec<u64>)>
    ensures sent { IfSome result (λ r. HasSent sent r.0.items sender.old sender.new) }
    ensures read { IfSome result (λ r. HasRead (λ n m. m ≡ mark n) r.1.items receiver.old receiver.new) }
{
    let (back, marks) = thread::join_mut(
        rt,
        &mut || sender.send_each(rt, alloc, sent, TRIES, &mut Marks),
        &mut || receiver.read_each(rt, alloc, count, TRIES, &mut Marks),
    );
    Some((back?, marks?))
}

/// Sends blocks with the first numbers from one thread to another, which reads a number of them. Returns
/// their marks, and the numbers of the blocks that came back.
fn relay<R: Threads + Wait + Sync>(
    rt: &R,
    alloc: Global,
    sent: u32,
    count: usize,
) -> Option<(Vec<u64>, Vec<u64>)>
    ensures { IfSome result (λ r. ArePassedOn mark sent r.0.items r.1.items) }
{
    let Ok(mut channel) = Channel::<Vec<u64>, Marked>::new(alloc, 4, 4) else {
        return None;
    };
    channel.passes_on();
    let spares = blocks(alloc, 5)?;
    let (sends, receives) = channel.open()?;
    let (mut sender, mut receiver) = channel.ends_with(alloc, spares, sends, receives)?;
    let (back, marks) = run(rt, alloc, &mut sender, sent, &mut receiver, count)?;
    let (left, _) = sender.finish_all();
    let other = receiver.finish();
    channel.relayed(left, other);
    channel.passes_on();
    Some((marks, back))
}

/// Sends twelve blocks to a reader of ten, and prints the marks that were read.
fn main(rt: HostRuntime) -> io::Result<ExitCode> {
    let Some((marks, _)) = relay(&rt, rt.alloc(), 12, 10) else {
        eprintln!(rt; "no memory, or no place")?;
        return Ok(ExitCode::FAILURE);
    };
    println!(rt; "of twelve blocks ten were read: {marks:?}")?;
    Ok(ExitCode::SUCCESS)
}
