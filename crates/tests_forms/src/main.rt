//! Makes the calls of a script, which it reads from standard input, and prints what they answer.
//!
//! A script has blocks, which empty lines part. The first line of a block names a structure, a form of it,
//! the type of its values and numbers, of which the first is the capacity: `queue type u128 9 0`. Each
//! other line is a call, with numbers: `push 17`. A line is printed for each call, and at the end of a
//! block one that tells whether the structure was made. The forms are that of one caller (`plain`), of a
//! capacity chosen at run time (`heap`), and of one that the type has. `tests/forms` draws scripts and
//! judges what is printed.
#![tactic(auto)]

/// Calls the function with the Rust type of the block's values, which the block gives by name.
macro_rules! of_values {
    ($play:ident, $rt:expr, $block:expr) => {
        match $block.values {
            "u32" => $play::<u32>($rt, $block),
            "u64" => $play::<u64>($rt, $block),
            "u128" => $play::<u128>($rt, $block),
            "pairs" => $play::<(u64, u64)>($rt, $block),
            "three" => $play::<Three>($rt, $block),
            "sixteen" => $play::<Sixteen>($rt, $block),
            _ => $play::<Greatest>($rt, $block),
        }
    };
}

/// Calls the function with the block's capacity as a constant, for the capacities that are listed. Another
/// one is answered as if memory was refused.
macro_rules! of_capacity {
    ($play:ident, $capacity:expr, $rt:expr, $block:expr; $($is:literal)*) => {
        match $capacity {
            $($is => $play::<$is>($rt, $block),)*
            _ => Err(UniqueIndexCreationError::NoMemory),
        }
    };
    ($play:ident::<$T:ident>, $capacity:expr, $rt:expr, $block:expr; $($is:literal)*) => {
        match $capacity {
            $($is => $play::<$T, $is>($rt, $block),)*
            _ => Err(UniqueIndexCreationError::NoMemory),
        }
    };
}

mod container;
mod facts;
mod indices;
mod lines;
mod loan;
mod queues;
mod robust;
mod sets;
mod value;

use facts::Facts;
use lines::{Block, Made, play};
use std::io;
use std::sync::Wait;

/// Plays a block on a structure of its kind, and says whether that was made. A block of another name is
/// played on no structure (`Facts`).
fn play_block(rt: &impl Wait, block: &mut Block<'_>) -> Made {
    match block.structure {
        "atomic" => value::play_value(rt, block),
        "bits" => sets::play_bits(rt, block),
        "container" => container::play_container(rt, block),
        "counts" => sets::play_counts(rt, block),
        "index_queue" => queues::play_index(rt, block),
        "indices" => indices::play_indices(rt, block),
        "loan" => loan::play_loan(rt, block),
        "overflow" => queues::play_overflowing(rt, block),
        "queue" => queues::play_values(rt, block),
        "robust" => robust::play_robust(rt, block),
        _ => {
            play(rt, block.lines, &mut block.answer, &mut Facts);
            Ok(())
        }
    }
}

/// Reads the script, plays one block after another, and prints what its calls answered and whether its
/// structure was made.
fn main(rt: HostRuntime) -> io::Result<()> {
    let text = io::read_to_string(rt.alloc(), rt.stdin())?;
    for part in text.split("\n\n") {
        let mut block = Block::new(rt.alloc(), part);
        let made = play_block(&rt, &mut block);
        block.answer.made(made);
        rt.print(block.answer.text.as_str())?;
    }
    Ok(())
}
