//! Plays rows of threads, which it reads from standard input, and prints what came of each.
//!
//! A row is a block of lines, which empty lines part. The first line names the row, the next one a structure
//! with its capacity and further words (`tests_rows::row`). Each other line is a thread: its role, how many of
//! its turns count, and a number of its own: `push 1000 0`. `tests/threads` has rows with greater numbers, plays
//! them, and judges the calls that are printed.
#![tactic(auto)]

mod bus;
mod channels;
mod streams;

use std::io;
use std::sync::Wait;
use std::thread::Threads;
use tests_rows::row::Row;

/// Plays one round of a row on a new structure of its kind. None where memory or a pass is refused.
fn play_round<R: Wait + Threads + Sync>(rt: &R, row: &mut Row<'_>) -> Option<()> {
    match row.structure {
        "channel" => channels::play_channel(rt, row),
        "pool" => channels::play_pool(rt, row),
        "bus" => bus::play_bus(rt, row),
        "stream" => streams::play_stream(rt, row),
        "slot_stream" => streams::play_slots(rt, row),
        _ => None,
    }
}

/// Reads the rows, plays one after another in all its rounds, and prints what came of it.
fn main(rt: HostRuntime) -> io::Result<()> {
    let text = io::read_to_string(rt.alloc(), rt.stdin())?;
    for block in text.split("\n\n") {
        let mut row = Row::new(rt.alloc(), block);
        for round in 0..row.rounds {
            row.round = round;
            if play_round(&rt, &mut row).is_none() {
                row.told.refused();
            }
        }
        row.told.end();
        rt.print(row.told.text.as_str())?;
    }
    Ok(())
}
