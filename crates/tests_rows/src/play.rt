//! Plays the parts of a row, each in a thread of its own, or one after another.
use crate::desk::{Desk, Log};
use crate::row::{Part, Row};
use crate::shared::Shared;
use std::sync::Wait;
use std::thread;
use std::thread::Threads;

/// What a turn came to.
#[derive(Clone, Copy, PartialEq, Eq)]
pub enum Turn {
    /// Nothing, so it is taken again.
    Nothing,
    /// Something, so it counts.
    Counts,
    /// The thread ends.
    Last,
}

/// What a turn is that came to nothing.
pub fn in_vain(desk: &Desk<'_>) -> Turn {
    if desk.manner.all {
        Turn::Counts
    } else {
        Turn::Nothing
    }
}

/// Somebody who has a part in a row.
pub trait Role: Drop + Sized {
    /// Takes one turn, and writes its calls down.
    fn turn(&mut self, rt: &impl Wait, desk: &mut Desk<'_>) -> Turn;
}

/// A structure that is played with.
pub trait Maker {
    type Role: Role;

    /// What is done once all are made, and before they begin. None where something is refused.
    fn before(&mut self, rt: &impl Wait, desk: &mut Desk<'_>) -> Option<()>;

    /// Somebody for this part, with its desk. None where a further pass or memory is refused.
    fn role(&mut self, rt: &impl Wait, part: Part<'_>, desk: &mut Desk<'_>) -> Option<Self::Role>;

    /// What is done once all have ended.
    fn after(&mut self, rt: &impl Wait, desk: &mut Desk<'_>);
}

/// Somebody with a part, a desk, and the number of turns after which it ends.
struct Player<'s, U: Role> {
    role: U,
    number: u64,
    workers: u64,
    desk: Desk<'s>,
}

impl<'s, U: Role> Drop for Player<'s, U> {
    fn drop(self) {
        let Self {
            role: _role,
            number: _,
            workers: _,
            desk: _desk,
        } = self;
    }
}

impl<'s, U: Role> Player<'s, U> {
    /// Takes a turn, and says whether it was the last one. One that ends after the others takes one turn more.
    fn step(&mut self, rt: &impl Wait) -> bool {
        let is_over = self.number == 0 && self.desk.shared.ended() >= self.workers;
        let turn = self.role.turn(rt, &mut self.desk);
        if turn == Turn::Counts || self.number == 0 {
            self.desk.at = self.desk.at.wrapping_add(1);
        }
        if turn == Turn::Nothing || self.desk.at % 16 == 0 {
            thread::yield_now();
        }
        is_over
            || turn == Turn::Last
            || !self.desk.log.well
            || self.desk.at == self.number && self.number != 0
    }

    /// Takes turns up to the last one, and returns what was written down.
    fn run(mut self, rt: &impl Wait) -> Log {
        let mut has_ended = false;
        for _ in 0..self.desk.manner.limit {
            if !has_ended {
                has_ended = self.step(rt);
            }
            if has_ended {
                break;
            }
        }
        self.desk.check(has_ended);
        let Player {
            role,
            number,
            workers: _,
            desk,
        } = self;
        drop(role);
        let Desk { shared, log, .. } = desk;
        shared.end(number != 0);
        log
    }
}

/// Runs a player, if there is one.
fn run_one<U: Role>(rt: &impl Wait, player: Option<Player<'_, U>>) -> Option<Log> {
    Some(player?.run(rt))
}

/// Runs two players, in a thread each, or one after another if `apart`.
fn run_two<R: Wait + Threads + Sync, U: Role + Send>(
    rt: &R,
    apart: bool,
    one: Option<Player<'_, U>>,
    two: Option<Player<'_, U>>,
) -> (Option<Log>, Option<Log>) {
    if apart {
        return (run_one(rt, one), run_one(rt, two));
    }
    thread::join(rt, move || run_one(rt, one), move || run_one(rt, two))
}

/// Plays a round of the row with this structure, and returns what each thread wrote down.
pub fn play<R: Wait + Threads + Sync, M: Maker>(
    rt: &R,
    row: &Row<'_>,
    shared: &Shared,
    maker: &mut M,
) -> Option<Vec<Log>>
where
    M::Role: Send,
{
    let mut own = Desk::new(row.alloc, shared, row.manner);
    own.manner.meets = 0;
    let mut players = Vec::new(row.alloc);
    for part in row.parts.iter() {
        let mut desk = Desk::new(row.alloc, shared, row.manner);
        // (nobody is there yet to be met)
        desk.manner.meets = 0;
        let role = maker.role(rt, *part, &mut desk)?;
        desk.manner.meets = row.manner.meets;
        let player = Player {
            role,
            number: part.number,
            workers: row.workers(),
            desk,
        };
        players.push(player).ok()?;
    }
    maker.before(rt, &mut own)?;
    let (first, second) = (players.pop(), players.pop());
    let (third, fourth) = (players.pop(), players.pop());
    let apart = row.manner.apart;
    let ((one, two), (three, four)) = if apart {
        (
            run_two(rt, apart, first, second),
            run_two(rt, apart, third, fourth),
        )
    } else {
        thread::join(
            rt,
            move || run_two(rt, apart, first, second),
            move || run_two(rt, apart, third, fourth),
        )
    };
    let mut logs = Vec::new(row.alloc);
    for log in [one, two, three, four] {
        if let Some(log) = log {
            logs.push(log).ok()?;
        }
    }
    maker.after(rt, &mut own);
    let Desk { log, .. } = own;
    logs.push(log).ok()?;
    Some(logs)
}
