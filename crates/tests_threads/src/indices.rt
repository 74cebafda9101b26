//! What threads do with any structure that hands out indices: they take them and give them back, hold one at
//! every moment, count those that are out, and ask for the lock.
use lock_free::mpmc::unique_index_set_enums::{ReleaseMode, ReleaseState};
use std::sync::Wait;
use std::thread;
use std::thread::Threads;
use tests_rows::desk::Desk;
use tests_rows::play::{Maker, Role, Turn, in_vain, play};
use tests_rows::row::{Part, Row};
use tests_rows::shared::Shared;

/// Why no index was handed out.
#[derive(Clone, Copy, PartialEq, Eq)]
pub enum Refusal {
    Full,
    Locked,
}

/// Somebody who takes indices of a structure and gives them back.
pub trait Guest: Drop + Sized {
    /// An index in hand.
    type Held: Drop;

    /// Another one, for the owner of this number where indices have owners. None where a pass is refused.
    fn another(&mut self, owner: u64) -> Option<Self>;

    /// Takes an index.
    fn take(&mut self, rt: &impl Wait) -> Result<Self::Held, Refusal>;

    /// The number of the index.
    fn index(held: &Self::Held) -> usize;

    /// Does with the index in hand what only this structure does, and writes it down.
    fn use_it(&mut self, rt: &impl Wait, held: &Self::Held, desk: &mut Desk<'_>);

    /// Gives the index back, and says whether the structure is locked then; at some turns of the unique set
    /// by dropping a guard. None where it could not be given back.
    fn give(&mut self, rt: &impl Wait, held: Self::Held, mode: ReleaseMode) -> Option<ReleaseState>;

    /// How many indices are out, as the structure says.
    fn number(&mut self, rt: &impl Wait) -> usize;

    /// Whether the structure is locked, as it says.
    fn is_locked(&mut self) -> bool;

    /// Takes a turn that only this structure has.
    fn own_turn(&mut self, rt: &impl Wait, desk: &mut Desk<'_>) -> Turn;
}

/// What somebody does.
#[derive(Clone, Copy, PartialEq, Eq)]
enum Does {
    /// Takes an index and gives it back.
    Visits,
    /// The same, and asks for the lock as it gives the index back.
    Locks,
    /// Holds an index at every moment, from the beginning on.
    Keeps,
    /// Counts the indices that are out.
    Counts,
    /// Gives an index that it has from the beginning back, and asks for the lock.
    LocksLast,
    /// Takes one index at the moment at which another gives the last one back.
    Enters,
    /// What only this structure has.
    Own,
}

/// What the role of this name does.
fn does_of(name: &str) -> Does {
    match name {
        "visit" => Does::Visits,
        "lock" => Does::Locks,
        "keep" => Does::Keeps,
        "count" => Does::Counts,
        "last" => Does::LocksLast,
        "enter" => Does::Enters,
        _ => Does::Own,
    }
}

/// Somebody with a part, and the index that it has in hand from one turn to the next.
#[derive(Drop)]
struct Visitor<G: Guest> {
    does: Does,
    guest: G,
    /// The number that the logs have for what it owns.
    owner: u64,
    /// How often it lets others run before it gives the last index back.
    pause: u64,
    held: Option<G::Held>,
}

impl<G: Guest> Visitor<G> {
    /// Takes an index, and notes that nobody else holds it.
    fn take(&mut self, rt: &impl Wait, desk: &mut Desk<'_>) -> Result<G::Held, Refusal> {
        desk.begin();
        let held = match self.guest.take(rt) {
            Ok(held) => held,
            Err(Refusal::Locked) => {
                desk.end("shut", self.owner, None);
                return Err(Refusal::Locked);
            }
            Err(Refusal::Full) => {
                desk.end_in_vain("take", self.owner);
                return Err(Refusal::Full);
            }
        };
        let index = G::index(&held);
        desk.end("take", self.owner, Some(index as u64));
        desk.check(desk.shared.swap(index, 1));
        Ok(held)
    }

    /// Gives an index back, and says whether that locked.
    fn give(
        &mut self,
        rt: &impl Wait,
        held: G::Held,
        mode: ReleaseMode,
        desk: &mut Desk<'_>,
    ) -> bool {
        let index = G::index(&held);
        desk.check(desk.shared.swap(index, 0));
        desk.begin();
        let state = self.guest.give(rt, held, mode);
        desk.meet();
        let is_locked = state == Some(ReleaseState::Locked);
        desk.end("give", index as u64, Some(is_locked as u64));
        desk.check(state.is_some());
        is_locked
    }

    /// Takes an index, uses it, and gives it back.
    fn visit(&mut self, rt: &impl Wait, mode: ReleaseMode, desk: &mut Desk<'_>) -> Turn {
        let held = match self.take(rt, desk) {
            Ok(held) => held,
            Err(Refusal::Full) => return in_vain(desk),
            Err(Refusal::Locked) => return Turn::Last,
        };
        self.guest.use_it(rt, &held, desk);
        if desk.at % 8 == 0 {
            thread::yield_now();
        }
        if self.give(rt, held, mode, desk) {
            Turn::Last
        } else {
            Turn::Counts
        }
    }

    /// Takes the next index before it gives the one in hand back.
    fn keep(&mut self, rt: &impl Wait, desk: &mut Desk<'_>) -> Turn {
        let Ok(next) = self.take(rt, desk) else {
            return Turn::Nothing;
        };
        if let Some(held) = self.held.take() {
            self.give(rt, held, ReleaseMode::Default, desk);
        }
        self.held = Some(next);
        Turn::Counts
    }

    /// Counts the indices that are out.
    fn count(&mut self, rt: &impl Wait, desk: &mut Desk<'_>) -> Turn {
        desk.begin();
        let number = self.guest.number(rt);
        desk.meet();
        desk.end("count", 0, Some(number as u64));
        Turn::Counts
    }

    /// Gives the index back that it has from the beginning, a while after the others have come.
    fn lock_last(&mut self, rt: &impl Wait, desk: &mut Desk<'_>) -> Turn {
        if let Some(held) = self.held.take() {
            desk.meet();
            for _ in 0..self.pause {
                desk.shared.now();
            }
            self.give(rt, held, ReleaseMode::LockIfLastIndex, desk);
        }
        Turn::Counts
    }

    /// Takes an index once the others have come, and keeps it to its end.
    fn enter(&mut self, rt: &impl Wait, desk: &mut Desk<'_>) -> Turn {
        desk.meet();
        if let Ok(held) = self.take(rt, desk) {
            self.held = Some(held);
        }
        Turn::Counts
    }
}

impl<G: Guest> Role for Visitor<G> {
    fn turn(&mut self, rt: &impl Wait, desk: &mut Desk<'_>) -> Turn {
        match self.does {
            Does::Visits => self.visit(rt, ReleaseMode::Default, desk),
            Does::Locks => self.visit(rt, ReleaseMode::LockIfLastIndex, desk),
            Does::Keeps => self.keep(rt, desk),
            Does::Counts => self.count(rt, desk),
            Does::LocksLast => self.lock_last(rt, desk),
            Does::Enters => self.enter(rt, desk),
            Does::Own => self.guest.own_turn(rt, desk),
        }
    }
}

/// Somebody by whom the others are made, and who holds some indices from then on.
#[derive(Drop)]
struct Guests<G: Guest> {
    guest: G,
    held: Vec<G::Held>,
    /// How many indices those are, which are taken after those that others have from the beginning.
    more: u64,
    /// The number of the round, which says how long one who locks the last index waits.
    round: u64,
}

impl<G: Guest> Maker for Guests<G> {
    type Role = Visitor<G>;

    fn before(&mut self, rt: &impl Wait, desk: &mut Desk<'_>) -> Option<()> {
        for _ in 0..self.more {
            desk.begin();
            let held = self.guest.take(rt).ok()?;
            desk.end("take", 0, Some(G::index(&held) as u64));
            self.held.push(held).ok()?;
        }
        Some(())
    }

    fn role(&mut self, rt: &impl Wait, part: Part<'_>, desk: &mut Desk<'_>) -> Option<Visitor<G>> {
        let mut visitor = Visitor {
            does: does_of(part.role),
            guest: self.guest.another(part.own)?,
            owner: part.own,
            pause: self.round % 64,
            held: None,
        };
        if matches!(visitor.does, Does::LocksLast | Does::Keeps) {
            visitor.held = visitor.take(rt, desk).ok();
        }
        Some(visitor)
    }

    /// Notes how many indices are out, and whether the structure is locked.
    fn after(&mut self, rt: &impl Wait, desk: &mut Desk<'_>) {
        desk.begin();
        let number = self.guest.number(rt);
        desk.end("count", 0, Some(number as u64));
        let is_locked = self.guest.is_locked();
        desk.end("is_locked", 0, Some(is_locked as u64));
    }
}

/// Plays a round with a structure, of which this is somebody.
pub fn play_guests<R: Wait + Threads + Sync, G: Guest + Send>(
    rt: &R,
    row: &mut Row<'_>,
    guest: G,
) -> Option<()>
where
    G::Held: Send,
{
    let shared = Shared::new(row.alloc, row.capacity)?;
    let mut guests = Guests {
        guest,
        held: Vec::new(row.alloc),
        more: row.more,
        round: row.round,
    };
    let logs = play(rt, row, &shared, &mut guests)?;
    row.told.round(logs.as_slice());
    Some(())
}
