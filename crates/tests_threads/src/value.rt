//! A value: one thread stores pairs, and others load them.
use lock_free::spmc::unrestricted_atomic::{Handle, Producer, UnrestrictedAtomic};
use std::sync::Wait;
use std::thread::Threads;
use tests_rows::desk::Desk;
use tests_rows::pairs::{Pair, number_of_pair, pair_of};
use tests_rows::play::{Maker, Role, Turn, play};
use tests_rows::row::{Part, Row};
use tests_rows::shared::Shared;

/// Somebody who stores the numbers from 1 on, or loads. The last number seen or stored is kept.
#[derive(Drop)]
struct Seat<'a> {
    stores: bool,
    /// The number at which a thread that loads ends.
    until: u64,
    last: u64,
    handle: Option<Handle<'a, Pair>>,
    producer: Option<Producer<'a, Pair>>,
}

impl<'a> Seat<'a> {
    /// Asks for the producer's role.
    fn take_producer(&mut self) {
        if let Some(handle) = self.handle.take() {
            match handle.acquire_producer() {
                Ok(producer) => self.producer = Some(producer),
                Err(handle) => self.handle = Some(handle),
            }
        }
    }

    /// Stores the next number, once it has the role.
    fn store(&mut self, desk: &mut Desk<'_>) -> Turn {
        if self.producer.is_none() {
            self.take_producer();
        }
        let Some(producer) = &mut self.producer else {
            return Turn::Nothing;
        };
        self.last = self.last.wrapping_add(1);
        desk.begin();
        let is_stored = producer.store(pair_of(self.last));
        desk.meet();
        desk.end("store", self.last, None);
        desk.check(is_stored);
        Turn::Counts
    }

    /// Loads, and ends at the last number. A load that shows the number of the load before is written down
    /// only where all calls are.
    fn load(&mut self, rt: &impl Wait, desk: &mut Desk<'_>) -> Turn {
        let Some(handle) = &mut self.handle else {
            return Turn::Last;
        };
        desk.begin();
        let number = number_of_pair(handle.load(rt));
        desk.meet();
        desk.check(self.last <= number && number != u64::MAX);
        desk.end_if(number != self.last, "load", 0, Some(number));
        self.last = number;
        if number == self.until && !desk.manner.all {
            Turn::Last
        } else {
            Turn::Counts
        }
    }
}

impl<'a> Role for Seat<'a> {
    fn turn(&mut self, rt: &impl Wait, desk: &mut Desk<'_>) -> Turn {
        if self.stores {
            self.store(desk)
        } else {
            self.load(rt, desk)
        }
    }
}

/// A handle of a value, by which others are made.
#[derive(Drop)]
struct Values<'a> {
    handle: Handle<'a, Pair>,
}

impl<'a> Maker for Values<'a> {
    type Role = Seat<'a>;

    fn before(&mut self, _rt: &impl Wait, _desk: &mut Desk<'_>) -> Option<()> {
        Some(())
    }

    fn role(&mut self, _rt: &impl Wait, part: Part<'_>, _desk: &mut Desk<'_>) -> Option<Seat<'a>> {
        Some(Seat {
            stores: part.role == "store",
            until: part.own,
            last: if part.role == "store" { part.own } else { 0 },
            handle: Some(self.handle.split()?),
            producer: None,
        })
    }

    fn after(&mut self, _rt: &impl Wait, _desk: &mut Desk<'_>) {}
}

/// Plays a round on a new value, which shows 0 at first.
pub fn play_value<R: Wait + Threads + Sync>(rt: &R, row: &mut Row<'_>) -> Option<()> {
    let shared = Shared::new(row.alloc, 0)?;
    let (value, pass) = UnrestrictedAtomic::new(row.alloc, pair_of(0)).ok()?;
    let mut maker = Values {
        handle: value.handle(pass),
    };
    let logs = play(rt, row, &shared, &mut maker)?;
    row.told.round(logs.as_slice());
    Some(())
}
