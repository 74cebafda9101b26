//! Bit sets and counting bit sets: threads set places, take them out, and look at them.
use lock_free::mpmc::bit_set::BitSet;
use lock_free::mpmc::counting_bit_set::CountingBitSet;
use lock_free::mpmc::{bit_set, counting_bit_set};
use std::sync::Wait;
use std::thread::Threads;
use tests_rows::desk::Desk;
use tests_rows::play::{Maker, Role, Turn, in_vain, play};
use tests_rows::row::{Part, Row};
use tests_rows::shared::Shared;

/// A handle of a set of places.
trait Places: Drop + Sized {
    /// Another one. None where no further pass can be counted.
    fn another(&mut self) -> Option<Self>;

    /// How many places there are.
    fn number(&self) -> usize;

    /// Sets a place, and returns what the call answers: the count before, or 1 if the flag stood.
    fn set(&mut self, rt: &impl Wait, place: usize) -> u64;

    /// What stands at a place: a count, or 1 for a flag.
    fn look(&mut self, place: usize) -> u64;

    /// How much a `set` that answered this has added.
    fn added(answer: u64) -> u64;

    /// Takes out all that stands, meets the others at the first place, and writes each place down.
    fn reset(&mut self, desk: &mut Desk<'_>);

    /// Takes out what stands at one place, where the structure has such a call.
    fn reset_one(&mut self, rt: &impl Wait) -> Option<usize>;
}

/// Writes down that a number was taken out of a place, and meets the others where that is due.
fn note(desk: &mut Desk<'_>, place: usize, number: u64) {
    desk.meet();
    desk.end("out", place as u64, Some(number));
    for _ in 0..number {
        desk.take(place as u64);
    }
}

impl<'a> Places for bit_set::Handle<'a> {
    fn another(&mut self) -> Option<bit_set::Handle<'a>> {
        self.split()
    }

    fn number(&self) -> usize {
        self.capacity()
    }

    fn set(&mut self, rt: &impl Wait, place: usize) -> u64 {
        (place < self.capacity() && !self.set(rt, place)) as u64
    }

    fn look(&mut self, place: usize) -> u64 {
        (place < self.capacity() && self.is_set(place)) as u64
    }

    fn added(answer: u64) -> u64 {
        (answer == 0) as u64
    }

    fn reset(&mut self, desk: &mut Desk<'_>) {
        self.reset_all(&mut |place| note(desk, place, 1));
    }

    fn reset_one(&mut self, rt: &impl Wait) -> Option<usize> {
        self.reset_next(rt)
    }
}

impl<'a> Places for counting_bit_set::Handle<'a> {
    fn another(&mut self) -> Option<counting_bit_set::Handle<'a>> {
        self.split()
    }

    fn number(&self) -> usize {
        self.capacity()
    }

    fn set(&mut self, _rt: &impl Wait, place: usize) -> u64 {
        if place < self.capacity() {
            self.set(place)
        } else {
            0
        }
    }

    fn look(&mut self, place: usize) -> u64 {
        if place < self.capacity() {
            self.count(place)
        } else {
            0
        }
    }

    fn added(_answer: u64) -> u64 {
        1
    }

    fn reset(&mut self, desk: &mut Desk<'_>) {
        self.reset_all(&mut |state| note(desk, state.bit(), state.count()));
    }

    fn reset_one(&mut self, _rt: &impl Wait) -> Option<usize> {
        None
    }
}

/// What somebody does with places.
#[derive(Clone, Copy)]
enum Does {
    Sets,
    ResetsAll,
    ResetsNext,
    Looks,
}

/// Somebody with a part and a handle.
#[derive(Drop)]
struct Seat<P: Places> {
    does: Does,
    user: P,
}

impl<P: Places> Role for Seat<P> {
    fn turn(&mut self, rt: &impl Wait, desk: &mut Desk<'_>) -> Turn {
        let place = (desk.at as usize)
            .checked_rem(self.user.number())
            .unwrap_or(0);
        desk.begin();
        match self.does {
            Does::Sets => {
                let answer = self.user.set(rt, place);
                desk.meet();
                desk.end("set", place as u64, Some(answer));
                for _ in 0..P::added(answer) {
                    desk.put(place as u64);
                }
            }
            Does::ResetsAll => {
                self.user.reset(desk);
                desk.meet();
                desk.end_in_vain("reset", 0);
            }
            Does::ResetsNext => {
                let Some(place) = self.user.reset_one(rt) else {
                    desk.end_in_vain("next", 0);
                    return in_vain(desk);
                };
                note(desk, place, 1);
            }
            Does::Looks => {
                let answer = self.user.look(place);
                desk.meet();
                desk.end("look", place as u64, Some(answer));
            }
        }
        Turn::Counts
    }
}

/// A handle by which others are made.
#[derive(Drop)]
struct Sets<P: Places> {
    user: P,
}

impl<P: Places> Maker for Sets<P> {
    type Role = Seat<P>;

    fn before(&mut self, _rt: &impl Wait, _desk: &mut Desk<'_>) -> Option<()> {
        Some(())
    }

    fn role(&mut self, _rt: &impl Wait, part: Part<'_>, _desk: &mut Desk<'_>) -> Option<Seat<P>> {
        Some(Seat {
            does: match part.role {
                "set" => Does::Sets,
                "reset" => Does::ResetsAll,
                "next" => Does::ResetsNext,
                _ => Does::Looks,
            },
            user: self.user.another()?,
        })
    }

    /// Takes out all that is left.
    fn after(&mut self, _rt: &impl Wait, desk: &mut Desk<'_>) {
        desk.begin();
        self.user.reset(desk);
    }
}

/// Plays a round on a set with this handle.
fn play_places<R: Wait + Threads + Sync, P: Places + Send>(
    rt: &R,
    row: &mut Row<'_>,
    user: P,
) -> Option<()> {
    let shared = Shared::new(row.alloc, 0)?;
    let logs = play(rt, row, &shared, &mut Sets { user })?;
    row.told.round(logs.as_slice());
    Some(())
}

/// Plays a round on a new bit set.
pub fn play_bits<R: Wait + Threads + Sync>(rt: &R, row: &mut Row<'_>) -> Option<()> {
    let (set, pass) = BitSet::new(row.alloc, row.capacity).ok()?;
    play_places(rt, row, set.handle(pass))
}

/// Plays a round on a new counting bit set.
pub fn play_counts<R: Wait + Threads + Sync>(rt: &R, row: &mut Row<'_>) -> Option<()> {
    let (set, pass) = CountingBitSet::new(row.alloc, row.capacity).ok()?;
    play_places(rt, row, set.handle(pass))
}
