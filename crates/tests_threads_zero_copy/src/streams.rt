//! Streams with an end: of numbers, and of pairs that are read where they lie. The receiver ends where the
//! end comes.
use crate::channels::spares;
use lock_free::spsc::queue::Queue;
use std::sync::Wait;
use std::thread::Threads;
use tests_rows::desk::Desk;
use tests_rows::pairs::{Pair, number_of_pair, pair_of};
use tests_rows::play::{Maker, Role, Turn, play};
use tests_rows::row::{Part, Row};
use tests_rows::shared::Shared;
use uses_streams::element::Element;
use uses_streams::ends::{Arrival, Receiver, Sender, both_ends};
use zero_copy_loans::receiver::Reads;
use zero_copy_loans::sender::Writes;
use zero_copy_slots::Anything;
use zero_copy_streams::receiver::Found;
use zero_copy_streams::stream::Stream;
use zero_copy_streams::{receiver, sender};

/// How many elements wait at most.
const CAPACITY: usize = 8;

/// An end of a stream: it sends the number of its turn, or receives.
trait Ends: Drop + Sized {
    /// Sends a number. True if it went.
    fn send(&mut self, number: u64) -> bool;

    /// Receives a number. None where there is none yet; `Some(None)` is the end.
    fn receive(&mut self) -> Option<Option<u64>>;
}

/// Both ends of a stream of numbers, of which one thread has one.
#[derive(Drop)]
struct Numbers<'a> {
    sender: Option<Sender<'a, u64>>,
    receiver: Option<Receiver<'a, u64>>,
}

impl<'a> Ends for Numbers<'a> {
    fn send(&mut self, number: u64) -> bool {
        match &mut self.sender {
            Some(sender) => sender.send(number),
            None => false,
        }
    }

    fn receive(&mut self) -> Option<Option<u64>> {
        match &mut self.receiver {
            Some(receiver) => match receiver.receive() {
                Arrival::Value(number) => Some(Some(number)),
                Arrival::Nothing => None,
                Arrival::End => Some(None),
            },
            None => Some(None),
        }
    }
}

/// Writes the pair of each number, and tells the number of each pair.
#[derive(Drop)]
struct Pairs;

impl Writes<Pair, Anything> for Pairs {
    fn write(&mut self, number: u64, value: &mut Pair) -> bool {
        *value = pair_of(number);
        true
    }
}

impl Reads<Pair, Anything, u64> for Pairs {
    ghost tells = { λ _ _. Unit {0} };

    fn read(&mut self, value: &Pair) -> Option<u64> {
        Some(number_of_pair(*value))
    }
}

/// Both ends of a stream of pairs in slots, of which one thread has one.
#[derive(Drop)]
struct Slots<'a> {
    sender: Option<sender::Sender<'a, Pair>>,
    receiver: Option<receiver::Receiver<'a, Pair>>,
}

impl<'a> Ends for Slots<'a> {
    fn send(&mut self, number: u64) -> bool {
        match &mut self.sender {
            Some(sender) => sender.next_number() == number && sender.send(&mut Pairs).is_ok(),
            None => false,
        }
    }

    fn receive(&mut self) -> Option<Option<u64>> {
        match &mut self.receiver {
            Some(receiver) => match receiver.read(&mut Pairs)? {
                Found::Told(number) => Some(Some(number)),
                Found::Unread(_) => Some(Some(u64::MAX)),
                Found::End => Some(None),
            },
            None => Some(None),
        }
    }
}

/// Somebody with one end.
#[derive(Drop)]
struct Seat<E: Ends> {
    sends: bool,
    ends: E,
}

impl<E: Ends> Role for Seat<E> {
    fn turn(&mut self, _rt: &impl Wait, desk: &mut Desk<'_>) -> Turn {
        let at = desk.at;
        desk.begin();
        if self.sends {
            let is_sent = self.ends.send(at);
            desk.meet();
            if !is_sent {
                desk.end_in_vain("refused", at);
                return Turn::Nothing;
            }
            desk.end("push", at, None);
            desk.put(at);
            return Turn::Counts;
        }
        let came = self.ends.receive();
        desk.meet();
        let Some(came) = came else {
            desk.end_in_vain("pop", 0);
            return Turn::Nothing;
        };
        let Some(number) = came else {
            desk.end("end", 0, None);
            return Turn::Last;
        };
        desk.end("pop", 0, Some(number));
        desk.take(number);
        desk.check(number == at);
        Turn::Counts
    }
}

/// One end for each of two threads.
#[derive(Drop)]
struct Two<E: Ends> {
    sends: Option<E>,
    receives: Option<E>,
}

impl<E: Ends> Maker for Two<E> {
    type Role = Seat<E>;

    fn before(&mut self, _rt: &impl Wait, _desk: &mut Desk<'_>) -> Option<()> {
        Some(())
    }

    fn role(&mut self, _rt: &impl Wait, part: Part<'_>, _desk: &mut Desk<'_>) -> Option<Seat<E>> {
        let sends = part.role == "send";
        let ends = if sends {
            self.sends.take()
        } else {
            self.receives.take()
        };
        Some(Seat { sends, ends: ends? })
    }

    fn after(&mut self, _rt: &impl Wait, _desk: &mut Desk<'_>) {}
}

/// Plays a round with these ends.
fn play_ends<R: Wait + Threads + Sync, E: Ends + Send>(
    rt: &R,
    row: &mut Row<'_>,
    sends: E,
    receives: E,
) -> Option<()> {
    let shared = Shared::new(row.alloc, 0)?;
    let mut two = Two {
        sends: Some(sends),
        receives: Some(receives),
    };
    let logs = play(rt, row, &shared, &mut two)?;
    row.told.round(logs.as_slice());
    Some(())
}

/// Plays a round on a new stream of numbers.
pub fn play_stream<R: Wait + Threads + Sync>(rt: &R, row: &mut Row<'_>) -> Option<()> {
    let Ok((queue, pass)) = Queue::<Element<u64>, CAPACITY>::new(row.alloc) else {
        return None;
    };
    let (sender, receiver) = both_ends(&queue, pass)?;
    let sends = Numbers {
        sender: Some(sender),
        receiver: None,
    };
    let receives = Numbers {
        sender: None,
        receiver: Some(receiver),
    };
    play_ends(rt, row, sends, receives)
}

/// Plays a round on a new stream of pairs in slots, which are fewer than the elements that may wait.
pub fn play_slots<R: Wait + Threads + Sync>(rt: &R, row: &mut Row<'_>) -> Option<()> {
    let values = spares(row.alloc, (row.capacity as u64).wrapping_add(1))?;
    let Ok(slots) = u32::try_from(row.capacity) else {
        return None;
    };
    let Ok((stream, passes)) = Stream::<Pair, CAPACITY, Anything>::new(row.alloc, slots) else {
        return None;
    };
    let (sender, receiver) = stream.ends(passes, values)?;
    let sends = Slots {
        sender: Some(sender),
        receiver: None,
    };
    let receives = Slots {
        sender: None,
        receiver: Some(receiver),
    };
    play_ends(rt, row, sends, receives)
}
