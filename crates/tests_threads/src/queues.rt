//! Queues of numbers, of pairs and overflowing queues: threads push, pop, peek and ask for the length.
use lock_free::spsc::index_queue::IndexQueue;
use lock_free::spsc::queue::Queue;
use lock_free::spsc::safely_overflowing_index_queue::SafelyOverflowingIndexQueue;
use lock_free_queues::spsc::ring::rule::{Numbers, Overflowing, Values};
use lock_free_queues::spsc::ring::{Consumer, Handle, Producer, rule};
use std::sync::Wait;
use std::thread::Threads;
use steps::words::Words;
use tests_rows::desk::{Desk, Log};
use tests_rows::pairs::{Pair, TORN, number_of_pair, pair_of};
use tests_rows::play::{Maker, Role, Turn, in_vain, play};
use tests_rows::row::{Part, Row};
use tests_rows::shared::Shared;

/// A kind of queue: how a number is pushed to it and popped from it.
pub trait Kind<T: Words>: rule::Kind + Sized {
    /// Pushes a number, and returns the one that does not wait thereafter, if any: this one, where it was
    /// refused, or the oldest one, which it pushed out.
    fn push(producer: &mut Producer<'_, Self, T>, number: u64) -> Option<u64>;

    /// Pops, and returns the number that came, if one did.
    fn pop(rt: &impl Wait, consumer: &mut Consumer<'_, Self, T>) -> Option<u64>;

    /// The oldest number, where the queue has such a call and a number waits.
    fn peek(consumer: &mut Consumer<'_, Self, T>) -> Option<u64>;
}

/// The number, unless it was taken.
fn unless(taken: bool, number: u64) -> Option<u64> {
    if taken { None } else { Some(number) }
}

/// The number of the pair that came, if one did.
fn number_in(pair: Option<Pair>) -> Option<u64> {
    Some(number_of_pair(pair?))
}

impl Kind<u64> for Numbers {
    fn push(producer: &mut Producer<'_, Numbers, u64>, number: u64) -> Option<u64> {
        unless(producer.push(number), number)
    }

    fn pop(_rt: &impl Wait, consumer: &mut Consumer<'_, Numbers, u64>) -> Option<u64> {
        consumer.pop()
    }

    fn peek(consumer: &mut Consumer<'_, Numbers, u64>) -> Option<u64> {
        consumer.peek()
    }
}

impl Kind<Pair> for Values {
    fn push(producer: &mut Producer<'_, Values, Pair>, number: u64) -> Option<u64> {
        unless(producer.push(&pair_of(number)), number)
    }

    fn pop(_rt: &impl Wait, consumer: &mut Consumer<'_, Values, Pair>) -> Option<u64> {
        number_in(consumer.pop())
    }

    fn peek(consumer: &mut Consumer<'_, Values, Pair>) -> Option<u64> {
        number_in(consumer.peek())
    }
}

impl Kind<u64> for Overflowing {
    fn push(producer: &mut Producer<'_, Overflowing, u64>, number: u64) -> Option<u64> {
        producer.push(number)
    }

    fn pop(rt: &impl Wait, consumer: &mut Consumer<'_, Overflowing, u64>) -> Option<u64> {
        consumer.pop(rt)
    }

    fn peek(_consumer: &mut Consumer<'_, Overflowing, u64>) -> Option<u64> {
        None
    }
}

/// What somebody does with a queue.
#[derive(Clone, Copy, PartialEq, Eq)]
enum Does {
    Pushes,
    Pops,
    Peeks,
    Measures,
}

/// Somebody with a part, a handle, and the role of an end once it has it.
#[derive(Drop)]
struct Seat<'a, E: Kind<T>, T: Words> {
    does: Does,
    /// The number that is pushed next.
    next: u64,
    handle: Option<Handle<'a, E, T>>,
    producer: Option<Producer<'a, E, T>>,
    consumer: Option<Consumer<'a, E, T>>,
}

impl<'a, E: Kind<T>, T: Words> Seat<'a, E, T> {
    /// Asks for the producer's role.
    fn take_producer(&mut self) {
        if let Some(handle) = self.handle.take() {
            match handle.acquire_producer() {
                Ok(producer) => self.producer = Some(producer),
                Err(handle) => self.handle = Some(handle),
            }
        }
    }

    /// Asks for the consumer's role.
    fn take_consumer(&mut self) {
        if let Some(handle) = self.handle.take() {
            match handle.acquire_consumer() {
                Ok(consumer) => self.consumer = Some(consumer),
                Err(handle) => self.handle = Some(handle),
            }
        }
    }

    /// Pushes the next number, once it has the role.
    fn push(&mut self, desk: &mut Desk<'_>) -> Turn {
        if self.producer.is_none() {
            self.take_producer();
        }
        let Some(producer) = &mut self.producer else {
            return Turn::Nothing;
        };
        desk.begin();
        let back = E::push(producer, self.next);
        desk.meet();
        if back == Some(self.next) {
            desk.end_in_vain("refused", self.next);
            return in_vain(desk);
        }
        desk.end("push", self.next, back);
        desk.put(self.next);
        if let Some(old) = back {
            desk.take(old);
        }
        self.next = self.next.wrapping_add(1);
        Turn::Counts
    }

    /// Pops, once it has the role, and peeks before that if it is to.
    fn pop(&mut self, rt: &impl Wait, desk: &mut Desk<'_>) -> Turn {
        if self.consumer.is_none() {
            self.take_consumer();
        }
        let Some(consumer) = &mut self.consumer else {
            return Turn::Nothing;
        };
        let told = if self.does == Does::Peeks {
            E::peek(consumer)
        } else {
            None
        };
        desk.begin();
        let came = E::pop(rt, consumer);
        desk.meet();
        desk.check(came != Some(TORN) && (told.is_none() || told == came));
        let Some(number) = came else {
            desk.end_in_vain("pop", 0);
            return in_vain(desk);
        };
        desk.end("pop", 0, came);
        desk.take(number);
        Turn::Counts
    }

    /// Asks for the length.
    fn measure(&mut self, rt: &impl Wait, desk: &mut Desk<'_>) -> Turn {
        let Some(handle) = &mut self.handle else {
            return Turn::Last;
        };
        desk.begin();
        let length = handle.len(rt);
        desk.meet();
        desk.end("len", 0, Some(length as u64));
        Turn::Counts
    }
}

impl<'a, E: Kind<T>, T: Words> Role for Seat<'a, E, T> {
    fn turn(&mut self, rt: &impl Wait, desk: &mut Desk<'_>) -> Turn {
        match self.does {
            Does::Pushes => self.push(desk),
            Does::Measures => self.measure(rt, desk),
            _ => self.pop(rt, desk),
        }
    }
}

/// A handle of a queue, by which others are made.
#[derive(Drop)]
struct Queues<'a, E: Kind<T>, T: Words> {
    handle: Handle<'a, E, T>,
}

impl<'a, E: Kind<T>, T: Words> Maker for Queues<'a, E, T> {
    type Role = Seat<'a, E, T>;

    fn before(&mut self, _rt: &impl Wait, _desk: &mut Desk<'_>) -> Option<()> {
        Some(())
    }

    fn role(
        &mut self,
        _rt: &impl Wait,
        part: Part<'_>,
        _desk: &mut Desk<'_>,
    ) -> Option<Seat<'a, E, T>> {
        Some(Seat {
            does: match part.role {
                "push" => Does::Pushes,
                "pop" => Does::Pops,
                "peek" => Does::Peeks,
                _ => Does::Measures,
            },
            next: part.own,
            handle: Some(self.handle.split()?),
            producer: None,
            consumer: None,
        })
    }

    /// What is left is noted once the queue is closed.
    fn after(&mut self, _rt: &impl Wait, _desk: &mut Desk<'_>) {}
}

/// Plays a round by handles of a queue, and notes what is left in it when it is closed by another pass.
macro_rules! play_and_close {
    ($rt:ident, $row:ident, $queue:ident, $pass:ident, $number:expr) => {{
        let shared = Shared::new($row.alloc, 0)?;
        let mut pass = $pass;
        let mut logs = play_with($rt, $row, &shared, $queue.handle(pass.split()?))?;
        let mut left = $queue.close(pass).ok()?;
        let mut desk = Desk::new($row.alloc, &shared, $row.manner);
        for _ in 0..=$row.capacity {
            desk.begin();
            if let Some(value) = left.pop() {
                let number = $number(value);
                desk.end("left", 0, Some(number));
                desk.take(number);
            }
        }
        let Desk { log, .. } = desk;
        logs.push(log).ok()?;
        $row.told.round(logs.as_slice());
        Some(())
    }};
}

/// Plays a round by this handle.
fn play_with<R: Wait + Threads + Sync, E: Kind<T> + Send + Sync, T: Words + Send + Sync>(
    rt: &R,
    row: &Row<'_>,
    shared: &Shared,
    handle: Handle<'_, E, T>,
) -> Option<Vec<Log>> {
    play(rt, row, shared, &mut Queues { handle })
}

/// The number itself.
fn itself(number: u64) -> u64 {
    number
}

/// Plays a round on a new queue of numbers.
pub fn play_index<R: Wait + Threads + Sync>(rt: &R, row: &mut Row<'_>) -> Option<()> {
    let (queue, pass) = IndexQueue::new(row.alloc, row.capacity).ok()?;
    play_and_close!(rt, row, queue, pass, itself)
}

/// Plays a round on a new overflowing queue.
pub fn play_overflowing<R: Wait + Threads + Sync>(rt: &R, row: &mut Row<'_>) -> Option<()> {
    let (queue, pass) = SafelyOverflowingIndexQueue::new(row.alloc, row.capacity).ok()?;
    play_and_close!(rt, row, queue, pass, itself)
}

/// Plays a round on a new queue of pairs, of a capacity that rows have.
pub fn play_pairs<R: Wait + Threads + Sync>(rt: &R, row: &mut Row<'_>) -> Option<()> {
    match row.capacity {
        1 => play_typed::<R, 1>(rt, row),
        2 => play_typed::<R, 2>(rt, row),
        _ => play_typed::<R, 8>(rt, row),
    }
}

/// Plays a round on a new queue of pairs whose type has the capacity.
fn play_typed<R: Wait + Threads + Sync, const N: usize>(rt: &R, row: &mut Row<'_>) -> Option<()> {
    let (queue, pass) = Queue::<Pair, N>::new(row.alloc).ok()?;
    play_and_close!(rt, row, queue, pass, number_of_pair)
}

/// Somebody who pushes a number into its own queue, and then pops one from another's.
#[derive(Drop)]
struct Asks<'a> {
    own: Producer<'a, Numbers, u64>,
    other: Consumer<'a, Numbers, u64>,
    has_pushed: bool,
}

impl<'a> Role for Asks<'a> {
    fn turn(&mut self, _rt: &impl Wait, desk: &mut Desk<'_>) -> Turn {
        if !self.has_pushed {
            desk.begin();
            self.has_pushed = self.own.push(1);
            desk.end("push", 1, None);
            desk.put(1);
        }
        desk.begin();
        let Some(number) = self.other.pop() else {
            return Turn::Nothing;
        };
        desk.end("pop", 0, Some(number));
        desk.take(number);
        Turn::Counts
    }
}

/// The ends of two queues, crossed.
#[derive(Drop)]
struct TwoQueues<'a> {
    one: Handle<'a, Numbers, u64>,
    two: Handle<'a, Numbers, u64>,
}

impl<'a> Maker for TwoQueues<'a> {
    type Role = Asks<'a>;

    fn before(&mut self, _rt: &impl Wait, _desk: &mut Desk<'_>) -> Option<()> {
        Some(())
    }

    fn role(&mut self, _rt: &impl Wait, part: Part<'_>, _desk: &mut Desk<'_>) -> Option<Asks<'a>> {
        let (one, two) = (self.one.split()?, self.two.split()?);
        let (own, other) = if part.own == 0 {
            (one, two)
        } else {
            (two, one)
        };
        Some(Asks {
            own: own.acquire_producer().ok()?,
            other: other.acquire_consumer().ok()?,
            has_pushed: false,
        })
    }

    fn after(&mut self, _rt: &impl Wait, _desk: &mut Desk<'_>) {}
}

/// Plays a round on two new queues.
pub fn play_two<R: Wait + Threads + Sync>(rt: &R, row: &mut Row<'_>) -> Option<()> {
    let shared = Shared::new(row.alloc, 0)?;
    let (one, first) = IndexQueue::new(row.alloc, row.capacity).ok()?;
    let (two, second) = IndexQueue::new(row.alloc, row.capacity).ok()?;
    let mut maker = TwoQueues {
        one: one.handle(first),
        two: two.handle(second),
    };
    let logs = play(rt, row, &shared, &mut maker)?;
    row.told.round(logs.as_slice());
    Some(())
}
