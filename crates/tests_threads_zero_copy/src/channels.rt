//! Zero copy: a channel, whose values are written and read where they lie, and a pool of buffers.
use std::alloc::Global;
use std::sync::Wait;
use std::thread::Threads;
use tests_rows::desk::Desk;
use tests_rows::pairs::{Pair, number_of_pair, pair_of};
use tests_rows::play::{Maker, Role, Turn, play};
use tests_rows::row::{Part, Row};
use tests_rows::shared::Shared;
use zero_copy_loans::channel::Channel;
use zero_copy_loans::pool::{Lender, Pool};
use zero_copy_loans::receiver::Receiver;
use zero_copy_loans::sender::Sender;

/// So many values that a sender is given to write. None where there is no memory.
pub fn spares(alloc: Global, number: u64) -> Option<Vec<Pair>> {
    let mut spares = Vec::new(alloc);
    for _ in 0..number {
        spares.push(pair_of(0)).ok()?;
    }
    Some(spares)
}

/// Sends the pair of the next number.
fn send(rt: &impl Wait, sender: &mut Sender<'_, Pair>, desk: &mut Desk<'_>) -> Turn {
    let number = sender.next_number();
    sender.take_back();
    desk.begin();
    let Ok(mut loan) = sender.loan(rt) else {
        desk.end_in_vain("refused", number);
        return Turn::Nothing;
    };
    loan.value = pair_of(number);
    desk.meet();
    let back = sender.send(loan);
    desk.end("push", number, None);
    desk.check(number == desk.at);
    drop(back);
    Turn::Counts
}

/// Receives a sample, reads its pair twice where it lies, and gives it back.
fn receive(rt: &impl Wait, receiver: &mut Receiver<'_, Pair>, desk: &mut Desk<'_>) -> Turn {
    desk.begin();
    let Some(sample) = receiver.receive(rt) else {
        desk.meet();
        desk.end_in_vain("pop", 0);
        return Turn::Nothing;
    };
    let number = sample.number();
    for _ in 0..2 {
        match receiver.read(&sample) {
            Ok(reading) => desk.check(number_of_pair(*reading) == number),
            Err(_) => desk.check(false),
        }
        desk.meet();
    }
    desk.end("pop", 0, Some(number));
    desk.check(receiver.give_back(sample));
    Turn::Counts
}

/// Somebody with one end.
#[derive(Drop)]
struct End<'a> {
    sender: Option<Sender<'a, Pair>>,
    receiver: Option<Receiver<'a, Pair>>,
}

impl<'a> Role for End<'a> {
    fn turn(&mut self, rt: &impl Wait, desk: &mut Desk<'_>) -> Turn {
        if let Some(sender) = &mut self.sender {
            return send(rt, sender, desk);
        }
        match &mut self.receiver {
            Some(receiver) => receive(rt, receiver, desk),
            None => Turn::Last,
        }
    }
}

/// Both ends, each of which one thread takes.
#[derive(Drop)]
struct Ends<'a> {
    both: End<'a>,
}

impl<'a> Maker for Ends<'a> {
    type Role = End<'a>;

    fn before(&mut self, _rt: &impl Wait, _desk: &mut Desk<'_>) -> Option<()> {
        Some(())
    }

    fn role(&mut self, _rt: &impl Wait, part: Part<'_>, _desk: &mut Desk<'_>) -> Option<End<'a>> {
        let (sender, receiver) = if part.role == "send" {
            (self.both.sender.take(), None)
        } else {
            (None, self.both.receiver.take())
        };
        Some(End { sender, receiver })
    }

    fn after(&mut self, _rt: &impl Wait, _desk: &mut Desk<'_>) {}
}

/// Plays a round on a new channel, of which `more` places may wait.
pub fn play_channel<R: Wait + Threads + Sync>(rt: &R, row: &mut Row<'_>) -> Option<()> {
    let shared = Shared::new(row.alloc, 0)?;
    let mut channel: Channel<Pair> = Channel::new(row.alloc, row.capacity, row.more as usize).ok()?;
    let values = spares(row.alloc, (row.capacity as u64).wrapping_add(1))?;
    let (sender, receiver) = channel.ends(row.alloc, values)?;
    let both = End {
        sender: Some(sender),
        receiver: Some(receiver),
    };
    let logs = play(rt, row, &shared, &mut Ends { both })?;
    row.told.round(logs.as_slice());
    Some(())
}

/// Somebody who takes buffers of a pool.
#[derive(Drop)]
struct Takes<'a> {
    lender: Lender<'a, u64>,
}

impl<'a> Role for Takes<'a> {
    /// Takes a buffer, adds 1 to the number that lies there, and gives it back.
    fn turn(&mut self, rt: &impl Wait, desk: &mut Desk<'_>) -> Turn {
        desk.begin();
        let Ok(mut buffer) = self.lender.acquire(rt) else {
            desk.end_in_vain("take", 0);
            return Turn::Nothing;
        };
        let place = buffer.place() as u64;
        desk.end("take", 0, Some(place));
        desk.check(desk.shared.swap(place as usize, 1));
        let number = buffer.value.unwrap_or(0).wrapping_add(1);
        buffer.value = Some(number);
        desk.check(desk.shared.swap(place as usize, 0));
        desk.begin();
        let is_back = buffer.give_back().is_ok();
        desk.meet();
        desk.end("give", place, Some(0));
        desk.check(is_back);
        Turn::Counts
    }
}

/// A lender by which others are made.
#[derive(Drop)]
struct Lenders<'a> {
    alloc: Global,
    lender: Lender<'a, u64>,
    places: usize,
}

impl<'a> Maker for Lenders<'a> {
    type Role = Takes<'a>;

    fn before(&mut self, _rt: &impl Wait, _desk: &mut Desk<'_>) -> Option<()> {
        Some(())
    }

    fn role(
        &mut self,
        _rt: &impl Wait,
        _part: Part<'_>,
        _desk: &mut Desk<'_>,
    ) -> Option<Takes<'a>> {
        Some(Takes {
            lender: self.lender.split()?,
        })
    }

    /// Takes all buffers, and notes the number that lies in each.
    fn after(&mut self, rt: &impl Wait, desk: &mut Desk<'_>) {
        let mut all = Vec::new(self.alloc);
        for _ in 0..self.places {
            desk.begin();
            if let Ok(buffer) = self.lender.acquire(rt) {
                desk.end("sum", buffer.place() as u64, buffer.value);
                desk.check(all.push(buffer).is_ok());
            }
        }
    }
}

/// Plays a round on a new pool.
pub fn play_pool<R: Wait + Threads + Sync>(rt: &R, row: &mut Row<'_>) -> Option<()> {
    let shared = Shared::new(row.alloc, row.capacity)?;
    let mut pool: Pool<u64> = Pool::new(row.alloc, row.capacity).ok()?;
    let mut lenders = Lenders {
        alloc: row.alloc,
        lender: pool.lender()?,
        places: row.capacity,
    };
    let logs = play(rt, row, &shared, &mut lenders)?;
    row.told.round(logs.as_slice());
    Some(())
}
