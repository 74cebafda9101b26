//! The bus: one thread publishes pairs, and others read them where they lie.
use crate::channels::spares;
use lock_free::mpmc::container::OwnerId;
use std::sync::Wait;
use std::thread::Threads;
use tests_rows::desk::Desk;
use tests_rows::pairs::{Pair, number_of_pair, pair_of};
use tests_rows::play::{Maker, Role, Turn, play};
use tests_rows::row::{Part, Row};
use tests_rows::shared::Shared;
use zero_copy_bus::bus::{Bus, Sizes};
use zero_copy_bus::publisher::Publisher;
use zero_copy_bus::subscriber::Subscriber;

/// Publishes the pair of the next number.
fn publish(rt: &impl Wait, publisher: &mut Publisher<'_, Pair>, desk: &mut Desk<'_>) -> Turn {
    let number = publisher.next_number();
    publisher.collect();
    desk.begin();
    let Ok(mut loan) = publisher.loan(rt) else {
        desk.end_in_vain("refused", number);
        return Turn::Nothing;
    };
    loan.value = pair_of(number);
    desk.meet();
    publisher.publish(loan);
    desk.end("push", number, None);
    desk.check(number == desk.at);
    Turn::Counts
}

/// Receives a sample, reads its pair twice where it lies, and gives it back.
fn receive(rt: &impl Wait, subscriber: &mut Subscriber<'_, Pair>, desk: &mut Desk<'_>) -> Turn {
    desk.begin();
    let Some(sample) = subscriber.receive(rt) else {
        desk.meet();
        desk.end_in_vain("pop", 0);
        return Turn::Nothing;
    };
    let number = sample.number();
    for _ in 0..2 {
        match subscriber.read(&sample) {
            Ok(reading) => desk.check(number_of_pair(*reading) == number),
            Err(_) => desk.check(false),
        }
        desk.meet();
    }
    desk.end("pop", 0, Some(number));
    desk.check(subscriber.give_back(sample));
    Turn::Counts
}

/// Somebody with one end.
#[derive(Drop)]
struct End<'a> {
    publisher: Option<Publisher<'a, Pair>>,
    subscriber: Option<Subscriber<'a, Pair>>,
}

impl<'a> Role for End<'a> {
    fn turn(&mut self, rt: &impl Wait, desk: &mut Desk<'_>) -> Turn {
        if let Some(publisher) = &mut self.publisher {
            return publish(rt, publisher, desk);
        }
        match &mut self.subscriber {
            Some(subscriber) => receive(rt, subscriber, desk),
            None => Turn::Last,
        }
    }
}

/// The publisher, by which subscribers are made, and which one thread takes in the end.
#[derive(Drop)]
struct Ends<'a> {
    publisher: Option<Publisher<'a, Pair>>,
}

impl<'a> Maker for Ends<'a> {
    type Role = End<'a>;

    fn before(&mut self, _rt: &impl Wait, _desk: &mut Desk<'_>) -> Option<()> {
        Some(())
    }

    fn role(&mut self, rt: &impl Wait, part: Part<'_>, _desk: &mut Desk<'_>) -> Option<End<'a>> {
        if part.role == "publish" {
            return Some(End {
                publisher: Some(self.publisher.take()?),
                subscriber: None,
            });
        }
        let owner = OwnerId::new(part.own).ok()?;
        let Some(publisher) = &mut self.publisher else {
            return None;
        };
        let subscriber = publisher.subscribe(rt, owner).ok()?;
        Some(End {
            publisher: None,
            subscriber: Some(subscriber),
        })
    }

    fn after(&mut self, _rt: &impl Wait, _desk: &mut Desk<'_>) {}
}

/// Plays a round on a new bus, of which `more` records may wait for each subscriber.
pub fn play_bus<R: Wait + Threads + Sync>(rt: &R, row: &mut Row<'_>) -> Option<()> {
    let shared = Shared::new(row.alloc, 0)?;
    let sizes = Sizes {
        slots: row.capacity,
        subscribers: 3,
        queue: row.more as usize,
    };
    let records = spares(row.alloc, (row.capacity as u64).wrapping_add(1))?;
    let Ok((mut bus, pass)) = Bus::<Pair>::new(row.alloc, sizes) else {
        return None;
    };
    let publisher = bus.publisher(rt, row.alloc, pass, records).ok()?;
    let mut ends = Ends {
        publisher: Some(publisher),
    };
    let logs = play(rt, row, &shared, &mut ends)?;
    row.told.round(logs.as_slice());
    Some(())
}
