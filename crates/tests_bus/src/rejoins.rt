//! A subscriber leaves with records in hand and records that wait, and the publisher takes in what it left
//! (`rejoin`). After one look no slot is out, though nothing was collected, and the lane is free again. A
//! subscriber that was taken out as dead cannot leave, and keeps its lane.
ghost use Rattle.std.specs.Prelude.{◌≡◌, IfSome};
ghost use Rattle.zero_copy_bus.specs.Ends.{place_at, receives_queue, IsOfLane};
ghost use Rattle.zero_copy_bus.specs.Relays.{HasPublished};

use crate::rooms::finds_none;
use crate::stage::{Failure, Plays, check, on_new_bus, some};
use crate::words::Words;
use lock_free::mpmc::container::OwnerId;
use std::alloc::Global;
use std::sync::Wait;
use std::test::Fail;
use std::thread::Threads;
use zero_copy_bus::bus::Sizes;
use zero_copy_bus::publisher::Publisher;
use zero_copy_bus::subscriber::{Left, Subscriber};

/// Publishes `number` records. False where a loan does not come.
fn publish(rt: &impl Wait, publisher: &mut Publisher<'_, Words>, number: usize) -> bool
    ensures { HasPublished publisher.old publisher.new }
{
    for _ in 0..number {
        let Ok(loan) = publisher.loan(rt) else {
            return false;
        };
        publisher.publish(loan);
    }
    true
}

/// Receives a record and gives it back, and then receives another one, if one waits, and keeps it. False
/// where no record waits, or it cannot be given back.
fn take_two(rt: &impl Wait, subscriber: &mut Subscriber<'_, Words>) -> bool
    ensures place { place_at subscriber.new ≡ place_at subscriber.old }
    ensures queue { receives_queue subscriber.new ≡ receives_queue subscriber.old }
{
    let Some(sample) = subscriber.receive(rt) else {
        return false;
    };
    let is_back = subscriber.give_back(sample);
    if let Some(kept) = subscriber.receive(rt) {
        kept.keep();
    }
    is_back
}

/// Somebody subscribes, `slots` records are published to it, it takes two of them (`take_two`), and leaves.
/// None where one of these calls is refused.
fn leave<'a>(rt: &impl Wait, publisher: &mut Publisher<'a, Words>, slots: usize) -> Option<Left<'a>>
    ensures { IfSome result (λ left. IsOfLane left publisher.new) }
{
    let owner = OwnerId::new(1).ok()?;
    let Ok(mut subscriber) = publisher.subscribe(rt, owner) else {
        return None;
    };
    if !publish(rt, publisher, slots) {
        return None;
    }
    if !take_two(rt, &mut subscriber) {
        return None;
    }
    let Ok(left) = subscriber.leave(rt) else {
        return None;
    };
    Some(left)
}

/// Somebody leaves, and the publisher looks who takes part before it takes in what was left. It returns
/// whether no slot is out in the end, and a lane is free. None where `leave` did not succeed.
fn come_back_before(
    rt: &impl Wait,
    publisher: &mut Publisher<'_, Words>,
    slots: usize,
) -> Option<bool> {
    let left = leave(rt, publisher, slots)?;
    publisher.update(rt);
    publisher.rejoin(left);
    Some(publisher.is_free() && publisher.seat().is_some())
}

/// Plays two subscribers that leave one after the other. The publisher takes in what the first
/// one left before it looks, and what the second one left after it has looked. Until that first
/// look all slots are out.
#[derive(Drop)]
struct ComesBack {
    slots: usize,
}

impl Plays for ComesBack {
    fn play(
        &self,
        rt: &(impl Threads + Wait + Sync),
        _alloc: Global,
        publisher: &mut Publisher<'_, Words>,
    ) -> Result<Option<usize>, Failure> {
        let Some(left) = leave(rt, publisher, self.slots) else {
            return Err(Failure::Wrong);
        };
        publisher.rejoin(left);
        check(!publisher.is_free() && publisher.borrowed() == self.slots)?;
        publisher.update(rt);
        check(publisher.is_free() && publisher.seat().is_some())?;
        // This look frees the lane whose seat was dropped in the line above.
        publisher.update(rt);
        check(come_back_before(rt, publisher, self.slots) == Some(true))?;
        Ok(None)
    }
}

/// Plays a subscriber that was taken out as dead and then tries to leave. It is refused, comes back, and
/// receives a record that waits. Slots stay out until it is dropped, and then a lane is free.
#[derive(Drop)]
struct ComesBackLate;

impl Plays for ComesBackLate {
    fn play(
        &self,
        rt: &(impl Threads + Wait + Sync),
        _alloc: Global,
        publisher: &mut Publisher<'_, Words>,
    ) -> Result<Option<usize>, Failure> {
        let owner = some(OwnerId::new(1).ok())?;
        let subscriber = some(publisher.subscribe(rt, owner).ok())?;
        check(publish(rt, publisher, 2))?;
        publisher.recover(rt, owner);
        let Err((_failure, mut again)) = subscriber.leave(rt) else {
            return Err(Failure::Wrong);
        };
        let has_received = !finds_none(rt, &mut again);
        publisher.update(rt);
        let is_out = !publisher.is_free();
        drop(again);
        publisher.update(rt);
        check(has_received && is_out && publisher.is_free() && publisher.seat().is_some())?;
        Ok(None)
    }
}

/// Plays `ComesBack` with 1, 9 and 65 slots, so that all slots fill a bit, more than a byte and more than a
/// word, and `ComesBackLate` once. A slot that stays out would be lost for good.
#[test]
fn what_was_left_comes_back(rt: HostRuntime) -> Result<(), Fail> {
    for slots in [1usize, 9, 65] {
        let sizes = Sizes {
            slots,
            subscribers: 1,
            queue: slots,
        };
        let records = slots.saturating_add(1);
        on_new_bus(&rt, rt.alloc(), sizes, records, 1, &ComesBack { slots })?;
    }
    let sizes = Sizes {
        slots: 3,
        subscribers: 1,
        queue: 2,
    };
    on_new_bus(&rt, rt.alloc(), sizes, 4, 1, &ComesBackLate)?;
    Ok(())
}
