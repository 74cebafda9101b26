//! The slots of `zero_copy_slots`, in one thread: who may read or take a slot while others do, and what a
//! forgotten guard does. That each slot keeps its value with its number is in `sizes`.
use std::mem::forget;
use std::test::Fail;
use zero_copy_slots::Slots;

/// Whether the first slot can be read now.
fn is_readable(slots: &Slots<u64>) -> bool {
    slots.read(0).is_ok()
}

/// Whether the first slot can be taken now. What was taken is dropped at once, which leaves the slot empty.
fn is_takable(slots: &Slots<u64>) -> bool {
    slots.take(0).is_ok()
}

/// Takes the slot and puts a value there. True if nobody else could take or read it meanwhile. None where it
/// could not be taken.
fn is_written_alone(slots: &Slots<u64>) -> Option<bool> {
    let writing = slots.take(0).ok()?;
    let alone = !is_takable(slots) & !is_readable(slots);
    writing.put(1, 10);
    Some(alone)
}

/// Two readings see the value at once. True if the slot cannot be taken until both have ended, and a slot
/// that is taken and left is empty and can be taken again. None where a reading was refused.
fn is_read_by_two(slots: &Slots<u64>) -> Option<bool> {
    let (one, other) = (slots.read(0).ok()?, slots.read(0).ok()?);
    let mut right = *one.get() == 10 && *other.get() == 10;
    right &= !is_takable(slots);
    drop(one);
    right &= !is_takable(slots);
    drop(other);
    drop(slots.take(0).ok()?);
    Some(right & !is_readable(slots) & is_takable(slots))
}

/// A slot is taken by one at a time, and not while somebody reads it; nobody reads it while it is taken.
/// Otherwise a reader could see half of a value.
#[test]
fn a_slot_is_read_or_written(rt: HostRuntime) -> Result<(), Fail> {
    let slots: Slots<u64> = Slots::new(rt.alloc(), 1)?;
    assert!(rt; is_written_alone(&slots) == Some(true));
    assert!(rt; is_read_by_two(&slots) == Some(true));
    Ok(())
}

/// A reading of the slot is forgotten. True if the slot can then be read, and not be taken. None where it
/// could not be written or read before.
fn is_only_read(slots: &Slots<u64>) -> Option<bool> {
    slots.take(0).ok()?.put(1, 10);
    forget(slots.read(0).ok()?);
    Some(!is_takable(slots) & is_readable(slots))
}

/// A writing of the slot is forgotten. True if the slot can then neither be taken nor read. None where it
/// could not be taken before.
fn is_held(slots: &Slots<u64>) -> Option<bool> {
    forget(slots.take(0).ok()?);
    Some(!is_takable(slots) & !is_readable(slots))
}

/// A reading that is forgotten holds its slot, which can still be read. A writing that is forgotten holds it
/// from all. If the slot was free again, a guard that still exists could see another value.
#[test]
fn what_is_forgotten_holds_its_slot(rt: HostRuntime) -> Result<(), Fail> {
    let slots: Slots<u64> = Slots::new(rt.alloc(), 1)?;
    assert!(rt; is_only_read(&slots) == Some(true));
    let others: Slots<u64> = Slots::new(rt.alloc(), 1)?;
    assert!(rt; is_held(&others) == Some(true));
    Ok(())
}
