//! Two threads that read one slot at the same time, for the loop in a read that another reader disturbs.
use std::test::Fail;
use std::thread;
use zero_copy_slots::Slots;

/// How often each of the two threads reads.
const TIMES: u64 = 300_000;

/// Reads the slot `TIMES` times. True if each read succeeds and finds 7, though another reader comes and
/// leaves between the steps of a read.
fn read_always(slots: &Slots<u64>) -> bool {
    for _ in 0..TIMES {
        match slots.read(0) {
            Ok(reading) if *reading.get() == 7 => {}
            _ => return false,
        }
    }
    true
}

/// Two readers of one slot never refuse each other. A read that gave up when the count of readers moved would
/// be refused here.
#[test]
fn readers_do_not_refuse_each_other(rt: HostRuntime) -> Result<(), Fail> {
    let slots: Slots<u64> = Slots::new(rt.alloc(), 1)?;
    let Ok(writing) = slots.take(0) else {
        return Err(Fail::from("not to be had"));
    };
    writing.put(1, 7);
    let both = thread::join(&rt, || read_always(&slots), || read_always(&slots));
    assert!(rt; both == (true, true));
    Ok(())
}
