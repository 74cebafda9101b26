//! What both ends of a queue tell of it: how many elements wait, whether it is empty or
//! full, and its capacity.
use crate::tells::Fill::{Between, Empty, Full};
use lock_free::spsc::index_queue::IndexQueue;
use lock_free::spsc::queue::Queue;
use lock_free::spsc::safely_overflowing_index_queue::SafelyOverflowingIndexQueue;
use std::alloc::Global;
use std::sync::Wait;
use std::test::Fail;

/// How full a queue is, as `is_empty` and `is_full` say.
#[derive(Clone, Copy, PartialEq, Eq)]
enum Fill {
    Empty,
    Between,
    Full,
}

/// How full a queue of capacity 1 is: while no element waits, and while one does.
const OF_ONE: [Fill; 2] = [Empty, Full];

/// How full a queue of capacity 3 is, while no element waits, one, two and three.
const OF_THREE: [Fill; 4] = [Empty, Between, Between, Full];

/// How often a queue is filled and emptied.
const ROUNDS: u64 = 3;

/// Whether this end tells that `$waiting` elements wait, that its queue is as full as `$fill` says, and that
/// its capacity is `$capacity`.
macro_rules! is_told {
    ($rt:expr, $end:expr, $waiting:expr, $fill:expr, $capacity:expr) => {
        ($end.len($rt) == $waiting)
            & ($end.is_empty($rt) == ($fill == Empty))
            & ($end.is_full($rt) == ($fill == Full))
            & ($end.capacity() == $capacity)
    };
}

/// Fills a queue with one push for each place of the row, and empties it, `ROUNDS` times. True if both ends
/// tell what the row says before each push. The last push of each round meets a full queue.
macro_rules! is_told_by_ends {
    ($rt:expr, $ends:expr, $element:expr, $row:expr, $($with:expr),*) => {{
        let (mut producer, mut consumer) = $ends;
        let capacity = $row.len().saturating_sub(1);
        let mut right = true;
        for _ in 0..ROUNDS {
            for (waiting, fill) in $row.iter().enumerate() {
                right &= is_told!($rt, producer, waiting, *fill, capacity);
                right &= is_told!($rt, consumer, waiting, *fill, capacity);
                producer.push($element);
            }
            for _ in 0..capacity {
                consumer.pop($($with),*);
            }
        }
        right
    }};
}

/// Whether both ends of an index queue tell what this row says.
fn ask_numbers(rt: &impl Wait, alloc: Global, row: &[Fill]) -> Option<bool> {
    let (queue, pass) = IndexQueue::new(alloc, row.len().saturating_sub(1)).ok()?;
    Some(is_told_by_ends!(rt, queue.ends(pass)?, 7, row,))
}

/// Whether both ends of an overflowing queue tell what this row says.
fn ask_overflowing(rt: &impl Wait, alloc: Global, row: &[Fill]) -> Option<bool> {
    let capacity = row.len().saturating_sub(1);
    let (queue, pass) = SafelyOverflowingIndexQueue::new(alloc, capacity).ok()?;
    Some(is_told_by_ends!(rt, queue.ends(pass)?, 7, row, rt))
}

/// Whether both ends of a queue of three values tell what `OF_THREE` says.
fn ask_values(rt: &impl Wait, alloc: Global) -> Option<bool> {
    let (queue, pass) = Queue::<u64, 3>::new(alloc).ok()?;
    let ends = queue.handle(pass).ends()?;
    Some(is_told_by_ends!(rt, ends, &7, OF_THREE,))
}

/// Both ends of each kind of queue tell the same, and the right thing, as the queue is filled. A failure says
/// that an end counts wrongly, or calls a queue full or empty that is not.
#[test]
fn ends_tell_how_many_wait(rt: HostRuntime) -> Result<(), Fail> {
    for row in [&OF_ONE[..], &OF_THREE[..]] {
        let of_numbers = ask_numbers(&rt, rt.alloc(), row).ok_or("no memory")?;
        let of_overflowing = ask_overflowing(&rt, rt.alloc(), row).ok_or("no memory")?;
        assert!(rt; of_numbers && of_overflowing);
    }
    assert!(rt; ask_values(&rt, rt.alloc()).ok_or("no memory")?);
    Ok(())
}
