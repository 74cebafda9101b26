//! All steps that threads take at a queue are bounded by how many of their calls have ended, and by how many
//! have begun. The operations on words that a pass asks for are bounded by the calls that have begun.

ghost use Rattle.std.specs.Prelude.{◌≡◌, ◌+◌};
ghost use Rattle.lock_free.specs.Queues.Calls.{queue_of, view};
ghost use Rattle.lock_free.specs.UniqueIndexSet as indices;
ghost use Rattle.uses_laws.specs.Ending.{StepsAreWithinEnds, StepsAreWithinLoad, AsksAreWithinLoad};

use headline_threads::{actors_are_seen, passes_end_loads, passes_keep_ending};
use lock_free::mpmc::unique_index_set::{Pass as IndexPass, UniqueIndexSet};
use lock_free::mpmc::unique_index_set_enums::UniqueIndexSetAcquireFailure;
use lock_free::spsc::index_queue::Pass;
use std::sync::Wait;

/// Takes in the other pass. All steps at the queue that the pass knows of then, of whichever threads, are at most
/// 5n + k(5n + 1), where k calls have ended and all events that it has seen are of n parties.
pub fn join_both(pass: &mut Pass, other: Pass)
    requires { queue_of other ≡ queue_of pass.old }
    ensures { StepsAreWithinEnds (queue_of pass.old).capacity (view pass.new) }
{
    passes_keep_ending::<u64>();
    actors_are_seen::<u64>();
    pass.join(other);
    pass.history();
}

/// Takes in the other pass. All steps at the queue that the pass knows of then are at most 5n + 1 for each call that it has
/// seen begin, whatever the threads did and in which order, where all events that it has seen are of n parties. So threads that
/// make finitely many calls take finitely many steps.
pub fn join_load(pass: &mut Pass, other: Pass)
    requires { queue_of other ≡ queue_of pass.old }
    ensures { StepsAreWithinLoad (queue_of pass.old).capacity (view pass.new) }
{
    passes_end_loads::<u64>();
    actors_are_seen::<u64>();
    pass.join(other);
    pass.history();
}

/// Splits the pass, takes an index with each half, and joins the two. None where the pass cannot be split.
///
/// If all events that the pass has seen in the end are of n parties, it has asked for at most
/// n·n·(capacity + 4) + 1 operations on words for each of these calls, of whichever threads, and for those
/// that were no steps of calls. Of the latter there are at most 5 more than before: 1 for the split, 1 for
/// each index, and 2 for the join.
pub fn take_by_halves(
    rt: &impl Wait,
    set: &UniqueIndexSet,
    pass: &mut IndexPass,
) -> Option<[Result<u32, UniqueIndexSetAcquireFailure>; 2]>
    requires { indices.IsPassOf set.now pass.old }
    ensures { AsksAreWithinLoad (indices.capacity_of set.now) ((indices.view pass.old).aside + 5) (indices.view pass.new) }
{
    passes_end_loads::<u64>();
    actors_are_seen::<u64>();
    pass.history();
    let mut other = pass.split()?;
    let one = set.acquire_raw_index(rt, pass);
    let two = set.acquire_raw_index(rt, &mut other);
    pass.join(other);
    pass.history();
    Some([one, two])
}
