//! The run that a pass knows goes on from the run that it knew before, over calls, splits and joins. The
//! steps that all threads took in between are bounded by the calls that began and by those that ended in
//! between, and so are all steps since the table was opened.

ghost use Rattle.std.specs.Prelude.{◌+◌, IfSome};
ghost use Rattle.model.specs.declared.turn.Kind.TheVariants as kinds;
ghost use Rattle.model.specs.LockFree.{default_bound, default_container_bound, stretch};
ghost use Rattle.lock_free.specs.Coding.{one_word};
ghost use Rattle.lock_free.specs.Container.Names as containers;
ghost use Rattle.lock_free.specs.Container.Steps.{to_settle};
ghost use Rattle.lock_free.specs.RobustUniqueIndexSet as owners;
ghost use Rattle.lock_free.specs.UniqueIndexSet as indices;
ghost use Rattle.uses_laws.specs.Runs.{GoesOn, OwnersGoOn};

use headline_threads::{
    owners_end_loads, owners_keep_ending, passes_end_loads, passes_keep_ending,
};
use lock_free::laws::histories::runs_go_on;
use lock_free::mpmc::container::{
    Container, ContainerAddFailure, ContainerHandle, Pass as ContainerPass,
};
use lock_free::mpmc::robust_unique_index_set::{OwnerId, Pass as OwnerPass, RobustUniqueIndexSet};
use lock_free::mpmc::unique_index_set::{Pass, UniqueIndexSet};
use lock_free::mpmc::unique_index_set_enums::UniqueIndexSetAcquireFailure;
use std::sync::Wait;

/// Splits the pass, takes an index with the one half, and joins the two. None where the pass cannot be split, and nothing has
/// changed then.
///
/// What the pass knows in the end goes on from what it knew before. All steps that threads took at the set in between, as
/// far as it knows, are at most n·n·(capacity + 4) + 1 for each call that was pending before or has begun since, where n
/// parties have acted in between. Four operations of its own at most were no steps of calls.
pub fn take_beside_a_half(
    rt: &impl Wait,
    set: &UniqueIndexSet,
    pass: &mut Pass,
) -> Option<Result<u32, UniqueIndexSetAcquireFailure>>
    requires { indices.IsPassOf set.now pass.old }
    ensures { IfSome result (λ r. GoesOn one_word kinds.Indices (indices.capacity_of set.now) (λ n capacity size. stretch n 1 (capacity + 4))
        ((indices.view pass.old).aside + 4) (indices.view pass.old) (indices.view pass.new)) }
{
    runs_go_on::<u64>();
    passes_keep_ending::<u64>();
    passes_end_loads::<u64>();
    pass.history();
    let other = pass.split()?;
    let taken = set.acquire_raw_index(rt, pass);
    pass.history();
    pass.join(other);
    pass.history();
    Some(taken)
}

/// Takes an index for the owner. Where the pass has seen no call begin that may lock, all steps that threads took at the set
/// meanwhile, and from its opening on, are bounded by the calls that have ended, and by those that have begun, as far as the
/// pass knows. One operation of its own at most was no step of the call.
pub fn lease_within(
    rt: &impl Wait,
    pool: &RobustUniqueIndexSet,
    owner: OwnerId,
    pass: &mut OwnerPass,
) -> Result<usize, UniqueIndexSetAcquireFailure>
    requires { owners.IsPassOf pool.now pass.old }
    ensures { OwnersGoOn one_word kinds.Robust (owners.capacity_of pool.now) default_bound
        ((owners.view pass.old).aside + 1) (owners.view pass.old) (owners.view pass.new) }
{
    owners_keep_ending::<u64>();
    owners_end_loads::<u64>();
    pass.history();
    let leased = pool.acquire(rt, owner, pass);
    pass.history();
    leased
}

/// Adds a value for the owner. All steps that threads took at the container meanwhile, and since it was
/// opened, are bounded as for `lease_within`. If the last call of the pass was a find that rests, one
/// operation more was no step of a call.
pub fn add_within(
    rt: &impl Wait,
    container: &Container<u64>,
    value: u64,
    owner: OwnerId,
    pass: &mut ContainerPass<u64>,
) -> Result<ContainerHandle, ContainerAddFailure>
    requires { containers.IsPassOf container.now pass.old }
    ensures { OwnersGoOn (containers.code_of pass.old) kinds.Container (containers.capacity_of container.now)
        default_container_bound ((containers.view pass.old).aside + (1 + to_settle (containers.view pass.old)))
        (containers.view pass.old) (containers.view pass.new) }
{
    owners_keep_ending::<u64>();
    owners_end_loads::<u64>();
    pass.history();
    let added = container.add(rt, value, owner, pass);
    pass.history();
    added
}
