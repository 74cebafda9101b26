//! Values that are copied whole from a container. A copy is whole if nobody acts for an owner that is being
//! recovered, each owner gives back only its own indices, and no counter has come round. These are conditions
//! on the events of the history. A pass with the whole share has seen all events, and if it has only added,
//! the conditions hold.
ghost use Rattle.std.specs.Prelude.{◌≡◌, None};
ghost use Rattle.lock_free.specs.Container.Names.{history, made, share, view, IsPassOf};
ghost use Rattle.lock_free.specs.Shares.{IsAll};
ghost use Rattle.history_laws.specs.Containers.{IsContained};
ghost use Rattle.uses_laws.specs.Copies.{HasOnlyAdded};

use lock_free::laws::containers;
use lock_free::mpmc::container::{Container, ContainerAddFailure, ContainerHandle, OwnerId, Pass};
use std::sync::Wait;

/// Adds two values for the owner to a container whose history has only adds, by a pass with the whole share.
/// Each value that was added was placed, and each that is copied then was placed whole.
pub fn add_both(
    rt: &impl Wait,
    container: &Container<u64>,
    first: u64,
    second: u64,
    owner: OwnerId,
    pass: &mut Pass<u64>,
) -> (
    Result<ContainerHandle, ContainerAddFailure>,
    Result<ContainerHandle, ContainerAddFailure>,
)
    requires pass { IsPassOf container.now pass.old }
    requires whole { IsAll (share pass.old) }
    requires idle { (view pass.old).going ≡ None }
    requires calm { HasOnlyAdded (made pass.old) }
    ensures { IsContained (history pass.new) }
{
    containers::copies_are_whole::<u64>();
    containers::histories_without_recoveries_are_faithful::<u64>();
    containers::histories_without_removals_are_well_formed::<u64>();
    containers::calls_that_lock_are_apart::<u64>();
    let one = container.add(rt, first, owner, pass);
    let two = container.add(rt, second, owner, pass);
    pass.history();
    (one, two)
}
