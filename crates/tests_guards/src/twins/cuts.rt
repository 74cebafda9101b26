//! `split_many` with the clause that no test uses, at the types other than a handle of a unique
//! index set. What is split off is of the same structure, and each was split off what the split
//! before had left (`AreCut`).
ghost use Rattle.std.specs.Prelude.{◌≡◌, IfSome};
ghost use Rattle.history.specs.Passes.{HasSplit};
ghost use Rattle.lock_free_owners.specs.Container.Handles as containers;
ghost use Rattle.lock_free_owners.specs.Robust.Handles as robusts;
ghost use Rattle.lock_free_owners.specs.RobustUniqueIndexSet as robust_passes;
ghost use Rattle.lock_free_sets.specs.Sets.Handles as bits;
ghost use Rattle.lock_free_sets.specs.UniqueIndexSet as unique_passes;
ghost use Rattle.lock_free_guards.specs.Cuts.{AreCut};

use lock_free_guards::splits;
use lock_free_owners::mpmc::{container, robust_unique_index_set as robust};
use lock_free_sets::mpmc::sets::rule::Kind;
use lock_free_sets::mpmc::{sets, unique_index_set as unique};
use std::alloc::Global;
use steps::words::Words;

/// Three passes are split off a pass of a unique index set, one after another.
pub fn split_unique_pass(alloc: Global, pass: &mut unique::Pass) -> Option<[unique::Pass; 3]>
    ensures { IfSome result (λ halves. AreCut (λ old new half. (unique_passes.set_of new ≡ unique_passes.set_of old)
        × (unique_passes.set_of half ≡ unique_passes.set_of old)
        × HasSplit (unique_passes.view old) (unique_passes.view new) (unique_passes.view half)) halves pass.old pass.new) }
{
    splits::split_many::<3, unique::Pass>(alloc, pass)
}

/// Three handles are split off a handle of a bit set, one after another.
pub fn split_bits<'a, E: Kind>(
    alloc: Global,
    handle: &mut sets::Handle<'a, E>,
) -> Option<[sets::Handle<'a, E>; 3]>
    ensures { IfSome result (λ halves. AreCut (λ old new half. (bits.set_in new ≡ bits.set_in old) × (bits.set_in half ≡ bits.set_in old)
        × HasSplit (bits.knows old) (bits.knows new) (bits.knows half)) halves handle.old handle.new) }
{
    splits::split_many::<3, sets::Handle<'a, E>>(alloc, handle)
}

/// Three handles are split off a handle of a robust set, one after another.
pub fn split_robust<'a>(
    alloc: Global,
    handle: &mut robust::Handle<'a>,
) -> Option<[robust::Handle<'a>; 3]>
    ensures { IfSome result (λ halves. AreCut (λ old new half. (robusts.set_in new ≡ robusts.set_in old)
        × (robusts.set_in half ≡ robusts.set_in old)
        × HasSplit (robusts.knows old) (robusts.knows new) (robusts.knows half)) halves handle.old handle.new) }
{
    splits::split_many::<3, robust::Handle<'a>>(alloc, handle)
}

/// Three passes are split off a pass of a robust set, one after another.
pub fn split_robust_pass(alloc: Global, pass: &mut robust::Pass) -> Option<[robust::Pass; 3]>
    ensures { IfSome result (λ halves. AreCut (λ old new half. (robust_passes.set_of new ≡ robust_passes.set_of old)
        × (robust_passes.set_of half ≡ robust_passes.set_of old)
        × HasSplit (robust_passes.view old) (robust_passes.view new) (robust_passes.view half)) halves pass.old pass.new) }
{
    splits::split_many::<3, robust::Pass>(alloc, pass)
}

/// Three handles are split off a handle of a container, one after another.
pub fn split_container<'a, T: Words>(
    alloc: Global,
    handle: &mut container::Handle<'a, T>,
) -> Option<[container::Handle<'a, T>; 3]>
    ensures { IfSome result (λ halves. AreCut (λ old new half. (containers.container_in new ≡ containers.container_in old)
        × (containers.container_in half ≡ containers.container_in old)
        × HasSplit (containers.knows old) (containers.knows new) (containers.knows half)) halves handle.old handle.new) }
{
    splits::split_many::<3, container::Handle<'a, T>>(alloc, handle)
}
