//! How one call splits a handle or a pass many times (`split_many`).
ghost use Rattle.std.specs.Prelude.{IfSome};
ghost use Rattle.lock_free_guards.specs.Cuts.{AreCut};

use lock_free_owners::mpmc::{container, robust_unique_index_set as robust};
use lock_free_sets::mpmc::sets::rule::Kind;
use lock_free_sets::mpmc::{sets, unique_index_set as unique};
use std::alloc::Global;
use steps::words::Words;

/// A handle or a pass, of which a further one is split off.
pub trait Splits: Sized + Drop {
    /// What a split of the first leaves of it (the second), and what it makes (the third).
    ghost cut: { Self → Self → Self → Type 0 };

    /// Makes a further handle or pass of the same structure. None where no further pass can be counted.
    fn split_one(&mut self) -> Option<Self>
        ensures { IfSome result (λ half. Self.cut self.old self.new half) };
}

/// Makes N further handles or passes of the same structure. Each split halves the share that the given one
/// has left. None where no further pass can be counted, or where there is no memory (no clause says when).
/// Then what was split off is dropped with its share, and no clause says what share the given one has left.
/// It takes the atomic steps of N splits. This project's own.
pub fn split_many<const N: usize, H: Splits>(alloc: Global, handle: &mut H) -> Option<[H; N]>
    ensures { IfSome result (λ halves. AreCut H.cut halves handle.old handle.new) }
{
    let mut halves = Vec::new(alloc);
    for _ in 0..N {
        let half = handle.split_one()?;
        halves.push(half).ok()?;
    }
    <[H; N]>::try_from(halves).ok()
}

impl<'a> Splits for unique::Handle<'a> {
    ghost use Rattle.std.specs.Prelude.{◌≡◌};
    ghost use Rattle.history.specs.Passes.{HasSplit};
    ghost use Rattle.lock_free_sets.specs.Unique.Handles.{set_in, knows};

    ghost cut = { λ old new half. (set_in new ≡ set_in old) × (set_in half ≡ set_in old) × HasSplit (knows old) (knows new) (knows half) };

    fn split_one(&mut self) -> Option<unique::Handle<'a>> {
        self.split()
    }
}

impl Splits for unique::Pass {
    ghost use Rattle.std.specs.Prelude.{◌≡◌};
    ghost use Rattle.history.specs.Passes.{HasSplit};
    ghost use Rattle.lock_free_sets.specs.UniqueIndexSet.{set_of, view};

    ghost cut = { λ old new half. (set_of new ≡ set_of old) × (set_of half ≡ set_of old) × HasSplit (view old) (view new) (view half) };

    fn split_one(&mut self) -> Option<unique::Pass> {
        self.split()
    }
}

impl<'a, E: Kind> Splits for sets::Handle<'a, E> {
    ghost use Rattle.std.specs.Prelude.{◌≡◌};
    ghost use Rattle.history.specs.Passes.{HasSplit};
    ghost use Rattle.lock_free_sets.specs.Sets.Handles.{set_in, knows};

    ghost cut = { λ old new half. (set_in new ≡ set_in old) × (set_in half ≡ set_in old) × HasSplit (knows old) (knows new) (knows half) };

    fn split_one(&mut self) -> Option<sets::Handle<'a, E>> {
        self.split()
    }
}

impl<'a> Splits for robust::Handle<'a> {
    ghost use Rattle.std.specs.Prelude.{◌≡◌};
    ghost use Rattle.history.specs.Passes.{HasSplit};
    ghost use Rattle.lock_free_owners.specs.Robust.Handles.{set_in, knows};

    ghost cut = { λ old new half. (set_in new ≡ set_in old) × (set_in half ≡ set_in old) × HasSplit (knows old) (knows new) (knows half) };

    fn split_one(&mut self) -> Option<robust::Handle<'a>> {
        self.split()
    }
}

impl Splits for robust::Pass {
    ghost use Rattle.std.specs.Prelude.{◌≡◌};
    ghost use Rattle.history.specs.Passes.{HasSplit};
    ghost use Rattle.lock_free_owners.specs.RobustUniqueIndexSet.{set_of, view};

    ghost cut = { λ old new half. (set_of new ≡ set_of old) × (set_of half ≡ set_of old) × HasSplit (view old) (view new) (view half) };

    fn split_one(&mut self) -> Option<robust::Pass> {
        self.split()
    }
}

impl<'a, T: Words> Splits for container::Handle<'a, T> {
    ghost use Rattle.std.specs.Prelude.{◌≡◌};
    ghost use Rattle.history.specs.Passes.{HasSplit};
    ghost use Rattle.lock_free_owners.specs.Container.Handles.{container_in, knows};

    ghost cut = { λ old new half. (container_in new ≡ container_in old) × (container_in half ≡ container_in old)
        × HasSplit (knows old) (knows new) (knows half) };

    fn split_one(&mut self) -> Option<container::Handle<'a, T>> {
        self.split()
    }
}
