//! The calls by a handle: those of its set.
ghost use Rattle.std.specs.Prelude.{◌≡◌, ◌<◌};
ghost use Rattle.lock_free_sets.specs.Sets.Calls.{capacity_of};
ghost use Rattle.lock_free_sets.specs.Counts.Callable.{TakesCounts};
ghost use Rattle.lock_free_sets.specs.Counts.Contracts.{SetDone, ResetAllDone};
ghost use Rattle.lock_free_sets.specs.Counts.Looks.{CountDone};
ghost use Rattle.lock_free_sets.specs.Sets.Handles.{set_in, knows, SameHandle};
ghost use Rattle.history.specs.Steps.{TakesAtMost};

use super::{BitState, Handle};

impl<'a> Handle<'a> {
    /// Calls `CountingBitSet::set`, with its pass.
    pub fn set(&mut self, id: usize) -> u64
        requires { id < capacity_of (set_in self.old) }
        ensures same { SameHandle self.old self.new }
        ensures counted { SetDone id result (knows self.old) (knows self.new) }
        ensures steps { TakesAtMost 1 (knows self.old) (knows self.new) }
    {
        self.set.set(id, &mut self.pass)
    }

    /// Calls `CountingBitSet::count`, with its pass.
    pub fn count(&mut self, id: usize) -> u64
        requires { id < capacity_of (set_in self.old) }
        ensures same { SameHandle self.old self.new }
        ensures answer { CountDone id result (knows self.old) (knows self.new) }
        ensures steps { TakesAtMost 1 (knows self.old) (knows self.new) }
    {
        self.set.count(id, &mut self.pass)
    }

    /// Calls `CountingBitSet::reset_all`, with its pass.
    pub fn reset_all<F: FnMut(BitState)>(&mut self, visit: &mut F)
        requires { TakesCounts F.pre (λ p x q. F.step p x tt q) (capacity_of (set_in self.old)) visit.old }
        ensures same { SameHandle self.old self.new }
        ensures taken { ResetAllDone (λ p x q. F.step p x tt q) (capacity_of (set_in self.old)) visit.old visit.new
            (knows self.old) (knows self.new) }
        ensures steps { 0 < capacity_of (set_in self.old)
            → TakesAtMost (capacity_of (set_in self.old)) (knows self.old) (knows self.new) }
        ensures one_step { capacity_of (set_in self.old) ≡ 0 → TakesAtMost 1 (knows self.old) (knows self.new) }
    {
        self.set.reset_all(visit, &mut self.pass)
    }
}
