//! The calls by a handle: those of its set.
ghost use Rattle.std.specs.Prelude.{◌≡◌, ◌+◌, ◌<◌, IfSome, IfNone};
ghost use Rattle.lock_free_sets.specs.Sets.Calls.{capacity_of};
ghost use Rattle.lock_free_sets.specs.Bits.Callable.{TakesPlaces};
ghost use Rattle.lock_free_sets.specs.Bits.Contracts.{SetDone, ResetDone, ResetNothing, ResetAllDone};
ghost use Rattle.lock_free_sets.specs.Bits.Looks.{IsSetDone};
ghost use Rattle.lock_free_sets.specs.Sets.Handles.{set_in, knows, SameHandle};
ghost use Rattle.steps.specs.Bits.Words.{elements};
ghost use Rattle.history.specs.Steps.{TakesAtMost, TakesAlone};

use super::Handle;
use std::sync::Wait;

impl<'a> Handle<'a> {
    /// Calls `BitSet::set`, with its pass.
    pub fn set(&mut self, rt: &impl Wait, id: usize) -> bool
        requires { id < capacity_of (set_in self.old) }
        ensures same { SameHandle self.old self.new }
        ensures added { SetDone id result (knows self.old) (knows self.new) }
        ensures steps { TakesAlone 2 1 (knows self.old) (knows self.new) }
    {
        self.set.set(rt, id, &mut self.pass)
    }

    /// Calls `BitSet::is_set`, with its pass.
    pub fn is_set(&mut self, id: usize) -> bool
        requires { id < capacity_of (set_in self.old) }
        ensures same { SameHandle self.old self.new }
        ensures answer { IsSetDone id result (knows self.old) (knows self.new) }
        ensures steps { TakesAtMost 1 (knows self.old) (knows self.new) }
    {
        self.set.is_set(id, &mut self.pass)
    }

    /// Calls `BitSet::reset_next`, with its pass.
    pub fn reset_next(&mut self, rt: &impl Wait) -> Option<usize>
        ensures same { SameHandle self.old self.new }
        ensures cleared { IfSome result
            (λ place. ResetDone (capacity_of (set_in self.old)) place (knows self.old) (knows self.new)) }
        ensures clear { IfNone result (ResetNothing (capacity_of (set_in self.old)) (knows self.old) (knows self.new)) }
        ensures steps { TakesAlone (3 + capacity_of (set_in self.old)) 1 (knows self.old) (knows self.new) }
    {
        self.set.reset_next(rt, &mut self.pass)
    }

    /// Calls `BitSet::reset_all`, with its pass.
    pub fn reset_all<F: FnMut(usize)>(&mut self, visit: &mut F)
        requires { TakesPlaces F.pre (λ p x q. F.step p x tt q) (capacity_of (set_in self.old)) visit.old }
        ensures same { SameHandle self.old self.new }
        ensures cleared { ResetAllDone (λ p x q. F.step p x tt q) (capacity_of (set_in self.old)) visit.old visit.new
            (knows self.old) (knows self.new) }
        ensures steps { 0 < capacity_of (set_in self.old)
            → TakesAtMost (elements (capacity_of (set_in self.old))) (knows self.old) (knows self.new) }
        ensures one_step { capacity_of (set_in self.old) ≡ 0 → TakesAtMost 1 (knows self.old) (knows self.new) }
    {
        self.set.reset_all(visit, &mut self.pass)
    }
}
