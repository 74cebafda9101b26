//! The calls on an index that is held.
ghost use Rattle.std.specs.Prelude.{◌≡◌, ◌<◌, ℕ};
ghost use Rattle.steps.specs.declared.indices.enums.ReleaseState.TheVariants.{Unlocked};
ghost use Rattle.model.specs.declared.turn.Kind.TheVariants as kinds;
ghost use Rattle.model.specs.Coding.{one_word};
ghost use Rattle.history.specs.Held.{Holds};
ghost use Rattle.history.specs.History.{Knows};
ghost use Rattle.lock_free_sets.specs.Unique.Contracts.{HasGiven};
ghost use Rattle.lock_free_sets.specs.UniqueIndexSet.{view, set_of, made, HasHistory, SamePass, PassJoins, value_of, index_pass, index_view, index_set};
ghost use Rattle.history.specs.Steps.{TakesAtMost, JoinsWithin};

use super::{Pass, UniqueIndex};

impl<'a> UniqueIndex<'a> {
    /// What the pass that it owns has seen is a history, as `history` of the pass says. It does nothing.
    pub fn history(&self)
        ensures run { Knows one_word kinds.Indices (index_set self.now).capacity (index_view self.now) }
        ensures history { HasHistory (index_pass self.now) }
    {
        self.pass.history();
    }

    /// Returns the index, which is below the capacity. After `value` of the Rust crate.
    pub fn value(&self) -> u32
        ensures value { result ≡ value_of self.now }
        ensures below { result < (index_set self.now).capacity }
    {
        self.index
    }

    /// Takes in what a pass of the set holds and has seen, as a join of passes does. This project's own.
    pub fn join(&mut self, other: Pass)
        requires { set_of other ≡ index_set self.old }
        ensures same { PassJoins (index_pass self.old) other (index_pass self.new) }
        ensures value { value_of self.new ≡ value_of self.old }
        ensures apart { (i : ℕ) → Holds i (made (index_pass self.old)) → Holds i (made other) → ⊥ }
        ensures steps { JoinsWithin 2 (index_view self.old) (view other) (index_view self.new) }
    {
        self.pass.join(other);
    }

    /// Gives the index back in mode `Default` and hands the pass out. At most 5 atomic steps. This project's own,
    /// beside the drop.
    pub fn release(self) -> Pass
        ensures same { SamePass (index_pass self.entry) result }
        ensures given { HasGiven (value_of self.entry) Unlocked (index_view self.entry) (view result) }
        ensures steps { TakesAtMost 5 (index_view self.entry) (view result) }
    {
        let UniqueIndex {
            set,
            mut pass,
            index,
        } = self;
        set.release_raw_index(index, &mut pass);
        pass
    }
}
