//! How a pass of a set of either kind is split off another one, or joined to it.
ghost use Rattle.std.specs.Prelude.{◌≡◌, IfSome, IfNone};
ghost use Rattle.model.specs.Coding.{one_word};
ghost use Rattle.history.specs.History.{Knows};
ghost use Rattle.history.specs.Passes.{HasSplit};
ghost use Rattle.lock_free_sets.specs.Sets.Kinds.{machine_kind};
ghost use Rattle.lock_free_sets.specs.Sets.Calls.{set_of, view, HasHistory, PassJoins};
ghost use Rattle.history.specs.Steps.{TakesAtMost, JoinsWithin};

use super::drives::Look;
use super::rule::{Kind, SetRule};
use super::{Held, Pass};
use history::plays::{Both, Cut};
use std::marker::PhantomData;

impl<E: Kind> Held<E, u64, SetRule<E>> {
    /// What the pass has seen is the history of a run of the machine, whose turns it knows. It does nothing. This
    /// project's own.
    pub fn history(&self)
        ensures run { Knows one_word (machine_kind E.KIND) (set_of self.now).capacity (view self.now) }
        ensures history { HasHistory self.now }
    {
        let _ = &self.seated;
    }

    /// Makes a new pass of the same set, which has seen the same and made nothing. None, and nothing changes, where no
    /// further pass can be counted (no clause says when). At most one step. This project's own.
    pub fn split(&mut self) -> Option<Pass<E>>
        ensures set { set_of self.new ≡ set_of self.old }
        ensures new { IfSome result (λ p. set_of p ≡ set_of self.old) }
        ensures cut { IfSome result (λ p. HasSplit (view self.old) (view self.new) (view p)) }
        ensures none { IfNone result (view self.new ≡ view self.old) }
        ensures steps { TakesAtMost 1 (view self.old) (view self.new) }
    {
        let seated = self.seated.split::<Cut>()?;
        Some(Held {
            of: PhantomData,
            seated,
            capacity: self.capacity,
        })
    }

    /// Takes in the other pass of the set, and sees a history that goes on from both. With the whole share one of the
    /// two had seen all of it, and each event in it was made by one of them. At most two steps. This project's own.
    pub fn join(&mut self, other: Pass<E>)
        requires { set_of other ≡ set_of self.old }
        ensures same { PassJoins self.old other self.new }
        ensures steps { JoinsWithin 2 (view self.old) (view other) (view self.new) }
    {
        let Held {
            of: _,
            seated: other,
            capacity: _,
        } = other;
        self.seated.join::<Both>(other);
        let last = E::words(self.capacity);
        let _ = self.seated.look::<Look<E>>(last);
    }
}
