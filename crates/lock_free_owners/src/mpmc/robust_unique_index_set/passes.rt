//! How a pass of a robust set is split off another one, or joined to it.
ghost use Rattle.std.specs.Prelude.{◌≡◌, IfSome, IfNone};
ghost use Rattle.model.specs.declared.turn.Kind.TheVariants as kinds;
ghost use Rattle.model.specs.Coding.{one_word};
ghost use Rattle.history.specs.History.{Knows};
ghost use Rattle.history.specs.Passes.{HasSplit};
ghost use Rattle.history.specs.Steps.{TakesAtMost, JoinsWithin};
ghost use Rattle.lock_free_owners.specs.RobustUniqueIndexSet.{set_of, view, HasHistory, PassJoins};

use super::Pass;
use super::drives::Look;
use history::plays::{Both, Cut};

impl Pass {
    /// What the pass has seen is the history of a run of the machine, whose turns it knows. It does nothing. This
    /// project's own.
    pub fn history(&self)
        ensures run { Knows one_word kinds.Robust (set_of self.now).capacity (view self.now) }
        ensures history { HasHistory self.now }
    {
        let _ = &self.seated;
    }

    /// Makes a new pass of the same set, which has seen the same and made nothing. This one keeps all that it made, and
    /// each has half of the share. None, and nothing changes, where no further pass can be counted (no clause says
    /// when). At most one step. This project's own.
    pub fn split(&mut self) -> Option<Pass>
        ensures set { set_of self.new ≡ set_of self.old }
        ensures new { IfSome result (λ p. set_of p ≡ set_of self.old) }
        ensures cut { IfSome result (λ p. HasSplit (view self.old) (view self.new) (view p)) }
        ensures none { IfNone result (view self.new ≡ view self.old) }
        ensures steps { TakesAtMost 1 (view self.old) (view self.new) }
    {
        let seated = self.seated.split::<Cut>()?;
        Some(Pass {
            seated,
            capacity: self.capacity,
        })
    }

    /// Takes in what the other pass of the set has made and has seen, with its share. This project's own.
    pub fn join(&mut self, other: Pass)
        requires { set_of other ≡ set_of self.old }
        ensures same { PassJoins self.old other self.new }
        ensures steps { JoinsWithin 2 (view self.old) (view other) (view self.new) }
    {
        let Pass {
            seated: other,
            capacity: _,
        } = other;
        self.seated.join::<Both>(other);
        let _ = self.seated.look::<Look>(0);
    }
}
