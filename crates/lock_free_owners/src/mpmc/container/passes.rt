//! How a pass of a container is split off another one, or joined to it.
ghost use Rattle.std.specs.Prelude.{◌≡◌, None, IfSome, IfNone};
ghost use Rattle.history_owners.specs.ContainerLooks.{KeepsState};
ghost use Rattle.model.specs.declared.turn.Kind.TheVariants as kinds;
ghost use Rattle.history.specs.History.{Knows};
ghost use Rattle.history.specs.Passes.{HasSplit};
ghost use Rattle.history.specs.Steps.{TakesAtMost, JoinsWithin};
ghost use Rattle.lock_free_owners.specs.Container.Idle.{IsIdle};
ghost use Rattle.lock_free_owners.specs.Container.Names.{code_of, view, container_of, HasHistory, PassJoins};

use super::Pass;
use super::drives::{Glance, Settle};
use super::token::Held;
use history::plays::{Both, Cut};
use steps::words::Words;

impl<T: Words> Pass<T> {
    /// What the pass has seen is the history of a run of the machine, whose turns it knows. Its last call has ended, or
    /// is a find that rests at its question. It does nothing. This project's own.
    pub fn history(&self)
        ensures run { Knows (code_of self.now) kinds.Container (container_of self.now).capacity (view self.now) }
        ensures history { HasHistory self.now }
        ensures rests { IsIdle (view self.now) }
    {
        let _ = &self.token;
    }

    /// Makes a new pass of the same container, which has seen the same and made nothing. This one keeps all that it
    /// made, and the state that it has; each has half of the share. At most one step. None, and nothing changes, where
    /// no further pass can be counted (no clause says when). This project's own.
    pub fn split(&mut self) -> Option<Pass<T>>
        ensures container { container_of self.new ≡ container_of self.old }
        ensures new { IfSome result (λ p. container_of p ≡ container_of self.old) }
        ensures cut { IfSome result (λ p. HasSplit (view self.old) (view self.new) (view p)) }
        ensures going { (view self.new).going ≡ (view self.old).going }
        ensures keeps { KeepsState (view self.old) (view self.new) }
        ensures idle { IfSome result (λ p. (view p).going ≡ None) }
        ensures none { IfNone result (view self.new ≡ view self.old) }
        ensures steps { TakesAtMost 1 (view self.old) (view self.new) }
    {
        let seated = self.token.seated.split::<Cut>()?;
        Some(Pass {
            token: Held {
                seated,
                capacity: self.token.capacity,
            },
        })
    }

    /// Takes in what the other pass of the container has made and has seen, with its share and steps.
    /// At most three steps. The first is a load by the other pass; if the last call of that pass rests,
    /// it ends with this load. This pass keeps the state that it has; the other's state is then no
    /// pass's. This project's own.
    pub fn join(&mut self, other: Pass<T>)
        requires { container_of other ≡ container_of self.old }
        ensures same { PassJoins self.old other self.new }
        ensures steps { JoinsWithin 3 (view self.old) (view other) (view self.new) }
    {
        let Pass { token } = other;
        let Held {
            seated: mut other,
            ..
        } = token;
        let _ = other.look::<Settle>(0);
        let seated = &mut self.token.seated;
        seated.join::<Both>(other);
        let _ = seated.look::<Glance>(0);
    }
}
