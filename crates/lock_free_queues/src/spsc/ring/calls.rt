//! The calls on a role at a seat: it is taken, given back, or looked at.
ghost use Rattle.std.specs.Prelude.{IsTrue, IsFalse};
ghost use Rattle.steps.specs.declared.queues.roles.Role.{Role};
ghost use Rattle.history.specs.Roles.{HasRole};
ghost use Rattle.history.specs.Steps.{TakesAtMost};
ghost use Rattle.lock_free_queues.specs.Queues.Kinds.{NoneMarked};
ghost use Rattle.lock_free_queues.specs.Queues.Rings.{token_view, IsSameQueue};
ghost use Rattle.lock_free_queues.specs.Queues.Roles.{Moved, other_role};
ghost use Rattle.lock_free_queues.specs.Queues.Contracts.{HasAcquired, HasReleased, HasSeenRole};

use super::Held;
use super::drives::{Leaves, Looks, Side, Takes};
use super::rule::{Kind, RingRule};
use steps::queues::roles::{AcquireRole, LookRole, ReleaseRole};
use steps::words::Words;

impl<E: Kind, T: Words> Held<E, T, RingRule<E, T>> {
    /// Takes a role, and returns whether it was free.
    pub fn take<R: Side>(&mut self) -> bool
        ensures same { IsSameQueue self.old self.new }
        ensures acquired { HasAcquired R.ROLE result (token_view self.old) (token_view self.new) }
        ensures steps { TakesAtMost 1 (token_view self.old) (token_view self.new) }
        ensures taken { IsTrue result → Moved R.ROLE 1 0 (token_view self.old).made (token_view self.new).made }
        ensures refused { IsFalse result → Moved R.ROLE 0 0 (token_view self.old).made (token_view self.new).made }
        ensures other { Moved (other_role R.ROLE) 0 0 (token_view self.old).made (token_view self.new).made }
    {
        let call = AcquireRole { word: R::WORD };
        self.seated
            .drive::<AcquireRole, Takes<E, R>>(call, &(), &mut ())
    }

    /// Gives a role back.
    pub fn leave<R: Side>(&mut self)
        requires { HasRole R.ROLE (token_view self.old).made }
        ensures same { IsSameQueue self.old self.new }
        ensures left { HasReleased R.ROLE (token_view self.old) (token_view self.new) }
        ensures steps { TakesAtMost 1 (token_view self.old) (token_view self.new) }
        ensures list { NoneMarked R.ROLE E.KIND (token_view self.old) (token_view self.new) }
        ensures mine { Moved R.ROLE 0 1 (token_view self.old).made (token_view self.new).made }
        ensures other { Moved (other_role R.ROLE) 0 0 (token_view self.old).made (token_view self.new).made }
    {
        let call = ReleaseRole { word: R::WORD };
        self.seated
            .drive::<ReleaseRole, Leaves<E, R>>(call, &(), &mut ());
    }

    /// Returns whether a role is taken.
    pub fn is_taken<R: Side>(&mut self) -> bool
        ensures same { IsSameQueue self.old self.new }
        ensures answer { HasSeenRole R.ROLE result (token_view self.old) (token_view self.new) }
        ensures steps { TakesAtMost 1 (token_view self.old) (token_view self.new) }
        ensures roles { (r : Role) → Moved r 0 0 (token_view self.old).made (token_view self.new).made }
    {
        let call = LookRole { word: R::WORD };
        self.seated
            .drive::<LookRole, Looks<E, R>>(call, &(), &mut ())
    }
}
