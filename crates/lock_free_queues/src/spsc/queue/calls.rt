//! The push of a value at a seat: the call `Push` of `steps`, driven.
ghost use Rattle.std.specs.Prelude.{◌≡◌, ◌⊎◌, ◌+◌, false, IsTrue, IsFalse};
ghost use Rattle.steps.specs.declared.queues.roles.Role.{Role};
ghost use Rattle.steps.specs.declared.queues.roles.Role.TheVariants as roles;
ghost use Rattle.model.specs.declared.event.Item.TheVariants.{Value};
ghost use Rattle.history.specs.Roles.{HasRole};
ghost use Rattle.history.specs.Steps.{TakesAtMost};
ghost use Rattle.lock_free_queues.specs.Queues.Values.{token_queue, token_view, IsSameQueue};
ghost use Rattle.lock_free_queues.specs.Queues.Roles.{Moved};
ghost use Rattle.lock_free_queues.specs.Queues.Contracts.{HasPushed, HasPublished, WasAtEnd, WasFull};

use super::drives::Pushes;
use crate::spsc::ring::Held;
use crate::spsc::ring::rule::{RingRule, Values};
use steps::queues::ring::Push;
use steps::routine::Routine;
use steps::words::Words;

impl<T: Words> Held<Values, T, RingRule<Values, T>> {
    /// Appends a value and returns true, or false where the queue is full or its write position at its end.
    pub fn push(&mut self, value: &T) -> bool
        requires { HasRole roles.Producer (token_view self.old).made }
        ensures same { IsSameQueue self.old self.new }
        ensures pushed { HasPushed (Value value.now) result (token_view self.old) (token_view self.new)
            ⊎ (result ≡ false) × WasAtEnd (token_view self.old) (token_view self.new) }
        ensures published { IsTrue result → HasPublished (Value value.now) (token_view self.old) (token_view self.new) }
        ensures full { IsFalse result
            → WasFull (token_queue self.old).capacity (Value value.now) (token_view self.old) (token_view self.new)
            ⊎ WasAtEnd (token_view self.old) (token_view self.new) }
        ensures roles { (r : Role) → Moved r 0 0 (token_view self.old).made (token_view self.new).made }
        ensures steps { TakesAtMost (3 + T.WORDS) (token_view self.old) (token_view self.new) }
    {
        let call = Push::new(self.capacity);
        let end = self
            .seated
            .drive::<Push<T>, Pushes<T>>(call, value, &mut ());
        Push::<T>::answer(end, value, &())
    }
}
