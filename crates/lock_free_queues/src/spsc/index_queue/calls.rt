//! The push, the pop and the peek of `steps`, driven at a seat of a queue of numbers.
ghost use Rattle.std.specs.Prelude.{◌≡◌, ◌⊎◌, false, IsTrue, IsFalse, IfSome, IfNone};
ghost use Rattle.std.specs.Option.{option_map};
ghost use Rattle.steps.specs.declared.queues.roles.Role.{Role};
ghost use Rattle.steps.specs.declared.queues.roles.Role.TheVariants as roles;
ghost use Rattle.model.specs.declared.event.Item.TheVariants.{Index};
ghost use Rattle.history.specs.Roles.{HasRole};
ghost use Rattle.history.specs.Steps.{TakesAtMost};
ghost use Rattle.lock_free_queues.specs.Queues.Calls.{token_queue, token_view, IsSameQueue};
ghost use Rattle.lock_free_queues.specs.Queues.Roles.{Moved};
ghost use Rattle.lock_free_queues.specs.Queues.Contracts.{HasPushed, HasPublished, WasAtEnd, WasFull, HasPopped, HasTakenOut, WasEmpty, HasPeeked};

use super::drives::{Peeks, Pops, Pushes};
use crate::spsc::ring::Held;
use crate::spsc::ring::rule::{Numbers, RingRule};
use steps::copied::OneWord;
use steps::queues::peek::Peek;
use steps::queues::ring::{Pop, Push};
use steps::routine::Routine;

impl Held<Numbers, u64, RingRule<Numbers, u64>> {
    /// Appends a number and returns true, or false where the queue is full or its write position at its end.
    pub fn push(&mut self, value: u64) -> bool
        requires { HasRole roles.Producer (token_view self.old).made }
        ensures same { IsSameQueue self.old self.new }
        ensures pushed { HasPushed (Index value) result (token_view self.old) (token_view self.new)
            ⊎ (result ≡ false) × WasAtEnd (token_view self.old) (token_view self.new) }
        ensures published { IsTrue result → HasPublished (Index value) (token_view self.old) (token_view self.new) }
        ensures full { IsFalse result
            → WasFull (token_queue self.old).capacity (Index value) (token_view self.old) (token_view self.new)
            ⊎ WasAtEnd (token_view self.old) (token_view self.new) }
        ensures roles { (r : Role) → Moved r 0 0 (token_view self.old).made (token_view self.new).made }
        ensures steps { TakesAtMost 4 (token_view self.old) (token_view self.new) }
    {
        let call = Push::new(self.capacity);
        let end = self
            .seated
            .drive::<Push<u64>, Pushes>(call, &value, &mut ());
        Push::<u64>::answer(end, &value, &())
    }

    /// Takes the oldest number and returns it, or returns None where the queue is empty.
    pub fn pop(&mut self) -> Option<u64>
        requires { HasRole roles.Consumer (token_view self.old).made }
        ensures same { IsSameQueue self.old self.new }
        ensures popped { HasPopped (option_map Index result) (token_view self.old) (token_view self.new) }
        ensures taken { IfSome result (λ x. HasTakenOut (Index x) (token_view self.old) (token_view self.new)) }
        ensures empty { IfNone result (WasEmpty (token_view self.old) (token_view self.new)) }
        ensures roles { (r : Role) → Moved r 0 0 (token_view self.old).made (token_view self.new).made }
        ensures steps { TakesAtMost 4 (token_view self.old) (token_view self.new) }
    {
        let call = Pop::new(self.capacity);
        let mut room = OneWord(0);
        let end = self
            .seated
            .drive::<Pop<u64, OneWord>, Pops>(call, &(), &mut room);
        Pop::<u64, OneWord>::answer(end, &(), &room)
    }

    /// Returns the oldest number, which stays, or None where the queue is empty.
    pub fn peek(&mut self) -> Option<u64>
        requires { HasRole roles.Consumer (token_view self.old).made }
        ensures same { IsSameQueue self.old self.new }
        ensures peeked { HasPeeked (option_map Index result) (token_view self.old) (token_view self.new) }
        ensures roles { (r : Role) → Moved r 0 0 (token_view self.old).made (token_view self.new).made }
        ensures steps { TakesAtMost 3 (token_view self.old) (token_view self.new) }
    {
        let call = Peek::new(self.capacity);
        let mut room = OneWord(0);
        let end = self
            .seated
            .drive::<Peek<u64, OneWord>, Peeks>(call, &(), &mut room);
        Peek::<u64, OneWord>::answer(end, &(), &room)
    }
}
