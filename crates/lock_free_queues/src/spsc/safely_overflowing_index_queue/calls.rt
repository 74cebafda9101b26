//! The push and the pop of `steps`, driven at a seat of an overflowing queue with a capacity above 0.
ghost use Rattle.std.specs.Prelude.{◌≡◌, ◌⊎◌, ◌<◌, IfSome, IfNone};
ghost use Rattle.steps.specs.declared.queues.roles.Role.{Role};
ghost use Rattle.steps.specs.declared.queues.roles.Role.TheVariants as roles;
ghost use Rattle.model.specs.declared.event.Item.TheVariants.{Index};
ghost use Rattle.history.specs.Roles.{HasRole};
ghost use Rattle.history.specs.Steps.{TakesAtMost, TakesAlone};
ghost use Rattle.lock_free_queues.specs.Queues.Overflowing.{token_view, IsSameQueue, PushAdded, PushReplaced};
ghost use Rattle.lock_free_queues.specs.Queues.Roles.{Moved};
ghost use Rattle.lock_free_queues.specs.Queues.Contracts.{WasAtEnd, PopOldest, PopFoundNone};

use super::drives::{Pops, Pushes};
use crate::spsc::ring::Held;
use crate::spsc::ring::rule::{Overflowing, RingRule};
use std::sync::Wait;
use steps::copied::OneWord;
use steps::queues::overflow::{Pop, Push};
use steps::routine::Routine;

impl Held<Overflowing, u64, RingRule<Overflowing, u64>> {
    /// Appends a number and returns what leaves the queue: None, or the oldest number if it is full. It returns the
    /// number itself where the write position is at its end. At most 6 atomic steps.
    pub fn push(&mut self, value: u64) -> Option<u64>
        requires role { HasRole roles.Producer (token_view self.old).made }
        requires some { 0 < self.old.capacity }
        ensures same { IsSameQueue self.old self.new }
        ensures added { IfNone result (PushAdded value (token_view self.old) (token_view self.new)) }
        ensures handed_back { IfSome result (λ y. PushReplaced value y (token_view self.old) (token_view self.new)
            ⊎ (y ≡ value) × WasAtEnd (token_view self.old) (token_view self.new)) }
        ensures roles { (r : Role) → Moved r 0 0 (token_view self.old).made (token_view self.new).made }
        ensures steps { TakesAtMost 6 (token_view self.old) (token_view self.new) }
    {
        let mut room = OneWord(0);
        let call = Push::new(self.capacity);
        let end = self.seated.drive::<Push, Pushes>(call, &value, &mut room);
        Push::answer(end, &value, &room)
    }

    /// Takes the oldest number and returns it, or returns None where the queue is empty. At most 4 atomic steps, and 2
    /// more for each change of a word of the queue by others during the call.
    pub fn pop(&mut self, rt: &impl Wait) -> Option<u64>
        requires role { HasRole roles.Consumer (token_view self.old).made }
        requires some { 0 < self.old.capacity }
        ensures same { IsSameQueue self.old self.new }
        ensures popped { IfSome result (λ x. PopOldest (Index x) (token_view self.old) (token_view self.new)) }
        ensures empty { IfNone result (PopFoundNone (token_view self.old) (token_view self.new)) }
        ensures roles { (r : Role) → Moved r 0 0 (token_view self.old).made (token_view self.new).made }
        ensures steps { TakesAlone 4 2 (token_view self.old) (token_view self.new) }
    {
        let mut room = OneWord(0);
        let call = Pop::new(self.capacity);
        let end = self.seated.drive_on::<Pop, Pops>(rt, call, &(), &mut room);
        Pop::answer(end, &(), &room)
    }
}
