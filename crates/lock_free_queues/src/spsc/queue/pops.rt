//! The pop of a value at a seat. The value's words are read into a room, a buffer of the call.
ghost use Rattle.std.specs.Prelude.{◌≡◌, ◌≤◌, ◌+◌, ℕ, replicate, IfSome, IfNone};
ghost use Rattle.std.specs.Option.{option_map};
ghost use Rattle.steps.specs.declared.queues.roles.Role.{Role};
ghost use Rattle.steps.specs.declared.queues.roles.Role.TheVariants as roles;
ghost use Rattle.model.specs.declared.event.Item.TheVariants.{Value};
ghost use Rattle.history.specs.Roles.{HasRole};
ghost use Rattle.history.specs.Steps.{TakesAtMost};
ghost use Rattle.lock_free_queues.specs.Queues.Roles.{Moved};
ghost use Rattle.lock_free_queues.specs.Queues.Contracts.{HasPopped, HasTakenOut, WasEmpty};
ghost use Rattle.lock_free_queues.specs.Queues.Values.{token_view, IsSameQueue};

use super::drives::Pops;
use crate::spsc::ring::Held;
use crate::spsc::ring::rule::{RingRule, Values};
use steps::copied::{Buffer, Room};
use steps::queues::ring::Pop;
use steps::routine::Routine;
use steps::words::Words;

impl<T: Words> Held<Values, T, RingRule<Values, T>> {
    /// Takes the oldest value and returns it, or returns None where the queue is empty.
    pub fn pop(&mut self) -> Option<T>
        requires { HasRole roles.Consumer (token_view self.old).made }
        ensures same { IsSameQueue self.old self.new }
        ensures popped { HasPopped (option_map Value result) (token_view self.old) (token_view self.new) }
        ensures taken { IfSome result (λ x. HasTakenOut (Value x) (token_view self.old) (token_view self.new)) }
        ensures empty { IfNone result (WasEmpty (token_view self.old) (token_view self.new)) }
        ensures roles { (r : Role) → Moved r 0 0 (token_view self.old).made (token_view self.new).made }
        ensures steps { TakesAtMost (3 + T.WORDS) (token_view self.old) (token_view self.new) }
    {
        // the room is the smallest of three buffers that the words fit in, filled with zeros
        if T::WORDS <= 2 {
            self.pop_by(Buffer::<2> { words: [0; 2] })
        } else if T::WORDS <= 16 {
            self.pop_by(Buffer::<16> { words: [0; 16] })
        } else {
            self.pop_by(Buffer::<128> { words: [0; 128] })
        }
    }

    /// Pops a value into this room, which is all zeros.
    #[inline(always)]
    pub fn pop_by<R: Room<T> + Drop>(&mut self, room: R) -> Option<T>
        requires role { HasRole roles.Consumer (token_view self.old).made }
        requires room { (n : ℕ) × (T.WORDS ≤ n) × (n ≤ 128) × (R.words_in room ≡ replicate n 0) }
        ensures same { IsSameQueue self.old self.new }
        ensures popped { HasPopped (option_map Value result) (token_view self.old) (token_view self.new) }
        ensures taken { IfSome result (λ x. HasTakenOut (Value x) (token_view self.old) (token_view self.new)) }
        ensures empty { IfNone result (WasEmpty (token_view self.old) (token_view self.new)) }
        ensures roles { (r : Role) → Moved r 0 0 (token_view self.old).made (token_view self.new).made }
        ensures steps { TakesAtMost (3 + T.WORDS) (token_view self.old) (token_view self.new) }
    {
        let call = Pop::<T, R>::new(self.capacity);
        let mut room = room;
        let end = self
            .seated
            .drive::<Pop<T, R>, Pops<T, R>>(call, &(), &mut room);
        Pop::<T, R>::answer(end, &(), &room)
    }
}
