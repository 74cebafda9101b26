//! What a step of a call of the queues does.
ghost use Rattle.std.specs.Prelude.{◌≡◌, ⊤};

use crate::event::Item;
use std::alloc::AllocError;

/// What the next step of a call does to the structure, and whether the call acts there.
#[derive(Copy)]
pub enum Effect<T> {
    /// Nothing that is written down.
    Quiet,
    /// The call acts where the step ends it.
    Acts,
    /// The value is published, and the call acts where the step ends it.
    Publishes(Item<T>),
    /// The value is published, and the push acts with None though it goes on.
    PublishesAndActs(Item<T>),
    /// The value is handed out, and the call acts where the step ends it.
    HandsOut(Item<T>),
    /// The value is handed out, and the push acts with it though it goes on.
    TakesOut(u64),
    /// As `HandsOut`, and then the push of this value by this party acts with None.
    MakesRoom(Item<T>, u32, u64),
}

impl<T: Copy> Clone for Effect<T> {
    ghost is_clone = { λ x y. y ≡ x };

    ghost is_infallible = { λ _. ⊤ };

    fn clone(&self) -> Result<Effect<T>, AllocError> {
        Ok(*self)
    }
}
