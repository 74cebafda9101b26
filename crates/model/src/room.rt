//! Room for the words of a value, in memory of its own.
ghost use Rattle.std.specs.Prelude.{◌≡◌, IfOk};
ghost use Rattle.model.specs.Families.Atomic.Calls.{fresh};

use std::alloc::{AllocError, Global};
use std::marker::Model;
use steps::copied::{Copied, Room};
use steps::words::Words;

/// Room for any value, which takes memory where it is opened and none later. A call that reads no value has none, so
/// a party is small.
#[derive(Drop)]
pub struct Apart {
    room: Box<Copied>,
}

impl Model for Apart {
    ghost use Rattle.steps.specs.declared.copied.Buffer.{Buffer};

    ghost Value = { Buffer 128 };

    ghost view = { λ a. a.room.value };
}

impl Apart {
    /// A room in which nothing was put.
    pub fn new(alloc: Global) -> Result<Apart, AllocError>
        ensures { IfOk result (λ room. room ≡ fresh) }
    {
        match Box::new(alloc, Copied { words: [0; 128] }) {
            Ok(room) => Ok(Apart { room }),
            Err(_) => Err(AllocError),
        }
    }
}

impl<T: Words> Room<T> for Apart {
    ghost use Rattle.std.specs.Prelude.{refl, slice_set};

    ghost words_in = { λ x. x.words };

    ghost with_word = { λ x at word. record x { words = slice_set x.words at word } };

    ghost put_in = { λ x at word. refl };

    fn put(&mut self, at: usize, word: u64) {
        <Copied as Room<T>>::put(&mut *self.room, at, word);
    }

    fn value(&self) -> T {
        <Copied as Room<T>>::value(&*self.room)
    }
}
