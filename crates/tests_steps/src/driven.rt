//! Makes calls of queues and of the single value that have taken no step, each with the value that it stores
//! and the room that it reads into.
use steps::atomic::{Load, Store};
use steps::copied::{Copied, OneWord};
use steps::queues::overflow;
use steps::queues::peek::Peek;
use steps::queues::ring::{Pop, Push};
use steps::routine::Running;
use steps::words::Words;

/// A push of this value to a queue of this capacity.
pub fn push<T: Words + Drop>(capacity: u32, value: T) -> Running<Push<T>, T, ()> {
    Running {
        call: Push::new(capacity),
        given: value,
        room: (),
    }
}

/// A pop from a queue of this capacity, into a room that holds a value of any number of words.
pub fn pop<T: Words>(capacity: u32) -> Running<Pop<T, Copied>, (), Copied> {
    Running {
        call: Pop::new(capacity),
        given: (),
        room: Copied::new(),
    }
}

/// A peek at the oldest value of a queue of this capacity, into a room that holds a value of
/// any number of words.
pub fn peek<T: Words>(capacity: u32) -> Running<Peek<T, Copied>, (), Copied> {
    Running {
        call: Peek::new(capacity),
        given: (),
        room: Copied::new(),
    }
}

/// A peek at a value of one word, into the room `OneWord`, which holds one word only.
pub fn peek_one(capacity: u32) -> Running<Peek<u64, OneWord>, (), OneWord> {
    Running {
        call: Peek::new(capacity),
        given: (),
        room: OneWord(0),
    }
}

/// A pop of a value of one word, into the room `OneWord`.
pub fn pop_one(capacity: u32) -> Running<Pop<u64, OneWord>, (), OneWord> {
    Running {
        call: Pop::new(capacity),
        given: (),
        room: OneWord(0),
    }
}

/// A push of this number to an overflowing queue, with room for the number that it may push out.
pub fn overflow_push(capacity: u32, value: u64) -> Running<overflow::Push, u64, OneWord> {
    Running {
        call: overflow::Push::new(capacity),
        given: value,
        room: OneWord(0),
    }
}

/// A pop from an overflowing queue of this capacity.
pub fn overflow_pop(capacity: u32) -> Running<overflow::Pop, (), OneWord> {
    Running {
        call: overflow::Pop::new(capacity),
        given: (),
        room: OneWord(0),
    }
}

/// A store of this value as the single value.
pub fn store<T: Words + Drop>(value: T) -> Running<Store<T>, T, ()> {
    Running {
        call: Store::new(),
        given: value,
        room: (),
    }
}

/// A load of the single value, into a room that holds a value of any number of words.
pub fn load<T: Words>() -> Running<Load<T, Copied>, (), Copied> {
    Running {
        call: Load::new(),
        given: (),
        room: Copied::new(),
    }
}

/// A load of a value of one word, into the room `OneWord`.
pub fn load_one() -> Running<Load<u64, OneWord>, (), OneWord> {
    Running {
        call: Load::new(),
        given: (),
        room: OneWord(0),
    }
}
