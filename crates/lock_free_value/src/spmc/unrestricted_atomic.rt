//! One value of any type with words, which one producer and any number of readers share between threads.
//!
//! The clause `steps` of a call says how many atomic steps it takes: these are the operations on words
//! that its pass counts, and the driver counts each one that it performs. What is proved of threads is
//! what the contracts say.
ghost use Rattle.std.specs.Prelude.{◌≡◌, ◌<◌, ◌+◌, ◌*◌, [], None, length};
ghost use Rattle.std.specs.Coded.{Coded-set};
ghost use Rattle.laws_value.specs.Stored.{stored};
ghost use Rattle.model.specs.declared.turn.Kind.TheVariants as kinds;
ghost use Rattle.model.specs.Coding.{coding_by};
ghost use Rattle.history.specs.History.{Knows};
ghost use Rattle.history_value.specs.Value.{HasProducer};
ghost use Rattle.history.proofs.KnownRuns.{knows_prop};
ghost use Rattle.lock_free_value.specs.Roles.{LacksProducer};

use self::rule::{Origin, ValueRule};
use atomic_table::TableRule;
use history::view::View;
use steps::words::Words;
use threaded::driver::seated::{Home, Seated};

mod calls;
mod debug;
mod drives;
mod ends;
mod handles;
mod loads;
mod make;
mod passes;
pub mod rule;

pub use handles::Handle;

/// A value that threads share by reference. One producer at a time stores it, and any number of readers load it whole.
/// After `UnrestrictedAtomic` of the Rust crate.
///
/// ```rust
/// let (value, pass) = UnrestrictedAtomic::new(rt.alloc(), (7u64, 1u64))?;
/// let mut reader = value.handle(pass);
/// let writer = reader.split().ok_or("no further handle")?;
/// let mut producer = writer.acquire_producer().map_err(|_| "taken")?;
/// assert!(rt; producer.store((8, 2)) && reader.load(&rt) == (8, 2));
/// assert!(rt; reader.version() == 3 && reader.has_producer());
/// ```
pub struct UnrestrictedAtomic<T: Words> {
    home: Home<View<T>, Origin<T>, ValueRule<T>>,
}

// In the proof of a caller a drop written by hand is one call on each way out. A derived drop is
// one call for each field.
impl<T: Words> Drop for UnrestrictedAtomic<T> {
    fn drop(self) {
        let Self { home: _home } = self;
    }
}

/// A seat at a value's table, with no call under way. Its facts say how many words the table has, that the
/// seat has a share, and that what it has seen is a history with at least one store. The rule Q is a
/// parameter, since else `sized` could not name `T::WORDS`.
pub struct Held<T: Words, Q: TableRule<(), View<T>, Origin<T>>> {
    pub seated: Seated<View<T>, Origin<T>, Q>,
    ghost sized: { seated.seat.table_id.words ≡ 2 + T.WORDS * 2 + 1 },
    ghost known: { seated.seat.me.0.capacity ≡ 1 },
    ghost idle: { seated.seat.me.0.going ≡ None },
    ghost alone: { seated.seat.me.0.other ≡ [] },
    ghost some: { (0 < seated.seat.me.0.share.part) × (0 < seated.seat.me.0.share.parts) },
    ghost begun: { 0 < length (stored seated.seat.me.0.seen) },
    ghost knows: { Knows (coding_by T.Words) kinds.Atomic 1 seated.seat.me.0 } by { knows_prop (Coded-set T.code) (coding_by T.Words) kinds.Atomic 1 seated.seat.me.0 },
}

impl<T: Words, Q: TableRule<(), View<T>, Origin<T>>> Drop for Held<T, Q> {
    fn drop(self) {
        let Self { seated: _seated } = self;
    }
}

pub type Token<T> = Held<T, ValueRule<T>>;

/// A pass permits its owner to call a value. It knows which value it is for, how much of the value's history it has
/// seen, and what of it is its own doing. Each call is made with a pass of its value, which is the caller's concern. It
/// has no role. This project's own.
pub struct Pass<T: Words> {
    token: Token<T>,
    ghost none: { LacksProducer token.seated.seat.me.0.made },
}

impl<T: Words> Pass<T> {
    /// Returns the seat of the pass, which has no role.
    fn into_token(self) -> Token<T>
        ensures token { result ≡ self.token }
        ensures none { LacksProducer result.seated.seat.me.0.made }
    {
        let Self { token } = self;
        token
    }
}

impl<T: Words> Drop for Pass<T> {
    fn drop(self) {
        let Self { token: _token } = self;
    }
}

/// The guard that stores. There is one at a time. It owns the pass that it was acquired with, and gives the role back
/// when it is dropped. After `Producer` of the Rust crate.
pub struct Producer<'a, T: Words> {
    value: &'a UnrestrictedAtomic<T>,
    token: Token<T>,
    ghost role: { HasProducer token.seated.seat.me.0.made },
}

impl<'a, T: Words> Drop for Producer<'a, T> {
    /// Gives the role back. One atomic step.
    fn drop(self) {
        let Self {
            value: _,
            mut token,
        } = self;
        token.leave_producer();
    }
}
