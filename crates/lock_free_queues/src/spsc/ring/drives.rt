//! A type for each call that all queues have. It says what the seat's view knows while the call is under way
//! and once it has ended. These types are for the proofs alone.
ghost use Rattle.std.specs.Prelude.{◌≡◌, ℕ, ◌+◌, [], refl};
ghost use Rattle.model.specs.Coding.{coding_by};
ghost use Rattle.steps.specs.declared.queues.roles.Role.{Role};
ghost use Rattle.steps.specs.declared.queues.roles.Role.TheVariants as roles;
ghost use Rattle.model.specs.declared.families.queues.calls.LengthOf.{LengthOf};
ghost use Rattle.model.specs.declared.families.queues.calls.LengthOf.TheVariants as measures;
ghost use Rattle.history.specs.Roles.{role_word};
ghost use Rattle.lock_free_queues.specs.Queues.Bounded.{machine_kind};

use super::rule::Kind;
use history::view::View;
use std::marker::PhantomData;
use steps::queues::lengths::Len;
use steps::queues::ring::{CONSUMER, PRODUCER};
use steps::queues::roles::{AcquireRole, LookRole, ReleaseRole};
use steps::words::Words;
use threaded::driver::rule::Drives;

/// Which role a call is for, as a type.
pub trait Side {
    /// The role's word.
    const WORD: usize;

    ghost WORD: { ℕ };

    ghost ROLE: { Role };

    ghost there: { WORD ≡ role_word ROLE };
}

/// The side of the producer.
pub struct Pushing;

impl Side for Pushing {
    const WORD: usize = PRODUCER;

    ghost WORD = { 2 };

    ghost ROLE = { roles.Producer };

    ghost there = { refl };
}

/// The side of the consumer.
pub struct Popping;

impl Side for Popping {
    const WORD: usize = CONSUMER;

    ghost WORD = { 3 };

    ghost ROLE = { roles.Consumer };

    ghost there = { refl };
}

/// Taking a role.
pub struct Takes<E, R> {
    of: PhantomData<(E, R)>,
}

impl<E: Kind, R: Side, T: Words> Drives<View<T>, AcquireRole> for Takes<E, R> {
    ghost use Rattle.history.specs.Stages.{At, Ends};
    ghost use Rattle.history_queues.specs.Queues.{takes_role};

    ghost at = { λ given. At (coding_by T.Words) (machine_kind E.KIND) (takes_role R.ROLE) };

    ghost ends = { λ given. Ends (coding_by T.Words) (machine_kind E.KIND) (takes_role R.ROLE) };
}

/// Giving a role back.
pub struct Leaves<E, R> {
    of: PhantomData<(E, R)>,
}

impl<E: Kind, R: Side, T: Words> Drives<View<T>, ReleaseRole> for Leaves<E, R> {
    ghost use Rattle.history.specs.Stages.{At, Ends};
    ghost use Rattle.history_queues.specs.Queues.{gives_role};

    ghost at = { λ given. At (coding_by T.Words) (machine_kind E.KIND) (gives_role R.ROLE) };

    ghost ends = { λ given. Ends (coding_by T.Words) (machine_kind E.KIND) (gives_role R.ROLE) };
}

/// Looking whether a role is taken.
pub struct Looks<E, R> {
    of: PhantomData<(E, R)>,
}

impl<E: Kind, R: Side, T: Words> Drives<View<T>, LookRole> for Looks<E, R> {
    ghost use Rattle.history.specs.Stages.{At, Ends};
    ghost use Rattle.history_queues.specs.Queues.{looks_role};

    ghost at = { λ given. At (coding_by T.Words) (machine_kind E.KIND) (looks_role R.ROLE) };

    ghost ends = { λ given. Ends (coding_by T.Words) (machine_kind E.KIND) (looks_role R.ROLE) };
}

/// A type for each question about how many values wait.
pub trait Measure {
    ghost WHICH: { LengthOf };
}

/// The question of `len`: how many values wait.
pub struct Length;

impl Measure for Length {
    ghost WHICH = { measures.Len };
}

/// The question of `is_empty`: whether no value waits.
pub struct Emptiness;

impl Measure for Emptiness {
    ghost WHICH = { measures.IsEmpty };
}

/// The question of `is_full`: whether as many values as the capacity wait.
pub struct Fullness;

impl Measure for Fullness {
    ghost WHICH = { measures.IsFull };
}

/// Asking the question W.
pub struct Measures<E, W> {
    of: PhantomData<(E, W)>,
}

impl<E: Kind, W: Measure, T: Words> Drives<View<T>, Len> for Measures<E, W> {
    ghost use Rattle.history.specs.Stages.{At, Ends};
    ghost use Rattle.history_queues.specs.Queues.{counts_waiting};

    ghost at = { λ given base. At (coding_by T.Words) (machine_kind E.KIND)
        (counts_waiting W.WHICH base.capacity) base };

    ghost ends = { λ given base. Ends (coding_by T.Words) (machine_kind E.KIND)
        (counts_waiting W.WHICH base.capacity) base };
}
