//! Laws of a value that no other client has a use for, at single calls and of all that a pass has seen.
ghost use Rattle.std.specs.Prelude.{◌≡◌, ◌<◌, ◌≤◌, ◌+◌, ◌++◌, ◌∷◌, ℕ, true, not, is_none, List, length, IfSome, IsTrue};
ghost use Rattle.model.specs.declared.event.Answer.TheVariants.{Loaded, Truth};
ghost use Rattle.model.specs.declared.event.Event.{Event};
ghost use Rattle.model.specs.declared.event.Event.TheVariants.{Acted};
ghost use Rattle.model.specs.declared.event.Start.TheVariants.{Atomic};
ghost use Rattle.model.specs.declared.families.atomic.AtomicStart.TheVariants.{Load, Store};
ghost use Rattle.model.specs.Families.Atomic.Reading.{holder_of};
ghost use Rattle.lock_free.specs.HistorySteps.{TakesAtMost};
ghost use Rattle.lock_free.specs.Value.Calls.{producer_view, view, IsPassOf};
ghost use Rattle.lock_free.specs.Value.Reading.{IsLast};
ghost use Rattle.lock_free.specs.Value.Stored.{stored};
ghost use Rattle.lock_free.specs.Value.Versions.{IsLoaded, IsStored};

use lock_free::laws::value;
use lock_free::spmc::unrestricted_atomic::{Pass, Producer, UnrestrictedAtomic};
use std::sync::Wait;

/// Stores a value at the version after that of each store and load that the producer knew.
pub fn store_next(producer: &mut Producer<'_, u64>, x: u64) -> bool
    ensures next { IsTrue result → (p : ℕ) × IsStored p (length (stored (producer_view producer.old).seen) + 2) x (producer_view producer.new).seen }
    ensures above { IsTrue result → (p version y : ℕ) → IsLoaded p version y (producer_view producer.old).seen
        → version < length (stored (producer_view producer.old).seen) + 2 }
{
    value::versions_rise::<u64>();
    producer.store(x)
}

/// Loads the value of a version that is not below that of any load that the pass knew.
pub fn load_next(rt: &impl Wait, value: &UnrestrictedAtomic<u64>, pass: &mut Pass<u64>) -> u64
    requires { IsPassOf value.now pass.old }
    ensures { (p at : ℕ) × IsLoaded p at result (view pass.new).seen
        × ((q version y : ℕ) → IsLoaded q version y (view pass.old).seen → version ≤ at) }
{
    value::versions_rise::<u64>();
    value.load(rt, pass)
}

/// A look at the role answers whether a producer has it as the look ends, in one step.
pub fn has_producer(value: &UnrestrictedAtomic<u64>, pass: &mut Pass<u64>) -> bool
    requires { IsPassOf value.now pass.old }
    ensures answer { result ≡ not (is_none (holder_of (view pass.new).seen)) }
    ensures steps { TakesAtMost 1 (view pass.old) (view pass.new) }
{
    value.has_producer(pass)
}

/// A look at the version answers 1 more than the number of the stores as the look ends, in one step.
pub fn version(value: &UnrestrictedAtomic<u64>, pass: &mut Pass<u64>) -> u64
    requires { IsPassOf value.now pass.old }
    ensures answer { result ≡ length (stored (view pass.new).seen) + 1 }
    ensures steps { TakesAtMost 1 (view pass.old) (view pass.new) }
{
    value.version(pass)
}

/// Loads the value between two looks at the version. Where both answer the same, the value is the last that was stored as the
/// second look ends; else None.
pub fn load_still(
    rt: &impl Wait,
    value: &UnrestrictedAtomic<u64>,
    pass: &mut Pass<u64>,
) -> Option<u64>
    requires { IsPassOf value.now pass.old }
    ensures { IfSome result (λ x. IsLast x (stored (view pass.new).seen)) }
{
    value::equal_versions_tell::<u64>();
    let first = value.version(pass);
    let loaded = value.load(rt, pass);
    let later = value.version(pass);
    if first == later { Some(loaded) } else { None }
}

/// No two values were stored at one version. What was loaded after n stores is the value of the n-th store.
pub fn of_versions(pass: &Pass<u64>)
    ensures stored { (p q x y : ℕ) (before after earlier later : List (Event ℕ))
        → (view pass.now).seen ≡ before ++ Acted p (Atomic (Store x)) (Truth true) ∷ after
        → (view pass.now).seen ≡ earlier ++ Acted q (Atomic (Store y)) (Truth true) ∷ later
        → length (stored before) ≡ length (stored earlier) → (p ≡ q) × (x ≡ y) }
    ensures loaded { (p q x y : ℕ) (before after earlier later : List (Event ℕ))
        → (view pass.now).seen ≡ before ++ Acted p (Atomic (Store x)) (Truth true) ∷ after
        → (view pass.now).seen ≡ earlier ++ Acted q (Atomic Load) (Loaded y) ∷ later
        → length (stored before) + 1 ≡ length (stored earlier) → x ≡ y }
{
    value::versions_are_once::<u64>();
    value::values_agree::<u64>();
    pass.history();
}
