//! Tries until something comes or the caller says stop.
ghost use Rattle.std.specs.Prelude.{IsTrue, IsFalse, IfSome, IfNone};
ghost use Rattle.lock_free_waits.specs.Waits.{CameAfter, WasStopped};

use std::sync::Wait;
use std::thread;

/// Something that is tried: a try brings something, or nothing.
pub trait Tries<T>: Sized {
    /// What a try has done that brought this.
    ghost came: { T → Self → Self → Type 0 };
    /// What a try has done that brought nothing.
    ghost nothing: { Self → Self → Type 0 };

    /// Tries once.
    fn try_once(&mut self, rt: &impl Wait) -> Option<T>
        ensures came { IfSome result (λ x. Self.came x self.old self.new) }
        ensures nothing { IfNone result (Self.nothing self.old self.new) };
}

/// Something that takes values, or refuses them.
pub trait Puts<T>: Sized {
    /// What a try has done that put this value.
    ghost was_put: { T → Self → Self → Type 0 };
    /// What a try has done that was refused this value.
    ghost refused: { T → Self → Self → Type 0 };

    /// Tries once to put a value. True if it was put.
    fn put_once(&mut self, value: &T) -> bool
        ensures was_put { IsTrue result → Self.was_put value.now self.old self.new }
        ensures refused { IsFalse result → Self.refused value.now self.old self.new };
}

/// Tries until something comes, or `stop` says true. It is asked once after each try that brought nothing, and then another thread
/// may run (by no clause). None only if it said true, after one try at least, each of which brought nothing. Something can come
/// between the last try and the stop: try once more after None if that matters. Where neither comes it waits for good (by no clause).
pub fn try_until<T, A: Tries<T>, S: FnMut() -> bool>(
    rt: &impl Wait,
    tried: &mut A,
    stop: &mut S,
) -> Option<T>
    requires { S.IsAlwaysCallable stop.old }
    ensures came { IfSome result (λ x. CameAfter A.nothing S.step A.came x (tried.old, stop.old) (tried.new, stop.new)) }
    ensures stopped { IfNone result (WasStopped A.nothing S.step (tried.old, stop.old) (tried.new, stop.new)) }
{
    for _ in rt.forever() {
        match tried.try_once(rt) {
            Some(came) => return Some(came),
            None => {
                if stop() {
                    return None;
                }
                thread::yield_now();
            }
        }
    }
    unreachable!()
}

/// Tries to put a value until it is put, or `stop` says true. It is asked once after each try that was refused, and then another
/// thread may run (by no clause). False only if it said true, after one try at least, each of which was refused. Where neither
/// comes it waits for good (by no clause).
pub fn put_until<T, A: Puts<T>, S: FnMut() -> bool>(
    rt: &impl Wait,
    to: &mut A,
    value: &T,
    stop: &mut S,
) -> bool
    requires { S.IsAlwaysCallable stop.old }
    ensures was_put { IsTrue result → CameAfter (A.refused value.now) S.step A.was_put value.now (to.old, stop.old) (to.new, stop.new) }
    ensures stopped { IsFalse result → WasStopped (A.refused value.now) S.step (to.old, stop.old) (to.new, stop.new) }
{
    for _ in rt.forever() {
        if to.put_once(value) {
            return true;
        }
        if stop() {
            return false;
        }
        thread::yield_now();
    }
    unreachable!()
}
