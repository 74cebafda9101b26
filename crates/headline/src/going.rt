//! More of what `loads` says of a call whose party goes on. The functions do nothing: the contract of each is a law.

ghost use Rattle.std.specs.Prelude.{IfSome};
ghost use Rattle.model.specs.declared.turn.Kind.{Kind};
ghost use Rattle.model.specs.declared.turn.Kind.TheVariants.{Robust, Container};
ghost use Rattle.model.specs.LockFree.{IsDefault, lock_free_bound, default_bound, default_container_bound};
ghost use Rattle.headline.specs.Going.{EndsByTurnsOf, EndsIfFairOn};

/// What `by_turns` of `calls_end` says of the other kinds, of a robust index set and a container in runs in which no call may
/// lock. A party with a call under way, that goes on in more turns than the load of the calls that were under way and of those
/// that others begin, ends it.
pub fn owners_end_by_turns<T>()
    ensures robust { EndsByTurnsOf T Robust IsDefault default_bound }
    ensures container { EndsByTurnsOf T Container IsDefault default_container_bound }
{}

/// An endless schedule on which a turn may be refused, and then changes nothing: so a party may be scheduled that has no call. If
/// finitely many calls begin there, each party to which the schedule is fair comes to a moment at which it has no call under way.
///
/// (`if_fair` of `calls_end` is about schedules on which no turn is refused. Where finitely many calls begin, such a schedule of
/// the seven kinds comes to an end, since each of its turns is a part of a call, so that none is endless.)
pub fn calls_end_if_fair<T>()
    ensures { (kind : Kind) → IfSome (lock_free_bound kind) (EndsIfFairOn T kind) }
{}
