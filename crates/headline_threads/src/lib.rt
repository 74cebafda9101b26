//! That calls end between threads: lock-freedom of the run that a pass knows, and of the table, and that finite loads end. The functions do
//! nothing: the contract of each is a law, and what its words mean stands in `specs`.
#![tactic(auto)]

ghost use Rattle.std.specs.Prelude.{IfSome};
ghost use Rattle.model.specs.declared.turn.Kind.{Kind};
ghost use Rattle.model.specs.declared.turn.Kind.TheVariants.{Robust, Container};
ghost use Rattle.model.specs.LockFree.{IsDefault, lock_free_bound, default_bound, default_container_bound};
ghost use Rattle.headline_threads.specs.Ends.{ActorsAreSeen, AllActorsAreSeen, NoneIsUnderWay};
ghost use Rattle.headline_threads.specs.Ends.{PassesEnd, PassesKeepEnding, KnownKeepsEnding};
ghost use Rattle.headline_threads.specs.Ends.{PassesEndOf, PassesKeepEndingOf, KnownKeepsEndingOf};
ghost use Rattle.headline_threads.specs.Ends.{PassesEndLoad, KnownEndsLoad, KnownAsksLoad, PassesRest};
ghost use Rattle.headline_threads.specs.Ends.{PassesEndLoadOf, KnownEndsLoadOf, KnownAsksLoadOf, PassesRestOf};
ghost use Rattle.headline_threads.specs.Tables.{TablesKeepEnding, TablesAsk, TablesKeepEndingOf, TablesAskOf};

/// Of the kinds that have a bound in `lock_free_bound`. What a pass knew and what it knows later are one run of the table
/// (`Continues`: each call, split and join says that the turns that were known come first, and `history` of the pass that it
/// knows a run). Only some parties have acted in between (`ActOnly`), and the bound is for as many as these, however many seats
/// the table has had.
/// If the table took more steps in between than the bound says, a call has ended (`ends`). If k calls have ended, it took at
/// most k + 1 times the bound and k steps (`keep`). The same holds of all that a pass knows, from the opening of the table on
/// (`known`).
///
/// A pass knows the beginning of its table's run up to its own last step or look. Nothing says that a thread runs, or that it
/// takes a step.
pub fn passes_keep_ending<T>()
    ensures ends { (kind : Kind) → IfSome (lock_free_bound kind) (PassesEnd T kind) }
    ensures keep { (kind : Kind) → IfSome (lock_free_bound kind) (PassesKeepEnding T kind) }
    ensures known { (kind : Kind) → IfSome (lock_free_bound kind) (KnownKeepsEnding T kind) }
{}

/// Who has acted is seen, of each kind. Only parties have acted since an earlier time whose call was under way then or of which
/// an event has been seen since (`since`), and from the opening of the table on only those of which an event has been seen
/// (`all`). Where a pass has seen as many calls end as begin, none is under way (`idle`).
pub fn actors_are_seen<T>()
    ensures since { ActorsAreSeen T }
    ensures all { AllActorsAreSeen T }
    ensures idle { NoneIsUnderWay T }
{}

/// Lock-freedom of the table itself, at each of its states, also while calls are under way: so of threads of which none ever
/// returns, which no pass can tell of. If k calls have ended, all steps that threads have taken at the table are at most k + 1
/// times the bound for the parties that have acted, and k (`keep`). All operations on words that its seats have asked for, but
/// those of splits, joins and looks, are at most that (`asks`).
pub fn tables_keep_ending<T>()
    ensures keep { (kind : Kind) → IfSome (lock_free_bound kind) (TablesKeepEnding T kind) }
    ensures asks { (kind : Kind) → IfSome (lock_free_bound kind) (TablesAsk T kind) }
{}

/// What `tables_keep_ending` says, of a robust index set and a container at which no call has begun that may lock.
pub fn owners_tables_keep_ending<T>()
    ensures robust { TablesKeepEndingOf T Robust IsDefault default_bound }
    ensures robust_asks { TablesAskOf T Robust IsDefault default_bound }
    ensures container { TablesKeepEndingOf T Container IsDefault default_container_bound }
    ensures container_asks { TablesAskOf T Container IsDefault default_container_bound }
{}

/// A finite load ends between threads, of the same kinds and parties. All steps that the table took, as far as a pass
/// knows, are at most the load of the calls that it has seen begin: the bound and one for each (`known`). So a pass with
/// the whole share knows a bound of all steps that threads have taken there. Since an earlier time the steps are at most
/// the load of the calls that had begun then and not ended, and of those that have begun since (`between`). All operations
/// on words that a pass has asked for, but those of its splits, joins and looks, are at most the load of the calls that it
/// has seen begin (`asks`).
///
/// So a thread's call ends if the thread goes on: if what the table did since then is cut into more rounds than that load,
/// a party that took a step in each had no call under way as one of them began (`rest`).
pub fn passes_end_loads<T>()
    ensures between { (kind : Kind) → IfSome (lock_free_bound kind) (PassesEndLoad T kind) }
    ensures known { (kind : Kind) → IfSome (lock_free_bound kind) (KnownEndsLoad T kind) }
    ensures asks { (kind : Kind) → IfSome (lock_free_bound kind) (KnownAsksLoad T kind) }
    ensures rest { (kind : Kind) → IfSome (lock_free_bound kind) (PassesRest T kind) }
{}

/// What `passes_keep_ending` says, of robust index sets and containers, where the pass has seen no call begin that may lock.
/// Their runs between threads are open: nobody sees an owner die.
pub fn owners_keep_ending<T>()
    ensures robust { PassesEndOf T Robust IsDefault default_bound }
    ensures robust_keep { PassesKeepEndingOf T Robust IsDefault default_bound }
    ensures robust_known { KnownKeepsEndingOf T Robust IsDefault default_bound }
    ensures container { PassesEndOf T Container IsDefault default_container_bound }
    ensures container_keep { PassesKeepEndingOf T Container IsDefault default_container_bound }
    ensures container_known { KnownKeepsEndingOf T Container IsDefault default_container_bound }
{}

/// What `passes_end_loads` says, of robust index sets and containers, with the condition and the bounds of `owners_keep_ending`.
pub fn owners_end_loads<T>()
    ensures robust_between { PassesEndLoadOf T Robust IsDefault default_bound }
    ensures robust_load { KnownEndsLoadOf T Robust IsDefault default_bound }
    ensures robust_asks { KnownAsksLoadOf T Robust IsDefault default_bound }
    ensures robust_rest { PassesRestOf T Robust IsDefault default_bound }
    ensures container_between { PassesEndLoadOf T Container IsDefault default_container_bound }
    ensures container_load { KnownEndsLoadOf T Container IsDefault default_container_bound }
    ensures container_asks { KnownAsksLoadOf T Container IsDefault default_container_bound }
    ensures container_rest { PassesRestOf T Container IsDefault default_container_bound }
{}
