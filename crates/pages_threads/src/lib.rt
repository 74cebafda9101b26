//! Threads on the pages: what a pass has seen is a run of the machine of the structure's page, and what it sees later goes
//! on from it. So whoever reads a client's contract that speaks of a page needs that page, and no other definition of how a
//! queue or a value runs. The functions do nothing: the contract of each is a law.
#![tactic(auto)]

ghost use Rattle.std.specs.Prelude.{ℕ, ◌<◌};
ghost use Rattle.pages.specs.IndexQueue.{bounded_list};
ghost use Rattle.pages.specs.OverflowingQueue.{overflowing_list};
ghost use Rattle.pages.specs.Queue.{Written};
ghost use Rattle.pages.specs.Queue as values;
ghost use Rattle.pages.specs.Value.{register};
ghost use Rattle.pages_threads.specs.Known.{PassesAreLinearizable, PassesAreStronglyLinearizable, PassesRun};
ghost use Rattle.pages_threads.specs.Known.{index_page, overflowing_page, queue_page, value_page};

use pages::roles_change_hands;

/// What a pass of real threads has seen of pushes and pops, or of stores and loads, invocations and responses alone and
/// whoever made them, is the history of the page's machine over a list of turns (`known`): those of the table's one run that
/// the pass knows of. What it sees later is the history over a list that begins with them (`later`), from call to call, and
/// over splits and joins: each of these leaves the turns that the pass knew as the first of those that it knows (`AreFirst`),
/// and a pass's method `history` hands out `Knows`. A push is by party 0 of the page, whoever holds the producer's role then,
/// and a pop by party 1. A store is by party 0, and a load by the thread's own number and 1.
pub fn passes_run_the_pages<T>()
    ensures index { (capacity : ℕ) → PassesRun (index_page capacity) }
    ensures overflowing { (capacity : ℕ) → 0 < capacity → PassesRun (overflowing_page capacity) }
    ensures value { PassesRun value_page }
    ensures values { (how : Written T) (capacity : ℕ) → PassesRun (queue_page how capacity) }
{
    roles_change_hands::<T>();
}

/// What a pass has seen of pushes and pops, or of stores and loads, is linearizable as the page says: Herlihy and Wing's
/// definition of `Machine.antt`, and the list or the register of the page. There is no premise on how many turns others have
/// taken: a push at the last position and a store at the last version are outside of what a pass has seen.
pub fn passes_are_linearizable<T>()
    ensures index { (capacity : ℕ) → PassesAreLinearizable (index_page capacity) (bounded_list capacity) }
    ensures overflowing { (capacity : ℕ) → 0 < capacity
        → PassesAreLinearizable (overflowing_page capacity) (overflowing_list capacity) }
    ensures value { PassesAreLinearizable value_page register }
    ensures values { (how : Written T) (capacity : ℕ)
        → PassesAreLinearizable (queue_page how capacity) (values.bounded_list capacity) }
{
    passes_are_strongly_linearizable::<T>();
}

/// What a pass has seen is strongly linearizable as the page says. One function of events gives the order of the calls, for all
/// passes. What a pass sees later only adds calls at the end of this order.
pub fn passes_are_strongly_linearizable<T>()
    ensures index { (capacity : ℕ) → PassesAreStronglyLinearizable (index_page capacity) (bounded_list capacity) }
    ensures overflowing { (capacity : ℕ) → 0 < capacity
        → PassesAreStronglyLinearizable (overflowing_page capacity) (overflowing_list capacity) }
    ensures value { PassesAreStronglyLinearizable value_page register }
    ensures values { (how : Written T) (capacity : ℕ)
        → PassesAreStronglyLinearizable (queue_page how capacity) (values.bounded_list capacity) }
{
    passes_run_the_pages::<T>();
}
