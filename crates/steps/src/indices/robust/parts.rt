//! The words of a robust set of indices, and the parts of its calls: raise, count and lock.
ghost use Rattle.std.specs.Prelude.{◌≡◌};
ghost use Rattle.steps.specs.Indices.Robust.Parts.{cell_word, raise_want, raise_sees, raise_after, raise_goes_back};
ghost use Rattle.steps.specs.Indices.Robust.Parts.{count_want, count_comes_to, count_after, count_goes_back};
ghost use Rattle.steps.specs.Indices.Robust.Parts.{first_lock, lock_want, lock_after, lock_goes_back};

use crate::ask::{After, Ask, Op, Want};
use crate::indices::enums::ReleaseState;

/// The word of the counter, which opens at 0. Each count raises it, and so does each acquire, release and recovery that
/// changes a cell. Where it says that the set is locked, or is at its end, it stays.
pub const COUNTER: usize = 0;
/// The word of the cell of index 0.
pub const FIRST_CELL: usize = 1;
/// What stands in a cell without an owner.
pub const EMPTY: u64 = u64::MAX;
/// The counter of a locked set.
pub const LOCKED: u64 = u64::MAX;
/// The counter at its end, where it stays. From there on no index is handed out, and the set can no longer be locked.
pub const GREATEST: u64 = u64::MAX - 1;

/// The word of the cell of this index.
#[inline(always)]
pub fn cell_word(index: u32) -> usize
    ensures { result ≡ cell_word index }
{
    FIRST_CELL + index as usize
}

/// Raises the counter by 1: `Unlocked`, or `Locked` where the set is locked. A counter at its end stays: `Unlocked`.
/// Two steps, and one more for each turn back.
#[derive(Clone, Copy)]
pub enum Raise {
    /// Loads the counter: `Locked` where that says so, `Unlocked` where it is at its end.
    LoadsCounter,
    /// Exchanges the counter for the next number: `Unlocked`. On failure goes back to the tests, with the counter
    /// found.
    ExchangesCounter { counter: u64 },
}

/// Counts the cells that have an owner. As many steps as the capacity, and 2 more; as many again for each turn back.
///
/// It is closed by a raise, so the number stands only where nothing was raised meanwhile.
#[derive(Clone, Copy)]
pub enum Count {
    /// Loads the counter: `Locked` where that says so.
    LoadsCounter,
    /// Loads the cell of the index, and counts it where it has an owner. After the last cell, a counter at its end
    /// ends the count.
    LoadsCell {
        counter: u64,
        index: u32,
        filled: usize,
    },
    /// Exchanges the counter for the next number, and ends; on failure begins again.
    ExchangesCounter {
        counter: u64,
        filled: usize,
    },
}

/// How a count ends.
#[derive(Clone, Copy)]
pub enum Counted {
    /// The set is locked.
    Locked,
    /// `filled` cells have an owner, and the counter stands at `counter` now.
    Filled { filled: usize, counter: u64 },
}

/// Locks the set where no cell has an owner: `Locked`, also where it was locked already, or `Unlocked`. As many steps
/// as the capacity, and 3 more; as many again for each turn back, of it or of its count.
#[derive(Clone, Copy)]
pub enum Lock {
    /// Takes a step of the count: `Locked` where that says so. `Unlocked` where a cell has an owner, or the counter is
    /// at its end now.
    Counts { count: Count },
    /// Exchanges the counter, as the count has left it, for `u64::MAX`: `Locked`. On failure counts again.
    ExchangesCounter { counter: u64 },
}

impl Raise {
    /// What it wants next.
    #[inline(always)]
    pub fn ask(self) -> Want<()>
        ensures { result ≡ raise_want self }
    {
        let op = match self {
            Raise::LoadsCounter => Op::Load,
            Raise::ExchangesCounter { counter } => Op::Exchange(counter, counter.wrapping_add(1)),
        };
        Want::Ask(Ask { word: COUNTER, op })
    }

    /// Goes on from a counter that it has loaded or found.
    #[inline(always)]
    fn sees(counter: u64) -> After<Raise, ReleaseState>
        ensures { result ≡ raise_sees counter }
    {
        if counter == LOCKED {
            After::Done(ReleaseState::Locked)
        } else if counter == GREATEST {
            After::Done(ReleaseState::Unlocked)
        } else {
            After::GoOn(Raise::ExchangesCounter { counter })
        }
    }

    /// How it goes on from an answer.
    #[inline(always)]
    pub fn take(self, answer: u64) -> After<Raise, ReleaseState>
        ensures { result ≡ raise_after self answer }
    {
        match self {
            Raise::LoadsCounter => Raise::sees(answer),
            Raise::ExchangesCounter { counter } => {
                if answer == counter {
                    After::Done(ReleaseState::Unlocked)
                } else {
                    Raise::sees(answer)
                }
            }
        }
    }

    /// Whether it goes back to the tests once it is handed this answer.
    pub fn goes_back(&self, answer: u64) -> bool
        ensures { result ≡ raise_goes_back self.now answer }
    {
        match *self {
            Raise::LoadsCounter => false,
            Raise::ExchangesCounter { counter } => answer != counter,
        }
    }
}

impl Count {
    /// What it wants next.
    #[inline(always)]
    pub fn ask(self) -> Want<()>
        ensures { result ≡ count_want self }
    {
        let (word, op) = match self {
            Count::LoadsCounter => (COUNTER, Op::Load),
            Count::LoadsCell { index, .. } => (cell_word(index), Op::Load),
            Count::ExchangesCounter { counter, .. } => {
                (COUNTER, Op::Exchange(counter, counter.wrapping_add(1)))
            }
        };
        Want::Ask(Ask { word, op })
    }

    /// The count at this cell, if there is one; after the last cell the exchange of the counter, or the end
    /// where the counter is at its end.
    #[inline(always)]
    fn comes_to(capacity: u32, counter: u64, index: u64, filled: usize) -> After<Count, Counted>
        ensures { result ≡ count_comes_to capacity counter index filled }
    {
        if index < capacity as u64 {
            After::GoOn(Count::LoadsCell {
                counter,
                index: index as u32,
                filled,
            })
        } else if counter == GREATEST {
            After::Done(Counted::Filled { filled, counter })
        } else {
            After::GoOn(Count::ExchangesCounter { counter, filled })
        }
    }

    /// How it goes on from an answer, in a set of this capacity.
    #[inline(always)]
    pub fn take(self, capacity: u32, answer: u64) -> After<Count, Counted>
        ensures { result ≡ count_after capacity self answer }
    {
        match self {
            Count::LoadsCounter => {
                if answer == LOCKED {
                    After::Done(Counted::Locked)
                } else {
                    Count::comes_to(capacity, answer, 0, 0)
                }
            }
            Count::LoadsCell {
                counter,
                index,
                filled,
            } => {
                let filled = if answer == EMPTY {
                    filled
                } else {
                    filled.wrapping_add(1)
                };
                Count::comes_to(capacity, counter, index as u64 + 1, filled)
            }
            Count::ExchangesCounter { counter, filled } => {
                if answer == counter {
                    After::Done(Counted::Filled {
                        filled,
                        counter: counter.wrapping_add(1),
                    })
                } else {
                    After::GoOn(Count::LoadsCounter)
                }
            }
        }
    }

    /// Whether it begins again once it is handed this answer.
    pub fn goes_back(&self, answer: u64) -> bool
        ensures { result ≡ count_goes_back self.now answer }
    {
        match *self {
            Count::LoadsCounter => false,
            Count::LoadsCell { .. } => false,
            Count::ExchangesCounter { counter, .. } => answer != counter,
        }
    }
}

impl Lock {
    /// A lock that has taken no step.
    #[inline(always)]
    pub fn new() -> Lock
        ensures { result ≡ first_lock }
    {
        Lock::Counts {
            count: Count::LoadsCounter,
        }
    }

    /// What it wants next.
    #[inline(always)]
    pub fn ask(self) -> Want<()>
        ensures { result ≡ lock_want self }
    {
        match self {
            Lock::Counts { count } => count.ask(),
            Lock::ExchangesCounter { counter } => Want::Ask(Ask {
                word: COUNTER,
                op: Op::Exchange(counter, LOCKED),
            }),
        }
    }

    /// How it goes on from an answer, in a set of this capacity.
    #[inline(always)]
    pub fn take(self, capacity: u32, answer: u64) -> After<Lock, ReleaseState>
        ensures { result ≡ lock_after capacity self answer }
    {
        match self {
            Lock::Counts { count } => match count.take(capacity, answer) {
                After::GoOn(count) => After::GoOn(Lock::Counts { count }),
                After::Done(Counted::Locked) => After::Done(ReleaseState::Locked),
                After::Done(Counted::Filled { filled, counter }) => {
                    if filled == 0 && counter != GREATEST {
                        After::GoOn(Lock::ExchangesCounter { counter })
                    } else {
                        After::Done(ReleaseState::Unlocked)
                    }
                }
            },
            Lock::ExchangesCounter { counter } => {
                if answer == counter {
                    After::Done(ReleaseState::Locked)
                } else {
                    After::GoOn(Lock::new())
                }
            }
        }
    }

    /// Whether it begins its count again once it is handed this answer.
    pub fn goes_back(&self, answer: u64) -> bool
        ensures { result ≡ lock_goes_back self.now answer }
    {
        match self {
            Lock::Counts { count } => count.goes_back(answer),
            Lock::ExchangesCounter { counter } => answer != *counter,
        }
    }
}
