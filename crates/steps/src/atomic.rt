//! The calls of the single value, of any number of words, which one producer stores and anyone loads.
//!
//! Its words are the version, which opens at 1, the producer's role, and two cells of `T::WORDS` words each. The value
//! of version v stands in the cell (v - 1) mod 2, where differences wrap; a store at version v writes the other cell,
//! v mod 2, so it never writes where that value stands.
ghost use Rattle.std.specs.Prelude.{◌≡◌};
ghost use Rattle.steps.specs.Copied.{value_in};
ghost use Rattle.steps.specs.Atomic.{cell_word, first_store, store_want, store_after, first_load, load_want, load_after, load_kept, goes_back};

pub mod version;

use crate::ask::{After, Ask, Op, Want};
use crate::copied::Room;
use crate::routine::{Ends, Routine};
use crate::words::Words;
use std::alloc::AllocError;
use std::marker::PhantomData;

/// The word of the version.
pub const VERSION: usize = 0;
/// The word of the producer's role.
pub const PRODUCER: usize = 1;
/// The first word of the first cell.
pub const FIRST_CELL: usize = 2;

/// The first word of the cell `number` mod 2, where a value takes `words` words.
#[inline(always)]
pub fn cell_word(words: u8, number: u64) -> usize
    ensures { result ≡ cell_word words number }
{
    FIRST_CELL + words as usize * (number % 2) as usize
}

/// Replaces the value by the one that it is given: true, or false where the versions are used up. At most 2 +
/// `T::WORDS` steps.
///
/// One store at a time is the caller's concern. After `store` of the Rust crate's `UnrestrictedAtomic`.
#[derive(Clone, Copy)]
pub struct Store<T> {
    pub stage: StoreStage,
    pub of: PhantomData<T>,
}

/// What a store does next. `cell` is the first word of its cell, and `at` the word of the value.
#[derive(Clone, Copy)]
pub enum StoreStage {
    /// Loads the version; at `u64::MAX` the answer is false, and nothing changes.
    LoadsVersion,
    /// Stores the next word of the value into the cell where that version's value does not stand.
    StoresCell { cell: usize, at: u8 },
    /// Adds 1 to the version, and answers true: from then on its own value stands.
    AddsVersion,
}

/// Loads the value, by way of a room R: what was copied counts where the version has not moved meanwhile. At most 2 +
/// `T::WORDS` steps, and 1 + `T::WORDS` more for each turn back.
///
/// It always answers a value, and changes nothing. After `load` of the Rust crate's `UnrestrictedAtomic`.
pub struct Load<T, R> {
    pub stage: LoadStage,
    pub of: PhantomData<(T, R)>,
}

/// What a load does next. `version` is the one that it has loaded or found, `cell` the first word of its cell, and
/// `at` the word of the value.
#[derive(Clone, Copy)]
pub enum LoadStage {
    /// Loads the version, which says in which cell the value stands.
    LoadsVersion,
    /// Loads the next word of the cell into the room.
    LoadsCell { version: u64, cell: usize, at: u8 },
    /// Exchanges the version for itself, and answers the value. Where it has moved, goes back to the loads of the
    /// cell, with the version found.
    ChecksVersion { version: u64 },
}

impl<T, R> Clone for Load<T, R> {
    fn clone(&self) -> Result<Load<T, R>, AllocError> {
        Ok(*self)
    }
}

impl<T, R> Copy for Load<T, R> {}

impl<T: Words> Store<T> {
    /// A store that has taken no step.
    #[inline(always)]
    pub fn new() -> Store<T>
        ensures { result ≡ first_store }
    {
        Store {
            stage: StoreStage::LoadsVersion,
            of: PhantomData,
        }
    }
}

impl<T: Words, R: Room<T>> Load<T, R> {
    /// A load that has taken no step.
    #[inline(always)]
    pub fn new() -> Load<T, R>
        ensures { result ≡ first_load }
    {
        Load {
            stage: LoadStage::LoadsVersion,
            of: PhantomData,
        }
    }

    /// Whether the call goes back to the loads of the cell once it is handed this answer.
    pub fn goes_back(&self, answer: u64) -> bool
        ensures { result ≡ goes_back self.now.stage answer }
    {
        match self.stage {
            LoadStage::LoadsVersion => false,
            LoadStage::LoadsCell { .. } => false,
            LoadStage::ChecksVersion { version } => answer != version,
        }
    }
}

/// The steps of a store: given the value, it reads nothing into a room, and answers whether it has stored.
impl<T: Words> Routine for Store<T> {
    ghost use Rattle.steps.specs.Laws.{store_tells};

    type Given = T;

    type Room = ();

    type End = bool;

    type Value = T;

    type Answer = bool;

    ghost want_of = { store_want T.words_of };

    ghost after = { λ c given old. store_after T.WORDS c old };

    ghost kept = { λ c room old. room };

    ghost value_of = { λ given room. given };

    ghost answer_of = { λ end given room. end };

    ghost store_tells_nothing = { λ c given room m n t.
        store_tells T.words_of T.WORDS c c.stage given room m n t };

    /// Asks for the version, then stores the words of the value one by one into the cell of that version,
    /// then adds 1 to the version. A place past the value's words would get 0.
    #[inline(always)]
    fn ask(self, given: &T) -> Want<()> {
        let (word, op) = match self.stage {
            StoreStage::LoadsVersion => (VERSION, Op::Load),
            StoreStage::StoresCell { cell, at } => {
                let new = if (at as usize) < T::WORDS {
                    given.word(at as usize)
                } else {
                    0
                };
                (cell.wrapping_add(at as usize), Op::Store(new))
            }
            StoreStage::AddsVersion => (VERSION, Op::Add(1)),
        };
        Want::Ask(Ask { word, op })
    }

    /// Ends with false where the version is at its end. Otherwise the words follow one another, and after the
    /// version's step the value is stored.
    #[inline(always)]
    fn take(self, _given: &T, _room: &mut (), answer: u64) -> After<Store<T>, bool> {
        let stage = match self.stage {
            StoreStage::LoadsVersion => {
                if answer == u64::MAX {
                    return After::Done(false);
                }
                StoreStage::StoresCell {
                    cell: cell_word(T::WORDS as u8, answer),
                    at: 0,
                }
            }
            StoreStage::StoresCell { cell, at } => {
                if (at as usize) + 1 < T::WORDS {
                    StoreStage::StoresCell { cell, at: at + 1 }
                } else {
                    StoreStage::AddsVersion
                }
            }
            StoreStage::AddsVersion => return After::Done(true),
        };
        After::GoOn(Store {
            stage,
            of: PhantomData,
        })
    }

    /// The value that is stored.
    fn value(given: &T, _room: &()) -> T {
        *given
    }

    #[inline(always)]
    fn answer(end: bool, _given: &T, _room: &()) -> bool {
        end
    }
}

impl<T: Words> Ends for Store<T> {
    ghost use Rattle.steps.specs.Atomic.{store_left};
    ghost use Rattle.steps.specs.Laws.{store_fewer};

    ghost left = { λ c. store_left T.WORDS c.stage };

    ghost fewer = { λ c d given n goes. store_fewer T.WORDS c d n goes };
}

/// The steps of a load: given nothing, it reads the words into a room R, and answers the
/// value that they make.
impl<T: Words, R: Room<T> + Drop> Routine for Load<T, R> {
    ghost use Rattle.steps.specs.Laws.{load_tells};

    type Given = ();

    type Room = R;

    type End = ();

    type Value = T;

    type Answer = T;

    ghost want_of = { λ c given. load_want c };

    ghost after = { λ c given old. load_after T.WORDS c old };

    ghost kept = { load_kept R.with_word };

    ghost value_of = { λ given room. value_in T.value_of T.WORDS (R.words_in room) };

    ghost answer_of = { λ end given room. value_in T.value_of T.WORDS (R.words_in room) };

    ghost store_tells_nothing = { λ c given room m n t.
        load_tells R.with_word T.WORDS c c.stage room m n t };

    /// Asks for the version, then loads the words of its cell, then exchanges the version for itself, which
    /// tells whether a store came in between.
    #[inline(always)]
    fn ask(self, _given: &()) -> Want<()> {
        let (word, op) = match self.stage {
            LoadStage::LoadsVersion => (VERSION, Op::Load),
            LoadStage::LoadsCell { cell, at, .. } => (cell.wrapping_add(at as usize), Op::Load),
            LoadStage::ChecksVersion { version } => (VERSION, Op::Exchange(version, version)),
        };
        Want::Ask(Ask { word, op })
    }

    /// Puts each word of the cell into the room. Where the version has moved in the meantime the load begins
    /// again with the cell of the new one.
    #[inline(always)]
    fn take(self, _given: &(), room: &mut R, answer: u64) -> After<Load<T, R>, ()> {
        let stage = match self.stage {
            LoadStage::LoadsVersion => LoadStage::LoadsCell {
                version: answer,
                cell: cell_word(T::WORDS as u8, answer.wrapping_sub(1)),
                at: 0,
            },
            LoadStage::LoadsCell { version, cell, at } => {
                room.put(at as usize, answer);
                if (at as usize) + 1 < T::WORDS {
                    LoadStage::LoadsCell {
                        version,
                        cell,
                        at: at + 1,
                    }
                } else {
                    LoadStage::ChecksVersion { version }
                }
            }
            LoadStage::ChecksVersion { version } => {
                if answer == version {
                    return After::Done(());
                }
                LoadStage::LoadsCell {
                    version: answer,
                    cell: cell_word(T::WORDS as u8, answer.wrapping_sub(1)),
                    at: 0,
                }
            }
        };
        After::GoOn(Load {
            stage,
            of: PhantomData,
        })
    }

    /// The value that the words in the room make.
    fn value(_given: &(), room: &R) -> T {
        room.value()
    }

    #[inline(always)]
    fn answer(_end: (), _given: &(), room: &R) -> T {
        room.value()
    }
}
