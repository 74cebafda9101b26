//! The calls of a unique index set, which hands out indices below its capacity, and can be locked.
//!
//! The first word is the head: the index that is proposed next, and how many are borrowed. Then come the next indices,
//! one for each (word i opens as i + 1), and the claim flags: that of index i is bit i mod 64 of word i / 64. The list
//! only proposes: who sets an index's flag has it.
ghost use Rattle.std.specs.Prelude.{◌≡◌, Bool, true, false};
ghost use Rattle.steps.specs.Indices.Unique.{first_acquire, head_taken, acquire_sees, first_claim, scanned_next};
ghost use Rattle.steps.specs.Indices.Unique.{acquire_want, acquire_after, acquire_goes_back, head_released};
ghost use Rattle.steps.specs.Indices.Unique.{state_after, locks, first_release, release_want, release_after};
ghost use Rattle.steps.specs.Indices.Unique.{release_goes_back};

use crate::ask::{After, Ask, Op, Want};
use crate::indices::enums::{ReleaseState, UniqueIndexSetAcquireFailure};
use crate::indices::head::{HeadDetails, LOCK_ACQUIRE};
use crate::indices::layout::{HEAD, flag, flag_word, has_flag, next_word};
use crate::routine::{Ends, Routine};
use std::alloc::AllocError;
use std::marker::PhantomData;

/// Takes an index that nobody has: the index, `IsLocked`, or `OutOfIndices`. A set that is not locked, proposes an
/// index of its own, and whose list is right, takes 4 steps; each turn back takes at most 2 more, or as many as the
/// capacity.
///
/// After `acquire_raw_index` of the Rust crate's `UniqueIndexSet`, which trusts the proposal.
#[derive(Clone, Copy)]
pub struct Acquire {
    pub capacity: u32,
    pub stage: AcquireStage,
}

/// What an acquire does next. `head` is the head that it has loaded or found.
#[derive(Clone, Copy)]
pub enum AcquireStage {
    /// Loads the head: `IsLocked` where that says so, `OutOfIndices` where as many are borrowed as the capacity.
    LoadsHead,
    /// Loads the next index of the proposed one, where that is an index of the set.
    LoadsNext { head: u64 },
    /// Exchanges the head for one that proposes `next` and counts one more as borrowed. On failure goes back to the
    /// tests, with the head found.
    ExchangesHead { head: u64, next: u32 },
    /// Claims the flag of the proposed index, and answers it; where it is taken, scans the flags from 0 on.
    Claims { index: u32 },
    /// Claims the flag of this index, and answers it. Where it is taken, goes on to the next, after the last to 0.
    Scans { index: u32 },
}

/// Gives back the index that it is given: `Unlocked`, or `Locked` where that locks the set. In mode `Default` at most
/// 5 steps; in mode `LockIfLastIndex`, which locks the set where the index was the last one out, 4, and 2 more for
/// each turn back.
///
/// That the index is out is the caller's concern. After `release_raw_index` of the Rust crate's `UniqueIndexSet`,
/// which tries its exchange until it succeeds.
pub struct Release<M> {
    pub capacity: u32,
    pub stage: ReleaseStage,
    pub of: PhantomData<M>,
}

/// The mode of a release is a type, since only one in mode `Default` ends by itself.
pub trait Mode {
    ghost LOCKS: { Bool };

    /// Whether the release locks the set where it gives the last index back.
    const LOCKS: bool;
}

/// `ReleaseMode::Default`.
pub struct DefaultMode;

/// `ReleaseMode::LockIfLastIndex`.
pub struct LockMode;

impl Mode for DefaultMode {
    ghost LOCKS = { false };

    const LOCKS: bool = false;
}

impl Mode for LockMode {
    ghost LOCKS = { true };

    const LOCKS: bool = true;
}

impl<M> Clone for Release<M> {
    fn clone(&self) -> Result<Release<M>, AllocError> {
        Ok(*self)
    }
}

impl<M> Copy for Release<M> {}

/// What a release does next. `head` is the head that it has loaded or found.
#[derive(Clone, Copy)]
pub enum ReleaseStage {
    /// Clears the flag of the index.
    ClearsFlag,
    /// Loads the head.
    LoadsHead,
    /// Stores the index that the head proposes as the next of this one.
    StoresNext { head: u64 },
    /// Exchanges the head for one that proposes this index and counts one less, or is locked, and ends. On failure
    /// goes back to the store, with the head found, in mode `LockIfLastIndex`; in mode `Default` it only subtracts.
    ExchangesHead { head: u64 },
    /// Subtracts 1 from the head, and answers `Unlocked`; a scan of the flags finds the index later.
    Subtracts,
}

/// The head once an index is taken and this one is proposed next.
#[inline(always)]
fn head_taken(head: u64, next: u32) -> u64
    ensures { result ≡ head_taken head next }
{
    let details = HeadDetails::from(head);
    HeadDetails {
        head: next,
        aba: details.aba.wrapping_add(1),
        borrowed_indices: details.borrowed_indices + 1,
    }
    .value()
}

/// Whether a release that finds this head locks the set.
#[inline(always)]
fn locks(lock: bool, head: u64) -> bool
    ensures { result ≡ locks lock head }
{
    lock && HeadDetails::from(head).borrowed_indices == 1
}

/// The head once this index is given back.
#[inline(always)]
fn head_released(lock: bool, head: u64, index: u32) -> u64
    ensures { result ≡ head_released lock head index }
{
    let details = HeadDetails::from(head);
    HeadDetails {
        head: index,
        aba: details.aba.wrapping_add(1),
        borrowed_indices: if locks(lock, head) {
            LOCK_ACQUIRE
        } else {
            details.borrowed_indices.wrapping_sub(1)
        },
    }
    .value()
}

impl Acquire {
    /// An acquire that has taken no step.
    #[inline(always)]
    pub fn new(capacity: u32) -> Acquire
        ensures { result ≡ first_acquire capacity }
    {
        Acquire {
            capacity,
            stage: AcquireStage::LoadsHead,
        }
    }

    /// The acquire after a head that it has loaded or found: its end where that says locked or all borrowed,
    /// else the next step.
    #[inline(always)]
    fn sees(self, head: u64) -> After<Acquire, Result<u32, UniqueIndexSetAcquireFailure>>
        ensures { result ≡ acquire_sees self head }
    {
        let details = HeadDetails::from(head);
        if details.borrowed_indices == LOCK_ACQUIRE {
            return After::Done(Err(UniqueIndexSetAcquireFailure::IsLocked));
        }
        if details.borrowed_indices == self.capacity {
            return After::Done(Err(UniqueIndexSetAcquireFailure::OutOfIndices));
        }
        let stage = if details.head < self.capacity {
            AcquireStage::LoadsNext { head }
        } else {
            AcquireStage::ExchangesHead {
                head,
                next: details.head,
            }
        };
        After::GoOn(Acquire {
            capacity: self.capacity,
            stage,
        })
    }

    /// The claim that follows once this head is exchanged: of the index that it proposed, or a scan from 0
    /// where that is no index of the set.
    #[inline(always)]
    fn first_claim(self, head: u64) -> AcquireStage
        ensures { result ≡ first_claim self.capacity head }
    {
        let index = HeadDetails::from(head).head;
        if index < self.capacity {
            AcquireStage::Claims { index }
        } else {
            AcquireStage::Scans { index: 0 }
        }
    }

    /// The index that a scan comes to after this one.
    #[inline(always)]
    fn scanned_next(self, index: u32) -> u32
        ensures { result ≡ scanned_next self.capacity index }
    {
        if (index as u64) + 1 < self.capacity as u64 {
            index + 1
        } else {
            0
        }
    }

    /// Whether the call goes back once it is handed this answer. It goes to the tests, since the head has moved, or to
    /// the flag of index 0, since it has found each flag claimed.
    pub fn goes_back(&self, answer: u64) -> bool
        ensures { result ≡ acquire_goes_back self.now.capacity self.now.stage answer }
    {
        match self.stage {
            AcquireStage::LoadsHead => false,
            AcquireStage::LoadsNext { .. } => false,
            AcquireStage::ExchangesHead { head, .. } => answer != head,
            AcquireStage::Claims { .. } => false,
            AcquireStage::Scans { index } => {
                has_flag(answer, index) && (index as u64) + 1 >= self.capacity as u64
            }
        }
    }
}

impl<M: Mode> Release<M> {
    /// A release that has taken no step.
    #[inline(always)]
    pub fn new(capacity: u32) -> Release<M>
        ensures { result ≡ first_release capacity }
    {
        Release {
            capacity,
            stage: ReleaseStage::ClearsFlag,
            of: PhantomData,
        }
    }

    /// Whether the call goes back to the store of the next index once it is handed this answer. The head has moved
    /// then.
    pub fn goes_back(&self, answer: u64) -> bool
        ensures { result ≡ release_goes_back M.LOCKS self.now.stage answer }
    {
        match self.stage {
            ReleaseStage::ClearsFlag => false,
            ReleaseStage::LoadsHead => false,
            ReleaseStage::StoresNext { .. } => false,
            ReleaseStage::ExchangesHead { head } => M::LOCKS && answer != head,
            ReleaseStage::Subtracts => false,
        }
    }
}

/// The steps of an acquire of a unique index set: given nothing, it answers the index, or why there is none.
impl Routine for Acquire {
    ghost use Rattle.steps.specs.Indices.UniqueLaws.{acquire_tells};

    type Given = ();

    type Room = ();

    type End = Result<u32, UniqueIndexSetAcquireFailure>;

    type Value = u64;

    type Answer = Result<u32, UniqueIndexSetAcquireFailure>;

    ghost want_of = { λ c given. acquire_want c };

    ghost after = { λ c given old. acquire_after c old };

    ghost kept = { λ c room old. room };

    ghost value_of = { λ given room. 0 };

    ghost answer_of = { λ end given room. end };

    ghost store_tells_nothing = { λ c given room m n t. acquire_tells c c.stage room m n t };

    /// Asks for the head and for the cell of the index that it proposes, and exchanges the head for one that
    /// proposes what that cell names. Then it sets the flag of its index, or of one index after another.
    #[inline(always)]
    fn ask(self, _given: &()) -> Want<()> {
        let (word, op) = match self.stage {
            AcquireStage::LoadsHead => (HEAD, Op::Load),
            AcquireStage::LoadsNext { head } => (next_word(HeadDetails::from(head).head), Op::Load),
            AcquireStage::ExchangesHead { head, next } => {
                (HEAD, Op::Exchange(head, head_taken(head, next)))
            }
            AcquireStage::Claims { index } | AcquireStage::Scans { index } => {
                (flag_word(self.capacity, index), Op::Or(flag(index)))
            }
        };
        Want::Ask(Ask { word, op })
    }

    /// Where another party has moved the head before the exchange, it goes on from the head as found. After
    /// the exchange the index is its own once its flag was clear. Where that flag was set it goes through all
    /// flags, until one was clear.
    #[inline(always)]
    fn take(
        self,
        _given: &(),
        _room: &mut (),
        answer: u64,
    ) -> After<Acquire, Result<u32, UniqueIndexSetAcquireFailure>> {
        let stage = match self.stage {
            AcquireStage::LoadsHead => return self.sees(answer),
            AcquireStage::LoadsNext { head } => AcquireStage::ExchangesHead {
                head,
                next: (answer % 0x100_0000) as u32,
            },
            AcquireStage::ExchangesHead { head, .. } => {
                if answer != head {
                    return self.sees(answer);
                }
                self.first_claim(head)
            }
            AcquireStage::Claims { index } => {
                if !has_flag(answer, index) {
                    return After::Done(Ok(index));
                }
                AcquireStage::Scans { index: 0 }
            }
            AcquireStage::Scans { index } => {
                if !has_flag(answer, index) {
                    return After::Done(Ok(index));
                }
                AcquireStage::Scans {
                    index: self.scanned_next(index),
                }
            }
        };
        After::GoOn(Acquire {
            capacity: self.capacity,
            stage,
        })
    }

    /// 0: the call has no value of the structure to hand out.
    fn value(_given: &(), _room: &()) -> u64 {
        0
    }

    #[inline(always)]
    fn answer(
        end: Result<u32, UniqueIndexSetAcquireFailure>,
        _given: &(),
        _room: &(),
    ) -> Result<u32, UniqueIndexSetAcquireFailure> {
        end
    }
}

/// The steps of a release of a unique index set: given the index, it answers whether it has locked the set.
impl<M: Mode> Routine for Release<M> {
    ghost use Rattle.steps.specs.Indices.UniqueLaws.{release_tells};

    type Given = u32;

    type Room = ();

    type End = ReleaseState;

    type Value = u64;

    type Answer = ReleaseState;

    ghost want_of = { release_want M.LOCKS };

    ghost after = { λ c given old. release_after M.LOCKS c old };

    ghost kept = { λ c room old. room };

    ghost value_of = { λ given room. 0 };

    ghost answer_of = { λ end given room. end };

    ghost store_tells_nothing = { λ c given room m n t.
        release_tells M.LOCKS c c.stage given room m n t };

    /// Clears the flag of the index, stores into its cell the index that the head proposes, and exchanges
    /// the head for one that proposes its own. After a failed exchange in mode `Default` it subtracts 1
    /// from the head instead.
    #[inline(always)]
    fn ask(self, given: &u32) -> Want<()> {
        let (word, op) = match self.stage {
            ReleaseStage::ClearsFlag => (flag_word(self.capacity, *given), Op::And(!flag(*given))),
            ReleaseStage::LoadsHead => (HEAD, Op::Load),
            ReleaseStage::StoresNext { head } => (
                next_word(*given),
                Op::Store(HeadDetails::from(head).head as u64),
            ),
            ReleaseStage::ExchangesHead { head } => (
                HEAD,
                Op::Exchange(head, head_released(M::LOCKS, head, *given)),
            ),
            ReleaseStage::Subtracts => (HEAD, Op::Sub(1)),
        };
        Want::Ask(Ask { word, op })
    }

    /// The exchange that succeeds ends the release, with the state of the set. After a failed one the mode
    /// that locks tries again with the head as found, and the mode `Default` subtracts.
    #[inline(always)]
    fn take(self, _given: &u32, _room: &mut (), answer: u64) -> After<Release<M>, ReleaseState> {
        let stage = match self.stage {
            ReleaseStage::ClearsFlag => ReleaseStage::LoadsHead,
            ReleaseStage::LoadsHead => ReleaseStage::StoresNext { head: answer },
            ReleaseStage::StoresNext { head } => ReleaseStage::ExchangesHead { head },
            ReleaseStage::ExchangesHead { head } => {
                if answer == head {
                    return After::Done(if locks(M::LOCKS, head) {
                        ReleaseState::Locked
                    } else {
                        ReleaseState::Unlocked
                    });
                }
                if M::LOCKS {
                    ReleaseStage::StoresNext { head: answer }
                } else {
                    ReleaseStage::Subtracts
                }
            }
            ReleaseStage::Subtracts => return After::Done(ReleaseState::Unlocked),
        };
        After::GoOn(Release {
            capacity: self.capacity,
            stage,
            of: PhantomData,
        })
    }

    /// 0: the call has no value of the structure to hand out.
    fn value(_given: &u32, _room: &()) -> u64 {
        0
    }

    #[inline(always)]
    fn answer(end: ReleaseState, _given: &u32, _room: &()) -> ReleaseState {
        end
    }
}

/// A release that cannot lock ends by itself.
impl Ends for Release<DefaultMode> {
    ghost use Rattle.steps.specs.Indices.Unique.{release_left};
    ghost use Rattle.steps.specs.Indices.UniqueLaws.{release_fewer};

    ghost left = { λ c. release_left c.stage };

    ghost fewer = { λ c d given n goes. release_fewer c d n goes };
}
