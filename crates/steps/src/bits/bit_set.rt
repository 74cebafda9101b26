//! The calls of the bit set that change one place.
ghost use Rattle.std.specs.Prelude.{◌≡◌};
ghost use Rattle.steps.specs.Bits.BitSet.{first_set, set_want, set_after, set_tests, set_turns_back, first_reset};
ghost use Rattle.steps.specs.Bits.BitSet.{place_after, reset_want, reset_after, reset_comes_to, reset_tests};
ghost use Rattle.steps.specs.Bits.BitSet.{reset_turns_back};

use super::flags::{RESET_POSITION, element_of, has_flag, with_flag, without_flag};
use crate::ask::{After, Ask, Op, Want};
use crate::routine::Routine;

/// Sets the place that it is given: true, or false where it stood already. At most 2 steps, and 1 more for each turn
/// back.
///
/// A place below the capacity is the caller's concern. After `set` of the Rust crate's `BitSet`.
#[derive(Clone, Copy)]
pub struct Set {
    pub stage: SetStage,
}

/// What the call does next. `found` is the element that it has loaded or found.
#[derive(Clone, Copy)]
pub enum SetStage {
    /// Loads the place's element; where the flag stands, the answer is false.
    LoadsElement,
    /// Exchanges the element for the one with the flag: true. Where it has changed, the element found is tested, as
    /// after the load.
    ExchangesElement { found: u64 },
}

/// Resets the next place that stands, from the reset position on: Some of it, or None. At most 3 + capacity steps, and
/// 1 more for each turn back; with capacity 0 one step.
///
/// None comes after all places were passed, and each was clear at some moment of the call. After `reset_next` of the
/// Rust crate's `BitSet`.
#[derive(Clone, Copy)]
pub struct ResetNext {
    pub capacity: u32,
    pub stage: ResetNextStage,
}

/// What the call does next. `start` is the place from which it started, `passed` how many it has passed since, and
/// `found` the element that it has loaded or found.
#[derive(Clone, Copy)]
pub enum ResetNextStage {
    /// Loads the reset position, from which it starts; one above the capacity is taken as the capacity.
    LoadsPosition,
    /// Loads the place's element; where the flag is clear, goes on to the next place. After the last comes 0, and None
    /// once all were passed.
    LoadsElement { start: u32, passed: u32 },
    /// Exchanges the element for the one without the flag. Where it has changed, tests the same place in the element
    /// found.
    ExchangesElement { start: u32, passed: u32, found: u64 },
    /// Stores the position after the place, and answers Some of the place.
    StoresPosition { place: u64 },
}

/// The place that is `passed` places after the start; after the last place comes 0.
#[inline(always)]
pub fn place_after(capacity: u32, start: u32, passed: u32) -> u64
    ensures { result ≡ place_after capacity start passed }
{
    let place = start as u64 + passed as u64;
    if place < capacity as u64 {
        place
    } else {
        place - capacity as u64
    }
}

impl Set {
    /// A call that has taken no step.
    #[inline(always)]
    pub fn new() -> Set
        ensures { result ≡ first_set }
    {
        Set {
            stage: SetStage::LoadsElement,
        }
    }

    /// Whether the call goes back to the test once it is handed this answer.
    pub fn turns_back(&self, answer: u64) -> bool
        ensures { result ≡ set_turns_back self.now.stage answer }
    {
        match self.stage {
            SetStage::LoadsElement => false,
            SetStage::ExchangesElement { found } => answer != found,
        }
    }

    /// The call after an element that it has loaded or found: its end with false where the flag
    /// stands, else the exchange.
    #[inline(always)]
    fn tests(place: u64, found: u64) -> After<Set, bool>
        ensures { result ≡ set_tests place found }
    {
        if has_flag(found, place) {
            After::Done(false)
        } else {
            After::GoOn(Set {
                stage: SetStage::ExchangesElement { found },
            })
        }
    }
}

impl ResetNext {
    /// A call that has taken no step.
    #[inline(always)]
    pub fn new(capacity: u32) -> ResetNext
        ensures { result ≡ first_reset capacity }
    {
        ResetNext {
            capacity,
            stage: ResetNextStage::LoadsPosition,
        }
    }

    /// Whether the call goes back to the test of the same place once it is handed this answer.
    pub fn turns_back(&self, answer: u64) -> bool
        ensures { result ≡ reset_turns_back self.now.stage answer }
    {
        match self.stage {
            ResetNextStage::LoadsPosition => false,
            ResetNextStage::LoadsElement { .. } => false,
            ResetNextStage::ExchangesElement { found, .. } => answer != found,
            ResetNextStage::StoresPosition { .. } => false,
        }
    }

    /// The call at the place that is `passed` places after the start, or its end with None if it
    /// has passed all places.
    #[inline(always)]
    fn comes_to(self, start: u32, passed: u64) -> After<ResetNext, Option<u64>>
        ensures { result ≡ reset_comes_to self start passed }
    {
        if passed < self.capacity as u64 {
            After::GoOn(ResetNext {
                capacity: self.capacity,
                stage: ResetNextStage::LoadsElement {
                    start,
                    passed: passed as u32,
                },
            })
        } else {
            After::Done(None)
        }
    }

    /// The call after an element that it has loaded or found: the exchange where the flag of its place
    /// stands, else the next place.
    #[inline(always)]
    fn tests(self, start: u32, passed: u32, found: u64) -> After<ResetNext, Option<u64>>
        ensures { result ≡ reset_tests self start passed found }
    {
        if has_flag(found, place_after(self.capacity, start, passed)) {
            After::GoOn(ResetNext {
                capacity: self.capacity,
                stage: ResetNextStage::ExchangesElement {
                    start,
                    passed,
                    found,
                },
            })
        } else {
            self.comes_to(start, passed as u64 + 1)
        }
    }
}

/// The steps of `set`: given the place, it reads no value into a room, and answers whether
/// the place was clear.
impl Routine for Set {
    ghost use Rattle.steps.specs.Bits.Laws.{set_tells};

    type Given = u64;

    type Room = ();

    type End = bool;

    type Value = u64;

    type Answer = bool;

    ghost want_of = { set_want };

    ghost after = { set_after };

    ghost kept = { λ c room old. room };

    ghost value_of = { λ given room. 0 };

    ghost answer_of = { λ end given room. end };

    ghost store_tells_nothing = { λ c given room m n t. set_tells c.stage given room m n t };

    /// Asks for the element of the place, then exchanges it for the element with the place's flag.
    #[inline(always)]
    fn ask(self, given: &u64) -> Want<()> {
        let op = match self.stage {
            SetStage::LoadsElement => Op::Load,
            SetStage::ExchangesElement { found } => Op::Exchange(found, with_flag(found, *given)),
        };
        Want::Ask(Ask {
            word: element_of(*given),
            op,
        })
    }

    /// Tests the element as loaded, and again as found where another party has changed it. The exchange that
    /// succeeds has set the flag.
    #[inline(always)]
    fn take(self, given: &u64, _room: &mut (), answer: u64) -> After<Set, bool> {
        match self.stage {
            SetStage::LoadsElement => Set::tests(*given, answer),
            SetStage::ExchangesElement { found } => {
                if answer == found {
                    After::Done(true)
                } else {
                    Set::tests(*given, answer)
                }
            }
        }
    }

    /// 0: the call has no value of the structure to hand out.
    fn value(_given: &u64, _room: &()) -> u64 {
        0
    }

    #[inline(always)]
    fn answer(end: bool, _given: &u64, _room: &()) -> bool {
        end
    }
}

/// The steps of `reset_next`: given nothing, it answers the place that it has cleared, or None.
impl Routine for ResetNext {
    ghost use Rattle.steps.specs.Bits.Laws.{reset_tells};

    type Given = ();

    type Room = ();

    type End = Option<u64>;

    type Value = u64;

    type Answer = Option<u64>;

    ghost want_of = { λ c given. reset_want c };

    ghost after = { λ c given old. reset_after c old };

    ghost kept = { λ c room old. room };

    ghost value_of = { λ given room. 0 };

    ghost answer_of = { λ end given room. end };

    ghost store_tells_nothing = { λ c given room m n t. reset_tells c c.stage room m n t };

    /// Asks for the position, then the element of each place, then exchanges that element for the one without
    /// the place's flag, and stores the position behind the place.
    #[inline(always)]
    fn ask(self, _given: &()) -> Want<()> {
        let (word, op) = match self.stage {
            ResetNextStage::LoadsPosition => (RESET_POSITION, Op::Load),
            ResetNextStage::LoadsElement { start, passed } => {
                (
                    element_of(place_after(self.capacity, start, passed)),
                    Op::Load,
                )
            }
            ResetNextStage::ExchangesElement {
                start,
                passed,
                found,
            } => {
                let place = place_after(self.capacity, start, passed);
                (
                    element_of(place),
                    Op::Exchange(found, without_flag(found, place)),
                )
            }
            ResetNextStage::StoresPosition { place } => {
                (RESET_POSITION, Op::Store(place.wrapping_add(1)))
            }
        };
        Want::Ask(Ask { word, op })
    }

    /// Begins at the stored position, or at the capacity where that is greater, and tests one place after
    /// another. A failed exchange tests the place again, with the element as found.
    #[inline(always)]
    fn take(self, _given: &(), _room: &mut (), answer: u64) -> After<ResetNext, Option<u64>> {
        match self.stage {
            ResetNextStage::LoadsPosition => {
                let capacity = self.capacity;
                let start = if answer > capacity as u64 {
                    capacity
                } else {
                    answer as u32
                };
                self.comes_to(start, 0)
            }
            ResetNextStage::LoadsElement { start, passed } => self.tests(start, passed, answer),
            ResetNextStage::ExchangesElement {
                start,
                passed,
                found,
            } => {
                if answer != found {
                    return self.tests(start, passed, answer);
                }
                After::GoOn(ResetNext {
                    capacity: self.capacity,
                    stage: ResetNextStage::StoresPosition {
                        place: place_after(self.capacity, start, passed),
                    },
                })
            }
            ResetNextStage::StoresPosition { place } => After::Done(Some(place)),
        }
    }

    /// 0: the call has no value of the structure to hand out.
    fn value(_given: &(), _room: &()) -> u64 {
        0
    }

    #[inline(always)]
    fn answer(end: Option<u64>, _given: &(), _room: &()) -> Option<u64> {
        end
    }
}
