//! The call that comes to the indices of one owner.
ghost use Rattle.std.specs.Prelude.{◌≡◌};
ghost use Rattle.steps.specs.Indices.Robust.Find.{first_find, find_comes_to, find_want, find_after};

use crate::ask::{After, Ask, Op, Question, Want};
use crate::enums::OwnerId;
use crate::indices::robust::parts::cell_word;
use crate::routine::{Ends, Routine};

/// Comes to the indices of the owner that it is given, ascending: how many it came to. As many steps as the capacity,
/// or fewer where it is told to stop. After `find` of the Rust crate's `RobustUniqueIndexSet`.
#[derive(Clone, Copy)]
pub struct Find {
    pub capacity: u32,
    pub stage: FindStage,
}

/// What a find does next, and how many indices it has come to.
#[derive(Clone, Copy)]
pub enum FindStage {
    /// Loads the cell of the index; where that holds the owner, counts one more, else goes on to the next.
    LoadsCell { index: u32, found: usize },
    /// Asks about the index; a no stops it there.
    Asks { index: u32, found: usize },
}

impl Find {
    /// A find that has taken no step.
    #[inline(always)]
    pub fn new(capacity: u32) -> Find
        ensures { result ≡ first_find capacity }
    {
        Find {
            capacity,
            stage: FindStage::LoadsCell { index: 0, found: 0 },
        }
    }

    /// The find at this cell, if there is one; else its end with the number found.
    #[inline(always)]
    fn comes_to(self, index: u64, found: usize) -> After<Find, usize>
        ensures { result ≡ find_comes_to self index found }
    {
        if index < self.capacity as u64 {
            After::GoOn(Find {
                capacity: self.capacity,
                stage: FindStage::LoadsCell {
                    index: index as u32,
                    found,
                },
            })
        } else {
            After::Done(found)
        }
    }
}

/// The steps of a find of a robust set: given the owner, it asks a question at each of the owner's indices,
/// and answers how many it came to.
impl Routine for Find {
    ghost use Rattle.steps.specs.Indices.Robust.Laws.{find_tells};

    type Given = OwnerId;

    type Room = ();

    type End = usize;

    type Value = u64;

    type Answer = usize;

    ghost want_of = { λ c given. find_want c };

    ghost after = { find_after };

    ghost kept = { λ c room old. room };

    ghost value_of = { λ given room. 0 };

    ghost answer_of = { λ end given room. end };

    ghost store_tells_nothing = { λ c given room m n t. find_tells c c.stage given room m n t };

    /// Loads the next cell, or asks about its index.
    #[inline(always)]
    fn ask(self, _given: &OwnerId) -> Want<()> {
        match self.stage {
            FindStage::LoadsCell { index, .. } => Want::Ask(Ask {
                word: cell_word(index),
                op: Op::Load,
            }),
            FindStage::Asks { index, .. } => Want::Question(Question::Index(index as usize)),
        }
    }

    /// Asks about each index whose cell has the owner. It ends after a no, or after the last cell, with the
    /// number of indices that it came to.
    #[inline(always)]
    fn take(self, given: &OwnerId, _room: &mut (), answer: u64) -> After<Find, usize> {
        match self.stage {
            FindStage::LoadsCell { index, found } => {
                if answer != given.value() {
                    return self.comes_to(index as u64 + 1, found);
                }
                After::GoOn(Find {
                    capacity: self.capacity,
                    stage: FindStage::Asks {
                        index,
                        found: found.wrapping_add(1),
                    },
                })
            }
            FindStage::Asks { index, found } => {
                if answer == 0 {
                    After::Done(found)
                } else {
                    self.comes_to(index as u64 + 1, found)
                }
            }
        }
    }

    /// 0: the call has no value of the structure to hand out.
    fn value(_given: &OwnerId, _room: &()) -> u64 {
        0
    }

    #[inline(always)]
    fn answer(end: usize, _given: &OwnerId, _room: &()) -> usize {
        end
    }
}

impl Ends for Find {
    ghost use Rattle.steps.specs.Indices.Robust.Find.{find_left};
    ghost use Rattle.steps.specs.Indices.Robust.Laws.{find_fewer};

    ghost left = { λ c. find_left c.capacity c.stage };

    ghost fewer = { λ c d given n goes. find_fewer c d given n goes };
}
