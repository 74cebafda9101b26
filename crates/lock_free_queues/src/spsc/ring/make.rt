//! How a queue of any kind is made of its words, and one of numbers of its capacity.
ghost use Rattle.std.specs.Prelude.{◌≡◌, ◌⊎◌, ◌+◌, ◌-◌, ◌^◌, ◌≤◌, [], None, Some, length, IfOk, IfErr, OnOk};
ghost use Rattle.atomic_table.specs.Table.{opening};
ghost use Rattle.steps.specs.Enums.{capacity_refusal};
ghost use Rattle.steps.specs.declared.enums.UniqueIndexCreationError.TheVariants.{NoMemory};
ghost use Rattle.model.specs.Coding.{coding_by, one_word};
ghost use Rattle.history.specs.History.{IsMachine, Knows};
ghost use Rattle.history.specs.Views.{first_view};
ghost use Rattle.lock_free_queues.specs.Queues.Bounded.{machine_kind};
ghost use Rattle.lock_free_queues.specs.Queues.Kinds.{words_in_cells, opened_by};
ghost use Rattle.lock_free_queues.specs.Queues.Rings.{capacity_of, IsPassOf, view};

use super::rule::{Kind, Origin, RingRule};
use super::{Held, Pass, Ring};
use crate::spsc::places::{empty_words, start_at};
use history::view::View;
use std::alloc::{AllocError, Global};
use std::marker::PhantomData;
use steps::enums::{UniqueIndexCreationError, capacity_refusal};
use steps::words::Words;
use threaded::driver::seated::Seated;

impl<E: Kind, T: Words> Ring<E, T> {
    /// Makes a queue with these words, which are those of an opening at `position`, and its first pass.
    pub(crate) fn of_words(
        alloc: Global,
        words: Vec<u64>,
        capacity: u32,
        position: u64,
    ) -> Result<(Ring<E, T>, Pass<E, T>), AllocError>
        requires long { length words.items ≡ 4 + words_in_cells T.WORDS E.KIND capacity + 1 }
        requires opens { IsMachine (coding_by T.Words) (machine_kind E.KIND) capacity
            (opening words.items [] (opened_by (coding_by T.Words) E.KIND capacity position)) }
        requires knows { Knows (coding_by T.Words) (machine_kind E.KIND) capacity
            (opened_by (coding_by T.Words) E.KIND capacity position) }
        ensures pass { IfOk result (λ r. IsPassOf r.0 r.1
            × (view r.1 ≡ opened_by (coding_by T.Words) E.KIND capacity position)) }
        ensures capacity { IfOk result (λ r. capacity_of r.0 ≡ capacity) }
    {
        let origin = Origin {
            capacity: capacity as u64,
            position,
        };
        let (home, seated) = Seated::<View<T>, Origin, RingRule<E, T>>::open(
            alloc,
            words.as_slice(),
            &origin,
        )?;
        let token = Held {
            of: PhantomData,
            seated,
            capacity,
        };
        let ring = Ring {
            home,
            capacity,
            alloc,
        };
        Ok((ring, Pass { token }))
    }
}

impl<E: Kind> Ring<E, u64> {
    /// Makes an empty queue of numbers with both positions at `position`, and its first pass. It has `spare`
    /// cells more than its capacity.
    pub(crate) fn of_numbers(
        alloc: Global,
        capacity: usize,
        spare: usize,
        position: u64,
    ) -> Result<(Ring<E, u64>, Pass<E, u64>), UniqueIndexCreationError>
        requires few { spare ≤ 1 }
        requires cells { words_in_cells 1 E.KIND capacity ≡ capacity + spare }
        ensures pass { IfOk result (λ r. IsPassOf r.0 r.1 × (view r.1 ≡ opened_by one_word E.KIND capacity position)) }
        ensures first { position ≡ 0 → IfOk result (λ r. IsPassOf r.0 r.1 × (view r.1 ≡ first_view capacity)) }
        ensures capacity { IfOk result (λ r. capacity_of r.0 ≡ capacity) }
        ensures admitted { OnOk result (capacity_refusal 0 (2 ^ 32 - 1) capacity ≡ None) }
        ensures refused { IfErr result (λ e. (capacity_refusal 0 (2 ^ 32 - 1) capacity ≡ Some e)
            ⊎ (capacity_refusal 0 (2 ^ 32 - 1) capacity ≡ None) × (e ≡ NoMemory)) }
    {
        if let Some(error) = capacity_refusal(capacity as u64, 0, u32::MAX as u64) {
            return Err(error);
        }
        let start = start_at(capacity as u32, position);
        let Ok(words) = empty_words(alloc, capacity + spare, start) else {
            return Err(UniqueIndexCreationError::NoMemory);
        };
        match Ring::<E, u64>::of_words(alloc, words, capacity as u32, position) {
            Ok(made) => Ok(made),
            Err(_) => Err(UniqueIndexCreationError::NoMemory),
        }
    }
}
