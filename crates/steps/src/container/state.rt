//! What a caller knows of a container: the values that stood in it when the caller looked.
ghost use Rattle.std.specs.Prelude.{◌≡◌, ◌↔◌, IfOk, IsTrue, slice_index_or, option_copied};
ghost use Rattle.steps.specs.Copied.{value_in};
ghost use Rattle.steps.specs.Container.State.{Numbers, Showing, no_numbers, shows_nothing, shown_at, shown_number};
ghost use Rattle.steps.specs.Container.State.{with_change, with_count, with_word, with_value, numbers_over, seen_of};
ghost use Rattle.steps.specs.Container.State.{shown_from, at_value, HasShown};

use crate::container::enums::ContainerStateError;
use crate::copied::{Buffer, Copied, Room};
use crate::enums::CallbackProgression;
use crate::words::Words;
use std::alloc::{AllocError, Global};
use std::marker::Model;

/// What a state has seen: how often the container had changed, and the number of each element. A look is given it, so
/// that it copies only what has changed since.
#[derive(Drop)]
pub struct Seen {
    change: u64,
    counts: Vec<u64>,
}

/// Contracts see what a state has seen as a record of these two, `Numbers`.
impl Model for Seen {
    ghost use Rattle.steps.specs.Container.State.{Numbers};

    ghost Value = { Numbers };

    ghost view = { λ s. record { change = s.change; counts = s.counts.items } };
}

impl Seen {
    /// The numbers of a state that has seen nothing of a container with this capacity.
    fn new(alloc: Global, capacity: u32) -> Result<Seen, AllocError>
        ensures { IfOk result (λ s. s ≡ no_numbers capacity) }
    {
        let mut counts = Vec::with_capacity(alloc, capacity as usize)?;
        counts.resize(capacity as usize, 0)?;
        Ok(Seen { change: 0, counts })
    }

    /// Takes over the numbers that a look has written, once the look has come to its end.
    fn take_over<T: Words>(&mut self, shown: &Shown<T>)
        ensures { self.new ≡ seen_of self.old shown.now }
    {
        self.change = shown.change;
        copy_counts(&mut self.counts[..], &shown.elements[..]);
    }

    /// How often the container had changed.
    #[inline(always)]
    pub fn change(&self) -> u64
        ensures { result ≡ self.now.change }
    {
        self.change
    }

    /// The number of the element at this index, 0 where there is none.
    #[inline(always)]
    pub fn count(&self, index: u32) -> u64
        ensures { result ≡ slice_index_or self.now.counts index 0 }
    {
        match self.counts.get(index as usize) {
            Some(count) => *count,
            None => 0,
        }
    }
}

/// Overwrites the numbers with those of these elements, as far as both lists go.
fn copy_counts<T: Words>(counts: &mut [u64], elements: &[Element<T>])
    ensures { counts.new ≡ numbers_over counts.old elements.now }
{
    'elements: for (index, element) in elements.iter().enumerate() {
        if index < counts.len() {
            counts[index] = element.count;
        }
    }
}

/// An element as a look has found it: its number, and a value, which counts where the number is odd.
#[derive(Clone, Copy)]
pub struct Element<T> {
    pub count: u64,
    pub value: T,
}

/// Calls the closure with each value under an odd number and its index, ascending, until it says Stop.
fn visit_elements<T: Words, F: FnMut(usize, &T) -> CallbackProgression>(
    elements: &[Element<T>],
    mut visit: F,
)
    requires { F.IsAlwaysCallable visit }
    ensures { HasShown (at_value (λ p i r said q. F.step p i r said q))
        (shown_from 0 elements.now) visit }
{
    'elements: for (index, element) in elements.iter().enumerate() {
        if element.count % 2 == 0 {
            continue;
        }
        match visit(index, &element.value) {
            CallbackProgression::Continue => {}
            CallbackProgression::Stop => return,
        }
    }
}

/// What a state shows, while a look writes into it, and room for the words of one value.
#[derive(Drop)]
pub struct Shown<T> {
    change: u64,
    elements: Vec<Element<T>>,
    copy: Copied,
}

/// Contracts see what a state shows as a record of these three, `Showing`.
impl<T> Model for Shown<T> {
    ghost use Rattle.steps.specs.Container.State.{Showing};

    ghost Value = { Showing T };

    ghost view = { λ s. record { change = s.change; elements = s.elements.items; copy = s.copy.words } };
}

impl<T: Words> Shown<T> {
    /// What a new state shows, for a container of this capacity: no value.
    fn new(alloc: Global, capacity: u32) -> Result<Shown<T>, AllocError>
        ensures { IfOk result (λ s. s ≡ shows_nothing T.value_of T.WORDS capacity) }
    {
        let copy: Copied = Buffer { words: [0; 128] };
        let element = Element {
            count: 0,
            value: <Copied as Room<T>>::value(&copy),
        };
        let mut elements = Vec::with_capacity(alloc, capacity as usize)?;
        elements.resize(capacity as usize, element)?;
        Ok(Shown {
            change: 0,
            elements,
            copy,
        })
    }

    /// Keeps the number of changes.
    #[inline(always)]
    pub fn put_change(&mut self, change: u64)
        ensures { self.new ≡ with_change self.old change }
    {
        self.change = change;
    }

    /// Keeps the number of the element at this index, if there is one.
    #[inline(always)]
    pub fn put_count(&mut self, index: u32, count: u64)
        ensures { self.new ≡ with_count self.old index count }
    {
        if (index as usize) < self.elements.len() {
            self.elements[index as usize].count = count;
        }
    }

    /// Keeps a word of the value that is being read, at its place `at`. Nothing changes where
    /// that is not below 128.
    #[inline(always)]
    pub fn put_word(&mut self, at: u8, word: u64)
        ensures { self.new ≡ with_word self.old at word }
    {
        <Copied as Room<T>>::put(&mut self.copy, at as usize, word);
    }

    /// The value whose words were read.
    #[inline(always)]
    pub fn copied(&self) -> T
        ensures { result ≡ value_in T.value_of T.WORDS (self.now).copy }
    {
        <Copied as Room<T>>::value(&self.copy)
    }

    /// Shows the value whose words were read, at this index.
    #[inline(always)]
    pub fn put_value(&mut self, index: u32, count: u64)
        ensures { self.new ≡ with_value T.value_of T.WORDS self.old index count }
    {
        let value = self.copied();
        if (index as usize) < self.elements.len() {
            self.elements[index as usize] = Element { count, value };
        }
    }

    /// Its elements.
    fn elements(&self) -> &[Element<T>]
        ensures { result.now ≡ self.now.elements }
    {
        &self.elements[..]
    }

    /// How many values are shown.
    fn number(&self) -> usize
        ensures { result ≡ shown_number self.now.elements }
    {
        self.elements
            .iter()
            .filter(|element| element.count % 2 != 0)
            .count()
    }

    /// The value that is shown at this index.
    fn get(&self, index: usize) -> Option<&T>
        ensures { option_copied result ≡ shown_at self.now.elements index }
    {
        match self.elements.get(index) {
            Some(element) => {
                if element.count % 2 == 0 {
                    None
                } else {
                    Some(&element.value)
                }
            }
            None => None,
        }
    }
}

/// What stood in a container when its owner looked last: for each index a value or none. After the Rust crate's
/// `ContainerState`.
///
/// A look is given `seen` and writes into `shown`. After one that answers true, `settle` makes what is shown what was
/// seen.
#[derive(Drop)]
pub struct ContainerState<T> {
    pub container: u64,
    pub capacity: u32,
    pub seen: Seen,
    pub shown: Shown<T>,
}

impl<T: Words> ContainerState<T> {
    /// A state that shows nothing yet, of the container of this number and capacity. No later look takes memory.
    pub fn new(
        alloc: Global,
        container: u64,
        capacity: u32,
    ) -> Result<ContainerState<T>, ContainerStateError>
        ensures container { IfOk result (λ s. s.container ≡ container) }
        ensures capacity { IfOk result (λ s. s.capacity ≡ capacity) }
        ensures seen { IfOk result (λ s. s.seen ≡ no_numbers capacity) }
        ensures shown { IfOk result
            (λ s. s.shown ≡ shows_nothing T.value_of T.WORDS capacity) }
    {
        let Ok(seen) = Seen::new(alloc, capacity) else {
            return Err(ContainerStateError::NoMemory);
        };
        let Ok(shown) = Shown::new(alloc, capacity) else {
            return Err(ContainerStateError::NoMemory);
        };
        Ok(ContainerState {
            container,
            capacity,
            seen,
            shown,
        })
    }

    /// Whether it is a state of the container of this number and capacity.
    pub fn is_of(&self, container: u64, capacity: u32) -> bool
        ensures { IsTrue result
            ↔ ((self.now.container ≡ container) × (self.now.capacity ≡ capacity)) }
    {
        self.container == container && self.capacity == capacity
    }

    /// The end of a look: from now on the numbers that are shown are those that it has seen.
    pub fn settle(&mut self)
        ensures { self.new ≡ record self.old { seen = seen_of self.old.seen self.old.shown } }
    {
        self.seen.take_over(&self.shown);
    }

    /// How many values it shows.
    pub fn number(&self) -> usize
        ensures { result ≡ shown_number self.now.shown.elements }
    {
        self.shown.number()
    }

    /// The value that it shows at this index, if there is one.
    pub fn get(&self, index: usize) -> Option<&T>
        ensures { option_copied result ≡ shown_at self.now.shown.elements index }
    {
        self.shown.get(index)
    }

    /// Calls the closure with each value that it shows and its index, ascending, until it says Stop.
    pub fn for_each<F: FnMut(usize, &T) -> CallbackProgression>(&self, visit: F)
        requires { F.IsAlwaysCallable visit }
        ensures { HasShown (at_value (λ p i r said q. F.step p i r said q))
            (shown_from 0 self.now.shown.elements) visit }
    {
        visit_elements(self.shown.elements(), visit);
    }
}
