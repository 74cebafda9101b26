//! The steps on a slot, each one call of the kit's `counted_slot`. Only a step makes a `Seen`, a `Lies` or an `Emptied`, so a
//! `Seen` is of a word that was seen in a slot of this number, a `Lies` of a value that was laid into one, and an `Emptied` of one
//! that was left empty. No clause says in whose slots, or when: an older one, or one of other slots, has the same type.
ghost use Rattle.std.specs.Prelude.{◌≡◌, ◌≢◌, IfSome};
ghost use Rattle.counted_slot.specs.Counting.{Gains, IsTurn};
ghost use Rattle.zero_copy_slots.specs.Words.{emptied_number, emptied_slot, placed_slot, placed_number, number_with, seen_in, seen_word};

use crate::{Keeps, Kept};
use counted_slot::{Claim, Counted, FREE, PRESENT};
use std::marker::PhantomData;

/// A word that was seen in a slot.
#[derive(Debug, Clone, Copy, PartialEq, Eq)]
pub struct Seen {
    word: u64,
    slot: u32,
}

/// Says that a value was laid into a slot with a number, where it may be read.
#[derive(Debug, Drop)]
pub struct Lies {
    slot: u32,
    number: u64,
}

/// Says that a slot was left empty by its writer, so that nobody else read or wrote it at that step, and with
/// which number a value lay in it, if one did.
#[derive(Debug, Drop)]
pub struct Emptied {
    slot: u32,
    number: Option<u64>,
}

impl Seen {
    /// The word. No atomic step.
    pub fn word(&self) -> u64
        ensures { result ≡ seen_word self.now }
    {
        self.word
    }

    /// The slot that it was seen in. No atomic step.
    pub fn slot(&self) -> u32
        ensures { result ≡ seen_in self.now }
    {
        self.slot
    }
}

impl Lies {
    /// The slot. No atomic step.
    pub fn slot(&self) -> u32
        ensures { result ≡ placed_slot self.now }
    {
        self.slot
    }

    /// The number. No atomic step.
    pub fn number(&self) -> u64
        ensures { result ≡ placed_number self.now }
    {
        self.number
    }
}

impl Emptied {
    /// The slot. No atomic step.
    pub fn slot(&self) -> u32
        ensures { result ≡ emptied_slot self.now }
    {
        self.slot
    }

    /// The number that a value lay there with. No atomic step.
    pub fn number(&self) -> Option<u64>
        ensures { result ≡ emptied_number self.now }
    {
        self.number
    }
}

/// Loads the word of a slot, by one atomic step.
pub(crate) fn look<X, K: Keeps<X>>(cell: &Counted<Option<Kept<X, K>>>, slot: u32) -> Seen
    requires { cell.now ≡ slot }
    ensures { seen_in result ≡ slot }
{
    Seen {
        word: cell.load(),
        slot,
    }
}

/// A compare-exchange on the word of a slot: the word that was found, and the claim that was gained if it was
/// the word seen before.
pub(crate) fn turn<'a, X, K: Keeps<X>>(
    cell: &'a Counted<Option<Kept<X, K>>>,
    seen: Seen,
    new: u64,
) -> (Seen, Claim<'a, Option<Kept<X, K>>>)
    requires slot { cell.now ≡ seen_in seen }
    requires turn { IsTurn (seen_word seen) new }
    ensures slot { seen_in result.0 ≡ seen_in seen }
    ensures gained { seen_word result.0 ≡ seen_word seen → Gains (seen_word seen) new result.1.right }
    ensures none { seen_word result.0 ≢ seen_word seen → result.1.right ≡ 0 }
    ensures tag { result.1.tag ≡ seen_in seen }
{
    let (word, claim) = cell.turn(seen.word, new);
    (
        Seen {
            word,
            slot: seen.slot,
        },
        claim,
    )
}

/// Lays a value down with its number, where it may be read from now on, and hands out what lay there.
pub(crate) fn lay<'a, X, K: Keeps<X>>(
    claim: Claim<'a, Option<Kept<X, K>>>,
    slot: u32,
    number: u64,
    value: X,
) -> (Lies, Option<Kept<X, K>>)
    requires right { claim.right ≡ 2 }
    requires slot { claim.tag ≡ slot }
    requires fits { K.holds number value }
    ensures slot { placed_slot result.0 ≡ slot }
    ensures number { placed_number result.0 ≡ number }
    ensures fits { IfSome result.1 (λ k. K.holds k.number k.value) }
{
    let kept = Kept {
        number,
        value,
        rule: PhantomData,
    };
    let before = claim.put(Some(kept), PRESENT);
    (Lies { slot, number }, before)
}

/// Leaves the slot empty, and hands out what lay there.
pub(crate) fn clear<'a, X, K: Keeps<X>>(
    claim: Claim<'a, Option<Kept<X, K>>>,
    slot: u32,
) -> (Emptied, Option<(u64, X)>)
    requires right { claim.right ≡ 2 }
    requires slot { claim.tag ≡ slot }
    ensures slot { emptied_slot result.0 ≡ slot }
    ensures number { emptied_number result.0 ≡ number_with result.1 }
    ensures fits { IfSome result.1 (λ r. K.holds r.0 r.1) }
{
    match claim.put(None, FREE) {
        Some(
            Kept {
                number,
                value,
                rule: _,
            },
        ) => (
            Emptied {
                slot,
                number: Some(number),
            },
            Some((number, value)),
        ),
        None => (Emptied { slot, number: None }, None),
    }
}
