//! The words of a loan channel at its opening, who may begin which call, and what its begin keeps.
ghost use Rattle.std.specs.Prelude.{◌≡◌, ◌+◌, ◌^◌, ◌≤◌, ◌∷◌, ◌++◌, false, None, Some, is_none, OnOk, IfOk, IfErr, vec_len};
ghost use Rattle.model.specs.Families.Indices.Robust.Dead.{has_died};
ghost use Rattle.model.specs.Families.Loan.Calls.{party_of, book_rows};
ghost use Rattle.model.specs.Families.Loan.Opening.{queue_words, opening_words, opening_kept, is_loan, is_not_sender};
ghost use Rattle.model.specs.Families.Loan.Opening.{is_not_receiver, lacks_role, asks_for, is_past, lacks_index};
ghost use Rattle.model.specs.Families.Loan.Opening.{reclaims_early, call_rows, call_in, taken_from};
ghost use Rattle.model.specs.Rows.{first_row};
ghost use Rattle.model.specs.declared.turn.Refusal.TheVariants.{WrongCall};

use super::calls::{first, party_of};
use crate::families::indices;
use crate::families::queues::opening::holds;
use model::families::Registry;
use model::families::indices::holders::Holders;
use model::families::indices::robust::dead::Dead;
use model::families::loan::calls::LoanFlight;
use model::families::loan::{Book, LoanStart, is_loan};
use model::turn::{Kind, Refusal};
use std::alloc::{AllocError, Global};
use steps::loan::places::Places;

/// Appends the words of an empty queue with `cells` cells of one word: both positions 0, both roles free (1),
/// and cells of 0.
fn add_queue(words: &mut Vec<u64>, cells: usize) -> Result<(), AllocError>
    requires { cells ≤ 2 ^ 32 }
    ensures items { IfOk result (λ _. words.new.items ≡ words.old.items ++ queue_words cells) }
    ensures len { IfOk result (λ _. vec_len words.new ≡ vec_len words.old + (4 + cells)) }
{
    words.push(0)?;
    words.push(0)?;
    words.push(1)?;
    words.push(1)?;
    words.resize(words.len() + cells, 0)?;
    Ok(())
}

/// The words of a channel with this number of slots and a submission queue of capacity `queue`, and its book,
/// in which nobody has an index.
pub fn open<T>(alloc: Global, slots: u32, queue: u32) -> Result<(Vec<u64>, Registry<T>), AllocError>
    ensures words { IfOk result (λ opened. opened.0.items ≡ opening_words slots queue) }
    ensures kept { IfOk result (λ opened. opened.1 ≡ opening_kept slots queue) }
{
    let (mut words, _) = indices::opening::open::<u64>(alloc, slots)?;
    add_queue(&mut words, queue as usize + 1)?;
    add_queue(&mut words, slots as usize)?;
    let book = Book {
        queue,
        places: Places::new(alloc, slots)?,
        holders: Holders::new(alloc, slots)?,
        receiver: 1,
        dead: Dead::new(alloc),
    };
    Ok((words, Registry::Loan(book)))
}

/// The index that the party has to hold to begin this call: that of a send, a give-up or a give-back.
fn asks_for(start: LoanStart) -> Option<u64>
    ensures { result ≡ asks_for start }
{
    match start {
        LoanStart::Send(index) => Some(index),
        LoanStart::GiveUp(index) => Some(index),
        LoanStart::GiveBack(index) => Some(index),
        _ => None,
    }
}

/// Whether the call names an index that is not below the number of slots.
fn is_past(slots: u32, index: Option<u64>) -> bool
    ensures { result ≡ is_past slots index }
{
    match index {
        None => false,
        Some(index) => slots as u64 <= index,
    }
}

/// Whether the call is one of the receiver and the party is not the receiver, or one of the sender and the
/// party is not the sender (party 0).
fn lacks_role(book: &Book, number: u32, start: LoanStart) -> bool
    ensures { result ≡ lacks_role book.now number start }
{
    match start {
        LoanStart::Receive => number as u64 != book.receiver,
        LoanStart::GiveBack(_) => number as u64 != book.receiver,
        _ => number != 0,
    }
}

/// Whether the call names an index and the party does not hold it.
fn lacks_index(book: &Book, number: u32, index: Option<u64>) -> bool
    requires { is_past (2 ^ 32) index ≡ false }
    ensures { result ≡ lacks_index book.now number index }
{
    match index {
        None => false,
        Some(index) => !holds(book.holders.of(index as u32), number),
    }
}

/// Whether this party has died.
fn has_died(book: &Book, number: u64) -> bool
    ensures { result ≡ has_died number book.now.dead }
{
    book.dead.has_number(number)
}

/// Notes that from the begin of a send, a give-up or a give-back on the party no longer
/// holds the call's index.
pub fn keep(book: &mut Book, start: LoanStart)
    ensures { book.new ≡ taken_from book.old (asks_for start) }
{
    if let Some(index) = asks_for(start) {
        book.holders.leave(index);
    }
}

/// The call that the party `number` begins, or why it may not begin.
pub fn permit(
    kind: Kind,
    slots: u32,
    book: &Book,
    number: u32,
    start: LoanStart,
) -> Result<LoanFlight, Refusal>
    ensures ok { IfOk result (λ flight. call_in kind slots start book.now ≡ Some flight) }
    ensures allowed { OnOk result (first_row
        ((is_none (call_in kind slots start book.now), WrongCall)
        ∷ call_rows slots book.now number start) ≡ None) }
    ensures refused { IfErr result (λ row. first_row
        ((is_none (call_in kind slots start book.now), WrongCall)
        ∷ call_rows slots book.now number start) ≡ Some row) }
{
    if !is_loan(kind) {
        return Err(Refusal::WrongCall);
    }
    let index = asks_for(start);
    if is_past(slots, index) {
        return Err(Refusal::BadIndex);
    }
    if lacks_role(book, number, start) {
        return Err(Refusal::NoRole);
    }
    if lacks_index(book, number, index) {
        return Err(Refusal::NotHeld);
    }
    if has_died(book, number as u64) {
        return Err(Refusal::OwnerIsDead);
    }
    if reclaims_early(book, start) {
        return Err(Refusal::OwnerLives);
    }
    Ok(first(slots, book, start))
}

/// Whether the call is a reclaim, and the receiver lives.
fn reclaims_early(book: &Book, start: LoanStart) -> bool
    ensures { result ≡ reclaims_early book.now start }
{
    match start {
        LoanStart::Reclaim => !has_died(book, book.receiver),
        _ => false,
    }
}

/// Why the call may not go on: its party is dead. None where it lives.
pub fn going_refusal(flight: &LoanFlight, book: &Book) -> Option<Refusal>
    ensures { result ≡ first_row (book_rows flight.now book.now) }
{
    if has_died(book, party_of(flight)) {
        return Some(Refusal::OwnerIsDead);
    }
    None
}
