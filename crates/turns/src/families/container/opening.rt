//! The words of the container at its opening, who may begin which call, and who may go on.
ghost use Rattle.std.specs.Prelude.{◌≡◌, ◌∷◌, ◌⊎◌, true, false, None, Some, is_none, OnOk, IfOk, IfErr};
ghost use Rattle.model.specs.Families.Container.Calls.{acts_for_dead, going_rows};
ghost use Rattle.model.specs.Families.Container.Opening.{opening, is_container, call_of, call_rows, states_at_begin};
ghost use Rattle.model.specs.Rows.{first_row};
ghost use Rattle.model.specs.declared.turn.Refusal.TheVariants.{WrongCall, NoMemory};
ghost use Rattle.model.specs.Coding.{coding_by};

use super::calls::{add, count, find, is_locked, look, recover, remove, replace};
use model::families::Registry;
use model::families::container::ContainerStart;
use model::families::container::calls::{ContainerFlight, CountOf, LookOf};
use model::families::container::states::States;
use model::families::indices::robust::dead::Dead;
use model::turn::{Kind, Refusal};
use std::alloc::{AllocError, Global};
use steps::container::layout::total_words;
use steps::indices::robust::parts::EMPTY;
use steps::words::Words;

/// The words of a container of this capacity at its opening. Nobody has died, and no party has a state.
pub fn open<T: Words>(alloc: Global, capacity: u32) -> Result<(Vec<u64>, Registry<T>), AllocError>
    ensures words { IfOk result
        (λ opened. opened.0.items ≡ opening.words (coding_by T.Words).size capacity) }
    ensures kept { IfOk result (λ opened. opened.1 ≡ opening.kept capacity) }
{
    let total = total_words(capacity, T::WORDS as u8);
    let mut words = Vec::with_capacity(alloc, total)?;
    words.push_reserved(0);
    words.resize(1 + capacity as usize, EMPTY)?;
    words.resize(total, 0)?;
    Ok((
        words,
        Registry::Container(Dead::new(alloc), States::new(alloc)),
    ))
}

/// Whether a machine of this kind is a container.
fn is_container(kind: Kind) -> bool
    ensures { result ≡ is_container kind }
{
    match kind {
        Kind::Container => true,
        _ => false,
    }
}

/// The call that begins, or why it may not, or that memory for its room is refused.
pub fn permit<T: Words>(
    alloc: Global,
    kind: Kind,
    capacity: u32,
    dead: &Dead,
    start: &ContainerStart<T>,
) -> Result<ContainerFlight<T>, Refusal>
    ensures ok { IfOk result (λ flight. call_of kind capacity start.now ≡ Some flight) }
    ensures allowed { OnOk result (first_row
        ((is_none (call_of kind capacity start.now), WrongCall)
        ∷ call_rows dead.now start.now) ≡ None) }
    ensures refused { IfErr result (λ row. (first_row
        ((is_none (call_of kind capacity start.now), WrongCall)
        ∷ call_rows dead.now start.now) ≡ Some row) ⊎ (first_row
        ((is_none (call_of kind capacity start.now), WrongCall)
        ∷ call_rows dead.now start.now) ≡ None) × (row ≡ NoMemory)) }
{
    if !is_container(kind) {
        return Err(Refusal::WrongCall);
    }
    let start = *start;
    match start {
        ContainerStart::Add(value, owner) => {
            if dead.has(owner) {
                return Err(Refusal::OwnerIsDead);
            }
            Ok(add(capacity, value, owner))
        }
        ContainerStart::Remove(index, owner, mode) => {
            if dead.has(owner) {
                return Err(Refusal::OwnerIsDead);
            }
            Ok(remove(capacity, index, owner, mode))
        }
        ContainerStart::Replace(index, value, owner) => {
            if dead.has(owner) {
                return Err(Refusal::OwnerIsDead);
            }
            Ok(replace(capacity, index, value, owner))
        }
        ContainerStart::Find(owner) => match find(alloc, capacity, owner) {
            Ok(flight) => Ok(flight),
            Err(_) => Err(Refusal::NoMemory),
        },
        ContainerStart::Recover(owner, mode) => {
            if !dead.has(owner) {
                return Err(Refusal::OwnerLives);
            }
            match recover(alloc, capacity, owner, mode) {
                Ok(flight) => Ok(flight),
                Err(_) => Err(Refusal::NoMemory),
            }
        }
        ContainerStart::GetState => Ok(look(LookOf::GetState, capacity)),
        ContainerStart::UpdateState => Ok(look(LookOf::UpdateState, capacity)),
        ContainerStart::Len => Ok(count(CountOf::Len, capacity)),
        ContainerStart::IsEmpty => Ok(count(CountOf::IsEmpty, capacity)),
        ContainerStart::IsLocked => Ok(is_locked()),
    }
}

/// Gives the party an empty state at the begin of a `get_state`, or of its first `update_state`. Answers
/// false where memory for it is refused, and nothing changes then.
pub fn keep<T: Words>(
    capacity: u32,
    start: &ContainerStart<T>,
    number: u32,
    states: &mut States<T>,
) -> bool
    ensures keeps { result ≡ true → states.new
        ≡ states_at_begin (coding_by T.Words) capacity start.now number states.old }
    ensures same { result ≡ false → states.new ≡ states.old }
{
    match start {
        ContainerStart::GetState => states.renew(number, capacity),
        ContainerStart::UpdateState => {
            if states.has(number) {
                true
            } else {
                states.renew(number, capacity)
            }
        }
        _ => true,
    }
}

/// Whether the call adds, removes or replaces for an owner who is dead.
fn acts_for_dead<T: Words>(flight: &ContainerFlight<T>, dead: &Dead) -> bool
    ensures { result ≡ acts_for_dead dead.now flight.now }
{
    match flight {
        ContainerFlight::Add(run) => dead.has(run.given.owner),
        ContainerFlight::Remove(run) => dead.has(run.given.owner),
        ContainerFlight::Replace(run) => dead.has(run.given.owner),
        _ => false,
    }
}

/// Why the call may not go on: it adds, removes or replaces for an owner who is dead. None where it may.
pub fn going_refusal<T: Words>(flight: &ContainerFlight<T>, dead: &Dead) -> Option<Refusal>
    ensures { result ≡ first_row (going_rows dead.now flight.now) }
{
    if acts_for_dead(flight, dead) {
        return Some(Refusal::OwnerIsDead);
    }
    None
}
