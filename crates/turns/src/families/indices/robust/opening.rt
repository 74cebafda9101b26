//! The words of the robust index set at its opening, who may begin which call, and who may go on.
ghost use Rattle.std.specs.Prelude.{◌≡◌, ◌∷◌, None, Some, is_none, OnOk, IfOk, IfErr};
ghost use Rattle.model.specs.Families.Indices.Robust.Opening.{opening, is_set, is_owner, names_owner, call_of, call_rows};
ghost use Rattle.model.specs.Families.Indices.Robust.Dead.{acts_for_dead, asks_about_living, frees_living, going_rows};
ghost use Rattle.model.specs.Rows.{first_row};
ghost use Rattle.model.specs.declared.turn.Refusal.TheVariants.{WrongCall};

use super::calls::{acquire, borrowed_indices, find, is_locked, recover, release};
use model::families::Registry;
use model::families::indices::robust::RobustStart;
use model::families::indices::robust::calls::RobustFlight;
use model::families::indices::robust::dead::Dead;
use model::turn::{Kind, Refusal};
use std::alloc::{AllocError, Global};
use steps::indices::robust::parts::EMPTY;
use steps::indices::robust::recover::RecoverStage;

/// The words of a set of this capacity at its opening. Nobody has died.
pub fn open<T>(alloc: Global, capacity: u32) -> Result<(Vec<u64>, Registry<T>), AllocError>
    ensures words { IfOk result (λ opened. opened.0.items ≡ opening.words 0 capacity) }
    ensures kept { IfOk result (λ opened. opened.1 ≡ opening.kept capacity) }
{
    let mut words = Vec::with_capacity(alloc, 1 + capacity as usize)?;
    words.push_reserved(0);
    words.resize(1 + capacity as usize, EMPTY)?;
    Ok((words, Registry::Owners(Dead::new(alloc))))
}

/// Whether a machine of this kind is a robust index set.
fn is_set(kind: Kind) -> bool
    ensures { result ≡ is_set kind }
{
    match kind {
        Kind::Robust => true,
        _ => false,
    }
}

/// The call that begins, or why it may not begin.
pub fn permit(
    kind: Kind,
    capacity: u32,
    dead: &Dead,
    start: &RobustStart,
) -> Result<RobustFlight, Refusal>
    ensures ok { IfOk result (λ flight. call_of kind capacity start.now ≡ Some flight) }
    ensures allowed { OnOk result (first_row
        ((is_none (call_of kind capacity start.now), WrongCall)
        ∷ call_rows capacity dead.now start.now) ≡ None) }
    ensures refused { IfErr result (λ row. first_row
        ((is_none (call_of kind capacity start.now), WrongCall)
        ∷ call_rows capacity dead.now start.now) ≡ Some row) }
{
    if !is_set(kind) {
        return Err(Refusal::WrongCall);
    }
    let start = *start;
    match start {
        RobustStart::Acquire(owner) => {
            if dead.has(owner) {
                return Err(Refusal::OwnerIsDead);
            }
            Ok(acquire(capacity, owner))
        }
        RobustStart::Release(index, owner, mode) => {
            if index >= capacity as u64 {
                return Err(Refusal::BadIndex);
            }
            if dead.has(owner) {
                return Err(Refusal::OwnerIsDead);
            }
            Ok(release(capacity, index as u32, owner, mode))
        }
        RobustStart::Find(owner) => Ok(find(capacity, owner)),
        RobustStart::Recover(mode) => Ok(recover(capacity, mode)),
        RobustStart::BorrowedIndices => Ok(borrowed_indices(capacity)),
        RobustStart::IsLocked => Ok(is_locked()),
    }
}

/// Whether the call acquires or releases for an owner who is dead.
fn acts_for_dead(flight: &RobustFlight, dead: &Dead) -> bool
    ensures { result ≡ acts_for_dead dead.now flight.now }
{
    match flight {
        RobustFlight::Acquire(run) => dead.has(run.given),
        RobustFlight::Release(run) => dead.has(run.given.owner),
        _ => false,
    }
}

/// Whether the decision `said` is a yes by which a recovery would free an index of an owner who lives.
fn frees_living(flight: &RobustFlight, dead: &Dead, said: Option<bool>) -> bool
    ensures { result ≡ frees_living dead.now flight.now said }
{
    match (flight, said) {
        (RobustFlight::Recover(run), Some(true)) => {
            let stage = run.call.stage;
            match stage {
                RecoverStage::Asks { owner, .. } => !dead.has(owner),
                _ => false,
            }
        }
        _ => false,
    }
}

/// Why the call may not go on with the decision `said`, or without one. None where it may.
pub fn going_refusal(flight: &RobustFlight, dead: &Dead, said: Option<bool>) -> Option<Refusal>
    ensures { result ≡ first_row (going_rows dead.now flight.now said) }
{
    if acts_for_dead(flight, dead) {
        return Some(Refusal::OwnerIsDead);
    }
    if frees_living(flight, dead, said) {
        return Some(Refusal::OwnerLives);
    }
    None
}
