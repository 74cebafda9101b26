//! The states of a container: how one is got, and updated. Each value is copied whole in a well-formed
//! faithful history of few turns (`laws`), as it stands when the call comes to its index (tests). The state of the last
//! `get_state` is the pass's: its update is a call of the history. An update of any other only counts its steps, without
//! bound, as the pass sees no change by others; a find that rests rests on.
ghost use Rattle.std.specs.Prelude.{◌≡◌, ◌↔◌, IsTrue, IsFalse, IfOk, IfErr};
ghost use Rattle.steps.specs.declared.ask.After.TheVariants.{Done};
ghost use Rattle.model.specs.Coding.{coding_by};
ghost use Rattle.model.specs.Families.Container.Calls.{settled_if};
ghost use Rattle.threaded.specs.Seats.{seen};
ghost use Rattle.lock_free_owners.specs.Container.Bare.{IsCounted};
ghost use Rattle.lock_free_owners.specs.Container.Calls.{GetStateDone, UpdateDone, UpdateKeeps};
ghost use Rattle.lock_free_owners.specs.Container.LookTurns.{LookBegins, LookOver};
ghost use Rattle.lock_free_owners.specs.Container.Steps.{LookTakes};
ghost use Rattle.lock_free_owners.specs.Container.Turns.{IsReady, StaysAtBoard};
ghost use Rattle.lock_free_owners.specs.Container.Names.{view, container_of, capacity_of, IsPassOf, IsStateOf, IsLeft, IsLatestState};

use super::drives::{Beginning, Looks};
use super::elements::look_on;
use super::rule::Seat;
use super::{Container, ContainerState, ContainerStateError, Pass};
use std::marker::Brand;
use std::sync::Wait;
use steps::ask::After;
use steps::container::look::Look;
use steps::words::Words;

/// Takes all steps of a look that brings the state up to date, and returns whether it found a change. The
/// caller picks by B as which call of the history it begins.
#[inline(always)]
fn bring_up<T: Words, B: Beginning<T>>(
    seat: &mut Seat<T>,
    rt: &impl Wait,
    state: &mut ContainerState<T>,
    capacity: u32,
) -> bool
    requires ready { IsReady T.WORDS capacity seat.old }
    requires begins { LookBegins (coding_by T.Words) B.which B.from B.shown state.old.seen capacity
        (seen seat.old) state.old.shown }
    ensures stays { StaysAtBoard T.WORDS seat.old seat.new }
    ensures over { LookOver (coding_by T.Words) B.which B.from B.shown state.old.seen
        result state.new.shown (seen seat.new) }
    ensures state { state.new ≡ settled_if (Done result) (record state.old { shown = state.new.shown }) }
    ensures left { IsFalse result → IsLeft state.old state.new }
{
    let first = Look::new(capacity);
    let after = seat.step::<Look<T>, Looks<B>>(first, &state.seen, &mut state.shown);
    match after {
        After::GoOn(call) => {
            look_on::<T, B>(seat, rt, call, &state.seen, &mut state.shown);
            state.settle();
            true
        }
        After::Done(_) => false,
    }
}

impl<T: Words> Container<T> {
    /// Returns a state with a copy of each value that it finds, by ascending index. It shows nothing while the number
    /// of changes is 0: each add, replace, remove and recovery counts its change as its last step. The pass has this
    /// state from now on (`update_state`).
    ///
    /// `NoMemory` if a state has no memory: no atomic step was taken.
    ///
    /// Alone at most 1 and for each index 2 + `T::WORDS` atomic steps. After `get_state` of the Rust crate.
    pub fn get_state(
        &self,
        rt: &impl Wait,
        pass: &mut Pass<T>,
    ) -> Result<ContainerState<T>, ContainerStateError>
        requires { IsPassOf self.now pass.old }
        ensures container { container_of pass.new ≡ container_of pass.old }
        ensures got { IfOk result (λ state. GetStateDone self.now state pass.old pass.new) }
        ensures refused { IfErr result (λ failure. view pass.new ≡ view pass.old) }
        ensures steps { IfOk result (λ state. LookTakes T.WORDS (capacity_of self.now) (view pass.old) (view pass.new)) }
    {
        let mut state = ContainerState::new(self.alloc, self.id, self.capacity)?;
        bring_up::<T, Brand>(&mut pass.token.seated, rt, &mut state, pass.token.capacity);
        Ok(state)
    }

    /// Brings a state of this container up to date, and returns whether a change was counted since the look
    /// before. True if one was counted since that look began, even to the same value. False, and the state
    /// stays, if none was since it ended. The count wraps at 2^64.
    ///
    /// No memory. Of the pass's state alone at most 1 and for each index 2 + `T::WORDS` steps; a false takes 1 (tests).
    /// After `update_state` of the Rust crate.
    pub fn update_state(
        &self,
        rt: &impl Wait,
        state: &mut ContainerState<T>,
        pass: &mut Pass<T>,
    ) -> bool
        requires pass { IsPassOf self.now pass.old }
        requires state { IsStateOf self.now state.old }
        ensures same { UpdateKeeps self.now pass.old pass.new state.new }
        ensures updated { IsLatestState pass.old state.old → UpdateDone result state.new pass.old pass.new }
        ensures beside { (IsLatestState pass.old state.old → ⊥) → IsCounted (view pass.old) (view pass.new) }
        ensures left { IsFalse result → IsLeft state.old state.new }
        ensures steps { IsLatestState pass.old state.old
            → LookTakes T.WORDS (capacity_of self.now) (view pass.old) (view pass.new) }
    {
        bring_up::<T, Brand>(&mut pass.token.seated, rt, state, pass.token.capacity)
    }

    /// Returns whether it is a state of this container, by its `id` and its capacity. A state of another one with the
    /// same two is taken for one of this, which no call can tell: at an index where both have counted as many changes
    /// it goes on to show the value of the other. No atomic step. This project's own.
    pub fn is_state_of(&self, state: &ContainerState<T>) -> bool
        ensures { IsTrue result ↔ IsStateOf self.now state.now }
    {
        state.is_of(self.id, self.capacity)
    }
}
