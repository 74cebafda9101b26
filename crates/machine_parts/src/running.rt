//! A machine with what each turn makes of it. It can forget its events, so that a program which prints them needs no more
//! memory for a longer run. What every run keeps is promised by `Machine`.
ghost use Rattle.std.specs.Prelude.{◌≡◌, ℕ, [], ◌≤◌, ◌<◌, None, OnOk, OnErr, IfOk, IfErr, List, replicate, option_copied};
ghost use Rattle.model.specs.Coding.{coding_by};

use crate::parts::Parts;
use model::event::{Event, Start};
use model::families::Registry;
use model::party::{Doing, Progress};
use model::turn::{Refusal, Shape, Turn};
use std::alloc::Global;
use std::marker::Model;
use steps::container::state::ContainerState;
use steps::enums::UniqueIndexCreationError;
use steps::words::Words;
use turns::families::is_asking;
use turns::party::{flight_of, progress_of};

/// A machine, with the events since they were last forgotten.
pub struct Running<T: Words> {
    parts: Parts<T>,
    unlooked: Unlooked<T>,
}

// This drop is written by hand, so that it is one call in a caller's proof, on each way out of the caller. A
// derived one would be a call for each field, and for the fields of each.
impl<T: Words> Drop for Running<T> {
    fn drop(self) {
        let Self {
            parts: _parts,
            unlooked: _unlooked,
        } = self;
    }
}

/// The state that a party of a container has before its first look. It has no elements, and takes no memory.
#[derive(Drop)]
struct Unlooked<T> {
    state: ContainerState<T>,
    ghost shows_nothing: { state.shown.elements ≡ [] },
}

/// Where a list of turns stopped: how many were taken, and why the next one was refused.
#[derive(Debug, Clone, Copy, PartialEq, Eq)]
pub struct Stopped {
    pub taken: usize,
    pub refusal: Refusal,
}

impl<T: Words> Model for Running<T> {
    ghost use Rattle.model.specs.Coding.{coding_by};
    ghost use Rattle.model.specs.World.{State};
    ghost use Rattle.machine_parts.specs.Parts.{state_of, trace_of};
    ghost use Rattle.machine_parts.specs.Forgotten.{IsReachedBehind};

    ghost Value = { State T };

    ghost view = { λ m. state_of m.parts };

    ghost invariant = { λ m.
        IsReachedBehind (trace_of (coding_by T.Words) m.parts) };
}

impl<T: Words> Running<T> {
    ghost use Rattle.model.specs.World.{opening_as, shape_error, IsCreationError, trace_in, world_in, progress_in};
    ghost use Rattle.model.specs.Refusals.{refusal_of, IsRefusal, is_going};
    ghost use Rattle.model.specs.Turns.{after_turn, after_turns, AreAllowed};
    ghost use Rattle.model.specs.declared.turn.Turn.TheVariants.{Next};
    ghost use Rattle.model.specs.Parties.{party_of};
    ghost use Rattle.steps.specs.declared.enums.UniqueIndexCreationError.TheVariants.{NoMemory};
    ghost use Rattle.machine_parts.specs.Parts.{trace_of, start_of};
    ghost use Rattle.machine_parts.specs.Forgotten.{IsReachedBehind};
    ghost use Rattle.machine_parts.specs.States.{IsStateIn};

    /// As `Machine::new`.
    pub fn new(
        alloc: Global,
        shape: Shape,
        parties: u32,
    ) -> Result<Running<T>, UniqueIndexCreationError>
        ensures ok { IfOk result (λ m. trace_in (coding_by T.Words) m
            ≡ opening_as (coding_by T.Words) shape parties) }
        ensures admitted { OnOk result (shape_error shape ≡ None) }
        ensures refused { IfErr result (IsCreationError shape) }
    {
        let parts = Parts::new(alloc, shape, parties)?;
        Self::made(alloc, parts)
    }

    // The machine of these parts. It is refused where memory is refused for the state that parties have
    // before a first look.
    fn made(alloc: Global, parts: Parts<T>) -> Result<Running<T>, UniqueIndexCreationError>
        requires { IsReachedBehind (trace_of (coding_by T.Words) parts) }
        ensures ok { IfOk result (λ m. trace_in (coding_by T.Words) m
            ≡ trace_of (coding_by T.Words) parts) }
        ensures refused { IfErr result (λ e. e ≡ NoMemory) }
    {
        let Ok(mut state) = ContainerState::new(alloc, 0, 0) else {
            return Err(UniqueIndexCreationError::NoMemory);
        };
        state.capacity = parts.capacity;
        Ok(Running {
            parts,
            unlooked: Unlooked { state },
        })
    }

    /// Forgets the events so far. Their memory is kept for those to come.
    pub fn forget(&mut self)
        ensures { self.new ≡ record self.old { events = [] } }
    {
        self.parts.events.clear();
    }

    /// One turn, as of `Machine::step`. A refused turn changes nothing.
    pub fn step(&mut self, turn: Turn<T>) -> Result<(), Refusal>
        ensures allowed { OnOk result
            (refusal_of (world_in (coding_by T.Words) self.old) turn ≡ None) }
        ensures refused { IfErr result
            (IsRefusal (world_in (coding_by T.Words) self.old) turn) }
        ensures err { OnErr result (self.new ≡ self.old) }
        ensures ok { OnOk result (trace_in (coding_by T.Words) self.new
            ≡ after_turn (trace_in (coding_by T.Words) self.old) turn) }
    {
        self.parts.step(turn)?;
        Ok(())
    }

    /// Takes `most` turns `Next` of one party's call, up to the first that is refused, as `Machine::nexts` does.
    pub fn nexts(&mut self, party: u32, most: u64) -> Result<(), Stopped>
        ensures all { OnOk result (AreAllowed (trace_in (coding_by T.Words) self.old)
            (replicate most (Next party))) }
        ensures ok { OnOk result (trace_in (coding_by T.Words) self.new
            ≡ after_turns (trace_in (coding_by T.Words) self.old) (replicate most (Next party))) }
        ensures before { IfErr result (λ stopped. stopped.taken < most) }
        ensures allowed { IfErr result (λ stopped. AreAllowed
            (trace_in (coding_by T.Words) self.old) (replicate stopped.taken (Next party))) }
        ensures taken { IfErr result (λ stopped. trace_in (coding_by T.Words) self.new
            ≡ after_turns (trace_in (coding_by T.Words) self.old)
            (replicate stopped.taken (Next party))) }
        ensures refused { IfErr result (λ stopped. IsRefusal
            (world_in (coding_by T.Words) self.new) (Next party) stopped.refusal) }
    {
        let _ = &self.parts;
        let first = self.at_once(party, most);
        for taken in first..most {
            if let Err(refusal) = self.step(Turn::Next(party)) {
                return Err(Stopped {
                    taken: taken as usize,
                    refusal,
                });
            }
        }
        Ok(())
    }

    // Takes up to `most` turns `Next` of the party in one loop, and answers how many: it may stop earlier.
    fn at_once(&mut self, party: u32, most: u64) -> u64
        ensures most { result ≤ most }
        ensures allowed { AreAllowed (trace_in (coding_by T.Words) self.old)
            (replicate result (Next party)) }
        ensures taken { trace_in (coding_by T.Words) self.new
            ≡ after_turns (trace_in (coding_by T.Words) self.old) (replicate result (Next party)) }
    {
        self.parts.steps(party, most)
    }

    /// What happened since it was last forgotten, in order.
    pub fn events(&self) -> &[Event<T>]
        ensures { result.now ≡ self.now.events }
    {
        &self.parts.events
    }

    /// A law, which does nothing: there are events such that the machine with these before its own is reached by turns from
    /// an opening. So all laws of reached machines hold of it.
    pub fn reached(&self)
        ensures { IsReachedBehind (trace_in (coding_by T.Words) self.now) }
    {
        let _ = &self.parts;
    }

    /// As `Machine::words`.
    pub fn words(&self) -> &[u64]
        ensures { result.now ≡ self.now.words }
    {
        &self.parts.words
    }

    /// As `Machine::state`.
    pub fn state(&self, party: u32) -> Option<&ContainerState<T>>
        ensures { IsStateIn self.now.kept self.now.parties party (option_copied result) }
    {
        let Registry::Container(_, states) = &self.parts.kept else {
            return None;
        };
        match states.get(party) {
            Some(state) => Some(state),
            None if party < self.parts.parties => Some(&self.unlooked.state),
            None => None,
        }
    }

    /// How far the party's latest call has come, or None where it has begun none.
    pub fn under_way(&self, party: u32) -> Option<Progress>
        ensures { result ≡ progress_in (world_in (coding_by T.Words) self.now) party }
    {
        progress_of(&self.parts.latest, self.parts.changes, party)
    }

    /// The call that the party has under way.
    pub fn start(&self, party: u32) -> Option<Start<T>>
        ensures { result ≡ start_of (party_of party self.now.latest) }
    {
        match self.parts.latest.get(&party) {
            Some(seat) => match &seat.party.doing {
                Doing::Going(_, _) => Some(seat.party.start),
                Doing::Over(_) => None,
            },
            None => None,
        }
    }

    /// Whether the party has a call under way that needs no decision to go on.
    pub fn is_going(&self, party: u32) -> bool
        ensures { result ≡ is_going (world_in (coding_by T.Words) self.now) party }
    {
        match flight_of(&self.parts.latest, party) {
            Some(flight) => !is_asking(flight),
            None => false,
        }
    }
}
