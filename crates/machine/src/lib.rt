//! Runs the calls of any number of parties on one structure in any order, one atomic step at a time, and keeps what
//! happened.
#![tactic(auto)]

ghost use Rattle.std.specs.Prelude.{◌≡◌, ℕ, [], ◌≤◌, ◌<◌, None, OnOk, OnErr, IfOk, IfErr, IfSome, length, replicate, take, slice_get, option_copied};
ghost use Rattle.model.specs.Coding.{coding_by};

pub mod theorems;

use event::Event;
use families::Registry;
use machine_parts::parts::Parts;
pub use model::{event, families, party, turn};
use party::Progress;
use std::alloc::Global;
use std::marker::Model;
use steps::container::state::ContainerState;
use steps::enums::UniqueIndexCreationError;
use steps::words::Words;
use turn::{Refusal, Shape, Turn};
use turns::families::is_asking;
use turns::party::{flight_of, progress_of};

/// One structure and its parties, with what they have done so far. `T` is the type of the values of the structures
/// that keep values; the queues of indices keep numbers of 64 bits, whatever `T` is.
pub struct Machine<T: Words> {
    parts: Parts<T>,
    unlooked: Unlooked<T>,
}

// This drop is written by hand, so that it is one call in a caller's proof, on each way out of the caller. A
// derived one would be a call for each field, and for the fields of each.
impl<T: Words> Drop for Machine<T> {
    fn drop(self) {
        let Self {
            parts: _parts,
            unlooked: _unlooked,
        } = self;
    }
}

/// The state that a party of a container has before its first look. It has no elements, and takes no memory.
#[derive(Drop)]
struct Unlooked<T> {
    state: ContainerState<T>,
    ghost shows_nothing: { state.shown.elements ≡ [] },
}

/// Where a list of turns stopped: how many were taken, and why the next one was refused.
#[derive(Debug, Clone, Copy, PartialEq, Eq)]
pub struct Stopped {
    pub taken: usize,
    pub refusal: Refusal,
}

impl<T: Words> Model for Machine<T> {
    ghost use Rattle.model.specs.Coding.{coding_by};
    ghost use Rattle.model.specs.World.{State};
    ghost use Rattle.machine_parts.specs.Parts.{state_of, trace_of};
    ghost use Rattle.model.specs.Turns.{IsReached};

    ghost Value = { State T };

    ghost view = { λ m. state_of m.parts };

    ghost invariant = { λ m.
        IsReached (trace_of (coding_by T.Words) m.parts) };
}

impl<T: Words> Machine<T> {
    ghost use Rattle.model.specs.World.{opening_as, shape_error, IsCreationError, trace_in, world_in, progress_in};
    ghost use Rattle.model.specs.Refusals.{refusal_of, IsRefusal, is_going};
    ghost use Rattle.model.specs.Turns.{after_turn, after_turns, AreAllowed, IsReached};
    ghost use Rattle.model.specs.Linearized.{IsLinearizableRun};
    ghost use Rattle.model.specs.Progress.{KeepsGuarantees};
    ghost use Rattle.model.specs.declared.families.Registry.TheVariants as registries;
    ghost use Rattle.model.specs.declared.families.loan.Book.{Book};
    ghost use Rattle.model.specs.declared.turn.Shape.TheVariants as shapes;
    ghost use Rattle.steps.specs.declared.enums.UniqueIndexCreationError.TheVariants.{NoMemory};
    ghost use Rattle.machine_parts.specs.Parts.{trace_of};
    ghost use Rattle.machine.specs.States.{IsStateIn};
    ghost use Rattle.model.specs.declared.turn.Turn.TheVariants.{Next};
    ghost use Rattle.model.specs.Promises.{IsKept, WritesEvents, TellsBeside, AreTurns};
    ghost use Rattle.model.specs.Promises.Turns.{IsOneTurnLater, WritesOneWord, GoesOn, CountsTurn, CountsOthers};

    /// A structure of this shape that is empty, or has the value that words of zeros make, with its roles free, and this
    /// many parties, numbered from 0. Of a set of indices or a container no index is held, and no owner is dead. Of a loan
    /// channel each index is free, party 0 is the sender, party 1 the receiver, and no party is dead. Room for a party is
    /// made as it first begins a call, and room for its state of a container as it first looks.
    ///
    /// Refused are, in this order, a capacity above the greatest of the kind (`ProvidedCapacityGreaterThanMaxCapacity`:
    /// 1 for a value, 2^24 - 2 for unique indices and the slots of a loan channel, else 2^32 - 1, also for a channel's
    /// queue), one below the least (`ProvidedCapacityIsZero`: 0 for a queue, bits and counts, else 1, also for a channel's
    /// queue), and memory (`NoMemory`).
    pub fn new(
        alloc: Global,
        shape: Shape,
        parties: u32,
    ) -> Result<Machine<T>, UniqueIndexCreationError>
        ensures ok { IfOk result (λ m. trace_in (coding_by T.Words) m
            ≡ opening_as (coding_by T.Words) shape parties) }
        ensures queue { IfOk result (λ m. (slots queue : ℕ) → shape ≡ shapes.Loan slots queue
            → (book : Book) × (m.kept ≡ registries.Loan book) × (book.queue ≡ queue)) }
        ensures admitted { OnOk result (shape_error shape ≡ None) }
        ensures refused { IfErr result (IsCreationError shape) }
    {
        let parts = Parts::new(alloc, shape, parties)?;
        Self::made(alloc, parts)
    }

    // The machine of these parts. It is refused where memory is refused for the state that parties have
    // before a first look.
    fn made(alloc: Global, parts: Parts<T>) -> Result<Machine<T>, UniqueIndexCreationError>
        requires { IsReached (trace_of (coding_by T.Words) parts) }
        ensures ok { IfOk result (λ m. trace_in (coding_by T.Words) m
            ≡ trace_of (coding_by T.Words) parts) }
        ensures refused { IfErr result (λ e. e ≡ NoMemory) }
    {
        let Ok(mut state) = ContainerState::new(alloc, 0, 0) else {
            return Err(UniqueIndexCreationError::NoMemory);
        };
        state.capacity = parts.capacity;
        Ok(Machine {
            parts,
            unlooked: Unlooked { state },
        })
    }

    /// One turn. A refused turn changes nothing.
    ///
    /// The refusals are tested in this order:
    /// - Any turn: `AtEnd` after 2^64 - 2 turns; `NoParty` for a number that is not below the number of parties.
    /// - `Begin`: `Busy`; `WrongCall`; `BadIndex` for a bit, or an index of a set or a channel, that is not below the
    ///   capacity; `NoRole`, of a channel also for a call of another party; `NotHeld` for an index to release, give up,
    ///   send or give back that the party does not have; `OwnerIsDead` for an acquire, a release, an add, a remove or a
    ///   replace of a dead owner, and for any call of a dead party of a channel; `OwnerLives` for a container's recovery
    ///   of an owner who lives, and for a reclaim while the receiver does.
    /// - `Next`: `Idle`; `Undecided` where a decision is due; `OwnerIsDead` for such a call under way.
    /// - `Decide`: `Idle`; `Undecided` where none is due; `OwnerIsDead`; `OwnerLives` for a yes by which a recovery of the
    ///   robust set would free an index of an owner who lives.
    /// - `Die`: of a channel `NoParty` where no party has this number; `WrongCall` where the kind has no owners;
    ///   `OwnerIsDead`.
    /// - Any turn, last: `NoMemory`, where there is no room for the events, for a new party, for its state, for the value
    ///   that its call is to read or for a dead owner.
    pub fn step(&mut self, turn: Turn<T>) -> Result<(), Refusal>
        // Whether the turn is taken, or why it is refused.
        ensures allowed { OnOk result
            (refusal_of (world_in (coding_by T.Words) self.old) turn ≡ None) }
        ensures refused { IfErr result
            (IsRefusal (world_in (coding_by T.Words) self.old) turn) }
        ensures err { OnErr result (self.new ≡ self.old) }

        // What the turn makes of the machine, and what it writes down.
        ensures ok { OnOk result (trace_in (coding_by T.Words) self.new
            ≡ after_turn (trace_in (coding_by T.Words) self.old) turn) }

        // The same in separate facts: which word, which call and which counts a turn changes, and which
        // events it writes.
        ensures later { OnOk result (IsOneTurnLater (world_in (coding_by T.Words) self.old)
            (world_in (coding_by T.Words) self.new)) }
        ensures word { OnOk result (WritesOneWord (world_in (coding_by T.Words) self.old)
            turn (world_in (coding_by T.Words) self.new)) }
        ensures call { OnOk result (GoesOn (world_in (coding_by T.Words) self.old)
            turn (world_in (coding_by T.Words) self.new)) }
        ensures counts { OnOk result (CountsTurn (world_in (coding_by T.Words) self.old)
            turn (world_in (coding_by T.Words) self.new)) }
        ensures others { OnOk result (CountsOthers (world_in (coding_by T.Words) self.old)
            turn (world_in (coding_by T.Words) self.new)) }
        ensures tells { OnOk result (TellsBeside (trace_in (coding_by T.Words) self.old)
            turn (trace_in (coding_by T.Words) self.new)) }
        ensures events { OnOk result (WritesEvents (trace_in (coding_by T.Words) self.old)
            turn (trace_in (coding_by T.Words) self.new)) }

        // The promises that every run keeps.
        ensures kept { IsKept (trace_in (coding_by T.Words) self.new) }
    {
        self.parts.step(turn)?;
        Ok(())
    }

    /// Takes the turns up to the first that is refused, and answers how many it took. The refused turn and those behind
    /// it change nothing. It is `run_all` that takes them and says why one was refused.
    pub fn run(&mut self, turns: &[Turn<T>]) -> usize
        ensures count { result ≤ length turns.now }
        ensures allowed { AreAllowed (trace_in (coding_by T.Words) self.old)
            (take result turns.now) }
        ensures taken { trace_in (coding_by T.Words) self.new
            ≡ after_turns (trace_in (coding_by T.Words) self.old) (take result turns.now) }
        ensures each { AreTurns (trace_in (coding_by T.Words) self.old)
            (take result turns.now) }
        ensures kept { IsKept (trace_in (coding_by T.Words) self.new) }
    {
        match self.run_all(turns) {
            Ok(()) => turns.len(),
            Err(stopped) => stopped.taken,
        }
    }

    /// Takes the turns up to the first that is refused. The error says how many were taken, and why the next
    /// was refused. The refused turn and those behind it change nothing.
    pub fn run_all(&mut self, turns: &[Turn<T>]) -> Result<(), Stopped>
        ensures all { OnOk result (AreAllowed (trace_in (coding_by T.Words) self.old) turns.now) }
        ensures ok { OnOk result (trace_in (coding_by T.Words) self.new
            ≡ after_turns (trace_in (coding_by T.Words) self.old) turns.now) }
        ensures each { OnOk result (AreTurns (trace_in (coding_by T.Words) self.old) turns.now) }
        ensures before { IfErr result (λ stopped. stopped.taken < length turns.now) }
        ensures allowed { IfErr result (λ stopped. AreAllowed
            (trace_in (coding_by T.Words) self.old) (take stopped.taken turns.now)) }
        ensures taken { IfErr result (λ stopped. trace_in (coding_by T.Words) self.new
            ≡ after_turns (trace_in (coding_by T.Words) self.old)
            (take stopped.taken turns.now)) }
        ensures each_before { IfErr result (λ stopped. AreTurns
            (trace_in (coding_by T.Words) self.old) (take stopped.taken turns.now)) }
        ensures refused { IfErr result (λ stopped.
            IfSome (slice_get turns.now stopped.taken)
            (λ turn. IsRefusal (world_in (coding_by T.Words) self.new) turn stopped.refusal)) }
        ensures kept { IsKept (trace_in (coding_by T.Words) self.new) }
    {
        let _ = &self.parts;
        for (taken, turn) in turns.iter().enumerate() {
            if let Err(refusal) = self.step(*turn) {
                return Err(Stopped { taken, refusal });
            }
        }
        Ok(())
    }

    /// Takes `most` turns `Next` of one party's call, up to the first that is refused. It does what `run_all`
    /// does with a list of `most` turns `Next`, in less time: a call that is done, or waits for a decision,
    /// is refused its next turn.
    pub fn nexts(&mut self, party: u32, most: u64) -> Result<(), Stopped>
        ensures all { OnOk result (AreAllowed (trace_in (coding_by T.Words) self.old)
            (replicate most (Next party))) }
        ensures ok { OnOk result (trace_in (coding_by T.Words) self.new
            ≡ after_turns (trace_in (coding_by T.Words) self.old) (replicate most (Next party))) }
        ensures each { OnOk result (AreTurns (trace_in (coding_by T.Words) self.old)
            (replicate most (Next party))) }
        ensures before { IfErr result (λ stopped. stopped.taken < most) }
        ensures allowed { IfErr result (λ stopped. AreAllowed
            (trace_in (coding_by T.Words) self.old) (replicate stopped.taken (Next party))) }
        ensures taken { IfErr result (λ stopped. trace_in (coding_by T.Words) self.new
            ≡ after_turns (trace_in (coding_by T.Words) self.old)
            (replicate stopped.taken (Next party))) }
        ensures each_before { IfErr result (λ stopped. AreTurns
            (trace_in (coding_by T.Words) self.old) (replicate stopped.taken (Next party))) }
        ensures refused { IfErr result (λ stopped. IsRefusal
            (world_in (coding_by T.Words) self.new) (Next party) stopped.refusal) }
        ensures kept { IsKept (trace_in (coding_by T.Words) self.new) }
    {
        let _ = &self.parts;
        let first = self.at_once(party, most);
        for taken in first..most {
            if let Err(refusal) = self.step(Turn::Next(party)) {
                return Err(Stopped {
                    taken: taken as usize,
                    refusal,
                });
            }
        }
        Ok(())
    }

    // Takes up to `most` turns `Next` of the party in one loop, and answers how many: it may stop earlier.
    fn at_once(&mut self, party: u32, most: u64) -> u64
        ensures most { result ≤ most }
        ensures allowed { AreAllowed (trace_in (coding_by T.Words) self.old)
            (replicate result (Next party)) }
        ensures taken { trace_in (coding_by T.Words) self.new
            ≡ after_turns (trace_in (coding_by T.Words) self.old) (replicate result (Next party)) }
        ensures kept { IsKept (trace_in (coding_by T.Words) self.new) }
    {
        self.parts.steps(party, most)
    }

    /// Everything that happened, in order.
    pub fn events(&self) -> &[Event<T>]
        ensures { result.now ≡ self.now.events }
    {
        &self.parts.events
    }

    /// A law of every machine, which does nothing: the pushes and pops so far of a queue are linearizable as those of a
    /// bounded or an overflowing list, and the stores and loads of the single value as those of one value.
    pub fn linearizable(&self)
        ensures { IsLinearizableRun (trace_in (coding_by T.Words) self.now) }
    {
        let _ = &self.parts;
    }

    /// A law of every machine, which does nothing: the machine is reached by turns from an opening. So all
    /// laws of reached machines hold of it: those of the crate `headline`, which says what every machine
    /// does, and those of `laws_machine`.
    pub fn reached(&self)
        ensures { IsReached (trace_in (coding_by T.Words) self.now) }
    {
        let _ = &self.parts;
    }

    /// A law of every machine, which does nothing: each party's latest call keeps the guarantee of its name.
    /// A wait-free call has taken no more steps than its bound, and an obstruction-free call no more than its
    /// bound and what it is allowed for each change by others.
    pub fn keeps_guarantees(&self)
        ensures { KeepsGuarantees (trace_in (coding_by T.Words) self.now) }
    {
        let _ = &self.parts;
    }

    /// The shared words as they are now.
    ///
    /// - Queue: the write position, the read position, the producer's role, the consumer's role (1 while it is free), and
    ///   the cells. An overflowing queue has one cell more than its capacity.
    /// - Single value: the version, the producer's role, and two cells of `T::WORDS` words. The cell numbered (version - 1)
    ///   mod 2 has the value that stands.
    /// - Bit set: the reset position, then a word for each 64 places begun. Place b is bit b mod 64 of word 1 + b / 64.
    /// - Counting bit set: the count of each place.
    /// - Unique index set: the head, the next index of each index, and the claim flags, 64 to a word.
    /// - Robust index set: the counter, and for each index a cell with its owner, or `u64::MAX`.
    /// - Container: the words of a robust index set, how often it has changed, each element's number, which is odd while a
    ///   value stands there, and `T::WORDS` words an element.
    /// - Loan channel: the words of its unique index set, of the submission queue, which overflows, and of the completion
    ///   queue.
    pub fn words(&self) -> &[u64]
        ensures { result.now ≡ self.now.words }
    {
        &self.parts.words
    }

    /// The state of a party of a container, which its looks write into: what it shows is that of its latest look where
    /// none is under way, and it shows nothing before the first. None for a number that is no party's, and of every other
    /// kind.
    pub fn state(&self, party: u32) -> Option<&ContainerState<T>>
        ensures { IsStateIn self.now.kept self.now.parties party (option_copied result) }
    {
        let Registry::Container(_, states) = &self.parts.kept else {
            return None;
        };
        match states.get(party) {
            Some(state) => Some(state),
            None if party < self.parts.parties => Some(&self.unlooked.state),
            None => None,
        }
    }

    /// How far the party's latest call has come, or None where it has begun none.
    pub fn under_way(&self, party: u32) -> Option<Progress>
        ensures { result ≡ progress_in (world_in (coding_by T.Words) self.now) party }
    {
        progress_of(&self.parts.latest, self.parts.changes, party)
    }

    /// Whether the party has a call under way that needs no decision to go on.
    pub fn is_going(&self, party: u32) -> bool
        ensures { result ≡ is_going (world_in (coding_by T.Words) self.now) party }
    {
        match flight_of(&self.parts.latest, party) {
            Some(flight) => !is_asking(flight),
            None => false,
        }
    }
}
