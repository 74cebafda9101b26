//! The calls by a handle: those of its queue.
ghost use Rattle.std.specs.Prelude.{◌≡◌, ◌≤◌, true, false, IfSome, IfNone, IfOk, IfErr};
ghost use Rattle.steps.specs.declared.queues.roles.Role.TheVariants as roles;
ghost use Rattle.model.specs.declared.event.Answer.TheVariants.{Number, Truth};
ghost use Rattle.model.specs.declared.families.queues.calls.LengthOf.TheVariants as measures;
ghost use Rattle.history.specs.History.{Knows};
ghost use Rattle.history.specs.Steps.{TakesAtMost, TakesAlone};
ghost use Rattle.lock_free_queues.specs.Queues.Bounded.{machine_kind};
ghost use Rattle.lock_free_queues.specs.Queues.Kinds.{most_waiting};
ghost use Rattle.lock_free_queues.specs.Queues.Rings.{HasHistory, capacity_of, code_of, queue_of, producer_view};
ghost use Rattle.lock_free_queues.specs.Queues.Rings.{consumer_view, IsPassOf, ToProducer, ToConsumer};
ghost use Rattle.lock_free_queues.specs.Queues.Contracts.{HasAcquired, HasSeenRole, HasMeasured, HasSplit, HasLooked};
ghost use Rattle.lock_free_queues.specs.Queues.Ends.{AreEnds};
ghost use Rattle.lock_free_queues.specs.Queues.Handles.{ring_in, pass_in, knows, SameHandle};

use super::Handle;
use crate::spsc::ring::rule::Kind;
use crate::spsc::ring::{Consumer, Pass, Producer, Ring};
use std::sync::Wait;
use steps::words::Words;

impl<E: Kind, T: Words> Ring<E, T> {
    /// Makes a handle of this queue and a pass of it. No atomic step. This project's own.
    pub fn handle(&self, pass: Pass<E, T>) -> Handle<'_, E, T>
        requires { IsPassOf self.now pass }
        ensures queue { ring_in result ≡ self.now }
        ensures pass { pass_in result ≡ pass }
    {
        Handle { ring: self, pass }
    }
}

impl<'a, E: Kind, T: Words> Handle<'a, E, T> {
    /// Returns the pass. No atomic step.
    pub fn into_pass(self) -> Pass<E, T>
        ensures { result ≡ pass_in self.entry }
    {
        let Handle { ring: _, pass } = self;
        pass
    }

    /// What the handle's pass has seen is a history, as `history` of the pass says. It does nothing.
    pub fn history(&self)
        ensures run { Knows (code_of (pass_in self.now).token) (machine_kind E.KIND) (queue_of (pass_in self.now)).capacity (knows self.now) }
        ensures history { HasHistory (code_of (pass_in self.now).token) E.KIND (queue_of (pass_in self.now)).capacity (knows self.now) }
    {
        self.pass.history();
    }

    /// Makes a further handle of the queue, with a pass that it gets by `Pass::split`.
    pub fn split(&mut self) -> Option<Handle<'a, E, T>>
        ensures queue { ring_in self.new ≡ ring_in self.old }
        ensures pass { queue_of (pass_in self.new) ≡ queue_of (pass_in self.old) }
        ensures new { IfSome result (λ h. ring_in h ≡ ring_in self.old) }
        ensures cut { IfSome result (λ h. HasSplit (knows self.old) (knows self.new) (knows h)) }
        ensures none { IfNone result (knows self.new ≡ knows self.old) }
        ensures steps { TakesAtMost 1 (knows self.old) (knows self.new) }
    {
        let pass = self.pass.split()?;
        Some(Handle {
            ring: self.ring,
            pass,
        })
    }

    /// Calls `acquire_producer` of its queue, and returns the guard, which owns the pass, or the handle.
    pub fn acquire_producer(self) -> Result<Producer<'a, E, T>, Handle<'a, E, T>>
        ensures acquired { IfOk result (λ p. ToProducer (pass_in self.entry) p
            × HasAcquired roles.Producer true (knows self.entry) (producer_view p)
            × TakesAtMost 1 (knows self.entry) (producer_view p)) }
        ensures refused { IfErr result (λ h. SameHandle self.entry h
            × HasAcquired roles.Producer false (knows self.entry) (knows h)
            × TakesAtMost 1 (knows self.entry) (knows h)) }
    {
        let Handle { ring, pass } = self;
        match ring.acquire_producer(pass) {
            Ok(producer) => Ok(producer),
            Err(pass) => Err(ring.handle(pass)),
        }
    }

    /// Calls `acquire_consumer` of its queue, and returns the guard, which owns the pass, or the handle.
    pub fn acquire_consumer(self) -> Result<Consumer<'a, E, T>, Handle<'a, E, T>>
        ensures acquired { IfOk result (λ c. ToConsumer (pass_in self.entry) c
            × HasAcquired roles.Consumer true (knows self.entry) (consumer_view c)
            × TakesAtMost 1 (knows self.entry) (consumer_view c)) }
        ensures refused { IfErr result (λ h. SameHandle self.entry h
            × HasAcquired roles.Consumer false (knows self.entry) (knows h)
            × TakesAtMost 1 (knows self.entry) (knows h)) }
    {
        let Handle { ring, pass } = self;
        match ring.acquire_consumer(pass) {
            Ok(consumer) => Ok(consumer),
            Err(pass) => Err(ring.handle(pass)),
        }
    }

    /// Calls `has_producer` of its queue, with its pass.
    pub fn has_producer(&mut self) -> bool
        ensures same { SameHandle self.old self.new }
        ensures answer { HasSeenRole roles.Producer result (knows self.old) (knows self.new) }
        ensures steps { TakesAtMost 1 (knows self.old) (knows self.new) }
    {
        self.ring.has_producer(&mut self.pass)
    }

    /// Calls `has_consumer` of its queue, with its pass.
    pub fn has_consumer(&mut self) -> bool
        ensures same { SameHandle self.old self.new }
        ensures answer { HasSeenRole roles.Consumer result (knows self.old) (knows self.new) }
        ensures steps { TakesAtMost 1 (knows self.old) (knows self.new) }
    {
        self.ring.has_consumer(&mut self.pass)
    }

    /// Calls `ends` of its queue, and returns both guards, or None, and then the pass is gone.
    pub fn ends(self) -> Option<(Producer<'a, E, T>, Consumer<'a, E, T>)>
        ensures { IfSome result (λ r. AreEnds (pass_in self.entry) r.0 r.1) }
    {
        let Handle { ring, pass } = self;
        ring.ends(pass)
    }

    /// Calls `capacity` of its queue.
    pub fn capacity(&self) -> usize
        ensures { result ≡ capacity_of (ring_in self.now) }
    {
        self.ring.capacity()
    }

    /// Calls `len` of its queue, with its pass.
    pub fn len(&mut self, rt: &impl Wait) -> usize
        ensures same { SameHandle self.old self.new }
        ensures counted { HasMeasured measures.Len (capacity_of (ring_in self.old)) (Number result)
            (knows self.old) (knows self.new) }
        ensures few { result ≤ most_waiting E.KIND (capacity_of (ring_in self.old)) }
        ensures steps { TakesAlone 4 4 (knows self.old) (knows self.new) }
    {
        self.ring.len(rt, &mut self.pass)
    }

    /// Calls `is_empty` of its queue, with its pass.
    pub fn is_empty(&mut self, rt: &impl Wait) -> bool
        ensures same { SameHandle self.old self.new }
        ensures measured { HasMeasured measures.IsEmpty (capacity_of (ring_in self.old)) (Truth result)
            (knows self.old) (knows self.new) }
        ensures steps { TakesAlone 4 4 (knows self.old) (knows self.new) }
    {
        self.ring.is_empty(rt, &mut self.pass)
    }

    /// Calls `is_full` of its queue, with its pass.
    pub fn is_full(&mut self, rt: &impl Wait) -> bool
        ensures same { SameHandle self.old self.new }
        ensures measured { HasMeasured measures.IsFull (capacity_of (ring_in self.old)) (Truth result)
            (knows self.old) (knows self.new) }
        ensures steps { TakesAlone 4 4 (knows self.old) (knows self.new) }
    {
        self.ring.is_full(rt, &mut self.pass)
    }

    /// Calls `Pass::look`, with its pass.
    pub fn look(&mut self)
        ensures same { SameHandle self.old self.new }
        ensures looked { HasLooked (knows self.old) (knows self.new) }
        ensures steps { TakesAtMost 1 (knows self.old) (knows self.new) }
    {
        self.pass.look();
    }
}
