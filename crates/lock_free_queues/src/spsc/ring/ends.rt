//! How a role is taken and given back.
ghost use Rattle.std.specs.Prelude.{◌≡◌, true, false, IfOk, IfErr, IfSome};
ghost use Rattle.steps.specs.declared.queues.roles.Role.TheVariants as roles;
ghost use Rattle.model.specs.Families.Queues.Reading.{published};
ghost use Rattle.history.specs.Steps.{TakesAtMost};
ghost use Rattle.lock_free_queues.specs.Queues.Kinds.{NoneTaken};
ghost use Rattle.lock_free_queues.specs.Queues.Rings.{view, producer_view, consumer_view, IsPassOf};
ghost use Rattle.lock_free_queues.specs.Queues.Rings.{queue_of, producer_queue, consumer_queue};
ghost use Rattle.lock_free_queues.specs.Queues.Rings.{SamePass, ToProducer, ToConsumer, FromProducer, FromConsumer};
ghost use Rattle.lock_free_queues.specs.Queues.Contracts.{HasAcquired, HasReleased, HasSeenRole};
ghost use Rattle.lock_free_queues.specs.Queues.Ends.{AreEnds};

use super::drives::{Popping, Pushing};
use super::rule::Kind;
use super::{Consumer, Pass, Producer, Ring};
use steps::words::Words;

impl<E: Kind, T: Words> Ring<E, T> {
    /// Takes the producer's role and returns its guard, or returns the pass if another has the role. At most one atomic
    /// step. After `acquire_producer` of the Rust crate.
    pub fn acquire_producer(&self, pass: Pass<E, T>) -> Result<Producer<'_, E, T>, Pass<E, T>>
        requires { IsPassOf self.now pass }
        ensures acquired { IfOk result (λ p. ToProducer pass p
            × HasAcquired roles.Producer true (view pass) (producer_view p)
            × TakesAtMost 1 (view pass) (producer_view p)) }
        ensures refused { IfErr result (λ p. SamePass pass p
            × HasAcquired roles.Producer false (view pass) (view p)
            × TakesAtMost 1 (view pass) (view p)) }
    {
        let mut token = pass.into_token();
        if token.take::<Pushing>() {
            Ok(Producer { of: &(), token })
        } else {
            Err(Pass { token })
        }
    }

    /// Takes the consumer's role and returns its guard, or returns the pass if another has the role. At most one atomic
    /// step. After `acquire_consumer` of the Rust crate.
    pub fn acquire_consumer(&self, pass: Pass<E, T>) -> Result<Consumer<'_, E, T>, Pass<E, T>>
        requires { IsPassOf self.now pass }
        ensures acquired { IfOk result (λ c. ToConsumer pass c
            × HasAcquired roles.Consumer true (view pass) (consumer_view c)
            × TakesAtMost 1 (view pass) (consumer_view c)) }
        ensures refused { IfErr result (λ p. SamePass pass p
            × HasAcquired roles.Consumer false (view pass) (view p)
            × TakesAtMost 1 (view pass) (view p)) }
    {
        let mut token = pass.into_token();
        if token.take::<Popping>() {
            Ok(Consumer { of: &(), token })
        } else {
            Err(Pass { token })
        }
    }

    /// Returns whether the producer's role is taken as the call ends. At most one atomic step. This project's own.
    pub fn has_producer(&self, pass: &mut Pass<E, T>) -> bool
        requires { IsPassOf self.now pass.old }
        ensures same { SamePass pass.old pass.new }
        ensures answer { HasSeenRole roles.Producer result (view pass.old) (view pass.new) }
        ensures steps { TakesAtMost 1 (view pass.old) (view pass.new) }
    {
        pass.token.is_taken::<Pushing>()
    }

    /// Returns whether the consumer's role is taken as the call ends. At most one atomic step. This project's own.
    pub fn has_consumer(&self, pass: &mut Pass<E, T>) -> bool
        requires { IsPassOf self.now pass.old }
        ensures same { SamePass pass.old pass.new }
        ensures answer { HasSeenRole roles.Consumer result (view pass.old) (view pass.new) }
        ensures steps { TakesAtMost 1 (view pass.old) (view pass.new) }
    {
        pass.token.is_taken::<Popping>()
    }

    /// Splits the pass, takes the producer's role with one part and the consumer's with the other, and returns both
    /// guards. At most 3 atomic steps.
    ///
    /// None, of which no clause says when: where no further pass can be counted, or another has one of the roles. The pass
    /// is gone then, and nobody has the whole share again. A producer's role that it took is given back, by one step more.
    /// This project's own.
    pub fn ends(&self, pass: Pass<E, T>) -> Option<(Producer<'_, E, T>, Consumer<'_, E, T>)>
        requires { IsPassOf self.now pass }
        ensures { IfSome result (λ r. AreEnds pass r.0 r.1) }
    {
        let mut left = pass;
        let right = left.split()?;
        let Ok(producer) = self.acquire_producer(left) else {
            return None;
        };
        let Ok(consumer) = self.acquire_consumer(right) else {
            return None;
        };
        Some((producer, consumer))
    }
}

impl<E: Kind, T: Words> Pass<E, T> {
    /// Takes the producer's role as the queue's `acquire_producer` does. The guard does not borrow the queue. At most one
    /// atomic step. This project's own.
    pub fn acquire_producer(self) -> Result<Producer<'static, E, T>, Pass<E, T>>
        ensures acquired { IfOk result (λ p. ToProducer self p
            × HasAcquired roles.Producer true (view self) (producer_view p)
            × TakesAtMost 1 (view self) (producer_view p)) }
        ensures refused { IfErr result (λ p. SamePass self p
            × HasAcquired roles.Producer false (view self) (view p)
            × TakesAtMost 1 (view self) (view p)) }
    {
        let mut token = self.into_token();
        if token.take::<Pushing>() {
            Ok(Producer { of: &(), token })
        } else {
            Err(Pass { token })
        }
    }

    /// Takes the consumer's role as the queue's `acquire_consumer` does. The guard does not borrow the queue. At most one
    /// atomic step. This project's own.
    pub fn acquire_consumer(self) -> Result<Consumer<'static, E, T>, Pass<E, T>>
        ensures acquired { IfOk result (λ c. ToConsumer self c
            × HasAcquired roles.Consumer true (view self) (consumer_view c)
            × TakesAtMost 1 (view self) (consumer_view c)) }
        ensures refused { IfErr result (λ p. SamePass self p
            × HasAcquired roles.Consumer false (view self) (view p)
            × TakesAtMost 1 (view self) (view p)) }
    {
        let mut token = self.into_token();
        if token.take::<Popping>() {
            Ok(Consumer { of: &(), token })
        } else {
            Err(Pass { token })
        }
    }

    /// Returns the capacity of the pass's queue. No atomic step. This project's own.
    pub fn capacity(&self) -> usize
        ensures { result ≡ (queue_of self.now).capacity }
    {
        self.token.capacity as usize
    }
}

impl<'a, E: Kind, T: Words> Producer<'a, E, T> {
    /// Gives the role back and hands the pass out. At most one atomic step. This project's own, beside the drop.
    pub fn release(self) -> Pass<E, T>
        ensures same { FromProducer self.entry result }
        ensures released { HasReleased roles.Producer (producer_view self.entry) (view result) }
        ensures list { published (view result).seen ≡ published (producer_view self.entry).seen }
        ensures steps { TakesAtMost 1 (producer_view self.entry) (view result) }
    {
        let Producer { of: _, mut token } = self;
        token.leave::<Pushing>();
        Pass { token }
    }

    /// Lets go of the borrow of the queue. The guard owns all that it needs, so it may move into a thread or a structure
    /// that outlives the queue's owner. No atomic step. This project's own.
    pub fn into_owned(self) -> Producer<'static, E, T>
        ensures queue { producer_queue result ≡ producer_queue self.entry }
        ensures view { producer_view result ≡ producer_view self.entry }
    {
        let Producer { of: _, token } = self;
        Producer { of: &(), token }
    }
}

impl<'a, E: Kind, T: Words> Consumer<'a, E, T> {
    /// Gives the role back and hands the pass out. At most one atomic step. This project's own, beside the drop.
    pub fn release(self) -> Pass<E, T>
        ensures same { FromConsumer self.entry result }
        ensures released { HasReleased roles.Consumer (consumer_view self.entry) (view result) }
        ensures list { NoneTaken E.KIND (consumer_view self.entry) (view result) }
        ensures steps { TakesAtMost 1 (consumer_view self.entry) (view result) }
    {
        let Consumer { of: _, mut token } = self;
        token.leave::<Popping>();
        Pass { token }
    }

    /// Lets go of the borrow of the queue. The guard owns all that it needs, so it may move into a thread or a structure
    /// that outlives the queue's owner. No atomic step. This project's own.
    pub fn into_owned(self) -> Consumer<'static, E, T>
        ensures queue { consumer_queue result ≡ consumer_queue self.entry }
        ensures view { consumer_view result ≡ consumer_view self.entry }
    {
        let Consumer { of: _, token } = self;
        Consumer { of: &(), token }
    }
}
