//! How a pass of a queue is split off another one, joined to it, and looks at the history.
ghost use Rattle.std.specs.Prelude.{◌≡◌, IfSome, IfNone};
ghost use Rattle.history.specs.History.{Knows};
ghost use Rattle.history.specs.Steps.{TakesAtMost, JoinsWithin};
ghost use Rattle.lock_free_queues.specs.Queues.Bounded.{machine_kind};
ghost use Rattle.lock_free_queues.specs.Queues.Rings.{HasHistory, code_of};
ghost use Rattle.lock_free_queues.specs.Queues.Rings.{token_queue, token_view, queue_of, view, producer_queue};
ghost use Rattle.lock_free_queues.specs.Queues.Rings.{producer_view, consumer_queue, consumer_view};
ghost use Rattle.lock_free_queues.specs.Queues.Rings.{IsSameQueue, SamePass, Joins, PassJoins, ProducerJoins, ConsumerJoins, EachKnows};
ghost use Rattle.lock_free_queues.specs.Queues.Contracts.{HasSplit, HasLooked};

use super::rule::{Kind, RingRule};
use super::{Consumer, Held, Pass, Producer, Token};
use history::plays::{Both, Cut};
use std::marker::{Brand, PhantomData};
use steps::queues::ring::WRITE;
use steps::words::Words;

impl<E: Kind, T: Words> Held<E, T, RingRule<E, T>> {
    /// Makes a new seat of the same queue, which has seen the same and made nothing. None where no further reference
    /// can be counted (no clause says when).
    pub fn split(&mut self) -> Option<Token<E, T>>
        ensures queue { token_queue self.new ≡ token_queue self.old }
        ensures new { IfSome result (λ t. token_queue t ≡ token_queue self.old) }
        ensures cut { IfSome result (λ t. HasSplit (token_view self.old) (token_view self.new) (token_view t)) }
        ensures made { (token_view self.new).made ≡ (token_view self.old).made }
        ensures none { IfNone result (token_view self.new ≡ token_view self.old) }
        ensures steps { TakesAtMost 1 (token_view self.old) (token_view self.new) }
    {
        let seated = self.seated.split::<Cut>()?;
        Some(Held {
            of: PhantomData,
            seated,
            capacity: self.capacity,
        })
    }

    /// Takes in another seat of the queue, and then looks at the whole history.
    pub fn join(&mut self, other: Token<E, T>)
        requires { token_queue other ≡ token_queue self.old }
        ensures same { Joins self.old other self.new }
        ensures steps { JoinsWithin 2 (token_view self.old) (token_view other) (token_view self.new) }
    {
        let Held {
            of: _,
            seated: other,
            capacity: _,
        } = other;
        self.seated.join::<Both>(other);
        let _ = self.seated.look::<Brand>(WRITE);
    }

    /// Looks at the whole history, by at most one load.
    pub fn look(&mut self)
        ensures same { IsSameQueue self.old self.new }
        ensures looked { HasLooked (token_view self.old) (token_view self.new) }
        ensures steps { TakesAtMost 1 (token_view self.old) (token_view self.new) }
    {
        let _ = self.seated.look::<Brand>(WRITE);
    }
}

impl<E: Kind, T: Words> Pass<E, T> {
    /// What the pass has seen is the history of a run of the machine, whose turns it knows (`run`,
    /// `history`). Clause `each` says this of every pass of such queues, so also of the pass as it stood at
    /// the moment of which `close` tells. It does nothing. This project's own.
    pub fn history(&self)
        ensures each { EachKnows self.now }
        ensures run { Knows (code_of self.now.token) (machine_kind E.KIND) (queue_of self.now).capacity (view self.now) }
        ensures history { HasHistory (code_of self.now.token) E.KIND (queue_of self.now).capacity (view self.now) }
    {
        let _ = &self.token;
    }

    /// Makes a new pass of the same queue, which has seen the same and made nothing. Each has half of this one's share
    /// of the right to know the whole. None, and nothing changes, where no further pass can be counted (no clause says
    /// when). At most one step. This project's own.
    pub fn split(&mut self) -> Option<Pass<E, T>>
        ensures queue { queue_of self.new ≡ queue_of self.old }
        ensures new { IfSome result (λ p. queue_of p ≡ queue_of self.old) }
        ensures cut { IfSome result (λ p. HasSplit (view self.old) (view self.new) (view p)) }
        ensures none { IfNone result (view self.new ≡ view self.old) }
        ensures steps { TakesAtMost 1 (view self.old) (view self.new) }
    {
        let token = self.token.split()?;
        Some(Pass { token })
    }

    /// Takes in the other pass of the queue, and sees a history that goes on from both. With the whole share one of the
    /// two had seen all of it, and each event in it was made by one of them. At most two steps. This project's own.
    pub fn join(&mut self, other: Pass<E, T>)
        requires { queue_of other ≡ queue_of self.old }
        ensures same { PassJoins self.old other self.new }
        ensures steps { JoinsWithin 2 (view self.old) (view other) (view self.new) }
    {
        let Pass { token } = other;
        self.token.join(token);
    }

    /// Looks at the history, by at most one load. With the whole share there is nothing more to see. This project's
    /// own.
    pub fn look(&mut self)
        ensures same { SamePass self.old self.new }
        ensures looked { HasLooked (view self.old) (view self.new) }
        ensures steps { TakesAtMost 1 (view self.old) (view self.new) }
    {
        self.token.look();
    }
}

impl<'a, E: Kind, T: Words> Producer<'a, E, T> {
    /// What the guard's pass has seen is the history of a run of the machine, whose turns it knows. It does
    /// nothing. This project's own.
    pub fn history(&self)
        ensures run { Knows (code_of self.now.token) (machine_kind E.KIND) (producer_queue self.now).capacity (producer_view self.now) }
        ensures history { HasHistory (code_of self.now.token) E.KIND (producer_queue self.now).capacity (producer_view self.now) }
    {
        let _ = &self.token;
    }

    /// Takes in a pass of the queue, as `join` of a pass does. At most two steps. This project's own.
    pub fn join(&mut self, other: Pass<E, T>)
        requires { queue_of other ≡ producer_queue self.old }
        ensures same { ProducerJoins self.old other self.new }
        ensures steps { JoinsWithin 2 (producer_view self.old) (view other) (producer_view self.new) }
    {
        let token = other.into_token();
        self.token.join(token);
    }
}

impl<'a, E: Kind, T: Words> Consumer<'a, E, T> {
    /// What the guard's pass has seen is the history of a run of the machine, whose turns it knows. It does
    /// nothing. This project's own.
    pub fn history(&self)
        ensures run { Knows (code_of self.now.token) (machine_kind E.KIND) (consumer_queue self.now).capacity (consumer_view self.now) }
        ensures history { HasHistory (code_of self.now.token) E.KIND (consumer_queue self.now).capacity (consumer_view self.now) }
    {
        let _ = &self.token;
    }

    /// Takes in a pass of the queue, as `join` of a pass does. At most two steps. This project's own.
    pub fn join(&mut self, other: Pass<E, T>)
        requires { queue_of other ≡ consumer_queue self.old }
        ensures same { ConsumerJoins self.old other self.new }
        ensures steps { JoinsWithin 2 (consumer_view self.old) (view other) (consumer_view self.new) }
    {
        let token = other.into_token();
        self.token.join(token);
    }
}
