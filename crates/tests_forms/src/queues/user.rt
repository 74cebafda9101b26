//! A user of a queue between threads, by a pass and a guard of each role that it has.
ghost use Rattle.std.specs.Prelude.{◌≡◌};
ghost use Rattle.std.specs.Option.{ForSome};
ghost use Rattle.lock_free.specs.Queues.Rings.{queue_id, IsPassOf, producer_queue, consumer_queue};

use super::number_of;
use crate::lines::{Answer, Answers, Call, play};
use lock_free_queues::spsc::ring;
use lock_free_queues::spsc::ring::rule::{Numbers, Overflowing, Values};
use lock_free_queues::spsc::ring::{Consumer, Pass, Producer, Ring};
use std::sync::Wait;
use steps::words::Words;
use tests_calls::numbered::Numbered;

/// A kind of queue between threads: how a number of the script is pushed to it and popped from it.
pub trait Kind<T: Words>: ring::rule::Kind + Sized {
    /// Pushes the value of this number, and adds what the push answers.
    fn push(producer: &mut Producer<'_, Self, T>, number: u64, answer: &mut Answer)
        ensures { producer_queue producer.new ≡ producer_queue producer.old };

    /// Pops, and adds the number of the value that came, if one did.
    fn pop(rt: &impl Wait, consumer: &mut Consumer<'_, Self, T>, answer: &mut Answer)
        ensures { consumer_queue consumer.new ≡ consumer_queue consumer.old };

    /// Peeks, and adds the number of the oldest value, if there is one. An overflowing queue has no
    /// peek and adds nothing.
    fn peek(consumer: &mut Consumer<'_, Self, T>, answer: &mut Answer)
        ensures { consumer_queue consumer.new ≡ consumer_queue consumer.old };
}

impl Kind<u64> for Numbers {
    fn push(producer: &mut Producer<'_, Numbers, u64>, number: u64, answer: &mut Answer) {
        answer.truth(producer.push(number));
    }

    fn pop(_rt: &impl Wait, consumer: &mut Consumer<'_, Numbers, u64>, answer: &mut Answer) {
        answer.perhaps(consumer.pop());
    }

    fn peek(consumer: &mut Consumer<'_, Numbers, u64>, answer: &mut Answer) {
        answer.perhaps(consumer.peek());
    }
}

impl<T: Numbered> Kind<T> for Values {
    fn push(producer: &mut Producer<'_, Values, T>, number: u64, answer: &mut Answer) {
        answer.truth(producer.push(&T::of_number(number)));
    }

    fn pop(_rt: &impl Wait, consumer: &mut Consumer<'_, Values, T>, answer: &mut Answer) {
        answer.perhaps(number_of(consumer.pop()));
    }

    fn peek(consumer: &mut Consumer<'_, Values, T>, answer: &mut Answer) {
        answer.perhaps(number_of(consumer.peek()));
    }
}

impl Kind<u64> for Overflowing {
    fn push(producer: &mut Producer<'_, Overflowing, u64>, number: u64, answer: &mut Answer) {
        answer.perhaps(producer.push(number));
    }

    fn pop(rt: &impl Wait, consumer: &mut Consumer<'_, Overflowing, u64>, answer: &mut Answer) {
        answer.perhaps(consumer.pop(rt));
    }

    fn peek(_consumer: &mut Consumer<'_, Overflowing, u64>, _answer: &mut Answer) {}
}

/// A pass of a queue between threads, and a guard of each role that the user has.
#[derive(Drop)]
struct User<'a, E: ring::rule::Kind, T: Words> {
    queue: &'a Ring<E, T>,
    pass: Pass<E, T>,
    producer: Option<Producer<'a, E, T>>,
    consumer: Option<Consumer<'a, E, T>>,
    ghost of: { IsPassOf queue.now pass },
    ghost producing: { ForSome producer (λ p. producer_queue p ≡ queue_id queue.now) },
    ghost consuming: { ForSome consumer (λ c. consumer_queue c ≡ queue_id queue.now) },
}

impl<'a, E: ring::rule::Kind, T: Words> User<'a, E, T> {
    /// Asks for the producer's role with a pass that is split off. True if it was free; otherwise the
    /// pass is joined again.
    fn take_producer(&mut self) -> bool {
        let Some(pass) = self.pass.split() else {
            return false;
        };
        match self.queue.acquire_producer(pass) {
            Ok(producer) => {
                self.producer = Some(producer);
                true
            }
            Err(pass) => {
                self.pass.join(pass);
                false
            }
        }
    }

    /// Asks for the consumer's role with a pass that is split off. True if it was free; otherwise the
    /// pass is joined again.
    fn take_consumer(&mut self) -> bool {
        let Some(pass) = self.pass.split() else {
            return false;
        };
        match self.queue.acquire_consumer(pass) {
            Ok(consumer) => {
                self.consumer = Some(consumer);
                true
            }
            Err(pass) => {
                self.pass.join(pass);
                false
            }
        }
    }

    /// Gives the producer's role back, and joins the pass of the guard. False where the user
    /// does not have the role.
    fn release_producer(&mut self) -> bool {
        match self.producer.take() {
            Some(producer) => {
                self.pass.join(producer.release());
                true
            }
            None => false,
        }
    }

    /// Gives the consumer's role back, and joins the pass of the guard. False where the user
    /// does not have the role.
    fn release_consumer(&mut self) -> bool {
        match self.consumer.take() {
            Some(consumer) => {
                self.pass.join(consumer.release());
                true
            }
            None => false,
        }
    }

    /// Gives the consumer's role back, and joins the pass of its guard to the producer. False where one of
    /// both roles is missing.
    fn join_producer(&mut self) -> bool {
        let Some(consumer) = self.consumer.take() else {
            return false;
        };
        match &mut self.producer {
            Some(producer) => {
                producer.join(consumer.release());
                true
            }
            None => false,
        }
    }

    /// Gives the producer's role back, and joins the pass of its guard to the consumer. False where one of
    /// both roles is missing.
    fn join_consumer(&mut self) -> bool {
        let Some(producer) = self.producer.take() else {
            return false;
        };
        match &mut self.consumer {
            Some(consumer) => {
                consumer.join(producer.release());
                true
            }
            None => false,
        }
    }

    /// Makes a call about a role. None where the name is that of no such call.
    fn role(&mut self, name: &str) -> Option<bool> {
        Some(match name {
            "take_producer" => self.take_producer(),
            "take_consumer" => self.take_consumer(),
            "release_producer" => self.release_producer(),
            "release_consumer" => self.release_consumer(),
            "drop_producer" => self.producer.take().is_some(),
            "drop_consumer" => self.consumer.take().is_some(),
            "join_producer" => self.join_producer(),
            "join_consumer" => self.join_consumer(),
            "has_producer" => self.queue.has_producer(&mut self.pass),
            "has_consumer" => self.queue.has_consumer(&mut self.pass),
            _ => return None,
        })
    }
}

impl<'a, E: Kind<T>, T: Words> User<'a, E, T> {
    /// The pass of the user. Its guards are dropped, which gives the roles back.
    fn leave(self) -> Pass<E, T> {
        let User {
            queue: _,
            pass,
            producer: _,
            consumer: _,
        } = self;
        pass
    }

    /// Pushes by the producer's guard. `refused` where the user does not have that role.
    fn push(&mut self, number: u64, answer: &mut Answer) {
        match &mut self.producer {
            Some(producer) => E::push(producer, number, answer),
            None => answer.word("refused"),
        }
    }

    /// Pops by the consumer's guard. `refused` where the user does not have that role.
    fn pop(&mut self, rt: &impl Wait, answer: &mut Answer) {
        match &mut self.consumer {
            Some(consumer) => E::pop(rt, consumer, answer),
            None => answer.word("refused"),
        }
    }

    /// Peeks by the consumer's guard. `refused` where the user does not have that role.
    fn peek(&mut self, answer: &mut Answer) {
        match &mut self.consumer {
            Some(consumer) => E::peek(consumer, answer),
            None => answer.word("refused"),
        }
    }
}

impl<'a, E: Kind<T>, T: Words> Answers for User<'a, E, T> {
    fn answer(&mut self, rt: &impl Wait, call: Call<'_>, answer: &mut Answer) {
        if let Some(is) = self.role(call.name) {
            return answer.truth(is);
        }
        match call.name {
            "push" => self.push(call.numbers[0], answer),
            "pop" => self.pop(rt, answer),
            "peek" => self.peek(answer),
            _ => answer_of_queue!(self.queue, call, answer, rt, &mut self.pass),
        }
    }
}

/// Plays the lines by a pass that is split off `pass`. If the last line is `keep`, that pass is returned, so
/// that the queue is closed while it is still there; otherwise it is dropped.
pub fn use_queue<E: Kind<T>, T: Words>(
    rt: &impl Wait,
    lines: &str,
    answer: &mut Answer,
    queue: &Ring<E, T>,
    pass: &mut Pass<E, T>,
) -> Option<Pass<E, T>>
    requires { IsPassOf queue.now pass.old }
    ensures { IsPassOf queue.now pass.new }
{
    let mut user = User {
        queue,
        pass: pass.split()?,
        producer: None,
        consumer: None,
    };
    play(rt, lines, answer, &mut user);
    let own = user.leave();
    lines.ends_with("keep\n").then_some(own)
}
