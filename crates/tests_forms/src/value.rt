//! Plays blocks of a script on the single value, in each form.
ghost use Rattle.std.specs.Prelude.{◌≡◌, ◌≤◌};
ghost use Rattle.std.specs.Option.{ForSome};
ghost use Rattle.lock_free.specs.Value.Calls.{IsPassOf, value_id, value_of_producer};

use crate::lines::{Answer, Answers, Block, Call, Made, play_on};
use lock_free::spmc::unrestricted_atomic::{Pass, Producer, UnrestrictedAtomic};
use std::mem;
use std::sync::Wait;
use steps::words::Words;
use tests_calls::long_values::{Greatest, Sixteen, Three};
use tests_calls::numbered::Numbered;

impl<T: Numbered> Answers for plain::UnrestrictedAtomic<T> {
    fn answer(&mut self, _rt: &impl Wait, call: Call<'_>, answer: &mut Answer) {
        match call.name {
            "store" => answer.truth(self.store(T::of_number(call.numbers[0]))),
            "load" => answer.number(self.load().number()),
            "version" => answer.number(self.version()),
            "words" => answer.number(T::WORDS as u64),
            _ => {}
        }
    }
}

/// A user of the value between threads: a pass, and the producer's guard while it has that role.
#[derive(Drop)]
struct User<'a, T: Words> {
    value: &'a UnrestrictedAtomic<T>,
    pass: Pass<T>,
    producer: Option<Producer<'a, T>>,
    ghost of: { IsPassOf value.now pass },
    ghost producing: { ForSome producer (λ p. value_of_producer p ≡ value_id value.now) },
}

impl<'a, T: Numbered> User<'a, T> {
    /// Stores the value of this number by the producer's guard. `refused` where the user does
    /// not have that role.
    fn store(&mut self, number: u64, answer: &mut Answer) {
        match &mut self.producer {
            Some(producer) => answer.truth(producer.store(T::of_number(number))),
            None => answer.word("refused"),
        }
    }

    /// Asks for the producer's role with a pass that is split off. True if it was free; otherwise the
    /// pass is joined again.
    fn take(&mut self) -> bool {
        let Some(pass) = self.pass.split() else {
            return false;
        };
        match self.value.acquire_producer(pass) {
            Ok(producer) => {
                self.producer = Some(producer);
                true
            }
            Err(pass) => {
                self.pass.join(pass);
                false
            }
        }
    }

    /// Gives the producer's role back. Its pass loads the value, which is added, and is joined to the pass
    /// that the user keeps.
    fn release(&mut self, rt: &impl Wait, answer: &mut Answer) {
        let Some(producer) = self.producer.take() else {
            return answer.word("refused");
        };
        let mut pass = producer.release();
        answer.number(self.value.load(rt, &mut pass).number());
        self.pass.join(pass);
    }

    /// Splits a new pass off the one that the user keeps, joins that one to the producer, and keeps the new
    /// one. False where no pass can be split off, or the user does not have the producer's role.
    fn join(&mut self) -> bool {
        let Some(new) = self.pass.split() else {
            return false;
        };
        match &mut self.producer {
            Some(producer) => {
                producer.join(mem::replace(&mut self.pass, new));
                true
            }
            None => false,
        }
    }
}

impl<'a, T: Numbered> Answers for User<'a, T> {
    fn answer(&mut self, rt: &impl Wait, call: Call<'_>, answer: &mut Answer) {
        match call.name {
            "store" => self.store(call.numbers[0], answer),
            "load" => answer.number(self.value.load(rt, &mut self.pass).number()),
            "version" => answer.number(self.value.version(&mut self.pass)),
            "words" => answer.number(T::WORDS as u64),
            "take_producer" => answer.truth(self.take()),
            "release_producer" => self.release(rt, answer),
            "drop_producer" => answer.truth(self.producer.take().is_some()),
            "join_producer" => answer.truth(self.join()),
            "has_producer" => answer.truth(self.value.has_producer(&mut self.pass)),
            _ => {}
        }
    }
}

/// Plays the block on a value of its type, in its form. The block gives the number of the first value, and
/// its version, if that is not 0.
pub fn play_value(rt: &impl Wait, block: &mut Block<'_>) -> Made {
    of_values!(value_of, rt, block)
}

/// Plays the block on a value of one type, in the form that the block names.
fn value_of<T: Numbered>(rt: &impl Wait, block: &mut Block<'_>) -> Made {
    let (first, version) = (T::of_number(block.numbers[0]), block.numbers[1]);
    if block.form == "plain" {
        let value = if version == 0 {
            plain::UnrestrictedAtomic::new(block.alloc, first)?
        } else {
            plain::UnrestrictedAtomic::new_at(block.alloc, first, version)?
        };
        return play_on(rt, block, Some(value));
    }
    if version == 0 {
        let (value, pass) = UnrestrictedAtomic::new(block.alloc, first)?;
        return use_value(rt, block, &value, pass);
    }
    let (value, pass) = UnrestrictedAtomic::new_at(block.alloc, first, version)?;
    use_value(rt, block, &value, pass)
}

/// Plays the block on this value, by its pass.
fn use_value<T: Numbered>(
    rt: &impl Wait,
    block: &mut Block<'_>,
    value: &UnrestrictedAtomic<T>,
    pass: Pass<T>,
) -> Made
    requires { IsPassOf value.now pass }
{
    let user = User {
        value,
        pass,
        producer: None,
    };
    play_on(rt, block, Some(user))
}
