//! A value whose type has a fact, which each value that is popped or loaded has too. `bin/words`
//! writes its `impl Words`.
ghost use Rattle.std.specs.Prelude.{◌≤◌, IfSome};

use lock_free::spmc::unrestricted_atomic::{Handle, UnrestrictedAtomic};
use lock_free::spsc::queue;
use lock_free::spsc::queue::Queue;
use lock_free::words::Words;
use std::sync::Wait;
use std::test::Fail;

/// A number of at most 100.
#[derive(Clone, Copy)]
struct Percent {
    value: u8,
    ghost small: { value ≤ 100 },
}

// bin/words: Percent
impl Words for Percent {
    ghost use Rattle.std.specs.Prelude.{ℕ, refl, [], ◌∷◌, min, slice_index};
    ghost use Rattle.std.proofs.Common.{rules};
    ghost use Rattle.std.proofs.Math.Nat.{min-le_right};
    ghost use Rattle.tests_examples.specs.Fields.{back_bounded};

    const WORDS: usize = 1;

    ghost WORDS = { 1 };

    ghost words_of = { λ x. x.value ∷ [] };

    ghost value_of = { λ words. record {
      value = min (slice_index words 0) 100;
      small = min-le_right
          (slice_index words 0) 100;
    } };

    ghost some = { Prim.search rules };

    ghost few = { Prim.search rules };

    ghost sized = { λ x. refl };

    ghost given_back = { λ x. back_bounded 100 (λ v h. record { value = v; small = h }) x.value x.small };

    fn word(&self, at: usize) -> u64 {
        self.value as u64
    }

    fn of_words(words: &[u64]) -> Percent {
        Percent {
            value: words[0].min(100) as u8,
        }
    }
}
// bin/words: end

/// Pops a number, which is at most 100 whoever pushed it.
fn pop_percent(consumer: &mut queue::Consumer<'_, Percent>) -> Option<u8>
    ensures { IfSome result (λ n. n ≤ 100) }
{
    let percent = consumer.pop()?;
    Some(percent.value)
}

/// Loads a number, which is at most 100 whoever stored it.
fn load_percent(rt: &impl Wait, value: &mut Handle<'_, Percent>) -> u8
    ensures { result ≤ 100 }
{
    value.load(rt).value
}

/// A number that went through a queue comes out as it went in, with the fact of its type.
#[test]
fn a_percent_through_a_queue(rt: HostRuntime) -> Result<(), Fail> {
    let (queue, pass) = Queue::<Percent, 2>::new(rt.alloc())?;
    let mut producer = queue.acquire_producer(pass).map_err(|_| "taken")?;
    assert!(rt; producer.push(&Percent { value: 40 }));
    let mut consumer = queue
        .acquire_consumer(producer.release())
        .map_err(|_| "taken")?;
    assert_eq!(rt; pop_percent(&mut consumer), Some(40));
    Ok(())
}

/// A number that was stored is loaded as it was, with the fact of its type.
#[test]
fn a_percent_that_is_stored(rt: HostRuntime) -> Result<(), Fail> {
    let (value, pass) = UnrestrictedAtomic::new(rt.alloc(), Percent { value: 40 })?;
    assert_eq!(rt; load_percent(&rt, &mut value.handle(pass)), 40);
    Ok(())
}
