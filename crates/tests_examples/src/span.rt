//! A value whose type has a fact about two of its fields. Its `impl Words` is written by hand.
ghost use Rattle.std.specs.Prelude.{◌≤◌, IfSome};

use lock_free::spsc::queue;
use lock_free::spsc::queue::Queue;
use lock_free::words::Words;
use std::test::Fail;

/// From one number up to another.
#[derive(Clone, Copy)]
struct Span {
    low: u64,
    high: u64,
    ghost ordered: { low ≤ high },
}

/// Two words. Where the first is greater than the second, `of_words` reads the second for both.
impl Words for Span {
    ghost use Rattle.std.specs.Prelude.{ℕ, refl, [], ◌∷◌, ◌≤◌, min, slice_index};
    ghost use Rattle.std.proofs.Common.{rules};
    ghost use Rattle.std.proofs.Math.Bridge.{le_prop};
    ghost use Rattle.std.proofs.Math.Nat.{min-le_right, min-eq_left};
    ghost use Rattle.lock_free.specs.Facts.{made_of_equal};

    const WORDS: usize = 2;

    ghost WORDS = { 2 };

    ghost words_of = { λ x. x.low ∷ x.high ∷ [] };

    ghost value_of = { λ words. record {
      low = min (slice_index words 0) (slice_index words 1);
      high = slice_index words 1;
      ordered = min-le_right (slice_index words 0) (slice_index words 1);
    } };

    ghost some = { Prim.search rules };

    ghost few = { Prim.search rules };

    ghost sized = { λ x. refl };

    ghost given_back = { λ x. made_of_equal {P = λ n. n ≤ x.high} (λ _. le_prop)
        (λ n h. record { low = n; high = x.high; ordered = h }) (min-le_right x.low x.high) x.ordered (min-eq_left x.ordered) };

    fn word(&self, at: usize) -> u64 {
        if at == 0 { self.low } else { self.high }
    }

    fn of_words(words: &[u64]) -> Span {
        Span {
            low: words[0].min(words[1]),
            high: words[1],
        }
    }
}

/// Pops a span, whose ends are in order whoever pushed it.
fn pop_span(consumer: &mut queue::Consumer<'_, Span>) -> Option<(u64, u64)>
    ensures { IfSome result (λ ends. ends.0 ≤ ends.1) }
{
    let span = consumer.pop()?;
    Some((span.low, span.high))
}

/// A span that went through a queue comes out as it went in, with the fact of its type.
#[test]
fn a_span_through_a_queue(rt: HostRuntime) -> Result<(), Fail> {
    let (queue, pass) = Queue::<Span, 2>::new(rt.alloc())?;
    let mut producer = queue.acquire_producer(pass).map_err(|_| "taken")?;
    assert!(rt; producer.push(&Span { low: 3, high: 40 }));
    let mut consumer = queue
        .acquire_consumer(producer.release())
        .map_err(|_| "taken")?;
    assert_eq!(rt; pop_span(&mut consumer), Some((3, 40)));
    Ok(())
}
