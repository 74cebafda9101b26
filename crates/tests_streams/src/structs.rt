//! A struct that goes through a stream. `bin/words` writes its impls of `Words` and `Short`.
use lock_free_queues::spsc::queue::Queue;
use std::test::Fail;
use steps::words::Words;
use uses_streams::element::{Element, Short};
use uses_streams::ends::both_ends;

/// Where something was seen, and when.
#[derive(Debug, Clone, Copy, PartialEq)]
struct Sighting {
    place: (u64, u64),
    time: u64,
}

// bin/words: Sighting short
impl Words for Sighting {
    ghost use Rattle.std.specs.Prelude.{ℕ, refl, [], ◌∷◌, slice_index};
    ghost use Rattle.std.proofs.Common.{rules};

    const WORDS: usize = 3;

    ghost WORDS = { 3 };

    ghost words_of = { λ x. x.place.0 ∷ x.place.1 ∷ x.time ∷ [] };

    ghost value_of = { λ words. record {
      place = (slice_index words 0, slice_index words 1);
      time = slice_index words 2;
    } };

    ghost some = { Prim.search rules };

    ghost few = { Prim.search rules };

    ghost sized = { λ x. refl };

    ghost given_back = { λ x. refl };

    fn word(&self, at: usize) -> u64 {
        match at {
            0 => self.place.0,
            1 => self.place.1,
            _ => self.time
        }
    }

    fn of_words(words: &[u64]) -> Sighting {
        Sighting {
            place: (words[0], words[1]),
            time: words[2],
        }
    }
}

impl Short for Sighting {
    ghost use Rattle.std.proofs.Common.{rules};

    ghost short = { Prim.search rules };
}
// bin/words: end

/// A struct comes out of a stream as it went in, and then the end. A word at a wrong place
/// would change a field.
#[test]
fn a_struct_through_a_stream(rt: HostRuntime) -> Result<(), Fail> {
    let (queue, pass) = Queue::<Element<Sighting>, 2>::new(rt.alloc())?;
    let (mut sender, mut receiver) = both_ends(&queue, pass).ok_or("no ends")?;
    let seen = Sighting {
        place: (u64::MAX, 1),
        time: 2,
    };
    sender.send_waiting(&rt, seen);
    let _sent = sender.finish_waiting(&rt);
    assert_eq!(rt; receiver.receive_waiting(&rt), Some(seen));
    assert!(rt; receiver.receive_waiting(&rt).is_none());
    Ok(())
}
