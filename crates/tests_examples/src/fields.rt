//! A value of many fields, whose `impl Words` is written by `bin/words`. It comes whole through a queue.
ghost use Rattle.std.specs.Prelude.{◌≡◌, ◌≤◌, length};

use lock_free::spsc::queue::Queue;
use lock_free::words::Words;
use std::test::Fail;

/// A field of `Report` that is a struct itself: a place of a table.
#[derive(Debug, Clone, Copy, PartialEq)]
struct Place {
    row: u16,
    column: u32,
}

/// A value with a field of each type that `bin/words` accepts, and with facts about two of
/// them. It has 12 words.
#[derive(Clone, Copy)]
struct Report {
    level: u8,
    alarm: bool,
    serial: u128,
    range: (u64, u32),
    place: Place,
    percent: u8,
    ghost small: { percent ≤ 100 },
    samples: [u64; 3],
    ghost long: { length samples ≡ 3 },
}

// bin/words: Report
impl Report {
    ghost use Rattle.std.specs.Prelude.{◌≡◌, ◌^◌, length};
    ghost use Rattle.tests_examples.specs.Fields.{word_of, word_of_bool, block};

    fn level_word(&self) -> u64
        ensures { result ≡ word_of (2 ^ 8) self.now.level }
    {
        self.level as u64
    }

    fn alarm_word(&self) -> u64
        ensures { result ≡ word_of_bool self.now.alarm }
    {
        if self.alarm { 1 } else { 0 }
    }

    fn range_1_word(&self) -> u64
        ensures { result ≡ word_of (2 ^ 32) self.now.range.1 }
    {
        self.range.1 as u64
    }

    fn place_row_word(&self) -> u64
        ensures { result ≡ word_of (2 ^ 16) self.now.place.row }
    {
        self.place.row as u64
    }

    fn place_column_word(&self) -> u64
        ensures { result ≡ word_of (2 ^ 32) self.now.place.column }
    {
        self.place.column as u64
    }

    #[tactic(auto, using(crate::specs::Fields::block_of_slice))]
    fn samples_of_words(words: &[u64]) -> [u64; 3]
        requires { length words.now ≡ 12 }
        ensures { result ≡ block 9 3 words.now }
    {
        let mut read = [0; 3];
        read.copy_from_slice(&words[9..12]);
        read
    }
}

impl Words for Report {
    ghost use Rattle.std.specs.Prelude.{ℕ, Bool, refl, [], ◌∷◌, ◌≡◌, ◌==◌, ◌+◌, ◌*◌, ◌/◌, ◌%◌, ◌^◌, min, length};
    ghost use Rattle.std.specs.Prelude.{slice_index};
    ghost use Rattle.std.proofs.Common.{rules, arith, ap, ◌∙◌};
    ghost use Rattle.std.proofs.Math.Nat.{min-le_right};
    ghost use Rattle.tests_examples.specs.Fields.{word_of, number_of, back_u8, back_u16, back_u32, back_u128};
    ghost use Rattle.tests_examples.specs.Fields.{word_of_bool, back_bool, back_bounded, block, length_block};
    ghost use Rattle.tests_examples.specs.Fields.{block_whole, block_later, back_block};

    const WORDS: usize = 12;

    ghost WORDS = { 12 };

    ghost words_of = { λ x. word_of (2 ^ 8) x.level ∷ word_of_bool x.alarm ∷ x.serial / 2 ^ 64 ∷ x.serial % 2 ^ 64
        ∷ x.range.0 ∷ word_of (2 ^ 32) x.range.1 ∷ word_of (2 ^ 16) x.place.row ∷ word_of
        (2 ^ 32) x.place.column ∷ x.percent ∷ x.samples };

    ghost value_of = { λ words. record {
      level = number_of (2 ^ 8) (slice_index words 0);
      alarm =
          (slice_index words 1 == 1);
      serial = (slice_index words 2) * 2 ^ 64 + (slice_index words 3);
      range =
          (slice_index words 4, number_of (2 ^ 32) (slice_index words 5));
      place = record {
        row = number_of
            (2 ^ 16) (slice_index words 6);
        column = number_of (2 ^ 32) (slice_index words 7);
      };
      percent = min
          (slice_index words 8) 100;
      samples = block 9 3 words;
      small = min-le_right (slice_index words 8) 100;
      long = length_block 9 3 words;
    } };

    ghost some = { Prim.search rules };

    ghost few = { Prim.search rules };

    ghost sized = { λ x. let long : length x.samples ≡ 3 = x.long in Prim.omega arith };

    ghost given_back = { λ x.
        back_block 3 (λ v h. record {
          level = number_of (2 ^ 8) (word_of (2 ^ 8) x.level);
          alarm =
              (word_of_bool x.alarm == 1);
          serial = (x.serial / 2 ^ 64) * 2 ^ 64 + (x.serial % 2 ^ 64);
          range =
              (x.range.0, number_of (2 ^ 32) (word_of (2 ^ 32) x.range.1));
          place = record {
            row = number_of (2 ^ 16)
                (word_of (2 ^ 16) x.place.row);
            column = number_of (2 ^ 32) (word_of (2 ^ 32) x.place.column);
          };
          percent = min x.percent 100;
          samples = v;
          small = min-le_right x.percent 100;
          long = h;
        }) (block_later
        (word_of (2 ^ 8) x.level ∷ word_of_bool x.alarm ∷ x.serial / 2 ^ 64 ∷ x.serial % 2 ^ 64 ∷ x.range.0
        ∷ word_of (2 ^ 32) x.range.1 ∷ word_of (2 ^ 16) x.place.row ∷ word_of (2 ^ 32) x.place.column
        ∷ x.percent ∷ []) x.samples 9 0 3 refl ∙ block_whole x.samples 3 x.long) (length_block 9 3 (word_of
        (2 ^ 8) x.level ∷ word_of_bool x.alarm ∷ x.serial / 2 ^ 64 ∷ x.serial % 2 ^ 64 ∷ x.range.0 ∷ word_of
        (2 ^ 32) x.range.1 ∷ word_of (2 ^ 16) x.place.row ∷ word_of (2 ^ 32) x.place.column ∷ x.percent
        ∷ x.samples)) x.long
        ∙ ap (λ (v : ℕ). record {
          level = v;
          alarm = (word_of_bool x.alarm == 1);
          serial =
              (x.serial / 2 ^ 64) * 2 ^ 64 + (x.serial % 2 ^ 64);
          range = (
            x.range.0,
            number_of (2 ^ 32) (word_of
                (2 ^ 32) x.range.1),
          );
          place = record {
            row = number_of (2 ^ 16) (word_of (2 ^ 16) x.place.row);
            column = number_of (2 ^ 32) (word_of (2 ^ 32) x.place.column);
          };
          percent = min x.percent 100;
          samples = x.samples;
          small = min-le_right x.percent 100;
          long = x.long;
        }) (back_u8 x.level)
        ∙ ap (λ (v : Bool). record {
          level = x.level;
          alarm = v;
          serial = (x.serial / 2 ^ 64) * 2 ^ 64 +
              (x.serial % 2 ^ 64);
          range = (x.range.0, number_of (2 ^ 32) (word_of (2 ^ 32) x.range.1));
          place = record {
            row = number_of (2 ^ 16) (word_of (2 ^ 16) x.place.row);
            column = number_of (2 ^ 32)
                (word_of (2 ^ 32) x.place.column);
          };
          percent = min x.percent 100;
          samples = x.samples;
          small = min-le_right x.percent 100;
          long = x.long;
        }) (back_bool x.alarm)
        ∙ ap (λ (v : ℕ). record {
          level = x.level;
          alarm = x.alarm;
          serial = v;
          range = (
            x.range.0,
            number_of
                (2 ^ 32) (word_of (2 ^ 32) x.range.1),
          );
          place = record {
            row = number_of (2 ^ 16) (word_of
                (2 ^ 16) x.place.row);
            column = number_of (2 ^ 32) (word_of (2 ^ 32) x.place.column);
          };
          percent = min x.percent 100;
          samples = x.samples;
          small = min-le_right x.percent 100;
          long = x.long;
        })
        (back_u128 x.serial)
        ∙ ap (λ (v : ℕ). record {
          level = x.level;
          alarm = x.alarm;
          serial = x.serial;
          range = (x.range.0, v);
          place = record {
            row = number_of (2 ^ 16) (word_of (2 ^ 16) x.place.row);
            column = number_of (2 ^ 32)
                (word_of (2 ^ 32) x.place.column);
          };
          percent = min x.percent 100;
          samples = x.samples;
          small = min-le_right x.percent 100;
          long = x.long;
        }) (back_u32 x.range.1)
        ∙ ap (λ (v : ℕ). record {
          level = x.level;
          alarm = x.alarm;
          serial = x.serial;
          range =
              (x.range.0, x.range.1);
          place = record {
            row = v;
            column = number_of (2 ^ 32) (word_of
                (2 ^ 32) x.place.column);
          };
          percent = min x.percent 100;
          samples = x.samples;
          small = min-le_right x.percent 100;
          long = x.long;
        }) (back_u16 x.place.row)
        ∙ ap (λ (v : ℕ). record {
          level = x.level;
          alarm = x.alarm;
          serial = x.serial;
          range =
              (x.range.0, x.range.1);
          place = record { row = x.place.row; column = v };
          percent = min x.percent 100;
          samples = x.samples;
          small = min-le_right x.percent 100;
          long = x.long;
        }) (back_u32 x.place.column)
        ∙ back_bounded 100 (λ v h. record {
          level = x.level;
          alarm = x.alarm;
          serial = x.serial;
          range =
              (x.range.0, x.range.1);
          place = record { row = x.place.row; column = x.place.column };
          percent = v;
          samples = x.samples;
          small = h;
          long = x.long;
        }) x.percent x.small };

    fn word(&self, at: usize) -> u64 {
        if at < 9 {
            match at {
                0 => self.level_word(),
                1 => self.alarm_word(),
                2 => (self.serial >> 64) as u64,
                3 => (self.serial & 0xffff_ffff_ffff_ffff) as u64,
                4 => self.range.0,
                5 => self.range_1_word(),
                6 => self.place_row_word(),
                7 => self.place_column_word(),
                _ => self.percent as u64
            }
        } else {
            self.samples[at - 9]
        }
    }

    fn of_words(words: &[u64]) -> Report {
        Report {
            level: (words[0] & 0xff) as u8,
            alarm: words[1] == 1,
            serial: ((words[2] as u128) << 64) | words[3] as u128,
            range: (words[4], (words[5] & 0xffff_ffff) as u32),
            place: Place {
                row: (words[6] & 0xffff) as u16,
                column: (words[7] & 0xffff_ffff) as u32,
            },
            percent: words[8].min(100) as u8,
            samples: Report::samples_of_words(words),
        }
    }
}
// bin/words: end

/// A report comes out of a queue as it went in. A field at a wrong word, or cut off, would come out changed.
#[test]
fn a_report_through_a_queue(rt: HostRuntime) -> Result<(), Fail> {
    let report = Report {
        level: 200,
        alarm: true,
        serial: (5 << 64) + 7,
        range: (u64::MAX, 9),
        place: Place {
            row: 65535,
            column: 11,
        },
        percent: 100,
        samples: [1, 2, 3],
    };
    let (queue, pass) = Queue::<Report, 2>::new(rt.alloc())?;
    let mut producer = queue.acquire_producer(pass).map_err(|_| "taken")?;
    assert!(rt; producer.push(&report));
    let mut consumer = queue
        .acquire_consumer(producer.release())
        .map_err(|_| "taken")?;
    let came = consumer.pop().ok_or("empty")?;
    assert_eq!(rt;
        (came.level, came.alarm, came.serial, came.range),
        (200, true, (5 << 64) + 7, (u64::MAX, 9))
    );
    assert_eq!(rt; came.place, report.place);
    assert_eq!(rt; (came.percent, came.samples), (100, [1, 2, 3]));
    Ok(())
}
