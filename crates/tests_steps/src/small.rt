//! What one operation makes of a word, at which words the parts of a structure lie, and owners, refusals of a
//! capacity and numbers as words.
use std::test::Fail;
use steps::ask::Op;
use steps::enums::{OwnerId, OwnerIdNewError, UniqueIndexCreationError, capacity_refusal};
use steps::indices::enums::ReleaseMode;
use steps::indices::layout::{flag, flag_word, next_word};
use steps::indices::robust::parts;
use steps::loan::layout::total_words;
use steps::queues::lengths::number_waiting;
use steps::queues::overflow;
use steps::words::Words;

/// Applies each operation to the word 6. Additions and subtractions wrap, and an exchange changes the word
/// only where it finds what it expects.
#[test]
fn operations(rt: HostRuntime) {
    let rows = [
        (Op::Load, 6),
        (Op::Store(9), 9),
        (Op::Swap(9), 9),
        (Op::Add(u64::MAX), 5),
        (Op::Sub(7), u64::MAX),
        (Op::And(3), 2),
        (Op::Or(9), 15),
        (Op::Exchange(6, 1), 1),
        (Op::Exchange(5, 1), 6),
    ];
    for (at, (op, after)) in rows.iter().enumerate() {
        assert!(rt; op.apply(6) == *after, "row {at}");
    }
}

/// A number of an owner, the refusal of a capacity, and numbers as words. The greatest number is no owner; a
/// capacity has to lie between the least and the greatest one that are given. A `u32` keeps the low half of
/// its word, and a `u128` is made of two words.
#[test]
fn small_items(rt: HostRuntime) -> Result<(), Fail> {
    assert!(rt; OwnerId::new(313)?.value() == 313);
    let refused = OwnerId::new(u64::MAX).err();
    assert!(rt; refused == Some(OwnerIdNewError::InvalidOwnerValue));
    let zero = UniqueIndexCreationError::ProvidedCapacityIsZero;
    let above = UniqueIndexCreationError::ProvidedCapacityGreaterThanMaxCapacity;
    for (capacity, refusal) in [(0, Some(zero)), (10, Some(above)), (9, None)] {
        assert!(rt; capacity_refusal(capacity, 1, 9) == refusal, "{capacity}");
    }
    assert!(rt; u32::of_words(&[0x1_0000_0007]) == 7);
    assert!(rt; u128::of_words(&[3, 4]) == 55340232221128654852);
    Ok(())
}

/// An index of a unique index set of capacity 130, and where its parts lie. The columns are the
/// index, the word of its next index, the word of its claim flag, and that flag's bit. A word holds
/// the flags of 64 indices.
const PLACES: [(u32, usize, usize, u64); 3] = [
    (0, 1, 131, 1),
    (63, 64, 131, 1 << 63),
    (64, 65, 132, 1),
];

/// The next indices and the claim flags lie where `PLACES` says. An error would let two indices share a flag.
#[test]
fn places(rt: HostRuntime) {
    for (index, next, word, bit) in &PLACES {
        assert!(rt; next_word(*index) == *next && flag_word(130, *index) == *word);
        assert!(rt; flag(*index) == *bit);
    }
}

/// Where words lie that need more than 32 bits, or more than one part. These are the last cell of the longest
/// overflowing queue, the first cell of a robust set, and the end of a loan channel. A length counts right
/// past the wrap of its positions, and the default way to release does not lock.
#[test]
fn places_of_words(rt: HostRuntime) {
    assert!(rt; overflow::cell_word(u32::MAX, 4294967295) == 4294967299);
    assert!(rt; (parts::COUNTER, parts::cell_word(0)) == (0, 1));
    assert!(rt; total_words(2, 1) == 16);
    assert!(rt; number_waiting(2, 1, u64::MAX) == 2);
    assert!(rt; ReleaseMode::default() == ReleaseMode::Default);
}
