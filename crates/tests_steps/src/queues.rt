//! Bounded queues with values of one word, of a pair, of three words and of 128. The words of a queue are the
//! write position, the read position, the roles of producer and consumer (1 while the role is free), and then
//! the cells. A push or pop takes the steps for its words and 3 more, a peek 2 more.
use crate::drive::{bare, end_with, partly, with};
use crate::driven::{overflow_pop, overflow_push, peek, peek_one, pop, pop_one, push};
use crate::rows::{Row, fill_and_empty, play};
use std::process::Abort;
use steps::ask::{Call, Want};
use steps::queues::ring::{CONSUMER, PRODUCER};
use steps::queues::roles::LookRole;
use tests_calls::long_values::{Greatest, Three};

/// Two pushes fill a queue of capacity 2, by 4 steps each. The third finds the queue full, and ends after its
/// two loads of the positions.
const ONE_WORD: [Row<u64>; 3] = [
    Row::Push(7, true, 4),
    Row::Push(8, true, 4),
    Row::Push(9, false, 2),
];

/// A pair goes into a queue of capacity 1, is seen by a peek, and comes out. The pop of the empty queue then
/// ends after its two loads.
const PAIR: [Row<(u64, u64)>; 4] = [
    Row::Push((5, 6), true, 5),
    Row::Peek(Some((5, 6)), 4),
    Row::Pop(Some((5, 6)), 5),
    Row::Pop(None, 2),
];

/// Plays both rows, on a queue of capacity 2 and on one of capacity 1 whose positions stand at 1. A push that
/// writes a wrong cell, or a pop that moves the wrong position, changes the words after the row.
#[test]
fn rows(rt: HostRuntime) {
    let words = [0, 0, 1, 1, 0, 0];
    play(&rt, "ONE_WORD", 2, words, &ONE_WORD, [2, 0, 1, 1, 7, 8]);
    let after = [1, 1, 1, 1, 3, 4];
    play(&rt, "PAIR", 1, after, &PAIR, [2, 2, 1, 1, 5, 6]);
}

/// A pop into the room `OneWord` and one into the general room `Copied` come to the same. They give the same
/// answers by the same steps, and leave the same words, of a queue in which 7 and 8 wait.
#[test]
fn a_pop_into_one_word_is_a_pop(rt: HostRuntime) {
    let mut words = [2, 0, 1, 1, 7, 8];
    for (value, steps) in [(Some(7), 4), (Some(8), 4), (None, 2)] {
        let mut same = words;
        assert!(rt;
            end_with(pop::<u64>(2), &mut words, value, steps),
            "{steps}"
        );
        assert!(rt; end_with(pop_one(2), &mut same, value, steps), "{steps}");
        assert!(rt; same == words, "{steps}");
    }
    assert!(rt; words == [2, 2, 1, 1, 7, 8]);
}

/// A peek answers the oldest value in three steps and changes no word. Without capacity it answers None in
/// two. If a peek moved the read position, a value would be lost.
#[test]
fn a_peek_leaves_the_words(rt: HostRuntime) {
    let words = [3, 1, 1, 1, 9, 8];
    for (capacity, value, steps) in [(2, Some(8), 3), (0, None, 2)] {
        let mut same = words;
        assert!(rt;
            end_with(peek::<u64>(capacity), &mut same, value, steps),
            "{capacity}"
        );
        assert!(rt;
            end_with(peek_one(capacity), &mut same, value, steps),
            "{capacity}"
        );
        assert!(rt; same == words, "{capacity}");
    }
    // The write position stands at its end, and one value waits: that of the last push that
    // the queue can take.
    let words = [u64::MAX, u64::MAX - 1, 1, 1, 7, 8];
    let mut same = words;
    assert!(rt; end_with(peek_one(2), &mut same, Some(7), 3) && same == words);
}

/// A peek of an empty queue of pairs loads the read position. Then a push puts the pair (5, 6) in, and the
/// peek, which loads the write position only now, answers this pair. None where a call ends too early or
/// differs in its two forms.
fn a_push_publishes_in_a_peek(rt: &impl Abort) -> Option<()> {
    let mut words = [0, 0, 1, 1, 0, 0];
    let call = partly(peek::<(u64, u64)>(1), 1, &mut words)?;
    assert!(rt; end_with(push(1, (5, 6)), &mut words, true, 5));
    assert!(rt; end_with(call, &mut words, Some((5, 6)), 3));
    assert!(rt; words == [1, 0, 1, 1, 5, 6]);
    Some(())
}

/// A push that ends within a peek is seen by that peek. If the peek answered None, it would say that the
/// queue was empty after the push had ended.
#[test]
fn a_peek_that_is_stopped(rt: HostRuntime) {
    assert!(rt; a_push_publishes_in_a_peek(&rt).is_some());
}

/// A look at a role is one load: it says that the producer's role, whose word is 0, is taken, and that the
/// consumer's is not. It changes nothing.
#[test]
fn looks_at_roles(rt: HostRuntime) {
    let words = [0, 0, 0, 1];
    for (word, is_taken) in [(PRODUCER, true), (CONSUMER, false)] {
        let mut same = words;
        assert!(rt;
            end_with(bare(LookRole { word }), &mut same, is_taken, 1),
            "{word}"
        );
        assert!(rt; same == words, "{word}");
    }
}

/// Queues of three values of three and of 128 words are filled and emptied twice, from position 5 on, and all
/// cells then hold the values of the second round.
#[test]
fn values_of_three_words_and_of_128(rt: HostRuntime) {
    // Both positions begin at 5, so the first value goes into the last of the three cells.
    let mut words = with([0; 13], &[(0, 5), (1, 5)]);
    let values = [Three(1, 2, 3), Three(4, 5, 6), Three(7, 8, 9)];
    assert!(rt; fill_and_empty(3, &values, &mut words));
    assert!(rt; words == [11, 11, 0, 0, 4, 5, 6, 7, 8, 9, 1, 2, 3]);
    let mut words = with([0; 388], &[(0, 5), (1, 5)]);
    let values = [Greatest(1, 9, 2), Greatest(3, 9, 4), Greatest(5, 9, 6)];
    assert!(rt; fill_and_empty(3, &values, &mut words));
    let wanted = with(
        [9; 388],
        &[
            (0, 11),
            (1, 11),
            (2, 0),
            (3, 0),
            (4, 3),
            (131, 4),
            (132, 5),
            (259, 6),
            (260, 1),
            (387, 2),
        ],
    );
    assert!(rt; words == wanted);
}

/// A push or pop of an overflowing queue without capacity asks for no operation, by value and in place. An
/// operation would concern a cell that does not exist.
#[test]
fn without_capacity_nothing_is_asked(rt: HostRuntime) {
    assert!(rt; matches!(overflow_push(0, 7).ask(), Want::Nothing));
    assert!(rt; matches!(overflow_push(0, 7).want(), Want::Nothing));
    assert!(rt; matches!(overflow_pop(0).ask(), Want::Nothing));
    assert!(rt; matches!(overflow_pop(0).want(), Want::Nothing));
}
