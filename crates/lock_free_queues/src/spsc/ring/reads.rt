//! How a `close` reads all words of a queue while others may still step.
ghost use Rattle.std.specs.Prelude.{◌≡◌, ◌+◌, ◌<◌, ◌^◌, length, IfOk, IfErr};
ghost use Rattle.steps.specs.declared.enums.UniqueIndexCreationError.TheVariants.{NoMemory};
ghost use Rattle.model.specs.Coding.{coding_by};
ghost use Rattle.lock_free_queues.specs.Queues.Bounded.{machine_kind};
ghost use Rattle.lock_free_queues.specs.Queues.Kinds.{words_in_cells};
ghost use Rattle.lock_free_queues.specs.Queues.Rings.{capacity_of, token_queue, token_view, IsPassOf, MissesNothing};
ghost use Rattle.lock_free_queues.specs.Queues.Reads.{WasRead, CellsRead, HasRead, LastSeen};

use super::rule::{Kind, RingRule};
use super::{Held, Pass, Ring};
use std::alloc::{AllocError, Global};
use std::marker::Brand;
use steps::enums::UniqueIndexCreationError;
use steps::queues::ring::{CONSUMER, FIRST_CELL, PRODUCER, READ, WRITE};
use steps::words::Words;

impl<E: Kind, T: Words> Held<E, T, RingRule<E, T>> {
    /// Loads one word. From then on the seat knows the history up to this load.
    pub(crate) fn read(&mut self, word: usize) -> u64
        requires { word < 4 + words_in_cells T.WORDS E.KIND (token_queue self.old).capacity }
        ensures queue { token_queue self.new ≡ token_queue self.old }
        ensures fits { result < 2 ^ 64 }
        ensures read { HasRead (token_view self.old) (token_view self.new) }
        ensures found { WasRead (coding_by T.Words) (machine_kind E.KIND)
            (token_queue self.old).capacity
            (token_view self.old) (token_view self.new) word result }
        ensures last { WasRead (coding_by T.Words) (machine_kind E.KIND)
            (token_queue self.old).capacity
            (token_view self.new) (token_view self.new) word result }
    {
        self.seated.look::<Brand>(word)
    }

    /// Loads each word of the cells, and writes it into `words` at the same place. One load for each.
    pub(crate) fn read_cells(&mut self, words: &mut Vec<u64>)
        requires long { length words.old.items ≡ 4 + words_in_cells T.WORDS E.KIND (token_queue self.old).capacity }
        requires all { MissesNothing (token_view self.old) }
        ensures queue { token_queue self.new ≡ token_queue self.old }
        ensures read { HasRead (token_view self.old) (token_view self.new) }
        ensures long { length words.new.items ≡ length words.old.items }
        ensures cells { CellsRead (coding_by T.Words) (machine_kind E.KIND)
            (token_queue self.old).capacity
            (token_view self.old) (token_view self.new) words.new.items }
    {
        for at in FIRST_CELL..words.len() {
            let word = self.read(at);
            words[at] = word;
        }
    }

    /// Returns the `count` words of the list that the queue is at one moment of the call. It takes three
    /// loads, and one for each word of the cells. If something was published between the first load and the
    /// last, it loads all but the first again.
    pub(crate) fn last_words(&mut self, alloc: Global, count: usize) -> Result<Vec<u64>, AllocError>
        requires { count ≡ 4 + words_in_cells T.WORDS E.KIND (token_queue self.old).capacity }
        ensures { IfOk result (λ words. LastSeen (token_queue self.old).capacity self.old words.items) }
    {
        let mut words = Vec::from_elem(alloc, 0u64, count)?;
        words[PRODUCER] = 1;
        words[CONSUMER] = 1;
        let mut write = self.read(WRITE);
        loop {
            self.read_cells(&mut words);
            let read = self.read(READ);
            let again = self.read(WRITE);
            if again == write {
                words[WRITE] = write;
                words[READ] = read;
                return Ok(words);
            }
            write = again;
        }
    }
}

impl<E: Kind, T: Words> Ring<E, T> {
    /// Returns the words that `last_words` of this pass's seat returns, where a queue ends.
    pub(crate) fn last_words(
        &self,
        pass: Pass<E, T>,
        count: usize,
    ) -> Result<Vec<u64>, UniqueIndexCreationError>
        requires pass { IsPassOf self.now pass }
        requires count { count ≡ 4 + words_in_cells T.WORDS E.KIND (capacity_of self.now) }
        ensures words { IfOk result (λ words. LastSeen (capacity_of self.now) pass.token words.items) }
        ensures refused { IfErr result (λ e. e ≡ NoMemory) }
    {
        let mut token = pass.into_token();
        match token.last_words(self.alloc, count) {
            Ok(words) => Ok(words),
            Err(_) => Err(UniqueIndexCreationError::NoMemory),
        }
    }
}
