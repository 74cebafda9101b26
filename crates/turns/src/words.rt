//! One operation on one word of a machine.
ghost use Rattle.std.specs.Prelude.{◌≡◌, slice_index, slice_set};
ghost use Rattle.model.specs.Turns.{old_of, words_after, change_of, step_count};

use steps::ask::Ask;

/// The value of this word, or 0 where there is no such word.
pub fn word_at(words: &Vec<u64>, word: usize) -> u64
    ensures { result ≡ slice_index words.now.items word }
{
    if word < words.len() { words[word] } else { 0 }
}

/// What one operation finds in its word, and what it leaves there.
#[derive(Clone, Copy)]
pub struct Access {
    /// The word's place.
    pub word: usize,
    /// The word's value before the operation.
    pub old: u64,
    /// The word's value after the operation.
    pub new: u64,
    /// 1 where the operation changes the value, else 0.
    pub change: u64,
}

/// Looks up what the operation finds and leaves; `write` then does it. Where there is no operation, or no
/// such word, the place is the one after the last word, where `write` does nothing.
pub fn read(words: &Vec<u64>, ask: Option<Ask>) -> Access
    ensures old { result.old ≡ old_of words.now.items ask }
    ensures change { result.change ≡ change_of words.now.items ask }
    ensures written { slice_set words.now.items result.word result.new
        ≡ words_after words.now.items ask }
{
    match ask {
        Some(ask) if ask.word < words.len() => {
            let old = words[ask.word];
            let new = ask.op.apply(old);
            Access {
                word: ask.word,
                old,
                new,
                change: if new == old { 0 } else { 1 },
            }
        }
        _ => Access {
            word: words.len(),
            old: 0,
            new: 0,
            change: 0,
        },
    }
}

/// Writes what `read` has found that the operation leaves.
pub fn write(words: &mut Vec<u64>, access: Access)
    ensures { words.new.items ≡ slice_set words.old.items access.word access.new }
{
    if access.word < words.len() {
        words[access.word] = access.new;
    }
}

/// How many steps a turn counts for: 1 where it does an operation, else 0.
pub fn count(ask: Option<Ask>) -> u64
    ensures { result ≡ step_count ask }
{
    match ask {
        Some(_) => 1,
        None => 0,
    }
}
