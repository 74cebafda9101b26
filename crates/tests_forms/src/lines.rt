//! The lines of a script: the head of a block, its calls, and what they answer.
use std::alloc::Global;
use std::mem;
use std::str::SplitWhitespace;
use std::sync::Wait;
use steps::enums::{CallbackProgression, OwnerId, UniqueIndexCreationError};
use steps::indices::enums::{ReleaseMode, ReleaseState};

/// Whether a structure was made, or the reason why it was refused.
pub type Made = Result<(), UniqueIndexCreationError>;

/// The next six numbers of the line, with 0 in the place of each that is missing or is no number.
fn numbers_of(words: &mut SplitWhitespace<'_>) -> [u64; 6] {
    let mut numbers = [0; 6];
    for number in numbers.iter_mut() {
        *number = words.next().unwrap_or("").parse().unwrap_or(0);
    }
    numbers
}

/// A call of a script, by its name and its numbers.
#[derive(Clone, Copy)]
pub struct Call<'a> {
    pub name: &'a str,
    pub numbers: [u64; 6],
}

/// The call that this line of a script makes.
fn call_of(line: &str) -> Call<'_> {
    let mut words = line.split_whitespace();
    let name = words.next().unwrap_or("");
    Call {
        name,
        numbers: numbers_of(&mut words),
    }
}

/// A block of a script, with the answers of its calls so far. Its head says which structure is made, in which
/// form, with values of which type, and with which numbers, of which the first is the capacity. The lines are
/// the calls on it.
#[derive(Drop)]
pub struct Block<'a> {
    pub alloc: Global,
    pub structure: &'a str,
    pub form: &'a str,
    pub values: &'a str,
    pub capacity: usize,
    pub numbers: [u64; 6],
    pub lines: &'a str,
    pub answer: Answer,
}

impl<'a> Block<'a> {
    /// The block of this text, whose first line is its head. No call has been made.
    pub fn new(alloc: Global, text: &'a str) -> Block<'a> {
        let (head, lines) = text.split_once('\n').unwrap_or((text, ""));
        let mut words = head.split_whitespace();
        let structure = words.next().unwrap_or("");
        let form = words.next().unwrap_or("");
        let values = words.next().unwrap_or("");
        let numbers = numbers_of(&mut words);
        Block {
            alloc,
            structure,
            form,
            values,
            capacity: numbers[0] as usize,
            numbers,
            lines,
            answer: Answer::new(alloc),
        }
    }
}

/// The owner of this number. The greatest number is that of no owner, and counts as 0.
pub fn owner(number: u64) -> OwnerId {
    match OwnerId::new(number % u64::MAX) {
        Ok(owner) => owner,
        Err(_) => unreachable!(),
    }
}

/// The mode of a release or a recovery: 0 says that it never locks, another number that it
/// locks at the last index.
pub fn mode(number: u64) -> ReleaseMode {
    if number == 0 {
        ReleaseMode::Default
    } else {
        ReleaseMode::LockIfLastIndex
    }
}

/// What a closure answers at its call of the number `calls`: Stop if that is `stop`, and Continue otherwise.
pub fn goes_on(calls: u64, stop: u64) -> CallbackProgression {
    if calls == stop {
        CallbackProgression::Stop
    } else {
        CallbackProgression::Continue
    }
}

/// Whether the question of this number is answered with yes, as a bit of the mask says. After 62 questions
/// the bits begin anew.
pub fn is_yes(mask: u64, question: u64) -> bool {
    mask >> (question % 62) & 1 == 1
}

/// What calls answer, as text: words and numbers, with a line for each call.
#[derive(Drop)]
pub struct Answer {
    pub alloc: Global,
    pub text: String,
    /// Whether memory was refused, so that a part of the text is missing.
    pub lost: bool,
}

impl Answer {
    /// An answer without text.
    pub fn new(alloc: Global) -> Answer {
        Answer {
            alloc,
            text: String::new(alloc),
            lost: false,
        }
    }

    /// Adds this text.
    pub fn put(&mut self, part: &str) {
        self.lost |= self.text.push_str(part).is_err();
    }

    /// Adds this word and a space.
    pub fn word(&mut self, word: &str) {
        self.put(word);
        self.put(" ");
    }

    /// Adds this number, in decimal digits, and a space.
    pub fn number(&mut self, number: u64) {
        match format!(in self.alloc; "{number} ") {
            Ok(digits) => self.put(digits.as_str()),
            Err(_) => self.lost = true,
        }
    }

    /// Adds `true` or `false`.
    pub fn truth(&mut self, yes: bool) {
        self.word(if yes { "true" } else { "false" });
    }

    /// Adds `some` and the number, as in `some 7`, or `none`.
    pub fn perhaps(&mut self, number: Option<u64>) {
        match number {
            Some(number) => {
                self.word("some");
                self.number(number);
            }
            None => self.word("none"),
        }
    }

    /// Adds how a release or a recovery ended: whether the structure is locked.
    pub fn ended(&mut self, state: ReleaseState) {
        self.word(match state {
            ReleaseState::Unlocked => "unlocked",
            ReleaseState::Locked => "locked",
        });
    }

    /// Adds whether the structure of the block was made, or why not, and whether memory was refused to an
    /// answer, and ends the line.
    pub fn made(&mut self, made: Made) {
        self.word(match made {
            Ok(()) => "made",
            Err(UniqueIndexCreationError::ProvidedCapacityGreaterThanMaxCapacity) => {
                "ProvidedCapacityGreaterThanMaxCapacity"
            }
            Err(UniqueIndexCreationError::ProvidedCapacityIsZero) => "ProvidedCapacityIsZero",
            Err(UniqueIndexCreationError::NoMemory) => "NoMemory",
        });
        self.put(if self.lost { "NoMemory\n" } else { "\n" });
    }
}

/// A structure whose calls a script makes.
pub trait Answers {
    /// Makes the call, and adds what it answers. It adds nothing where the structure has no such call, and
    /// `refused` where the call may not be made.
    fn answer(&mut self, rt: &impl Wait, call: Call<'_>, answer: &mut Answer);
}

/// Makes the calls of the lines one after another on a structure, with a line of the answer for each.
pub fn play<S: Answers>(rt: &impl Wait, lines: &str, answer: &mut Answer, structure: &mut S) {
    for line in lines.lines() {
        structure.answer(rt, call_of(line), answer);
        answer.put("\n");
    }
}

/// A structure with two passes or handles, by one of which the calls are made. The call
/// `other` exchanges them.
#[derive(Drop)]
pub struct Two<H> {
    pub now: H,
    pub other: H,
}

impl<H: Answers + Drop> Answers for Two<H> {
    fn answer(&mut self, rt: &impl Wait, call: Call<'_>, answer: &mut Answer) {
        if call.name == "other" {
            mem::swap(&mut self.now, &mut self.other);
        } else {
            self.now.answer(rt, call, answer);
        }
    }
}

/// Plays the lines of the block on the structure that was made for it. None says that memory was refused as
/// that was made.
pub fn play_on<S: Answers + Drop>(rt: &impl Wait, block: &mut Block<'_>, made: Option<S>) -> Made {
    let Some(mut structure) = made else {
        return Err(UniqueIndexCreationError::NoMemory);
    };
    play(rt, block.lines, &mut block.answer, &mut structure);
    Ok(())
}
