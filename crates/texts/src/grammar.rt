//! What a line says, read word by word.
ghost use Rattle.std.specs.Prelude.{◌≡◌, ◌≤◌, ◌-◌, ◌==◌, IfOk};
ghost use Rattle.texts.specs.Text.{words_left, words};
ghost use Rattle.texts.specs.Grammar.{Gives, next_word, ended, number_at, owner_at, kind_of, shape_at, setup_of};
ghost use Rattle.texts.specs.Grammar.{begin_of, count_of, next_of, decision_of, turn_of, death_of, command_of};

use crate::error::Cause;
use crate::families;
use crate::text::{Rest, number_of, words};
use model::families::loan::is_loan;
use model::turn::{Kind, Shape, Turn};
use steps::enums::OwnerId;

/// The greatest number of an owner.
const GREATEST_OWNER: u128 = 0xffff_ffff_ffff_fffe;

/// The first line: the machine, before its capacity is tested.
#[derive(Clone, Copy)]
pub struct Setup {
    pub shape: Shape,
    pub parties: u32,
}

/// A later line.
#[derive(Clone, Copy)]
pub enum Command {
    /// One turn.
    Once(Turn<u128>),
    /// Turns `Next` of a party: its number, and the most that are taken.
    Times(u32, u64),
}

// ---- words

/// The next word, and those behind it.
pub fn next_word(words: Rest<'_>) -> Result<(&[u8], Rest<'_>), Cause>
    ensures { Gives (λ x. (x.0.now, words_left x.1)) result (next_word (words_left words.entry)) }
{
    match words.first() {
        None => Err(Cause::MissingValue),
        Some(found) => Ok(found),
    }
}

/// Refuses a line that has a word more.
fn ended(words: Rest<'_>) -> Result<(), Cause>
    ensures { Gives (λ x. x) result (ended (words_left words.entry)) }
{
    match words.first() {
        None => Ok(()),
        Some(_) => Err(Cause::ExtraWords),
    }
}

/// A number up to the greatest, and the words behind it.
#[tactic(auto, unfolding(crate::specs::Grammar::number_at))]
pub fn number_at(greatest: u128, words: Rest<'_>) -> Result<(u128, Rest<'_>), Cause>
    ensures value { Gives (λ x. (x.0, words_left x.1)) result
        (number_at greatest (words_left words.entry)) }
    ensures bound { IfOk result (λ x. x.0 ≤ greatest) }
{
    let (word, rest) = next_word(words)?;
    let number = number_of(greatest, word)?;
    Ok((number, rest))
}

/// An owner, and the words behind it. The greatest number of 64 bits names none.
pub fn owner_at(words: Rest<'_>) -> Result<(OwnerId, Rest<'_>), Cause>
    ensures { Gives (λ x. (x.0, words_left x.1)) result (owner_at (words_left words.entry)) }
{
    let (number, rest) = number_at(GREATEST_OWNER, words)?;
    match OwnerId::new(number as u64) {
        Ok(owner) => Ok((owner, rest)),
        Err(_) => Err(Cause::BadValue),
    }
}

// ---- the first line

/// The kind of this name.
fn kind_of(name: &[u8]) -> Result<Kind, Cause>
    ensures { Gives (λ kind. kind) result (kind_of name.now) }
{
    match families::kind_of(name) {
        Some(kind) => Ok(kind),
        None => Err(Cause::UnknownKind),
    }
}

// A structure of this kind, and the words behind it: of a loan channel its slots and its queue, of any other its capacity.
fn shape_at(kind: Kind, words: Rest<'_>) -> Result<(Shape, Rest<'_>), Cause>
    ensures { Gives (λ x. (x.0, words_left x.1)) result (shape_at kind (words_left words.entry)) }
{
    let (capacity, rest) = number_at(u128::from(u64::MAX), words)?;
    if !is_loan(kind) {
        return Ok((Shape::Of(kind, capacity as u64), rest));
    }
    let (queue, rest) = number_at(u128::from(u64::MAX), rest)?;
    Ok((Shape::Loan(capacity as u64, queue as u64), rest))
}

/// Reads the first line: a kind, a capacity, of a loan channel that of its queue too, and how many parties. The error is
/// the first from the left.
#[tactic(auto, unfolding(crate::specs::Grammar::setup_of))]
pub fn setup_of(line: &[u8]) -> Result<Setup, Cause>
    ensures { Gives (λ setup. setup) result (setup_of (words line.now)) }
{
    let (name, rest) = next_word(words(line))?;
    let kind = kind_of(name)?;
    let (shape, rest) = shape_at(kind, rest)?;
    let (parties, rest) = number_at(u128::from(u32::MAX), rest)?;
    ended(rest)?;
    Ok(Setup {
        shape,
        parties: parties as u32,
    })
}

// ---- turns

// What holds an owner is passed on by a match: the borrow checker has no rule for `?` on it.

/// A turn `Begin` of the party, by the call that these words name.
#[tactic(auto, unfolding(crate::specs::Grammar::begin_of))]
fn begin_of(kind: Kind, party: u32, words: Rest<'_>) -> Result<Command, Cause>
    ensures { Gives (λ command. command) result (begin_of kind party (words_left words.entry)) }
{
    let (name, rest) = next_word(words)?;
    let (start, rest) = match families::call(kind, name, rest) {
        Ok(found) => found,
        Err(cause) => return Err(cause),
    };
    ended(rest)?;
    Ok(Command::Once(Turn::Begin(party, start)))
}

/// A number of turns, from 1.
fn count_of(word: &[u8]) -> Result<u64, Cause>
    ensures { Gives (λ count. count) result (count_of word.now) }
{
    let count = number_of(u128::from(u64::MAX), word)?;
    if count == 0 {
        return Err(Cause::BadValue);
    }
    Ok(count as u64)
}

/// Turns `Next` of the party: one, or as many as the word says.
#[tactic(auto, unfolding(crate::specs::Grammar::next_of))]
fn next_of(party: u32, words: Rest<'_>) -> Result<Command, Cause>
    ensures { Gives (λ command. command) result (next_of party (words_left words.entry)) }
{
    match words.first() {
        None => Ok(Command::Once(Turn::Next(party))),
        Some((word, rest)) => {
            let turns = count_of(word)?;
            ended(rest)?;
            Ok(Command::Times(party, turns))
        }
    }
}

/// A turn `Decide` of the party, with nothing behind it.
#[tactic(auto, unfolding(crate::specs::Grammar::decision_of))]
fn decision_of(party: u32, said: bool, words: Rest<'_>) -> Result<Command, Cause>
    ensures { Gives (λ command. command) result (decision_of party said (words_left words.entry)) }
{
    ended(words)?;
    Ok(Command::Once(Turn::Decide(party, said)))
}

/// The turn or turns of the party that these words name.
#[tactic(auto, unfolding(crate::specs::Grammar::turn_of))]
fn turn_of(kind: Kind, party: u32, words: Rest<'_>) -> Result<Command, Cause>
    ensures { Gives (λ command. command) result (turn_of kind party (words_left words.entry)) }
{
    let (name, rest) = next_word(words)?;
    if name == b"begin".as_slice() {
        begin_of(kind, party, rest)
    } else if name == b"next".as_slice() {
        next_of(party, rest)
    } else if name == b"yes".as_slice() {
        decision_of(party, true, rest)
    } else if name == b"no".as_slice() {
        decision_of(party, false, rest)
    } else {
        Err(Cause::UnknownTurn)
    }
}

/// A turn `Die`, by the owner that these words name.
#[tactic(auto, unfolding(crate::specs::Grammar::death_of))]
fn death_of(words: Rest<'_>) -> Result<Command, Cause>
    ensures { Gives (λ command. command) result (death_of (words_left words.entry)) }
{
    let (owner, rest) = match owner_at(words) {
        Ok(found) => found,
        Err(cause) => return Err(cause),
    };
    ended(rest)?;
    Ok(Command::Once(Turn::Die(owner)))
}

/// Reads a line after the first, which is not empty: a party and its turn, or a death. The error is the first from the
/// left.
#[tactic(auto, unfolding(crate::specs::Grammar::command_of))]
pub fn command_of(kind: Kind, line: &[u8]) -> Result<Command, Cause>
    ensures { Gives (λ command. command) result (command_of kind (words line.now)) }
{
    let (first, rest) = next_word(words(line))?;
    if first == b"die".as_slice() {
        return death_of(rest);
    }
    let party = number_of(u128::from(u32::MAX), first)?;
    turn_of(kind, party as u32, rest)
}
