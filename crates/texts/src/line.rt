//! A line that is being made, in room of its own, so that printing takes no memory.
ghost use Rattle.std.specs.Prelude.{◌≡◌, ◌+◌, ◌≤◌, ◌<◌, ◌++◌, [], length, decimal};
ghost use Rattle.texts.specs.Print.{event_text, refusal_name, refusal_text, cause_text, error_text};

use crate::error::{Cause, ScheduleError};
use crate::families;
use model::event::Event;
use model::turn::Refusal;
use std::marker::Model;

/// The most bytes of a line. A party, the name of an event, a call and an answer take fewer than 200.
const ROOM: usize = 256;

/// The most digits of a number of 128 bits.
const DIGITS: usize = 39;

/// A line of output that is being made: its bytes, and how many there are.
#[derive(Drop)]
pub struct Line {
    bytes: [u8; ROOM],
    len: usize,
}

impl Model for Line {
    ghost use Rattle.std.specs.Prelude.{ℕ, List, take, ◌≤◌};

    ghost Value = { List ℕ };

    ghost view = { λ line. take line.len line.bytes };

    ghost invariant = { λ line. line.len ≤ 256 };
}

impl Line {
    /// An empty line.
    pub fn new() -> Line
        ensures { result ≡ [] }
    {
        Line {
            bytes: [0; ROOM],
            len: 0,
        }
    }

    /// The bytes that were written.
    pub fn as_bytes(&self) -> &[u8]
        ensures { result.now ≡ self.now }
    {
        &self.bytes[..self.len]
    }

    /// Adds these bytes, for which there has to be room.
    fn push_bytes(&mut self, text: &[u8])
        requires { length self.old + length text.now ≤ ROOM }
        ensures { self.new ≡ self.old ++ text.now }
    {
        let end = self.len + text.len();
        self.bytes[self.len..end].copy_from_slice(text);
        self.len = end;
    }

    /// Appends the text, for which there must be room.
    pub fn push(&mut self, text: &str)
        requires { length self.old + length text.now ≤ ROOM }
        ensures { self.new ≡ self.old ++ text.now }
    {
        self.push_bytes(text.as_bytes());
    }

    /// Appends the number in decimal digits, of which it has 39 at most.
    pub fn push_number(&mut self, number: u128)
        requires { length self.old + 39 ≤ ROOM }
        ensures text { self.new ≡ self.old ++ decimal number }
        ensures short { length self.new ≤ length self.old + 39 }
    {
        let mut digits = [0u8; DIGITS];
        let mut at = DIGITS;
        let mut rest = number;
        while rest >= 10 {
            at -= 1;
            digits[at] = b'0' + (rest % 10) as u8;
            rest /= 10;
        }
        at -= 1;
        digits[at] = b'0' + rest as u8;
        self.push_bytes(&digits[at..]);
    }

    /// Writes whose event it is, and what was done.
    pub fn push_party(&mut self, party: u32, done: &str)
        requires { length self.old + length done.now + 39 ≤ ROOM }
        ensures text { self.new ≡ self.old ++ decimal party ++ done.now }
        ensures short { length self.new ≤ length self.old + length done.now + 39 }
    {
        self.push_number(u128::from(party));
        self.push(done);
    }

    /// Writes whose event it is, and what was done to which place.
    pub fn push_event(&mut self, party: u32, done: &str, place: u64)
        requires { length self.old + length done.now + 78 ≤ ROOM }
        ensures text { self.new ≡ self.old ++ decimal party ++ done.now ++ decimal place }
        ensures short { length self.new ≤ length self.old + length done.now + 78 }
    {
        self.push_party(party, done);
        self.push_number(u128::from(place));
    }

    /// The line of an event, with its line feed.
    pub fn of_event(event: &Event<u128>) -> Line
        ensures { result ≡ event_text event.now }
    {
        let mut line = Line::new();
        line.print_event(event);
        line
    }

    /// Becomes the line of this event, with its line feed: one room serves for event after event.
    #[tactic(auto, unfolding(crate::specs::Print::event_text))]
    pub fn print_event(&mut self, event: &Event<u128>)
        ensures { self.new ≡ event_text event.now }
    {
        self.len = 0;
        families::print_event(self, event);
        self.push("\n");
    }

    /// The line of a refused turn, with its line feed.
    #[tactic(auto, unfolding(crate::specs::Print::refusal_text))]
    pub fn of_refusal(refusal: Refusal) -> Line
        ensures { result ≡ refusal_text refusal }
    {
        let mut line = Line::new();
        line.push("refused ");
        line.push_refusal(refusal);
        line.push("\n");
        line
    }

    /// Adds a refusal by its name.
    fn push_refusal(&mut self, refusal: Refusal)
        requires { length self.old + 20 ≤ ROOM }
        ensures text { self.new ≡ self.old ++ refusal_name refusal }
        ensures short { length self.new ≤ length self.old + 20 }
    {
        match refusal {
            Refusal::NoParty => self.push("NoParty"),
            Refusal::Busy => self.push("Busy"),
            Refusal::Idle => self.push("Idle"),
            Refusal::WrongCall => self.push("WrongCall"),
            Refusal::NoRole => self.push("NoRole"),
            Refusal::NotHeld => self.push("NotHeld"),
            Refusal::BadIndex => self.push("BadIndex"),
            Refusal::OwnerIsDead => self.push("OwnerIsDead"),
            Refusal::OwnerLives => self.push("OwnerLives"),
            Refusal::Undecided => self.push("Undecided"),
            Refusal::NoMemory => self.push("NoMemory"),
            Refusal::AtEnd => self.push("AtEnd"),
        }
    }

    /// Adds why a line is malformed.
    fn push_cause(&mut self, cause: Cause)
        requires { length self.old + 40 ≤ ROOM }
        ensures text { self.new ≡ self.old ++ cause_text cause }
        ensures short { length self.new ≤ length self.old + 40 }
    {
        match cause {
            Cause::MissingValue => self.push("missing value"),
            Cause::BadValue => self.push("bad value"),
            Cause::UnknownKind => self.push("unknown kind"),
            Cause::UnknownTurn => self.push("unknown turn"),
            Cause::UnknownCall => self.push("unknown call"),
            Cause::ExtraWords => self.push("extra words"),
            Cause::ProvidedCapacityGreaterThanMaxCapacity => {
                self.push("ProvidedCapacityGreaterThanMaxCapacity")
            }
            Cause::ProvidedCapacityIsZero => self.push("ProvidedCapacityIsZero"),
        }
    }

    /// The line of an error, with its line feed.
    pub fn of_error(error: ScheduleError) -> Line
        ensures { result ≡ error_text error }
    {
        let mut line = Line::new();
        match error {
            ScheduleError::Malformed(number, cause) => {
                line.push("line ");
                line.push_number(u128::from(number));
                line.push(": ");
                line.push_cause(cause);
                line.push("\n");
            }
            ScheduleError::ReadFailed => line.push("read failed\n"),
            ScheduleError::WriteFailed => line.push("write failed\n"),
            ScheduleError::NoMemory => line.push("no memory\n"),
        }
        line
    }
}
