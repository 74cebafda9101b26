//! Where a malformed line ceases to make sense, for those who tell it by its column.
ghost use Rattle.std.specs.Prelude.{◌≡◌, None, MatchOption};
ghost use Rattle.schedule.specs.Wrong.{cause_of, IsWrong};

use model::turn::Kind;
use texts::error::Cause;
use texts::grammar::{command_of, setup_of};

/// What a line is read as.
#[derive(Clone, Copy)]
pub enum Grammar {
    First,
    Turn(Kind),
}

impl Grammar {
    /// Why the line is malformed, if it is. The capacity of a first line is not tested.
    pub fn cause(self, line: &[u8]) -> Option<Cause>
        ensures { result ≡ cause_of self line.now }
    {
        match self {
            Grammar::First => match setup_of(line) {
                Ok(_) => None,
                Err(cause) => Some(cause),
            },
            Grammar::Turn(kind) => match command_of(kind, line) {
                Ok(_) => None,
                Err(cause) => Some(cause),
            },
        }
    }

    /// Where the line ceases to make sense, and why: at the first word that none behind it could mend, or behind the last
    /// one where more is missing. A line that begins with a space has an empty word before it.
    pub fn wrong(self, line: &[u8]) -> Option<(usize, Cause)>
        ensures { MatchOption result (cause_of self line.now ≡ None)
            (λ x. IsWrong self line.now x.0 x.1) }
    {
        let mut start = 0;
        for (at, byte) in line.iter().enumerate() {
            if *byte == b' ' && at > 0 {
                match self.cause(&line[..at]) {
                    None | Some(Cause::MissingValue) => start = at + 1,
                    Some(cause) => return Some((start, cause)),
                }
            }
        }
        match self.cause(line) {
            None => None,
            Some(Cause::MissingValue) => Some((line.len(), Cause::MissingValue)),
            Some(cause) => Some((start, cause)),
        }
    }
}
