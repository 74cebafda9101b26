//! What the end of a run is told as, and its exit status.
ghost use Rattle.std.specs.Prelude.{◌≡◌};
ghost use Rattle.schedule.specs.Told.{exit_of, message_text};
ghost use Rattle.schedule.specs.Written.{Writes, AppendsPart};

use crate::output::put;
use std::io::Write;
use texts::error::ScheduleError;
use texts::line::Line;

/// Writes what is told of a run that ended so.
#[tactic(auto, unfolding(crate::specs::Told::message_text))]
fn put_message<W: Write>(
    ran: &Result<(), ScheduleError>,
    errors: &mut W,
) -> Result<(), ScheduleError>
    ensures { Writes (W.contents errors.old) (W.contents errors.new) result (message_text ran.now) }
{
    match ran {
        Ok(()) => Ok(()),
        Err(e) => put(errors, Line::of_error(*e).as_bytes()),
    }
}

/// Writes the line of a run's error to `errors`, nothing where there was none, and answers the exit status: 0 where
/// all was read and written, 2 for malformed text or a refused capacity, and 1 for the rest. A write that fails
/// here changes nothing of the answer.
pub fn status<W: Write>(ran: &Result<(), ScheduleError>, errors: &mut W) -> u8
    ensures exit { result ≡ exit_of ran.now }
    ensures told { AppendsPart (W.contents errors.old) (W.contents errors.new)
        (message_text ran.now) }
{
    let _told = put_message(ran, errors);
    match ran {
        Ok(()) => 0,
        Err(ScheduleError::Malformed(_, _)) => 2,
        Err(_) => 1,
    }
}
