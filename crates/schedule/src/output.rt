//! Writing to the end, so that a failure leaves a beginning of the text.
ghost use Rattle.std.specs.Prelude.{◌≡◌, IfErr};
ghost use Rattle.std.specs.Io.KnownBytes.{Keeps};
ghost use Rattle.texts.specs.Print.{events_text, refusal_text};
ghost use Rattle.schedule.specs.Written.{Writes, GrowsBySome};

use model::event::Event;
use model::turn::Refusal;
use std::io::{ErrorKind, Write};
use texts::error::ScheduleError;
use texts::line::Line;
use texts::pen::Pen;

/// Writes all of the bytes. A write that was interrupted is tried again; any other failure, and a write that takes
/// nothing, is `WriteFailed`, after a beginning of the bytes.
pub fn put<W: Write>(writer: &mut W, bytes: &[u8]) -> Result<(), ScheduleError>
    ensures { Writes (W.contents writer.old) (W.contents writer.new) result bytes.now }
{
    let mut rest = bytes;
    for _ in 0..u64::MAX {
        if rest.is_empty() {
            return Ok(());
        }
        match writer.write(rest) {
            Ok(0) => return Err(ScheduleError::WriteFailed),
            Ok(count) => rest = &rest[count..],
            Err(e) => {
                if e.kind() != ErrorKind::Interrupted {
                    return Err(ScheduleError::WriteFailed);
                }
            }
        }
    }
    Err(ScheduleError::WriteFailed)
}

/// Writes what the pen has, and empties it, once that is more than `least` bytes. Where memory was refused to the pen
/// nothing is written.
pub fn put_pen<W: Write>(writer: &mut W, pen: &mut Pen, least: usize) -> Result<(), ScheduleError>
    ensures { GrowsBySome (W.contents writer.old) (W.contents writer.new) }
{
    let Ok(text) = pen.text() else {
        return Err(ScheduleError::NoMemory);
    };
    if text.len() <= least {
        return Ok(());
    }
    match put(writer, text.as_bytes()) {
        Ok(()) => {}
        Err(e) => return Err(e),
    }
    pen.clear();
    Ok(())
}

/// Writes the lines of the events, or a beginning of them where a write fails. Each is made in the room of `line`.
pub fn put_events<W: Write>(
    writer: &mut W,
    line: &mut Line,
    events: &[Event<u128>],
) -> Result<(), ScheduleError>
    ensures { Writes (W.contents writer.old) (W.contents writer.new) result
        (events_text events.now) }
{
    for event in events {
        line.print_event(event);
        match put(writer, line.as_bytes()) {
            Ok(()) => {}
            Err(e) => return Err(e),
        }
    }
    Ok(())
}

/// Writes the line of a refused turn, or a beginning of it where a write fails.
pub fn put_refusal<W: Write>(writer: &mut W, refusal: Refusal) -> Result<(), ScheduleError>
    ensures { Writes (W.contents writer.old) (W.contents writer.new) result (refusal_text refusal) }
{
    put(writer, Line::of_refusal(refusal).as_bytes())
}

/// Writes out what the writer kept back, or answers `WriteFailed`.
pub fn flush<W: Write>(writer: &mut W) -> Result<(), ScheduleError>
    ensures kept { Keeps (W.contents writer.old) (W.contents writer.new) }
    ensures failed { IfErr result (λ e. e ≡ ScheduleError.WriteFailed) }
{
    match writer.flush() {
        Ok(()) => Ok(()),
        Err(_) => Err(ScheduleError::WriteFailed),
    }
}
