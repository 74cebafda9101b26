//! Runs of `schedule` whose reads or writes fail or are interrupted at each call, and what is
//! told of how a run ended.
use schedule::bare::{ran_in, told};
use schedule::error::{Cause, ScheduleError};
use std::alloc::{AllocError, Global};
use std::io;
use std::io::{ErrorKind, Read, Write};

/// A schedule in which a push stops before it publishes while a pop finds nothing: 132 bytes.
const STOPPED_PUSH: &[u8] =
    b"index_queue 1 2\n0 begin acquire_producer\n0 next\n1 begin acquire_consumer\n1 next\n0 begin push 5\n0 next 3\n1 begin pop\n1 next 4\n0 next\n";

/// What the run of `STOPPED_PUSH` prints if nothing fails.
const STOPPED_PUSH_OUTPUT: &[u8] =
    b"0 begun acquire_producer\n0 finished acquire_producer -> true\n1 begun acquire_consumer\n1 finished acquire_consumer -> true\n0 begun push 5\n1 begun pop\n1 acted pop -> none\n1 finished pop -> none\n0 published 5\n0 acted push 5 -> true\n0 finished push 5 -> true\n";

/// A reader or writer that handles at most `at_most` bytes in a call, and fails with `kind` once `calls_left`
/// calls have succeeded.
#[derive(Drop)]
struct Faulty {
    bytes: Vec<u8>,
    place: usize,
    at_most: usize,
    calls_left: usize,
    kind: ErrorKind,
}

impl Faulty {
    /// A reader of these bytes, or a writer that adds to them.
    fn new(bytes: Vec<u8>, at_most: usize, calls_left: usize, kind: ErrorKind) -> Faulty {
        Faulty {
            bytes,
            place: 0,
            at_most,
            calls_left,
            kind,
        }
    }

    /// Whether this call succeeds, and counts it. An interruption comes once, and any other
    /// failure at each later call.
    fn is_sound(&mut self) -> bool {
        if self.calls_left == 0 {
            if self.kind == ErrorKind::Interrupted {
                self.calls_left = usize::MAX;
            }
            return false;
        }
        self.calls_left -= 1;
        true
    }
}

impl Read for Faulty {
    fn read(&mut self, buf: &mut [u8]) -> io::Result<usize> {
        if !self.is_sound() {
            return Err(io::Error::from(self.kind));
        }
        let rest = self.bytes.get(self.place..).unwrap_or(&[]);
        let count = rest.len().min(self.at_most).min(buf.len());
        buf[..count].copy_from_slice(&rest[..count]);
        self.place = self.place.saturating_add(count);
        Ok(count)
    }
}

impl Write for Faulty {
    fn write(&mut self, buf: &[u8]) -> io::Result<usize> {
        if !self.is_sound() {
            return Err(io::Error::from(self.kind));
        }
        let count = buf.len().min(self.at_most);
        self.bytes.extend_from_slice(&buf[..count])?;
        Ok(count)
    }

    fn flush(&mut self) -> io::Result<()> {
        Ok(())
    }
}

/// A writer that accepts all bytes and fails when it is flushed.
#[derive(Drop)]
struct Stuck;

impl Write for Stuck {
    fn write(&mut self, buf: &[u8]) -> io::Result<usize> {
        Ok(buf.len())
    }

    fn flush(&mut self) -> io::Result<()> {
        Err(io::Error::from(ErrorKind::Other))
    }
}

/// Runs `STOPPED_PUSH` with reads that fail with `kind` after `calls` calls. With `whole` it has to print
/// everything and succeed, and otherwise to print nothing and to say that a read failed.
fn ends_reading(
    alloc: Global,
    calls: usize,
    kind: ErrorKind,
    whole: bool,
) -> Result<bool, AllocError> {
    let input = Vec::from_slice(alloc, STOPPED_PUSH)?;
    let mut reader = Faulty::new(input, 7, calls, kind);
    let mut written: Vec<u8> = Vec::new(alloc);
    let ended = ran_in(alloc, alloc, &mut reader, &mut written);
    Ok(if whole {
        ended == Ok(()) && written.as_slice() == STOPPED_PUSH_OUTPUT
    } else {
        ended == Err(ScheduleError::ReadFailed) && written.is_empty()
    })
}

/// Whether runs end right whose reads fail from some call on, and runs in which one read is interrupted, for
/// each of the first 40 calls.
pub fn reads_end_right(alloc: Global) -> Result<bool, AllocError> {
    for calls in 0..40 {
        // 132 bytes by 7 take 19 reads, and the 20th read finds the end.
        if !ends_reading(alloc, calls, ErrorKind::Other, calls >= 20)?
            || !ends_reading(alloc, calls, ErrorKind::Interrupted, true)?
        {
            return Ok(false);
        }
    }
    Ok(true)
}

/// Runs `STOPPED_PUSH` with writes of at most `at_most` bytes that fail with `kind` after `calls` calls. It
/// returns how the run ended, and what was written by then.
fn ends_writing(
    alloc: Global,
    at_most: usize,
    calls: usize,
    kind: ErrorKind,
) -> (Result<(), ScheduleError>, Vec<u8>) {
    let mut reader = STOPPED_PUSH;
    let mut writer = Faulty::new(Vec::new(alloc), at_most, calls, kind);
    let ended = ran_in(alloc, alloc, &mut reader, &mut writer);
    (ended, writer.bytes)
}

/// Whether a run ended as it has to by what it has written: with `WriteFailed` after a beginning of the
/// output, and with success after all of it.
fn has_ended_right(ended: Result<(), ScheduleError>, written: &[u8]) -> bool {
    if written.len() < STOPPED_PUSH_OUTPUT.len() {
        ended == Err(ScheduleError::WriteFailed) && STOPPED_PUSH_OUTPUT.starts_with(written)
    } else {
        ended == Ok(()) && written == STOPPED_PUSH_OUTPUT
    }
}

/// Whether a run ends right whose writes fail after `calls` calls, and has written something by then, and a
/// run whose write is interrupted at that call writes all.
fn ends_right(alloc: Global, calls: usize) -> bool {
    let (ended, written) = ends_writing(alloc, 5, calls, ErrorKind::Other);
    let (went_on, all) = ends_writing(alloc, 5, calls, ErrorKind::Interrupted);
    has_ended_right(ended, written.as_slice())
        && (calls == 0 || !written.is_empty())
        && went_on == Ok(())
        && all.as_slice() == STOPPED_PUSH_OUTPUT
}

/// Whether runs end right whose writes fail after 0 to 89 calls, or whose writer accepts no byte, never
/// fails, or fails when it is flushed.
pub fn writes_end_right(alloc: Global) -> bool {
    for calls in 0..90 {
        if !ends_right(alloc, calls) {
            return false;
        }
    }
    let (none, _) = ends_writing(alloc, 0, 90, ErrorKind::Other);
    let (all, _) = ends_writing(alloc, 5, 90, ErrorKind::Other);
    none == Err(ScheduleError::WriteFailed) && all == Ok(()) && flushes_end_right(alloc)
}

/// Whether a run says that a write failed if its writer fails when it is flushed. One input is a right
/// schedule, the other is malformed in its second line.
fn flushes_end_right(alloc: Global) -> bool {
    for input in [STOPPED_PUSH, b"index_queue 1 1\n0 jump"] {
        let mut reader = input;
        if ran_in(alloc, alloc, &mut reader, &mut Stuck) != Err(ScheduleError::WriteFailed) {
            return false;
        }
    }
    true
}

/// How a run ended, the line that is told of it, and the exit status.
type Told = (Result<(), ScheduleError>, &'static [u8], u8);

/// Each way to end. A line number may be any number of 64 bits.
const TOLD: [Told; 6] = [
    (Ok(()), b"", 0),
    (
        Err(ScheduleError::Malformed(u64::MAX, Cause::ProvidedCapacityIsZero)),
        b"line 18446744073709551615: ProvidedCapacityIsZero\n",
        2,
    ),
    (
        Err(ScheduleError::Malformed(10, Cause::BadValue)),
        b"line 10: bad value\n",
        2,
    ),
    (Err(ScheduleError::ReadFailed), b"read failed\n", 1),
    (Err(ScheduleError::WriteFailed), b"write failed\n", 1),
    (Err(ScheduleError::NoMemory), b"no memory\n", 1),
];

/// Whether the right line is told of this end and the right exit status is returned. The status stays the
/// same if the line cannot be written.
fn is_told(alloc: Global, ran: &Result<(), ScheduleError>, wanted: &[u8], exit: u8) -> bool {
    let mut errors = Vec::new(alloc);
    let answer = told(ran, &mut errors);
    // The write of the line may fail; the exit status has to be the same.
    let mut broken = Faulty::new(Vec::new(alloc), 5, 1, ErrorKind::Other);
    let same = told(ran, &mut broken);
    answer == exit
        && errors.as_slice() == wanted
        && same == exit
        && wanted.starts_with(broken.bytes.as_slice())
}

/// Whether the right line and status are told of each way to end (`TOLD`).
pub fn are_told(alloc: Global) -> bool {
    for (ran, wanted, exit) in &TOLD {
        if !is_told(alloc, ran, wanted, *exit) {
            return false;
        }
    }
    true
}
