//! Calls of a machine, and of what reads and prints a schedule, without contracts. For a caller that needs
//! none: no contract of theirs is loaded or proved at its calls.
use crate::explained::run_and_explain;
use crate::runs::{self, machine_of, run_and_tell, run_in};
use crate::told::status;
use machine_parts::running::Running;
use model::event::{Event, Start};
use model::party::Progress;
use model::turn::{Kind, Refusal, Shape, Turn};
use std::alloc::{Allocator, Global};
use std::io::{Read, Write};
use std::str;
use steps::container::state::ContainerState;
use steps::enums::UniqueIndexCreationError;
use steps::words::Words;
use texts::error::{Cause, ScheduleError};
use texts::grammar::{Command, Setup, command_of, setup_of};
use texts::line::Line;

/// What takes turns: a machine, as a bound. A function over a type parameter with this bound is proved
/// without the types of which a machine is made.
pub trait TakesTurns<T: Words> {
    fn forget(&mut self);

    fn step(&mut self, turn: Turn<T>) -> Result<(), Refusal>;

    fn words(&self) -> &[u64];

    fn events(&self) -> &[Event<T>];

    fn under_way(&self, party: u32) -> Option<Progress>;

    fn start(&self, party: u32) -> Option<Start<T>>;

    fn is_going(&self, party: u32) -> bool;

    fn state(&self, party: u32) -> Option<&ContainerState<T>>;
}

impl<T: Words> TakesTurns<T> for Running<T> {
    fn forget(&mut self) {
        Running::forget(self)
    }

    fn step(&mut self, turn: Turn<T>) -> Result<(), Refusal> {
        Running::step(self, turn)
    }

    fn words(&self) -> &[u64] {
        Running::words(self)
    }

    fn events(&self) -> &[Event<T>] {
        Running::events(self)
    }

    fn under_way(&self, party: u32) -> Option<Progress> {
        Running::under_way(self, party)
    }

    fn start(&self, party: u32) -> Option<Start<T>> {
        Running::start(self, party)
    }

    fn is_going(&self, party: u32) -> bool {
        Running::is_going(self, party)
    }

    fn state(&self, party: u32) -> Option<&ContainerState<T>> {
        Running::state(self, party)
    }
}

/// A new machine.
pub fn made_of<T: Words>(
    alloc: Global,
    shape: Shape,
    parties: u32,
) -> Result<Running<T>, UniqueIndexCreationError> {
    Running::new(alloc, shape, parties)
}

/// The machine of a first line that was read. The error says why there is none.
pub fn opened(alloc: Global, setup: Setup) -> Result<Running<u128>, ScheduleError> {
    runs::opened(alloc, setup)
}

/// Reads the first line, whatever the capacity is.
pub fn read_words(line: &[u8]) -> Result<Setup, Cause> {
    setup_of(line)
}

/// Reads the first line, where no machine is made of it. The capacity is tested last.
pub fn read_setup(line: &[u8]) -> Result<Setup, Cause> {
    machine_of(line)
}

/// Reads a line after the first.
pub fn read_command(kind: Kind, line: &[u8]) -> Result<Command, Cause> {
    command_of(kind, line)
}

/// The line of an event.
pub fn line_of(event: &Event<u128>) -> Line {
    Line::of_event(event)
}

/// The line of a refused turn.
pub fn line_of_refusal(refusal: Refusal) -> Line {
    Line::of_refusal(refusal)
}

/// The line of an error.
pub fn line_of_error(error: ScheduleError) -> Line {
    Line::of_error(error)
}

/// A line without its line feed.
pub fn text_of(line: &Line) -> &str {
    let text = str::from_utf8(line.as_bytes()).unwrap_or("");
    text.strip_suffix('\n').unwrap_or(text)
}

/// A whole run, as `runs::run_in` does it.
pub fn ran_in<A: Allocator, R: Read, W: Write>(
    buffers: A,
    alloc: Global,
    reader: &mut R,
    writer: &mut W,
) -> Result<(), ScheduleError> {
    run_in(buffers, alloc, reader, writer)
}

/// What is told of a run, and the exit status.
pub fn told<W: Write>(ran: &Result<(), ScheduleError>, errors: &mut W) -> u8 {
    status(ran, errors)
}

/// A whole run, what is told of it, and the exit status.
pub fn ran_and_told<A: Allocator, R: Read, W: Write, E: Write>(
    buffers: A,
    alloc: Global,
    reader: &mut R,
    output: &mut W,
    errors: &mut E,
) -> u8 {
    run_and_tell(buffers, alloc, reader, output, errors)
}

/// A whole run, what is told of it with what explains it, and the exit status.
pub fn ran_and_explained<R: Read, W: Write, E: Write>(
    alloc: Global,
    reader: &mut R,
    output: &mut W,
    errors: &mut E,
) -> u8 {
    run_and_explain(alloc, reader, output, errors)
}
