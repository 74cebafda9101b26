//! A whole run: the input is read, the machine is made, and the lines are done one after another.
ghost use Rattle.std.specs.Prelude.{◌≡◌, ◌-◌, ◌^◌, ◌<◌, ◌≤◌, ℕ, Bool, Option, Some, None, List, Result, OnOk, IfOk, IfErr};
ghost use Rattle.std.specs.Prelude.{length, take, drop};
ghost use Rattle.texts.specs.Grammar.{Gives};
ghost use Rattle.schedule.specs.Output.{world_of, outcome, nexts, commanded, lines_from, capacity_cause, setup_error};
ghost use Rattle.schedule.specs.Output.{machine_of, trace_of, output_of};
ghost use Rattle.schedule.specs.Told.{exit_of, message_text};
ghost use Rattle.schedule.specs.Run.{IsTurn, Prints, IsUnopened, IsOutput, IsRun};
ghost use Rattle.texts.specs.Text.{words, words_left};
ghost use Rattle.schedule.specs.Written.{AppendsPart};
ghost use Rattle.texts.specs.declared.error.ScheduleError.{ScheduleError};

use crate::input::whole_input;
use crate::output::{flush, put_events, put_refusal};
use crate::told::status;
use machine_parts::running::Running;
use model::event::Event;
use model::turn::{Kind, Turn, shape_error};
use std::alloc::{Allocator, Global};
use std::io::{BufWriter, Read, Write};
use steps::enums::UniqueIndexCreationError;
use texts::error::{Cause, ScheduleError};
use texts::grammar::{Command, Setup, command_of, setup_of};
use texts::line::Line;
use texts::text::{Rest, lines};

// Takes one turn, and prints its events, each made in the room of `line`, or why it was refused.
#[inline(always)]
fn take_turn<W: Write>(
    machine: &mut Running<u128>,
    turn: Turn<u128>,
    line: &mut Line,
    writer: &mut W,
) -> Result<(), ScheduleError>
    ensures { (short : Bool) × IsTurn (outcome short (world_of machine.old) turn)
        (world_of machine.new) (W.contents writer.old) (W.contents writer.new) result }
{
    let before = machine.events().len();
    match machine.step(turn) {
        Ok(()) => put_events(writer, line, &machine.events()[before..]),
        Err(refusal) => put_refusal(writer, refusal),
    }
}

// The events from this place on.
fn events_from(events: &[Event<u128>], from: usize) -> &[Event<u128>]
    requires { from ≤ length events.now }
    ensures { result.now ≡ take (length events.now - from) (drop from events.now) }
{
    &events[from..]
}

// Takes up to `most` turns of the party's call. It prints their events once all are taken,
// and why one was refused.
fn take_nexts<W: Write>(
    machine: &mut Running<u128>,
    party: u32,
    most: u64,
    line: &mut Line,
    writer: &mut W,
) -> Result<(), ScheduleError>
    ensures { Prints (nexts most party) (world_of machine.old) (world_of machine.new)
        (W.contents writer.old) (W.contents writer.new) result }
{
    let before = machine.events().len();
    let stopped = machine.nexts(party, most);
    match put_events(writer, line, events_from(machine.events(), before)) {
        Ok(()) => {}
        Err(e) => return Err(e),
    }
    match stopped {
        Ok(()) => Ok(()),
        Err(stopped) => {
            if stopped.taken > 0 && !machine.is_going(party) {
                return Ok(());
            }
            put_refusal(writer, stopped.refusal)
        }
    }
}

// Does what a line asks for.
fn do_command<W: Write>(
    machine: &mut Running<u128>,
    command: Command,
    line: &mut Line,
    writer: &mut W,
) -> Result<(), ScheduleError>
    ensures { Prints (commanded command) (world_of machine.old) (world_of machine.new)
        (W.contents writer.old) (W.contents writer.new) result }
{
    machine.forget();
    match command {
        Command::Once(turn) => take_turn(machine, turn, line, writer),
        Command::Times(party, most) => take_nexts(machine, party, most, line, writer),
    }
}

// Does the lines after the first.
fn do_lines<W: Write>(
    kind: Kind,
    lines: Rest<'_>,
    machine: &mut Running<u128>,
    writer: &mut W,
) -> Result<(), ScheduleError>
    requires { length (words_left lines) < 2 ^ 63 }
    ensures { IsOutput
        (λ refusals. lines_from kind 2 (words_left lines.entry)
        (record { world = world_of machine.old; refusals = refusals }))
        (W.contents writer.old) (W.contents writer.new) result }
{
    let mut printed = Line::new();
    let mut left = lines;
    let mut number = 2u64;
    while let Some((line, rest)) = left.first() {
        if !line.is_empty() {
            match command_of(kind, line) {
                Ok(command) => match do_command(machine, command, &mut printed, writer) {
                    Ok(()) => {}
                    Err(e) => return Err(e),
                },
                Err(cause) => return Err(ScheduleError::Malformed(number, cause)),
            }
        }
        number += 1;
        left = rest;
    }
    Ok(())
}

// What a refusal of the machine says of the first line; refused memory says nothing.
fn capacity_cause(error: UniqueIndexCreationError) -> Option<Cause>
    ensures { result ≡ capacity_cause (Some error) }
{
    match error {
        UniqueIndexCreationError::ProvidedCapacityGreaterThanMaxCapacity => {
            Some(Cause::ProvidedCapacityGreaterThanMaxCapacity)
        }
        UniqueIndexCreationError::ProvidedCapacityIsZero => Some(Cause::ProvidedCapacityIsZero),
        UniqueIndexCreationError::NoMemory => None,
    }
}

/// Makes the machine of a first line that was read. It is here that its capacity is tested.
pub fn opened(alloc: Global, setup: Setup) -> Result<Running<u128>, ScheduleError>
    ensures ok { IfOk result (λ machine. world_of machine ≡ (trace_of setup).world) }
    ensures admitted { OnOk result (setup_error setup ≡ None) }
    ensures refused { IfErr result (IsUnopened setup) }
{
    match Running::new(alloc, setup.shape, setup.parties) {
        Ok(machine) => Ok(machine),
        Err(error) => match capacity_cause(error) {
            Some(cause) => Err(ScheduleError::Malformed(1, cause)),
            None => Err(ScheduleError::NoMemory),
        },
    }
}

/// Reads the first line where no machine is made of it. The error is the first from the left, and last comes a capacity
/// that the kind does not admit.
#[tactic(auto, unfolding(crate::specs::Output::machine_of))]
pub fn machine_of(line: &[u8]) -> Result<Setup, Cause>
    ensures { Gives (λ setup. setup) result (machine_of (words line.now)) }
{
    let setup = setup_of(line)?;
    match shape_error(setup.shape) {
        None => Ok(setup),
        Some(error) => match capacity_cause(error) {
            Some(cause) => Err(cause),
            None => Ok(setup),
        },
    }
}

// Does the whole text.
fn do_text<W: Write>(alloc: Global, input: &[u8], writer: &mut W) -> Result<(), ScheduleError>
    requires { length input.now < 2 ^ 63 }
    ensures { IsOutput (output_of input.now) (W.contents writer.old) (W.contents writer.new) result }
{
    let Some((first, rest)) = lines(input).first() else {
        return Err(ScheduleError::Malformed(1, Cause::MissingValue));
    };
    let setup = match setup_of(first) {
        Ok(setup) => setup,
        Err(cause) => return Err(ScheduleError::Malformed(1, cause)),
    };
    match opened(alloc, setup) {
        Ok(mut machine) => do_lines(setup.shape.kind(), rest, &mut machine, writer),
        Err(e) => Err(e),
    }
}

// Runs a whole text.
fn run_text<W: Write>(alloc: Global, input: &[u8], writer: &mut W) -> Result<(), ScheduleError>
    requires { length input.now < 2 ^ 63 }
    ensures { IsRun (Some input.now) (W.contents writer.old) (W.contents writer.new) result }
{
    match do_text(alloc, input, writer) {
        Ok(()) => flush(writer),
        Err(ScheduleError::Malformed(line, cause)) => match flush(writer) {
            Ok(()) => Err(ScheduleError::Malformed(line, cause)),
            Err(e) => Err(e),
        },
        Err(e) => Err(e),
    }
}

/// The same as `run`, with the input kept in the memory of `buffers`, and the machine in that of `alloc`.
pub fn run_in<A: Allocator, R: Read, W: Write>(
    buffers: A,
    alloc: Global,
    reader: &mut R,
    writer: &mut W,
) -> Result<(), ScheduleError>
    ensures { IsRun (R.remaining reader.old)
        (W.contents writer.old) (W.contents writer.new) result }
{
    let input = match whole_input(buffers, reader) {
        Ok(input) => input,
        Err(e) => return Err(e),
    };
    run_text(alloc, &input, writer)
}

/// Reads a schedule to its end, and then writes what each of its turns did, line by line.
///
/// A turn to which memory is refused changes nothing and prints `refused NoMemory`, as any other refusal prints its name,
/// and the run goes on with the next line. Malformed text, or a capacity that the kind does not admit, is `Malformed`. The
/// output of all earlier lines has then been written. A failed read, and refused memory for the input or the machine, are
/// `ReadFailed` and `NoMemory`, and nothing has been written. A failed write, also of what a writer kept back, is
/// `WriteFailed`, and a beginning of the output has been written.
pub fn run<R: Read, W: Write>(
    alloc: Global,
    reader: &mut R,
    writer: &mut W,
) -> Result<(), ScheduleError>
    ensures { IsRun (R.remaining reader.old)
        (W.contents writer.old) (W.contents writer.new) result }
{
    run_in(alloc, alloc, reader, writer)
}

/// Runs the schedule that is read to its end, with its output gathered into larger writes, tells how it ended, and
/// answers the exit status. The output on its way is kept in the memory of `buffers`.
pub fn run_and_tell<A: Allocator, R: Read, W: Write, E: Write>(
    buffers: A,
    alloc: Global,
    reader: &mut R,
    output: &mut W,
    errors: &mut E,
) -> u8
    ensures { (ran : Result (Unit {0}) ScheduleError)
        × (before : Option (List ℕ)) × (after : Option (List ℕ))
        × IsRun (R.remaining reader.old) before after ran × (result ≡ exit_of ran)
        × AppendsPart (E.contents errors.old) (E.contents errors.new) (message_text ran) }
{
    let ran = match BufWriter::new(buffers, output) {
        Ok(mut writer) => run(alloc, reader, &mut writer),
        Err(_) => Err(ScheduleError::NoMemory),
    };
    status(&ran, errors)
}

/// The same for a text that was read.
pub fn run_text_and_tell<A: Allocator, W: Write, E: Write>(
    buffers: A,
    alloc: Global,
    input: &[u8],
    output: &mut W,
    errors: &mut E,
) -> u8
    requires { length input.now < 2 ^ 63 }
    ensures { (ran : Result (Unit {0}) ScheduleError)
        × (before : Option (List ℕ)) × (after : Option (List ℕ))
        × IsRun (Some input.now) before after ran × (result ≡ exit_of ran)
        × AppendsPart (E.contents errors.old) (E.contents errors.new) (message_text ran) }
{
    let ran = match BufWriter::new(buffers, output) {
        Ok(mut writer) => run_text(alloc, input, &mut writer),
        Err(_) => Err(ScheduleError::NoMemory),
    };
    status(&ran, errors)
}
