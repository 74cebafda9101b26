//! After `--turns` or `--words`: what each turn did, with how far the latest call of each party has come, what its state of
//! a container shows and, after `--words`, all words.
use model::party::Progress;
use model::turn::{Refusal, Turn};
use schedule::bare::{
    TakesTurns, line_of, line_of_refusal, opened, read_command, read_words, text_of,
};
use schedule::error::{Cause, ScheduleError};
use schedule::grammar::{Command, Setup};
use schedule::input::whole_input;
use schedule::output::put_pen;
use schedule::pen::Pen;
use schedule::status;
use schedule::text::{Rest, lines};
use std::alloc::Global;
use std::io::{Read, Write};

/// The output tells of the parties, and of the indices of a container, below this number; and of the party
/// whose turn it was.
const MOST: u64 = 8;

/// What was shown is written once it has so many bytes.
const ROOM: usize = 65536;

/// A machine whose turns are shown, and the text that is written.
#[derive(Drop)]
struct Shown<M> {
    setup: Setup,
    machine: M,
    has_words: bool,
    pen: Pen,
}

// The party whose turn it is, or any number where an owner dies.
fn party_of(turn: &Turn<u128>) -> u32 {
    match *turn {
        Turn::Begin(party, _) | Turn::Next(party) | Turn::Decide(party, _) => party,
        Turn::Die(_) => 0,
    }
}

impl<M: TakesTurns<u128>> Shown<M> {
    /// Adds the events of the turn.
    fn show_events(&mut self) {
        for event in self.machine.events() {
            let line = line_of(event);
            self.pen.put(text_of(&line));
            self.pen.put("\n");
        }
    }

    /// Adds why a turn was refused.
    fn show_refusal(&mut self, refusal: Refusal) {
        let line = line_of_refusal(refusal);
        self.pen.put(text_of(&line));
        self.pen.put("\n");
    }

    /// Takes one turn of the line `number`, and shows it. Answers whether its call goes on.
    fn take(&mut self, number: u64, turn: &Turn<u128>) -> bool {
        let party = party_of(turn);
        self.machine.forget();
        let refusal = self.machine.step(*turn).err();
        self.pen.large("turn ", u128::from(number));
        self.pen.put("\n");
        self.show_events();
        if let Some(refusal) = refusal {
            self.show_refusal(refusal);
        }
        self.show(party);
        refusal.is_none() && self.machine.is_going(party)
    }

    /// Takes up to `most` turns `Next` of the party, until its call is over or a turn is refused.
    fn take_nexts(&mut self, number: u64, party: u32, most: u64) {
        for _ in 0..most {
            if !self.take(number, &Turn::Next(party)) {
                return;
            }
        }
    }

    /// Takes the turn or turns of a line.
    fn take_all(&mut self, number: u64, command: Command) {
        match command {
            Command::Once(turn) => {
                let _goes_on = self.take(number, &turn);
            }
            Command::Times(party, most) => self.take_nexts(number, party, most),
        }
    }

    /// Adds the machine's words.
    fn show_words(&mut self) {
        self.pen.put("words");
        for word in self.machine.words() {
            self.pen.large(" ", u128::from(*word));
        }
        self.pen.put("\n");
    }

    /// Adds how far the party's latest call has come.
    fn show_progress(&mut self, party: u32, progress: Progress) {
        self.pen.large("call ", u128::from(party));
        self.pen.large(" ", u128::from(progress.steps));
        self.pen.large(" ", u128::from(progress.backs));
        self.pen.large(" ", u128::from(progress.others));
        self.pen
            .put(if progress.finished { " ended\n" } else { "\n" });
    }

    /// Adds how far the party's latest call has come, and what its state shows.
    fn show_party(&mut self, party: u32) {
        if let Some(progress) = self.machine.under_way(party) {
            self.show_progress(party, progress);
        }
        self.show_state(party);
    }

    /// Adds what the party's state shows, if it has one.
    fn show_state(&mut self, party: u32) {
        let Some(state) = self.machine.state(party) else {
            return;
        };
        for index in 0..MOST {
            if let Some(value) = state.get(index as usize) {
                self.pen.large("state ", u128::from(party));
                self.pen.large(" ", u128::from(index));
                self.pen.large(" ", *value);
                self.pen.put("\n");
            }
        }
    }

    // Adds what stands after a turn of this party: how far each call is, what its state shows, and the words
    // if these are asked for.
    fn show(&mut self, party: u32) {
        if self.has_words {
            self.show_words();
        }
        for number in 0..MOST {
            self.show_party(number as u32);
        }
        if u64::from(party) >= MOST {
            self.show_party(party);
        }
    }

    /// Does the lines after the first, and writes what they did. `bytes` is at least their number.
    fn lines<W: Write>(
        &mut self,
        bytes: usize,
        rest: Rest<'_>,
        output: &mut W,
    ) -> Result<(), ScheduleError> {
        let mut left = rest;
        for at in 0..bytes {
            let Some((line, rest)) = left.first() else {
                return Ok(());
            };
            let number = (at as u64).saturating_add(2);
            if !line.is_empty() {
                match read_command(self.setup.shape.kind(), line) {
                    Ok(command) => self.take_all(number, command),
                    Err(cause) => return Err(ScheduleError::Malformed(number, cause)),
                }
            }
            put_pen(output, &mut self.pen, ROOM)?;
            left = rest;
        }
        Ok(())
    }
}

/// The whole run of a machine, up to a malformed line.
fn run_on<M: TakesTurns<u128> + Drop, W: Write>(
    alloc: Global,
    has_words: bool,
    setup: Setup,
    machine: M,
    bytes: usize,
    rest: Rest<'_>,
    output: &mut W,
) -> Result<(), ScheduleError> {
    let mut shown = Shown {
        setup,
        machine,
        has_words,
        pen: Pen::new(alloc),
    };
    let ended = shown.lines(bytes, rest, output);
    put_pen(output, &mut shown.pen, 0)?;
    ended
}

/// Shows the turns of a schedule on this input.
fn run<R: Read, W: Write>(
    alloc: Global,
    has_words: bool,
    reader: &mut R,
    output: &mut W,
) -> Result<(), ScheduleError> {
    let input = whole_input(alloc, reader)?;
    let Some((first, rest)) = lines(&input).first() else {
        return Err(ScheduleError::Malformed(1, Cause::MissingValue));
    };
    let setup = match read_words(first) {
        Ok(setup) => setup,
        Err(cause) => return Err(ScheduleError::Malformed(1, cause)),
    };
    match opened(alloc, setup) {
        Ok(machine) => run_on(alloc, has_words, setup, machine, input.len(), rest, output),
        Err(e) => Err(e),
    }
}

/// Runs the schedule that is read to its end, shows its turns, and answers the exit status.
pub fn run_and_show<R: Read, W: Write, E: Write>(
    alloc: Global,
    has_words: bool,
    reader: &mut R,
    output: &mut W,
    errors: &mut E,
) -> u8 {
    status(&run(alloc, has_words, reader, output), errors)
}
