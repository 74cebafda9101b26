//! A row: a structure, its numbers, and what each of its threads does.
use crate::desk::Log;
use std::alloc::Global;
use std::str::{Lines, SplitWhitespace};

/// What one thread does: its role, how many of its turns count before it ends, and a number of its own. A
/// thread for which 0 turns count ends once all others have.
#[derive(Clone, Copy)]
pub struct Part<'a> {
    pub role: &'a str,
    pub number: u64,
    pub own: u64,
}

/// How threads overlap, and what is written down.
#[derive(Clone, Copy)]
pub struct Manner {
    /// All threads meet inside the call of each turn whose number is a multiple of this, and never if it is 0.
    pub meets: u64,
    /// How many threads meet.
    pub meeting: u64,
    /// How many turns a thread may take before it gives up.
    pub limit: u64,
    /// Whether each call counts and is written down, and not only one that comes to something.
    pub all: bool,
    /// Whether the threads run one after another.
    pub apart: bool,
}

/// A row, and what came of its rounds so far.
#[derive(Drop)]
pub struct Row<'a> {
    pub alloc: Global,
    pub structure: &'a str,
    pub capacity: usize,
    /// A further number of the structure: how many indices are out from the beginning, or the places of a queue.
    pub more: u64,
    pub rounds: u64,
    pub round: u64,
    pub manner: Manner,
    /// What the threads do, the last one first.
    pub parts: Vec<Part<'a>>,
    pub told: Told,
}

/// The number that this word is, or 0.
fn number_of(word: Option<&str>) -> u64 {
    word.unwrap_or("").parse().unwrap_or(0)
}

/// The part of this line, if there is a line.
fn part_of<'a>(line: Option<&'a str>) -> Option<Part<'a>> {
    let mut words = line?.split_whitespace();
    Some(Part {
        role: words.next()?,
        number: number_of(words.next()),
        own: number_of(words.next()),
    })
}

/// The parts of the lines that are left, of which there are at most four, the last one first. Another one is
/// left out where memory is refused.
fn parts_of<'a>(alloc: Global, lines: &mut Lines<'a>) -> Vec<Part<'a>> {
    let mut parts = Vec::new(alloc);
    for _ in 0..4 {
        if let Some(part) = part_of(lines.next()) {
            let _ = parts.insert(0, part);
        }
    }
    parts
}

impl<'a> Row<'a> {
    /// The row of this text, of which no round has been played.
    pub fn new(alloc: Global, text: &'a str) -> Row<'a> {
        let mut lines = text.lines();
        let name = lines.next().unwrap_or("");
        let mut words = lines.next().unwrap_or("").split_whitespace();
        let parts = parts_of(alloc, &mut lines);
        let threads = parts.len() as u64;
        let mut row = Row {
            alloc,
            structure: words.next().unwrap_or(""),
            capacity: number_of(words.next()) as usize,
            more: 0,
            rounds: 1,
            round: 0,
            manner: Manner {
                meets: 0,
                meeting: threads,
                limit: 100_000_000,
                all: false,
                apart: false,
            },
            parts,
            told: Told::new(alloc, name),
        };
        for _ in 0..8 {
            row.set(&mut words);
        }
        row
    }

    /// Sets what the next two words say: a name and a number.
    fn set(&mut self, words: &mut SplitWhitespace<'a>) {
        let name = words.next().unwrap_or("");
        let number = number_of(words.next());
        match name {
            "more" => self.more = number,
            "rounds" => self.rounds = number,
            "meets" => self.manner.meets = number,
            "meeting" => self.manner.meeting = number,
            "limit" => self.manner.limit = number,
            "all" => self.manner.all = number != 0,
            "apart" => self.manner.apart = number != 0,
            "log" => self.told.log = number != 0,
            _ => {}
        }
    }

    /// How many threads end by their number of turns.
    pub fn workers(&self) -> u64 {
        let mut number = 0u64;
        for part in self.parts.iter() {
            number = number.wrapping_add((part.number != 0) as u64);
        }
        number
    }
}

/// What came of the rounds of a row, as text.
#[derive(Drop)]
pub struct Told {
    alloc: Global,
    pub text: String,
    /// Whether each call is printed.
    log: bool,
    /// Whether no thread saw something wrong or gave up, in all rounds.
    well: bool,
    /// Whether what was put in and what came out were the same in each round.
    even: bool,
    /// Whether memory was refused, so that a part is missing.
    lost: bool,
}

impl Told {
    /// What is told of a row of this name before its first round.
    fn new(alloc: Global, name: &str) -> Told {
        let mut told = Told {
            alloc,
            text: String::new(alloc),
            log: false,
            well: true,
            even: true,
            lost: false,
        };
        told.put(name);
        told
    }

    fn put(&mut self, part: &str) {
        self.lost |= self.text.push_str(part).is_err();
    }

    /// Notes that memory or a pass was refused in a round.
    pub fn refused(&mut self) {
        self.lost = true;
    }

    /// Adds a line for each call of this log, which thread `who` wrote.
    fn calls(&mut self, who: u64, log: &Log) {
        for it in log.calls.iter() {
            let (call, given, began, ended) = (it.call, it.given, it.began, it.ended);
            let line = match it.answer {
                Some(answer) => format!(in self.alloc;
                    "\n{who} {call} {given} {answer} {began} {ended}"
                ),
                None => format!(in self.alloc; "\n{who} {call} {given} - {began} {ended}"),
            };
            match line {
                Ok(line) => self.put(line.as_str()),
                Err(_) => self.lost = true,
            }
        }
    }

    /// Adds a round, with the logs of its threads.
    pub fn round(&mut self, logs: &[Log]) {
        if self.log {
            self.put("\nround");
        }
        let (mut who, mut balance) = (0u64, 0u64);
        for log in logs {
            self.well &= log.well;
            balance = balance.wrapping_add(log.balance);
            if self.log {
                self.calls(who, log);
            }
            who = who.wrapping_add(1);
        }
        self.even &= balance == 0;
    }

    /// Ends what is told of the row.
    pub fn end(&mut self) {
        self.put(match (self.lost, self.well, self.even) {
            (true, _, _) => "\nNoMemory\n",
            (_, false, _) => "\nwrong\n",
            (_, _, false) => "\nuneven\n",
            _ => "\nwell\n",
        });
    }
}
