//! The player of bare lines: the words of a structure, what its family keeps beside them, the calls of
//! parties, and the lines that change or show them. Unlike a machine it lets a line write any word.
use model::event::{Event, Start};
use model::families::Registry;
use model::party::Progress;
use model::turn::{Kind, Refusal, Shape, Turn};
use schedule::bare::{line_of, line_of_refusal, read_command, read_words, text_of};
use schedule::grammar::Command;
use schedule::pen::Pen;
use std::alloc::Global;
use steps::enums::OwnerId;
use steps::indices::head::HeadDetails;
use turns::families;

/// The latest call of each party. `Seats` has the calls; this trait keeps their types, of all families, away
/// from the functions of this file, whose proofs are smaller so.
pub trait Calls {
    /// Begins this call of the party `number`, or says why it may not begin.
    fn begin(
        &mut self,
        kind: Kind,
        capacity: u32,
        kept: &Registry<u128>,
        number: u32,
        start: Start<u128>,
    ) -> Result<(), Refusal>;

    /// Lets the party's call take its step, or hands it the decision `said`. The answer says why the machine
    /// would refuse this turn.
    fn go_on(&mut self, number: u32, said: Option<bool>, world: &mut World) -> Result<(), Refusal>;

    /// How far the latest call of the party has come. None where it has made none.
    fn progress(&self, party: u32) -> Option<Progress>;

    /// Whether a call of the party is under way and asks for no decision, so that a further turn is a step.
    fn is_going(&self, party: u32) -> bool;

    /// Prints what a call that is under way says of itself, as `word` asks. None where no call is under way,
    /// or it says no such thing.
    fn tell(&self, party: u32, word: &str, rest: &str, pen: &mut Pen) -> Option<()>;
}

/// What the parties share: the words of the structure, what its family keeps beside them (`kept`), and the
/// events that happened.
pub struct World {
    pub words: Vec<u64>,
    pub kept: Registry<u128>,
    pub events: Vec<Event<u128>>,
}

impl Drop for World {
    fn drop(self) {
        let Self {
            words: _words,
            kept: _kept,
            events: _events,
        } = self;
    }
}

/// A structure with its parties: its kind and capacity, the world, and the latest calls.
struct Bare<C> {
    alloc: Global,
    kind: Kind,
    capacity: u32,
    world: World,
    calls: C,
}

impl<C: Drop> Drop for Bare<C> {
    fn drop(self) {
        let Self {
            alloc: _,
            kind: _,
            capacity: _,
            world: _world,
            calls: _calls,
        } = self;
    }
}

// Writes down that this owner has died. False where there is no memory. It is a function of all types of
// values, since the checker has a bug for this one type alone.
fn write_death<T: Copy>(events: &mut Vec<Event<T>>, owner: OwnerId) -> bool {
    let Ok(()) = events.reserve(1) else {
        return false;
    };
    events.push_reserved(Event::Died(owner));
    true
}

/// Adds the numbers of a text, which spaces part. None where one is no number, or there is no memory.
fn put_numbers(numbers: &mut Vec<u64>, text: &str) -> Option<()> {
    for word in text.split(' ') {
        numbers.push(word.parse().ok()?).ok()?;
    }
    Some(())
}

impl World {
    /// The world of a new structure of this shape, without events. None where the shape or memory is refused.
    fn opened(alloc: Global, shape: Shape) -> Option<World> {
        let capacity = u32::try_from(shape.capacity()).ok()?;
        let queue = u32::try_from(shape.queue()).ok()?;
        let (words, kept) = families::opening::<u128>(alloc, shape.kind(), capacity, queue).ok()?;
        Some(World {
            words,
            kept,
            events: Vec::new(alloc),
        })
    }

    /// Marks this owner as dead and writes the event down, or says why the family refuses it.
    fn die(&mut self, owner: OwnerId) -> Result<(), Refusal> {
        if let Some(refusal) = families::death_refusal(&self.kept, owner) {
            return Err(refusal);
        }
        if families::mark_dead(&mut self.kept, owner) && write_death(&mut self.events, owner) {
            Ok(())
        } else {
            Err(Refusal::NoMemory)
        }
    }

    /// Writes down that the party `number` has begun this call. Refused where there is no memory.
    fn write_begun(&mut self, number: u32, start: Start<u128>) -> Result<(), Refusal> {
        let Ok(()) = self.events.reserve(1) else {
            return Err(Refusal::NoMemory);
        };
        self.events.push_reserved(Event::Begun(number, start));
        Ok(())
    }

    /// Writes a word at this place. None where there is no such place.
    fn put(&mut self, at: usize, word: u64) -> Option<()> {
        let old = self.words.get_mut(at)?;
        *old = word;
        Some(())
    }

    /// `3 7`: another party writes 7 into the word 3. None where the line is malformed or
    /// there is no such word.
    fn write(&mut self, rest: &str) -> Option<()> {
        let (at, word) = rest.split_once(' ')?;
        self.put(at.parse().ok()?, word.parse().ok()?)
    }

    /// `0 65535 2`: another party writes the head word of a unique index set, given by its first free index,
    /// its number against ABA and the count of borrowed indices.
    fn write_head(&mut self, rest: &str) -> Option<()> {
        let (head, rest) = rest.split_once(' ')?;
        let (aba, borrowed) = rest.split_once(' ')?;
        let details = HeadDetails {
            head: head.parse().ok()?,
            aba: aba.parse().ok()?,
            borrowed_indices: borrowed.parse().ok()?,
        };
        self.put(0, details.value())
    }

    /// Notes that the party holds this index from now on. None where the family is not that
    /// of unique index sets.
    fn hold(&mut self, party: u32, index: u32) -> Option<()> {
        match &mut self.kept {
            Registry::Indices(holders) => {
                holders.put(index, Some(party));
                Some(())
            }
            _ => None,
        }
    }

    /// Prints the events from the place `before` on, a line for each.
    fn tell_events(&self, before: usize, pen: &mut Pen) {
        for at in before..self.events.len() {
            if let Some(event) = self.events.get(at) {
                let line = line_of(event);
                pen.put(text_of(&line));
                pen.put("\n");
            }
        }
    }

    /// Prints all words on a line.
    fn tell_words(&self, pen: &mut Pen) {
        pen.put("words");
        for word in self.words.iter() {
            pen.large(" ", u128::from(*word));
        }
        pen.put("\n");
    }

    /// The value that the party's state of a container shows at an index, if there is such a
    /// state, and it shows one.
    fn value(&self, party: u32, index: u32) -> Option<u128> {
        match &self.kept {
            Registry::Container(_, states) => states.get(party)?.get(index as usize).copied(),
            _ => None,
        }
    }

    /// Prints each index and value that the party's state of a container shows, a line for each.
    fn tell_state(&self, party: u32, capacity: u32, pen: &mut Pen) {
        for index in 0..capacity {
            if let Some(value) = self.value(party, index) {
                pen.large("state ", u128::from(party));
                pen.large(" ", u128::from(index));
                pen.large(" ", value);
                pen.put("\n");
            }
        }
    }
}

/// Prints the line of a refusal.
fn tell_refusal(refusal: Refusal, pen: &mut Pen) {
    let line = line_of_refusal(refusal);
    pen.put(text_of(&line));
    pen.put("\n");
}

/// Prints how far the party's call has come: its steps, how often it went back, the steps of others
/// meanwhile, and whether it has ended.
fn tell_progress(party: u32, progress: Progress, pen: &mut Pen) {
    pen.large("call ", u128::from(party));
    pen.large(" ", u128::from(progress.steps));
    pen.large(" ", u128::from(progress.backs));
    pen.large(" ", u128::from(progress.others));
    pen.put(if progress.finished { " ended\n" } else { "\n" });
}

impl<C: Calls> Bare<C> {
    /// Begins a call of the party `number`: the calls admit it, the family keeps what it says, and the event
    /// is written down.
    fn begin(&mut self, number: u32, start: Start<u128>) -> Result<(), Refusal> {
        self.calls
            .begin(self.kind, self.capacity, &self.world.kept, number, start)?;
        if !families::keep(&mut self.world.kept, self.capacity, &start, number) {
            return Err(Refusal::NoMemory);
        }
        self.world.write_begun(number, start)
    }

    /// Takes this turn of a schedule, or says why it is refused.
    fn step(&mut self, turn: Turn<u128>) -> Result<(), Refusal> {
        match turn {
            Turn::Begin(number, start) => self.begin(number, start),
            Turn::Next(number) => self.calls.go_on(number, None, &mut self.world),
            Turn::Decide(number, said) => self.calls.go_on(number, Some(said), &mut self.world),
            Turn::Die(owner) => self.world.die(owner),
        }
    }

    /// Takes a turn, and prints the number of its line, the events of the turn, and its refusal, if any.
    /// False where it was refused.
    fn take(&mut self, number: u64, turn: Turn<u128>, pen: &mut Pen) -> bool {
        let before = self.world.events.len();
        let went = self.step(turn);
        pen.large("turn ", u128::from(number));
        pen.put("\n");
        self.world.tell_events(before, pen);
        match went {
            Ok(()) => true,
            Err(refusal) => {
                tell_refusal(refusal, pen);
                false
            }
        }
    }

    /// Takes the turns of one line. A line `next M` ends early at a refusal, at the end of the call, or at a
    /// decision that it asks for.
    fn take_all(&mut self, number: u64, command: Command, pen: &mut Pen) {
        match command {
            Command::Once(turn) => {
                self.take(number, turn, pen);
            }
            Command::Times(party, most) => {
                for _ in 0..most {
                    if !self.take(number, Turn::Next(party), pen) || !self.calls.is_going(party) {
                        break;
                    }
                }
            }
        }
    }

    /// `words 1 2 3`: replaces all words by these numbers.
    fn set(&mut self, rest: &str) -> Option<()> {
        let mut words = Vec::new(self.alloc);
        put_numbers(&mut words, rest)?;
        self.world.words = words;
        Some(())
    }

    /// `0 shows`: prints the words, how far the party's latest call has come, and what its state of a
    /// container shows.
    fn show(&self, party: u32, pen: &mut Pen) {
        self.world.tell_words(pen);
        if let Some(progress) = self.calls.progress(party) {
            tell_progress(party, progress, pen);
        }
        self.world.tell_state(party, self.capacity, pen);
    }

    /// Does what a line says that begins with a party and is no turn: `shows`, `holds`, or a question to the
    /// party's call. None where it can not be done.
    fn do_for(&mut self, party: u32, rest: &str, pen: &mut Pen) -> Option<()> {
        let (word, rest) = rest.split_once(' ').unwrap_or((rest, ""));
        match word {
            "shows" => {
                self.show(party, pen);
                Some(())
            }
            "holds" => self.world.hold(party, rest.parse().ok()?),
            _ => self.calls.tell(party, word, rest, pen),
        }
    }

    /// Does what a line says that is no turn of a schedule: it changes words, or is about a party. None where
    /// it can not be done.
    fn do_other(&mut self, line: &str, pen: &mut Pen) -> Option<()> {
        let (word, rest) = line.split_once(' ')?;
        match word {
            "words" => self.set(rest),
            "write" => self.world.write(rest),
            "head" => self.world.write_head(rest),
            _ => self.do_for(word.parse().ok()?, rest, pen),
        }
    }

    /// Does what the line of this number says, and prints what comes of it. A line that is no turn and can
    /// not be done is answered by `refused Unread`.
    fn do_line(&mut self, number: u64, line: &str, pen: &mut Pen) {
        if let Ok(command) = read_command(self.kind, line.as_bytes()) {
            return self.take_all(number, command, pen);
        }
        pen.large("turn ", u128::from(number));
        pen.put("\n");
        if self.do_other(line, pen).is_none() {
            pen.put("refused Unread\n");
        }
    }
}

/// Opens the structure that the first line names, and does what each other line says with these calls. Lines
/// are numbered from 2 on. None where no structure is opened.
pub fn play<C: Calls + Drop>(alloc: Global, calls: C, text: &str, pen: &mut Pen) -> Option<()> {
    let (first, rest) = text.split_once('\n')?;
    let shape = read_words(first.as_bytes()).ok()?.shape;
    let mut bare = Bare {
        alloc,
        kind: shape.kind(),
        capacity: u32::try_from(shape.capacity()).ok()?,
        world: World::opened(alloc, shape)?,
        calls,
    };
    for (at, line) in rest.lines().enumerate() {
        bare.do_line((at as u64).wrapping_add(2), line, pen);
    }
    Some(())
}
