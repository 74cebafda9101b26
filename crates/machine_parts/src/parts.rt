//! The parts of a machine, and what each turn does to them.
ghost use Rattle.std.specs.Prelude.{◌≡◌, [], ◌+◌, ◌-◌, ◌^◌, ◌≤◌, ◌<◌, true, false, None, OnOk, OnErr, IfOk, IfErr, replicate};
ghost use Rattle.model.specs.Families.{kept_after_begin};
ghost use Rattle.model.specs.Parties.{put};
ghost use Rattle.model.specs.World.{opening_as, shape_error, IsCreationError};
ghost use Rattle.model.specs.Refusals.{refusal_of, IsRefusal};
ghost use Rattle.model.specs.Small.{IsSmall, HasSmallCounts};
ghost use Rattle.model.specs.declared.party.Doing.TheVariants.{Over};
ghost use Rattle.model.specs.Turns.{turn_of, number_of, one_if, after_turn, after_turns, AreAllowed};
ghost use Rattle.model.specs.declared.turn.Turn.TheVariants.{Next};
ghost use Rattle.machine_parts.specs.Parts.{state_of, trace_of, going_refusal, IsGoingRefusal, around, after_turn_of, StandsAlone, Steps};
ghost use Rattle.model.specs.Coding.{coding_by};

use model::event::{Event, Start};
use model::families::{Beside, Registry};
use model::party::{Doing, Latest, Party, Seat};
use model::turn::{Kind, Refusal, Shape, Turn, shape_error};
use std::alloc::Global;
use std::collections::BTreeMap;
use steps::ask::Want;
use steps::enums::{OwnerId, UniqueIndexCreationError};
use steps::words::Words;
use turns::party::flight_of;
use turns::{families, words};

/// The greatest number of turns that a machine takes.
const MOST_TURNS: u64 = u64::MAX - 1;

/// What a machine keeps: its kind, capacity and parties, its words, what its family keeps beside them, each
/// party's latest call, how often words were changed, how many turns were taken, and the events.
pub struct Parts<T> {
    pub kind: Kind,
    pub capacity: u32,
    pub parties: u32,
    pub words: Vec<u64>,
    pub kept: Registry<T>,
    pub latest: Latest<T>,
    pub changes: u64,
    pub turns: u64,
    pub events: Vec<Event<T>>,
}

// This drop is written by hand, so that it is one call in a caller's proof, on each way out of the caller. A
// derived one would be a call for each field, and for the fields of each.
impl<T: Drop> Drop for Parts<T> {
    fn drop(self) {
        let Self {
            kind: _,
            capacity: _,
            parties: _,
            words: _words,
            kept: _kept,
            latest: _latest,
            changes: _,
            turns: _,
            events: _events,
        } = self;
    }
}

/// The answer that a call is handed for a decision: 1 for yes, 0 for no.
fn number_of(said: bool) -> u64
    ensures { result ≡ number_of said }
{
    if said { 1 } else { 0 }
}

/// What a step adds to the count of turns back: 1 where the call begins a turn of its loop again, else 0.
fn one_if(back: bool) -> u64
    ensures { result ≡ one_if back }
{
    if back { 1 } else { 0 }
}

/// Puts this party into the seat.
fn reseat<T: Words>(seat: &mut Seat<T>, party: Party<T>)
    ensures { seat.new ≡ party }
{
    *seat.party = party;
}

/// Makes this call the party's latest, and notes what its family keeps from its begin on. Answers false where
/// memory for one of them is refused, and nothing changes then. A party that has begun a call before takes no
/// more memory for itself.
#[tactic(auto, using(model::proofs::Parties::put_removed))]
fn enter<T: Words>(
    alloc: Global,
    latest: &mut Latest<T>,
    kept: &mut Registry<T>,
    capacity: u32,
    number: u32,
    party: Party<T>,
) -> bool
    ensures latest { result ≡ true → latest.new.entries ≡ put number party latest.old.entries }
    ensures kept { result ≡ true → kept.new
        ≡ kept_after_begin (coding_by T.Words) capacity party.start number kept.old }
    ensures latest_stays { result ≡ false → latest.new.entries ≡ latest.old.entries }
    ensures kept_stays { result ≡ false → kept.new ≡ kept.old }
{
    let start = party.start;
    if let Some(seat) = latest.get_mut(&number) {
        if !families::keep(kept, capacity, &start, number) {
            return false;
        }
        reseat(seat, party);
        return true;
    }
    let Ok(party) = Box::new(alloc, party) else {
        return false;
    };
    if latest.insert(number, Seat { party }).is_err() {
        return false;
    }
    if families::keep(kept, capacity, &start, number) {
        return true;
    }
    latest.remove(&number);
    false
}

/// Ends the party's call, since whose begin others made `others` changes. A function of its own, since it
/// drops the call's flight, which has many variants.
fn finish<T: Words>(party: &mut Party<T>, others: u64)
    ensures { party.new ≡ record party.old { doing = Over others } }
{
    party.doing = Doing::Over(others);
}

/// Takes the next step of the party's call, or hands it the decision `said`, unless the turn is refused. A
/// refused turn changes nothing.
#[inline(always)]
fn take_step<T: Words>(
    party: &mut Party<T>,
    number: u32,
    said: Option<bool>,
    beside: Beside,
    words: &mut Vec<u64>,
    kept: &mut Registry<T>,
    changes: &mut u64,
    events: &mut Vec<Event<T>>,
    turns: u64,
) -> Result<(), Refusal>
    requires turns { turns < 2 ^ 64 - 2 }
    requires changes { changes.old ≤ turns }
    requires small { HasSmallCounts turns changes.old party.old }
    ensures allowed { OnOk result
        (going_refusal (coding_by T.Words) kept.old party.old.doing said ≡ None) }
    ensures refused { IfErr result
        (IsGoingRefusal (coding_by T.Words) kept.old party.old.doing said) }
    ensures ok { OnOk result (around party.new words.new.items kept.new changes.new events.new.items
        ≡ after_turn_of (coding_by T.Words) number said beside party.old.doing
        (around party.old words.old.items kept.old changes.old events.old.items)) }
    ensures party { OnErr result (party.new ≡ party.old) }
    ensures words { OnErr result (words.new.items ≡ words.old.items) }
    ensures kept { OnErr result (kept.new ≡ kept.old) }
    ensures changes { OnErr result (changes.new ≡ changes.old) }
    ensures events { OnErr result (events.new.items ≡ events.old.items) }
{
    let Doing::Going(flight, since) = &mut party.doing else {
        return Err(Refusal::Idle);
    };
    let (want, most) = families::going(flight);
    let ask = match (want, said) {
        (Want::Ask(ask), None) => Some(ask),
        (Want::Question(_), Some(_)) | (Want::Nothing, None) => None,
        _ => return Err(Refusal::Undecided),
    };
    if let Some(refusal) = families::going_refusal(flight, kept, said) {
        return Err(refusal);
    }
    let Ok(()) = events.reserve(most + 1) else {
        return Err(Refusal::NoMemory);
    };
    let access = words::read(words, ask);
    let answer = match said {
        Some(said) => number_of(said),
        None => access.old,
    };
    let went = families::advance(
        flight,
        number,
        &party.start,
        words,
        beside,
        answer,
        kept,
        events,
    );
    *changes += access.change;
    *since += access.change;
    party.steps += words::count(ask);
    party.backs += one_if(went.back);
    if let Some(answer) = went.done {
        events.push_reserved(Event::Finished(number, party.start, answer));
        let others = changes.saturating_sub(*since);
        finish(party, others);
    }
    words::write(words, access);
    Ok(())
}

/// Whether a step of this family may make another party's call act, so that the calls of others
/// have to be looked at.
fn looks_beside<T>(kept: &Registry<T>) -> bool
    ensures { result ≡ false → StandsAlone kept.now }
{
    match kept {
        Registry::Queues(_) | Registry::Loan(_) => true,
        _ => false,
    }
}

/// Takes up to `most` steps of the party's call, and answers how many: it stops at the first that is refused.
/// It takes none in a family whose steps may make another party's call act.
fn take_steps<T: Words>(
    party: &mut Party<T>,
    number: u32,
    most: u64,
    words: &mut Vec<u64>,
    kept: &mut Registry<T>,
    changes: &mut u64,
    events: &mut Vec<Event<T>>,
    turns: u64,
) -> u64
    requires turns { turns + most ≤ 2 ^ 64 - 2 }
    requires changes { changes.old ≤ turns }
    requires small { HasSmallCounts turns changes.old party.old }
    ensures most { result ≤ most }
    ensures steps { Steps (coding_by T.Words) number result
        (around party.old words.old.items kept.old changes.old events.old.items)
        (around party.new words.new.items kept.new changes.new events.new.items) }
{
    for taken in 0..most {
        if looks_beside(kept) {
            return taken;
        }
        match take_step(
            party,
            number,
            None,
            None,
            words,
            kept,
            changes,
            events,
            turns + taken,
        ) {
            Ok(()) => {}
            Err(_) => return taken,
        }
    }
    most
}

/// The parts of a machine that opens with these words and with this beside them, before any turn.
fn made<T>(
    alloc: Global,
    kind: Kind,
    capacity: u32,
    parties: u32,
    words: Vec<u64>,
    kept: Registry<T>,
) -> Parts<T>
    ensures { state_of result ≡ record {
      kind = kind;
      capacity = capacity;
      parties = parties;
      words = words.items;
      kept = kept;
      latest = [];
      changes = 0;
      turns = 0;
      events = [];
    } }
{
    Parts {
        kind,
        capacity,
        parties,
        words,
        kept,
        latest: BTreeMap::new(alloc),
        changes: 0,
        turns: 0,
        events: Vec::new(alloc),
    }
}

impl<T: Words> Parts<T> {
    /// The parts of a machine of this shape before any turn, or why the shape is refused.
    pub fn new(
        alloc: Global,
        shape: Shape,
        parties: u32,
    ) -> Result<Parts<T>, UniqueIndexCreationError>
        ensures ok { IfOk result (λ m. trace_of (coding_by T.Words) m
            ≡ opening_as (coding_by T.Words) shape parties) }
        ensures admitted { OnOk result (shape_error shape ≡ None) }
        ensures refused { IfErr result (IsCreationError shape) }
    {
        if let Some(error) = shape_error(shape) {
            return Err(error);
        }
        let kind = shape.kind();
        let capacity = shape.capacity() as u32;
        let queue = shape.queue() as u32;
        let Ok((words, kept)) = families::opening::<T>(alloc, kind, capacity, queue) else {
            return Err(UniqueIndexCreationError::NoMemory);
        };
        Ok(made(alloc, kind, capacity, parties, words, kept))
    }

    /// The turn `Begin`: the party begins this call, unless that is refused.
    fn begin(&mut self, number: u32, start: Start<T>) -> Result<(), Refusal>
        requires { self.old.turns < 2 ^ 64 - 2 }
        ensures allowed { OnOk result
            (refusal_of (trace_of (coding_by T.Words) self.old).world
            (Turn.Begin number start) ≡ None) }
        ensures refused { IfErr result
            (IsRefusal (trace_of (coding_by T.Words) self.old).world (Turn.Begin number start)) }
        ensures ok { OnOk result
            (trace_of (coding_by T.Words) self.new
            ≡ after_turn (trace_of (coding_by T.Words) self.old) (Turn.Begin number start)) }
        ensures err { OnErr result (state_of self.new ≡ state_of self.old) }
    {
        if number >= self.parties {
            return Err(Refusal::NoParty);
        }
        if flight_of(&self.latest, number).is_some() {
            return Err(Refusal::Busy);
        }
        let alloc = *self.events.allocator();
        let flight = families::admit(alloc, self.kind, self.capacity, &self.kept, number, &start)?;
        let Ok(()) = self.events.reserve(1) else {
            return Err(Refusal::NoMemory);
        };
        let party = Party {
            start,
            steps: 0,
            backs: 0,
            doing: Doing::Going(flight, self.changes),
        };
        if !enter(
            alloc,
            &mut self.latest,
            &mut self.kept,
            self.capacity,
            number,
            party,
        ) {
            return Err(Refusal::NoMemory);
        }
        self.events.push_reserved(Event::Begun(number, start));
        self.turns += 1;
        Ok(())
    }

    /// The turn `Next`, or with `said` the turn `Decide`: the party's call takes its step, or is handed the
    /// decision, unless that is refused.
    fn resume(&mut self, number: u32, said: Option<bool>) -> Result<(), Refusal>
        requires turns { self.old.turns < 2 ^ 64 - 2 }
        requires small { IsSmall (trace_of (coding_by T.Words) self.old).world }
        ensures allowed { OnOk result
            (refusal_of (trace_of (coding_by T.Words) self.old).world (turn_of number said)
            ≡ None) }
        ensures refused { IfErr result
            (IsRefusal (trace_of (coding_by T.Words) self.old).world (turn_of number said)) }
        ensures ok { OnOk result
            (trace_of (coding_by T.Words) self.new
            ≡ after_turn (trace_of (coding_by T.Words) self.old) (turn_of number said)) }
        ensures err { OnErr result (state_of self.new ≡ state_of self.old) }
    {
        if number >= self.parties {
            return Err(Refusal::NoParty);
        }
        let beside = families::look_beside(&self.kept, &self.words, &self.latest, number);
        let Some(seat) = self.latest.get_mut(&number) else {
            return Err(Refusal::Idle);
        };
        let turns = self.turns;
        let gone = take_step(
            &mut *seat.party,
            number,
            said,
            beside,
            &mut self.words,
            &mut self.kept,
            &mut self.changes,
            &mut self.events,
            turns,
        );
        match gone {
            Ok(()) => {
                self.turns += 1;
                Ok(())
            }
            Err(refusal) => Err(refusal),
        }
    }

    /// The turn `Die`: the owner dies, unless that is refused.
    fn die(&mut self, owner: OwnerId) -> Result<(), Refusal>
        requires { self.old.turns < 2 ^ 64 - 2 }
        ensures allowed { OnOk result
            (refusal_of (trace_of (coding_by T.Words) self.old).world (Turn.Die owner) ≡ None) }
        ensures refused { IfErr result
            (IsRefusal (trace_of (coding_by T.Words) self.old).world (Turn.Die owner)) }
        ensures ok { OnOk result
            (trace_of (coding_by T.Words) self.new
            ≡ after_turn (trace_of (coding_by T.Words) self.old) (Turn.Die owner)) }
        ensures err { OnErr result (state_of self.new ≡ state_of self.old) }
    {
        if families::lacks_party(&self.kept, self.parties, owner) {
            return Err(Refusal::NoParty);
        }
        if let Some(refusal) = families::death_refusal(&self.kept, owner) {
            return Err(refusal);
        }
        let Ok(()) = self.events.reserve(1) else {
            return Err(Refusal::NoMemory);
        };
        if !families::mark_dead(&mut self.kept, owner) {
            return Err(Refusal::NoMemory);
        }
        self.events.push_reserved(Event::Died(owner));
        self.turns += 1;
        Ok(())
    }

    /// Takes one turn, or says why it is refused. A refused turn changes nothing.
    pub fn step(&mut self, turn: Turn<T>) -> Result<(), Refusal>
        requires { IsSmall (trace_of (coding_by T.Words) self.old).world }
        ensures allowed { OnOk result
            (refusal_of (trace_of (coding_by T.Words) self.old).world turn ≡ None) }
        ensures ok { OnOk result
            (trace_of (coding_by T.Words) self.new ≡ after_turn (trace_of (coding_by T.Words) self.old) turn) }
        ensures refused { IfErr result
            (IsRefusal (trace_of (coding_by T.Words) self.old).world turn) }
        ensures err { OnErr result (state_of self.new ≡ state_of self.old) }
    {
        if self.turns >= MOST_TURNS {
            return Err(Refusal::AtEnd);
        }
        match turn {
            Turn::Begin(number, start) => self.begin(number, start),
            Turn::Next(number) => self.resume(number, None),
            Turn::Decide(number, said) => self.resume(number, Some(said)),
            Turn::Die(owner) => self.die(owner),
        }
    }

    /// Takes up to `most` turns `Next` of the party, and answers how many. It may stop earlier, even before a
    /// turn that is allowed.
    pub fn steps(&mut self, number: u32, most: u64) -> u64
        requires { IsSmall (trace_of (coding_by T.Words) self.old).world }
        ensures most { result ≤ most }
        ensures allowed { AreAllowed (trace_of (coding_by T.Words) self.old)
            (replicate result (Next number)) }
        ensures ok { trace_of (coding_by T.Words) self.new
            ≡ after_turns (trace_of (coding_by T.Words) self.old) (replicate result (Next number)) }
    {
        if number >= self.parties {
            return 0;
        }
        let turns = self.turns;
        let left = MOST_TURNS - turns;
        let most = if most < left { most } else { left };
        let Some(seat) = self.latest.get_mut(&number) else {
            return 0;
        };
        let taken = take_steps(
            &mut *seat.party,
            number,
            most,
            &mut self.words,
            &mut self.kept,
            &mut self.changes,
            &mut self.events,
            turns,
        );
        self.turns += taken;
        taken
    }
}
