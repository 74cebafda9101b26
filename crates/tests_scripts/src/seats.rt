//! The latest call of each party, for the player of bare lines. The functions of this file name the calls of
//! all families, so their proofs contain the types of all of them.
use crate::bare::{Calls, World};
use crate::calls::tell;
use model::event::{Event, Start};
use model::families::{Beside, Registry};
use model::party::{Doing, Latest, Party, Progress, Seat};
use model::turn::{Kind, Refusal};
use schedule::pen::Pen;
use std::alloc::Global;
use std::collections::BTreeMap;
use steps::ask::{Ask, Want};
use turns::families::{self, is_asking};
use turns::party::{flight_of, progress_of};
use turns::words;

/// The latest call of each party that has made one.
pub struct Seats {
    alloc: Global,
    latest: Latest<u128>,
}

impl Drop for Seats {
    fn drop(self) {
        let Self {
            alloc: _,
            latest: _latest,
        } = self;
    }
}

/// Seats of parties that have made no call.
impl Seats {
    pub fn new(alloc: Global) -> Seats {
        Seats {
            alloc,
            latest: BTreeMap::new(alloc),
        }
    }
}

/// The operation of the call's next step, or None for a decision or where the call wants nothing. Refused
/// where a decision is missing, or one comes that was not asked for.
fn asked(want: Want<()>, said: Option<bool>) -> Result<Option<Ask>, Refusal> {
    match (want, said) {
        (Want::Ask(ask), None) => Ok(Some(ask)),
        (Want::Question(_), Some(_)) | (Want::Nothing, None) => Ok(None),
        _ => Err(Refusal::Undecided),
    }
}

/// Marks the party's call as ended. This is a function of its own, since the flight is dropped by it, and a
/// flight has many cases.
fn finish(party: &mut Party<u128>) {
    party.doing = Doing::Over(0);
}

/// Lets a party's call take its step, or hands it a decision, as a machine does it. It writes the word, the
/// events, and how many steps and turns back the call has taken. Refused where no call is under way, the
/// decision does not fit, the family refuses it, or there is no memory.
fn advance(
    party: &mut Party<u128>,
    number: u32,
    said: Option<bool>,
    beside: Beside,
    words: &mut Vec<u64>,
    kept: &mut Registry<u128>,
    events: &mut Vec<Event<u128>>,
) -> Result<(), Refusal> {
    let Doing::Going(flight, _) = &mut party.doing else {
        return Err(Refusal::Idle);
    };
    let (want, most) = families::going(flight);
    let ask = asked(want, said)?;
    if let Some(refusal) = families::going_refusal(flight, kept, said) {
        return Err(refusal);
    }
    let Ok(()) = events.reserve(most + 1) else {
        return Err(Refusal::NoMemory);
    };
    let access = words::read(words, ask);
    let answer = match said {
        Some(said) => u64::from(said),
        None => access.old,
    };
    let went = families::advance(
        flight,
        number,
        &party.start,
        words,
        beside,
        answer,
        kept,
        events,
    );
    party.steps = party.steps.wrapping_add(words::count(ask));
    party.backs = party.backs.wrapping_add(u64::from(went.back));
    if let Some(answer) = went.done {
        events.push_reserved(Event::Finished(number, party.start, answer));
        finish(party);
    }
    words::write(words, access);
    Ok(())
}

impl Calls for Seats {
    fn begin(
        &mut self,
        kind: Kind,
        capacity: u32,
        kept: &Registry<u128>,
        number: u32,
        start: Start<u128>,
    ) -> Result<(), Refusal> {
        if flight_of(&self.latest, number).is_some() {
            return Err(Refusal::Busy);
        }
        let flight = families::admit(self.alloc, kind, capacity, kept, number, &start)?;
        let party = Party {
            start,
            steps: 0,
            backs: 0,
            doing: Doing::Going(flight, 0),
        };
        let Ok(party) = Box::new(self.alloc, party) else {
            return Err(Refusal::NoMemory);
        };
        match self.latest.insert(number, Seat { party }) {
            Ok(_) => Ok(()),
            Err(_) => Err(Refusal::NoMemory),
        }
    }

    fn go_on(&mut self, number: u32, said: Option<bool>, world: &mut World) -> Result<(), Refusal> {
        let beside = families::look_beside(&world.kept, &world.words, &self.latest, number);
        let Some(seat) = self.latest.get_mut(&number) else {
            return Err(Refusal::Idle);
        };
        advance(
            &mut *seat.party,
            number,
            said,
            beside,
            &mut world.words,
            &mut world.kept,
            &mut world.events,
        )
    }

    fn progress(&self, party: u32) -> Option<Progress> {
        progress_of(&self.latest, 0, party)
    }

    fn is_going(&self, party: u32) -> bool {
        match flight_of(&self.latest, party) {
            Some(flight) => !is_asking(flight),
            None => false,
        }
    }

    fn tell(&self, party: u32, word: &str, rest: &str, pen: &mut Pen) -> Option<()> {
        tell(flight_of(&self.latest, party)?, word, rest, pen)
    }
}
