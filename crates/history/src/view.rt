//! What the seat of a pass knows (`View`). No value of this type is made: it is for contracts and proofs. What a view
//! holds is data of proofs: as Rust types, events and calls under way would be written out in the proof of each
//! function above, once for each type that a view is part of.
ghost use Rattle.std.specs.Prelude.{List};
ghost use base.Fml.{ftrue};
ghost use Rattle.model.specs.declared.event.Event.{Event};
ghost use Rattle.model.specs.declared.event.Start.{Start};
ghost use Rattle.model.specs.declared.families.Flight.{Flight};
ghost use Rattle.model.specs.declared.turn.Turn.{Turn};
ghost use Rattle.steps.specs.declared.container.state.ContainerState.{ContainerState};

use std::marker::{Model, PhantomData};
use threaded::share::Share;

/// A list of events, as contracts see it.
pub struct Events<T> {
    marker: PhantomData<T>,
    ghost events: { List (Event T) },
}

impl<T> Model for Events<T> {
    ghost also_owns = { λ _. ftrue };

    ghost Value = { List (Event T) };

    ghost view = { λ e. e.events };
}

/// A list of turns of the model, as contracts see it.
pub struct Turns<T> {
    marker: PhantomData<T>,
    ghost turns: { List (Turn T) },
}

impl<T> Model for Turns<T> {
    ghost also_owns = { λ _. ftrue };

    ghost Value = { List (Turn T) };

    ghost view = { λ t. t.turns };
}

/// A call under way, as contracts see it: what it began as, and where it stands.
pub struct Going<T> {
    marker: PhantomData<T>,
    ghost call: { Start T × Flight T },
}

impl<T> Model for Going<T> {
    ghost also_owns = { λ _. ftrue };

    ghost Value = { Start T × Flight T };

    ghost view = { λ g. g.call };
}

/// A state of a container, as contracts see it.
pub struct Shown<T> {
    marker: PhantomData<T>,
    ghost state: { ContainerState T },
}

impl<T> Model for Shown<T> {
    ghost also_owns = { λ _. ftrue };

    ghost Value = { ContainerState T };

    ghost view = { λ s. s.state };
}

/// What a seat has seen of the history of its table, and where its own call stands.
pub struct View<T> {
    /// The capacity of the structure.
    pub capacity: u32,
    /// The party that its latest call is of. None before its first call.
    pub party: Option<u32>,
    /// Its share of the right to know the whole.
    pub share: Share,
    /// A beginning of the history.
    pub seen: Events<T>,
    /// What a seat that was taken in has seen: a beginning of the history too.
    pub other: Events<T>,
    /// The turns of which `seen` are the events: the first turns of the table's run.
    pub turns: Turns<T>,
    /// The turns of which `other` are the events: first turns of the table's run too.
    pub other_turns: Turns<T>,
    /// The events of its own calls, and those of the seats that were taken in.
    pub made: Events<T>,
    /// Its call under way.
    pub going: Option<Going<T>>,
    /// The state of a container that its party has, as its latest look has left it.
    pub state: Option<Shown<T>>,
    /// How many operations on words it and the seats that were taken in have asked for, and how many steps the run took by which
    /// the structure opened.
    pub asked: u64,
    /// How many of these operations were no steps of a call in the run that its turns make: those of splits, joins and
    /// calls that are not in the history.
    pub aside: u64,
    /// How many operations its latest call has taken, where that is under way: the steps of the call in the machine.
    pub taken: u64,
    /// How many changes of words other parties made while the latest call of its party was under way, in the run that
    /// its turns make.
    pub others: u64,
}
