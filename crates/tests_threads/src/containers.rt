//! Containers of pairs: threads add, replace and remove them, and states, `find` and `recover` show them
//! whole.
use crate::indices::{Guest, Refusal, play_guests};
use crate::robust::MOST;
use lock_free::mpmc::container::{
    CallbackProgression, Container, ContainerAddFailure, ContainerHandle, ContainerState, Handle,
    OwnerId,
};
use lock_free::mpmc::unique_index_set_enums::{ReleaseMode, ReleaseState};
use std::sync::Wait;
use std::thread::Threads;
use tests_rows::desk::Desk;
use tests_rows::pairs::{Pair, TORN, number_of_pair, pair_of};
use tests_rows::play::Turn;
use tests_rows::row::Row;

/// The number of a pair that is added, before it is replaced by one of its index.
const ADDED: u64 = 1 << 32;

/// Whether a pair at this index is whole: as it was added, or that of its index.
fn is_whole(pair: Pair, index: usize) -> bool {
    let number = number_of_pair(pair);
    number != TORN && (number == ADDED || number == index as u64)
}

/// A handle of a container, an owner for whom it adds pairs, and a state once it looks.
#[derive(Drop)]
struct PairOwner<'a> {
    container: Handle<'a, Pair>,
    owner: OwnerId,
    /// Whether it looks, and does not die, at a turn of its own.
    looks: bool,
    state: Option<ContainerState<Pair>>,
}

impl<'a> PairOwner<'a> {
    /// Brings the state up to date, and checks that each pair that it shows is whole. It writes down how many
    /// pairs it shows, at a turn at which something has changed.
    fn look(&mut self, rt: &impl Wait, desk: &mut Desk<'_>) -> Turn {
        if self.state.is_none() {
            self.state = self.container.get_state(rt).ok();
        }
        let Some(state) = &mut self.state else {
            return Turn::Nothing;
        };
        if !self.container.is_state_of(state) {
            desk.check(false);
            return Turn::Last;
        }
        desk.begin();
        let has_changed = self.container.update_state(rt, state);
        desk.meet();
        let mut well = true;
        state.for_each(|index, pair| {
            well = well && is_whole(*pair, index);
            CallbackProgression::Continue
        });
        desk.check(well);
        desk.end_if(has_changed, "look", 0, Some(state.number() as u64));
        Turn::Counts
    }

    /// Adds pairs for the owner of this turn, dies with them, and is recovered: as many pairs come as were
    /// added, whole, each noted as free before it is.
    fn die(&mut self, rt: &impl Wait, desk: &mut Desk<'_>) -> Turn {
        let Ok(owner) = OwnerId::new(desk.at.wrapping_add(100)) else {
            return Turn::Last;
        };
        self.owner = owner;
        let mut kept = 0u64;
        for _ in 0..MOST {
            desk.begin();
            if let Ok(handle) = self.take(rt) {
                desk.end("take", owner.value(), Some(handle.index() as u64));
                desk.check(desk.shared.swap(handle.index(), 1));
                desk.check(
                    self.container
                        .replace(handle, pair_of(handle.index() as u64))
                        .is_ok(),
                );
                kept = kept.wrapping_add(1);
            }
        }
        if kept == 0 {
            return Turn::Nothing;
        }
        let mut number = 0u64;
        desk.begin();
        let state = self.container.recover(
            rt,
            owner,
            &mut |pair| {
                desk.meet();
                let index = number_of_pair(pair);
                desk.end("free", owner.value(), Some(index));
                desk.check(desk.shared.swap(index as usize, 0));
                number = number.wrapping_add(1);
                true
            },
            ReleaseMode::Default,
        );
        desk.end("recover", owner.value(), Some(number));
        desk.check(state == ReleaseState::Unlocked && number == kept);
        desk.check(
            self.container
                .find(owner, &mut |_, _| CallbackProgression::Stop)
                == 0,
        );
        Turn::Counts
    }
}

impl<'a> Guest for PairOwner<'a> {
    type Held = ContainerHandle;

    fn another(&mut self, owner: u64) -> Option<PairOwner<'a>> {
        let owner = OwnerId::new(owner).ok()?;
        let container = self.container.split()?;
        Some(PairOwner {
            container,
            owner,
            looks: owner.value() == 0,
            state: None,
        })
    }

    fn take(&mut self, rt: &impl Wait) -> Result<ContainerHandle, Refusal> {
        match self.container.add(rt, pair_of(ADDED), self.owner) {
            Ok(handle) => Ok(handle),
            Err(ContainerAddFailure::OutOfSpace) => Err(Refusal::Full),
            Err(ContainerAddFailure::IsLocked) => Err(Refusal::Locked),
        }
    }

    fn index(held: &ContainerHandle) -> usize {
        held.index()
    }

    /// Replaces the pair by that of its index, and finds the owner's pairs now and then: at least one comes,
    /// each is whole and the owner's.
    fn use_it(&mut self, _rt: &impl Wait, held: &ContainerHandle, desk: &mut Desk<'_>) {
        let index = held.index();
        desk.check(self.container.replace(*held, pair_of(index as u64)).is_ok());
        if desk.at % 16 == 0 {
            let owner = self.owner;
            let (mut visited, mut well) = (0usize, true);
            let found = self.container.find(
                owner,
                &mut |pair, handle| {
                    well &= is_whole(pair, handle.index()) && handle.owner == owner;
                    visited = visited.wrapping_add(1);
                    CallbackProgression::Continue
                },
            );
            desk.check(well && 1 <= visited && visited <= found);
        }
    }

    fn give(
        &mut self,
        rt: &impl Wait,
        held: ContainerHandle,
        mode: ReleaseMode,
    ) -> Option<ReleaseState> {
        self.container.remove(rt, held, mode).ok()
    }

    fn number(&mut self, rt: &impl Wait) -> usize {
        self.container.len(rt)
    }

    fn is_locked(&mut self) -> bool {
        self.container.is_locked()
    }

    fn own_turn(&mut self, rt: &impl Wait, desk: &mut Desk<'_>) -> Turn {
        if self.looks {
            self.look(rt, desk)
        } else {
            self.die(rt, desk)
        }
    }
}

/// Plays a round on a new container.
pub fn play_container<R: Wait + Threads + Sync>(rt: &R, row: &mut Row<'_>) -> Option<()> {
    let (container, pass) = Container::new(row.alloc, row.capacity, 1).ok()?;
    let guest = PairOwner {
        container: container.handle(pass),
        owner: OwnerId::new(0).ok()?,
        looks: true,
        state: None,
    };
    play_guests(rt, row, guest)
}
