//! Machines of a container, over values of one word, of two and of 128.
use model::event::{Answer, Event, Start};
use model::families::container::ContainerStart;
use model::turn::{Kind, Shape, Turn};
use schedule::bare::{TakesTurns, made_of};
use std::alloc::Global;
use steps::enums::OwnerId;
use steps::words::Words;
use tests_calls::long_values::Greatest;

/// Whether the call takes `turns` turns after its begin, and the last event is its end with this answer.
fn answers<T: Words + PartialEq>(
    machine: &mut impl TakesTurns<T>,
    start: ContainerStart<T>,
    turns: usize,
    answer: Answer<T>,
) -> bool {
    let mut taken = machine
        .step(Turn::Begin(0, Start::Container(start)))
        .is_ok();
    for _ in 0..turns {
        taken &= machine.step(Turn::Next(0)).is_ok();
    }
    let last = Event::Finished(0, Start::Container(start), answer);
    taken && machine.events().last() == Some(&last)
}

/// Whether the state of party 0 shows these two values at the indices 0 and 1.
fn shows<T: Words + PartialEq>(machine: &impl TakesTurns<T>, first: &T, second: &T) -> bool {
    match machine.state(0) {
        Some(state) => state.get(0) == Some(first) && state.get(1) == Some(second),
        None => false,
    }
}

/// Whether two values are added, shown by a state, and the first of them is replaced. Each call takes
/// one step more for each further word of a value that it copies. A state shows the replaced value
/// only after its update.
fn goes_on<T: Words + PartialEq>(
    machine: &mut impl TakesTurns<T>,
    first: T,
    second: T,
    owner: OwnerId,
) -> bool {
    let size = T::WORDS;
    let copies = size.saturating_add(2);
    answers(
        machine,
        ContainerStart::Add(first, owner),
        size.saturating_add(7),
        Answer::Index(0),
    ) && answers(
        machine,
        ContainerStart::Add(second, owner),
        size.saturating_add(8),
        Answer::Index(1),
    ) && answers(
        machine,
        ContainerStart::GetState,
        copies.saturating_mul(2).saturating_add(1),
        Answer::Number(2),
    ) && shows(machine, &first, &second)
        && answers(
            machine,
            ContainerStart::Replace(0, second, owner),
            size.saturating_add(5),
            Answer::Done,
        )
        && shows(machine, &first, &second)
        && answers(
            machine,
            ContainerStart::UpdateState,
            copies.saturating_add(2),
            Answer::Truth(true),
        )
        && shows(machine, &second, &second)
        && machine.words().len() == size.saturating_mul(2).saturating_add(6)
}

/// Plays `goes_on` on a new machine of a container for two values, and says whether it went well.
fn holds<T: Words + PartialEq>(alloc: Global, first: T, second: T) -> bool {
    let Ok(owner) = OwnerId::new(7) else {
        return false;
    };
    let Ok(mut machine) = made_of(alloc, Shape::Of(Kind::Container, 2), 1) else {
        return false;
    };
    goes_on(&mut machine, first, second, owner)
}

/// Whether `goes_on` goes well at values of one word, of two and of 128. Numbers of a value lie
/// on both sides of 2^64.
pub fn of_three_sizes(alloc: Global) -> bool {
    holds::<u64>(alloc, u64::MAX, 5)
        && holds::<u128>(alloc, 18446744073709551618, 36893488147419103233)
        && holds::<Greatest>(alloc, Greatest(1, 9, u64::MAX), Greatest(3, 9, 4))
}
