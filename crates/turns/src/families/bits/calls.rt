//! The calls of the bit sets under way: what each wants, and how it goes on.
ghost use Rattle.std.specs.Prelude.{◌≡◌};
ghost use Rattle.steps.specs.Ask.{CameTo};
ghost use Rattle.model.specs.Families.Bits.Calls.{first, want, after, goes_back, reset_answer};

use model::event::Answer;
use model::families::bits::BitsStart;
use model::families::bits::calls::BitsFlight;
use model::turn::Kind;
use steps::ask::Want;
use steps::bits::bit_set::{ResetNext, Set};
use steps::bits::counting_bit_set;
use steps::bits::looks::{Count, IsSet};
use steps::bits::reset_all::ResetAll;
use steps::copied::OneWord;
use steps::routine::Running;

/// The call that begins, or None where the kind has no such call.
pub fn first(kind: Kind, capacity: u32, start: BitsStart) -> Option<BitsFlight>
    ensures { result ≡ first kind capacity start }
{
    match (kind, start) {
        (Kind::Bits, BitsStart::Set(bit)) => Some(BitsFlight::Set(Running {
            call: Set::new(),
            given: bit,
            room: (),
        })),
        (Kind::Bits, BitsStart::ResetNext) => Some(BitsFlight::ResetNext(Running {
            call: ResetNext::new(capacity),
            given: (),
            room: (),
        })),
        (Kind::Bits, BitsStart::ResetAll) => Some(BitsFlight::ResetAll(Running {
            call: ResetAll::bits(capacity),
            given: (),
            room: OneWord(0),
        })),
        (Kind::Bits, BitsStart::IsSet(bit)) => Some(BitsFlight::IsSet(Running {
            call: IsSet,
            given: bit,
            room: (),
        })),
        (Kind::Counts, BitsStart::Set(place)) => Some(BitsFlight::Count(Running {
            call: counting_bit_set::Set,
            given: place,
            room: (),
        })),
        (Kind::Counts, BitsStart::ResetAll) => Some(BitsFlight::TakeAll(Running {
            call: ResetAll::counts(capacity),
            given: (),
            room: OneWord(0),
        })),
        (Kind::Counts, BitsStart::Count(place)) => Some(BitsFlight::CountOf(Running {
            call: Count,
            given: place,
            room: (),
        })),
        _ => None,
    }
}

/// What a reset of the next bit answers in a machine: the place, or None where no bit stood.
fn reset_answer<T>(bit: Option<u64>) -> Answer<T>
    ensures { result ≡ reset_answer bit }
{
    match bit {
        None => Answer::ResetNone,
        Some(bit) => Answer::Reset(bit),
    }
}

/// What the call wants next.
pub fn want(flight: &BitsFlight) -> Want<()>
    ensures { result ≡ want flight.now }
{
    match flight {
        BitsFlight::Set(run) => run.want(),
        BitsFlight::ResetNext(run) => run.want(),
        BitsFlight::ResetAll(run) => run.want(),
        BitsFlight::Count(run) => run.want(),
        BitsFlight::TakeAll(run) => run.want(),
        BitsFlight::IsSet(run) => run.want(),
        BitsFlight::CountOf(run) => run.want(),
    }
}

/// Whether the call begins a turn of its loop again once it is handed this answer.
pub fn goes_back(flight: &BitsFlight, answer: u64) -> bool
    ensures { result ≡ goes_back flight.now answer }
{
    match flight {
        BitsFlight::Set(run) => run.call.turns_back(answer),
        BitsFlight::ResetNext(run) => run.call.turns_back(answer),
        _ => false,
    }
}

/// Hands the call an answer, changes it in place, and returns the call's own answer once it is done.
pub fn feed<T>(flight: &mut BitsFlight, answer: u64) -> Option<Answer<T>>
    ensures { CameTo result flight.new (after flight.old answer) }
{
    match flight {
        BitsFlight::Set(run) => {
            let set = run.go_on(answer)?;
            Some(Answer::Truth(set))
        }
        BitsFlight::ResetNext(run) => {
            let bit = run.go_on(answer)?;
            Some(reset_answer(bit))
        }
        BitsFlight::ResetAll(run) => {
            let () = run.go_on(answer)?;
            Some(Answer::Done)
        }
        BitsFlight::Count(run) => {
            let count = run.go_on(answer)?;
            Some(Answer::Number(count))
        }
        BitsFlight::TakeAll(run) => {
            let () = run.go_on(answer)?;
            Some(Answer::Done)
        }
        BitsFlight::IsSet(run) => {
            let set = run.go_on(answer)?;
            Some(Answer::Truth(set))
        }
        BitsFlight::CountOf(run) => {
            let count = run.go_on(answer)?;
            Some(Answer::Number(count))
        }
    }
}
