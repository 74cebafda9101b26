//! How far the latest call of a party has come.
ghost use Rattle.std.specs.Prelude.{◌≡◌, option_copied};
ghost use Rattle.model.specs.Parties.{party_of, doing_of, flight_of, progress_after};

use model::families::Flight;
use model::party::{Doing, Latest, Progress};

/// The call that the party has under way.
pub fn flight_of<T>(latest: &Latest<T>, number: u32) -> Option<&Flight<T>>
    ensures { option_copied result ≡ flight_of (doing_of (party_of number latest.now.entries)) }
{
    match latest.get(&number) {
        Some(seat) => match &seat.party.doing {
            Doing::Going(flight, _) => Some(flight),
            Doing::Over(_) => None,
        },
        None => None,
    }
}

/// How far the party's latest call has come, in a machine whose words were changed `changes` times. None for
/// a party that has begun no call.
pub fn progress_of<T>(latest: &Latest<T>, changes: u64, number: u32) -> Option<Progress>
    ensures { result ≡ progress_after changes (party_of number latest.now.entries) }
{
    match latest.get(&number) {
        None => None,
        Some(seat) => match &seat.party.doing {
            Doing::Going(_, since) => Some(Progress {
                steps: seat.party.steps,
                backs: seat.party.backs,
                others: changes.saturating_sub(*since),
                finished: false,
            }),
            Doing::Over(others) => Some(Progress {
                steps: seat.party.steps,
                backs: seat.party.backs,
                others: *others,
                finished: true,
            }),
        },
    }
}
