//! The steps of `reset_all`, which empties the words of a set, and the calls of its closure.
ghost use Rattle.std.specs.Prelude.{◌≡◌, ◌+◌, ◌-◌, ◌<◌, ◌≤◌, IsTrue, IsFalse, slice_index, slice_set};
ghost use Rattle.std.specs.List.{FoldsTo};
ghost use Rattle.plain.specs.Bits.{standing_in};
ghost use Rattle.plain.specs.Visits.{Takes};

use plain_queues::drive::step;
use steps::ask::After;
use steps::bits::counting_bit_set::BitState;
use steps::bits::flags::{has_flag, without_flag};
use steps::bits::reset_all::ResetAll;
use steps::copied::OneWord;

/// Swaps the next word of the call with 0, and returns what stood there.
pub fn swap_next(words: &mut Vec<u64>, call: &mut ResetAll) -> u64
    requires { call.old.word < call.old.end }
    ensures answer { result ≡ slice_index words.old.items call.old.word }
    ensures words { words.new.items ≡ slice_set words.old.items call.old.word 0 }
    ensures call { call.old.word + 1 < call.old.end
        → call.new ≡ record { word = call.old.word + 1; end = call.old.end } }
{
    let mut room = OneWord(0);
    if let After::GoOn(next) = step(&mut words[..], *call, &(), &mut room) {
        *call = next;
    }
    room.0
}

/// Returns the place after the last place of an element whose first place is `first`. It is
/// at most the capacity.
pub fn end_of_element(first: u64, capacity: u64) -> u64
    requires { first ≤ capacity }
    ensures order { first ≤ result }
    ensures below { result ≤ capacity }
    ensures near { result ≤ first + 64 }
    ensures far { result < capacity → result ≡ first + 64 }
{
    if capacity - first < 64 {
        capacity
    } else {
        first + 64
    }
}

/// Calls the closure with the place, if its flag stood.
fn call_standing<F: FnMut(usize)>(visit: &mut F, stood: bool, place: u64)
    requires { IsTrue stood → F.pre visit.old place }
    ensures called { IsTrue stood → F.step visit.old place tt visit.new }
    ensures passed { IsFalse stood → visit.new ≡ visit.old }
{
    if stood {
        visit(place as usize);
    }
}

/// Calls the closure with each place of one element whose flag stands in `found`, ascending. It ends after
/// the last flag.
pub fn visit_element<F: FnMut(usize)>(visit: &mut F, found: u64, first: u64, end: u64)
    requires order { first ≤ end }
    requires near { end ≤ first + 64 }
    requires takes { Takes F.pre F.step (standing_in found first (end - first)) visit.old }
    ensures { FoldsTo (λ p x q. F.step p x tt q) visit.old (standing_in found first (end - first))
        visit.new }
{
    let mut left = found;
    for place in first..end {
        if left == 0 {
            return;
        }
        call_standing(visit, has_flag(found, place), place);
        left = without_flag(left, place);
    }
}

/// Calls the closure with a place and its count, if the count is above 0.
pub fn call_counted<F: FnMut(BitState)>(visit: &mut F, place: u32, count: u64)
    requires { 0 < count → F.pre visit.old (record { bit = place; count = count }) }
    ensures called { 0 < count
        → F.step visit.old (record { bit = place; count = count }) tt visit.new }
    ensures passed { count ≡ 0 → visit.new ≡ visit.old }
{
    if count > 0 {
        visit(BitState {
            bit: place as usize,
            count,
        });
    }
}
