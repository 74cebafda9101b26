//! Emptying a set of no place, which has no word to empty.
ghost use Rattle.std.specs.Prelude.{◌≡◌, ◌+◌, ℕ, []};
ghost use Rattle.model.specs.declared.event.Answer.TheVariants.{Done};
ghost use Rattle.model.specs.declared.event.Start.TheVariants.{Bits};
ghost use Rattle.model.specs.declared.families.bits.BitsStart.TheVariants.{ResetAll};
ghost use Rattle.threaded.specs.Seats.{seen, IsSame, IsAt};
ghost use Rattle.history.specs.declared.view.View.{View as Views};
ghost use Rattle.lock_free_sets.specs.Driven.{HasMade, HasDone, IsIdle};
ghost use Rattle.lock_free_sets.specs.Sets.Kinds.{machine_kind, words_of};
ghost use Rattle.history.specs.Steps.{TakesAtMost};

use super::drives::EmptiesNone;
use super::rule::{Kind, SetRule};
use history::view::View;
use threaded::driver::seated::Seated;

/// Empties a set of no place: it takes one look at a word, and the call stands in the history.
pub(crate) fn empty_none<E: Kind>(seated: &mut Seated<View<u64>, u32, SetRule<E>>, capacity: u32)
    requires table { IsAt (λ (key : ℕ). words_of E.KIND key + 1) (λ (key : ℕ). key) (λ (v : Views ℕ). v.capacity) seated.old }
    requires idle { IsIdle capacity (seen seated.old) }
    requires places { capacity ≡ 0 }
    ensures same { IsSame seated.old seated.new }
    ensures done { HasDone (machine_kind E.KIND) (seen seated.old) (seen seated.new) }
    ensures called { HasMade (Bits ResetAll) Done (λ by. []) (seen seated.old) (seen seated.new) }
    ensures steps { TakesAtMost 1 (seen seated.old) (seen seated.new) }
{
    let _ = seated.look::<EmptiesNone<E>>(0);
}
