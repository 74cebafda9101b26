//! Laws about states of a container of one caller: when a state shows the container's map. `Follows` holds of
//! the state that `get_state` gives, and each call keeps it. After `update_state` such a state shows the map,
//! as long as the container has not come to 2^63 - 1 changes. These functions do nothing: the contract of
//! each is a law, and its proof a lemma that a client's proof can cite. The last function is such a client.

ghost use Rattle.std.specs.Prelude.{◌≡◌, ℕ, List};
ghost use Rattle.steps.specs.Objects.Owners.{Owned};
ghost use Rattle.steps.specs.declared.container.handle.ContainerHandle.{ContainerHandle};
ghost use Rattle.steps.specs.declared.indices.enums.ReleaseMode.{ReleaseMode};
ghost use Rattle.plain.specs.Contents.{Contents, opened, capacity, counted, added, after_add, after_remove, after_replace};
ghost use Rattle.plain.specs.States.{Snapshot, blank, updated, snapshot_of, IsStateOf, IsSettled};
ghost use Rattle.plain.specs.Visited.{all_freed, one_change};
ghost use Rattle.plain.specs.Following.{MayChange, IsCounted, Follows, Keeps};

use crate::Container;
use steps::container::enums::ContainerAddFailure;
use steps::container::handle::ContainerHandle;
use steps::container::state::ContainerState;
use steps::enums::OwnerId;
use steps::words::Words;

/// The numbers of a new container are as `IsCounted` says. The lemma is
/// `opens` of `proofs/States/Showing.antt`.
pub fn opens<V>()
    ensures { (size container : ℕ) → IsCounted {V = V} (opened size container) }
{}

/// What `get_state` gives follows the container, and shows the map. The lemma is
/// `gets` of `proofs/States/Showing.antt`.
pub fn gets<V>()
    ensures { (s : Contents V) → IsCounted s → Follows s (updated s (blank (capacity s)))
        × ((updated s (blank (capacity s))).values ≡ s.values) }
{}

/// A state that follows the container still follows it once brought up to date, and then shows the map. The
/// lemma is `updates` of `proofs/States/Showing.antt`.
pub fn updates<V>()
    ensures { (s : Contents V) (seen : Snapshot V) → Follows s seen
        → Follows s (updated s seen) × ((updated s seen).values ≡ s.values) }
{}

/// After an add each state that followed the container still follows it. The lemma is
/// `adds` of `proofs/States/Changing.antt`.
pub fn adds<V>()
    ensures { (s : Contents V) (owner : ℕ) (value : V) → MayChange s → Keeps s (after_add s owner value) }
{}

/// After a remove each state that followed the container still follows it. The lemma is
/// `removes` of `proofs/States/Changing.antt`.
pub fn removes<V>()
    ensures { (s : Contents V) (handle : ContainerHandle) (mode : ReleaseMode) → MayChange s
        → Keeps s (after_remove s handle mode) }
{}

/// After a replace each state that followed the container still follows it. The lemma is
/// `replaces` of `proofs/States/Changing.antt`.
pub fn replaces<V>()
    ensures { (s : Contents V) (handle : ContainerHandle) (value : V) → MayChange s
        → Keeps s (after_replace s handle value) }
{}

/// After a count, which is no change, each state that followed the container still follows it. The lemma is
/// `counts` of `proofs/States/Changing.antt`.
pub fn counts<V>()
    ensures { (s : Contents V) → Keeps s (counted s) }
{}

/// After a recovery each state that followed the container still follows it. What a recovery leaves
/// is said by `next` of `HasRecovered`: some indices are freed, as one change. The lemma is
/// `recovers` of `proofs/States/Changing.antt`.
pub fn recovers<V>()
    ensures { (s : Contents V) (mode : ReleaseMode) (which : List Owned) → MayChange s
        → Keeps s (one_change (all_freed mode s which)) }
{}

/// Adds a value and brings a state up to date, which then shows the map. It is a client of these laws.
pub fn add_and_show<T: Words>(
    container: &mut Container<T>,
    state: &mut ContainerState<T>,
    value: T,
    owner: OwnerId,
) -> Result<ContainerHandle, ContainerAddFailure>
    requires of { IsStateOf container.old state.old }
    requires settled { IsSettled state.old }
    requires follows { Follows container.old (snapshot_of state.old) }
    requires few { MayChange container.old }
    ensures answer { result ≡ added container.old owner }
    ensures map { container.new ≡ after_add container.old owner value }
    ensures of { IsStateOf container.new state.new }
    ensures settled { IsSettled state.new }
    ensures follows { Follows container.new (snapshot_of state.new) }
    ensures shows { (snapshot_of state.new).values ≡ container.new.values }
{
    let answer = container.add(value, owner);
    container.update_state(state);
    answer
}
