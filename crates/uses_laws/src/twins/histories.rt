//! Laws of whole histories that no other client has a use for, each of what a pass has seen, so that none can be dropped
//! unnoticed. Of each field of a law a clause says at least one case in the words of the events, so that no field can be
//! emptied unnoticed. `BitsAnswerRight`, `CountsAnswerOn` and `MeetsChanges` are cited as they are, since what they say is
//! held elsewhere. What has been seen are the calls of all threads.
ghost use Rattle.std.specs.Prelude.{◌≡◌, ◌⊎◌, ◌<◌, ◌≤◌, ◌+◌, ◌-◌, ◌*◌, ◌^◌, ◌++◌, ◌∷◌, [], ℕ, Bool, false};
ghost use Rattle.std.specs.Prelude.{Some, None, is_none, not, List, length, slice_get};
ghost use Rattle.laws_machine.specs.Changes.{changes_of, MeetsChanges};
ghost use Rattle.model.specs.declared.event.Answer.{Answer};
ghost use Rattle.model.specs.declared.event.Answer.TheVariants.{Truth, Number, Index, Loaded, PoppedNone};
ghost use Rattle.model.specs.declared.event.Event.{Event};
ghost use Rattle.model.specs.declared.event.Event.TheVariants.{Set, Cleared, Claimed, Freed, Published, HandedOut, Acted, Finished};
ghost use Rattle.model.specs.declared.event.Event.TheVariants.{Filled, Granted, FreedOf, Asked};
ghost use Rattle.model.specs.declared.event.Item.{Item};
ghost use Rattle.model.specs.declared.event.Start.{Start};
ghost use Rattle.model.specs.declared.event.Start.TheVariants.{Atomic, Container, Indices, Queues};
ghost use Rattle.model.specs.declared.families.atomic.AtomicStart.TheVariants as value_calls;
ghost use Rattle.model.specs.declared.families.container.ContainerStart.TheVariants as container_calls;
ghost use Rattle.model.specs.declared.families.indices.IndexStart.TheVariants as index_calls;
ghost use Rattle.model.specs.declared.families.queues.QueueStart.TheVariants as queue_calls;
ghost use Rattle.model.specs.declared.turn.Kind.TheVariants as kinds;
ghost use Rattle.model.specs.declared.turn.Turn.{Turn};
ghost use Rattle.model.specs.Families.Atomic.Promises.{value_in};
ghost use Rattle.model.specs.Families.Atomic.Reading.{holder_of as storer_of};
ghost use Rattle.model.specs.Families.Bits.Promises.{BitsAnswerRight, CountsAnswerOn};
ghost use Rattle.model.specs.Families.Bits.Reading.{standing};
ghost use Rattle.model.specs.Families.Container.Promises.{WasShown};
ghost use Rattle.model.specs.Families.Indices.Reading.{holder_of, is_locked, tally_of};
ghost use Rattle.model.specs.Families.Indices.Robust.Promises.{IsFilledWith, IsWellFormed};
ghost use Rattle.model.specs.Families.Indices.Robust.Reading.{filled_of, set_acts_of, IsOneOf, Yes, holder_of as owner_of};
ghost use Rattle.model.specs.Families.Queues.Objects.{answer_of_item};
ghost use Rattle.model.specs.Families.Queues.Reading.{published, handed_out, waiting, producer_of, consumer_of};
ghost use Rattle.model.specs.Moments.{HeldSometime};
ghost use Rattle.model.specs.Reading.{Each, Open, span_of};
ghost use Rattle.lock_free.specs.Coding.{Coding, one_word};
ghost use Rattle.lock_free.specs.Container.Contracts as container_contracts;
ghost use Rattle.lock_free.specs.Container.Names as containers;
ghost use Rattle.lock_free.specs.GrantLaws.{times_freed};
ghost use Rattle.lock_free.specs.History.{AreFirst, run_of};
ghost use Rattle.lock_free.specs.IndexLaws.{held_below, HasDone};
ghost use Rattle.lock_free.specs.OwnerLaws.{changes, LocksApart};
ghost use Rattle.lock_free.specs.OwnersGone.{IsHonest};
ghost use Rattle.lock_free.specs.Queues.Calls as ends;
ghost use Rattle.lock_free.specs.ReleaseMode.{ReleaseMode};
ghost use Rattle.lock_free.specs.Robust.Contracts as set_contracts;
ghost use Rattle.lock_free.specs.Sets.Calls.{history, set_of};
ghost use Rattle.lock_free.specs.UniqueIndexSet as indices;
ghost use Rattle.lock_free.specs.Value.Calls as values;
ghost use Rattle.lock_free.specs.Value.Stored as values_stored;
ghost use Rattle.uses_laws.specs.Events.{Whenever};

use lock_free::laws::{
    bits, containers as container_laws, counts, indices as index_laws, overflowing, owners, queues,
    value,
};
use lock_free::mpmc::{bit_set, container, counting_bit_set, unique_index_set};
use lock_free::spmc::unrestricted_atomic;
use lock_free::spsc::{index_queue, safely_overflowing_index_queue};

/// Each bit was set where it was clear, and cleared where it stood, and each answer is right.
pub fn of_bits(pass: &bit_set::Pass)
    ensures set { (p bit : ℕ) → Whenever (history pass.now) (Set p bit) (λ before. standing bit before ≡ 0) }
    ensures cleared { (p bit : ℕ) → Whenever (history pass.now) (Cleared p bit) (λ before. standing bit before ≡ 1) }
    ensures answers { Each (BitsAnswerRight (set_of pass.now).capacity) (history pass.now) }
{
    bits::bits_change_in_turn::<u64>();
    bits::bit_answers_are_right::<u64>();
    pass.history();
}

/// Each answer about counts is right.
pub fn of_counts(pass: &counting_bit_set::Pass)
    ensures { Each (CountsAnswerOn (set_of pass.now).capacity) (history pass.now) }
{
    counts::count_answers_are_right::<u64>();
    pass.history();
}

/// An index was claimed where nobody held it and the set was not locked, and its holder freed it. Who was
/// answered an index has claimed just that one in the call. `is_locked` has answered whether the set was
/// locked. The indices that count as held are those that somebody held.
pub fn of_indices(pass: &unique_index_set::Pass)
    ensures claimed { (p index : ℕ) → Whenever (indices.history pass.now) (Claimed p index)
        (λ before. (index < (indices.set_of pass.now).capacity) × (holder_of index before ≡ None) × (is_locked before ≡ false)) }
    ensures freed { (p index : ℕ) → Whenever (indices.history pass.now) (Freed p index) (λ before. holder_of index before ≡ Some p) }
    ensures acquired { (p index : ℕ) → Whenever (indices.history pass.now) (Finished p (Indices index_calls.Acquire) (Index index))
        (λ before. HasDone p index_calls.Acquire (λ acts. acts.claimed ≡ index ∷ []) before) }
    ensures looked { (p : ℕ) (locked : Bool) → Whenever (indices.history pass.now) (Finished p (Indices index_calls.IsLocked) (Truth locked))
        (λ before. locked ≡ is_locked before) }
    ensures counted { (before after : List (Event ℕ)) → indices.history pass.now ≡ before ++ after
        → (tally_of before).held ≡ held_below (indices.set_of pass.now).capacity before }
{
    index_laws::index_histories_are_sound::<u64>();
    index_laws::holders_are_counted::<u64>();
    pass.history();
}

/// What was popped is a beginning of what was pushed, and at most the capacity waits. A push was refused only where the queue
/// was full, and a pop only where nothing waited. A length was that of a moment of the call. An acquire of a role answered
/// whether nobody had it, and who pushed or popped had it.
pub fn of_queue(pass: &index_queue::Pass)
    ensures book { (before after : List (Event ℕ)) → (ends.view pass.now).seen ≡ before ++ after
        → published before ≡ handed_out before ++ waiting before }
    ensures few { (before after : List (Event ℕ)) → (ends.view pass.now).seen ≡ before ++ after
        → length (waiting before) ≤ (ends.queue_of pass.now).capacity }
    ensures refused { (p index : ℕ) → Whenever (ends.view pass.now).seen (Acted p (Queues (queue_calls.PushIndex index)) (Truth false))
        (λ before. length (waiting before) ≡ (ends.queue_of pass.now).capacity) }
    ensures none { (p : ℕ) → Whenever (ends.view pass.now).seen (Acted p (Queues queue_calls.Pop) PoppedNone) (λ before. waiting before ≡ []) }
    ensures measured { (p : ℕ) (answer : Answer ℕ) → Whenever (ends.view pass.now).seen (Finished p (Queues queue_calls.Len) answer)
        (λ before. HeldSometime p (λ part. answer ≡ Number (length (waiting part))) before) }
    ensures producer { (p : ℕ) (answer : Answer ℕ) → Whenever (ends.view pass.now).seen (Finished p (Queues queue_calls.AcquireProducer) answer)
        (λ before. answer ≡ Truth (is_none (producer_of before))) }
    ensures consumer { (p : ℕ) (answer : Answer ℕ) → Whenever (ends.view pass.now).seen (Finished p (Queues queue_calls.AcquireConsumer) answer)
        (λ before. answer ≡ Truth (is_none (consumer_of before))) }
    ensures peeked { (p : ℕ) (answer : Answer ℕ) → Whenever (ends.view pass.now).seen (Finished p (Queues queue_calls.Peek) answer)
        (λ before. answer ≡ answer_of_item (slice_get (waiting before) 0)) }
    ensures looked { (p : ℕ) (answer : Answer ℕ) → Whenever (ends.view pass.now).seen (Finished p (Queues queue_calls.HasConsumer) answer)
        (λ before. answer ≡ Truth (not (is_none (consumer_of before)))) }
    ensures pushed { (p : ℕ) (item : Item ℕ) → Whenever (ends.view pass.now).seen (Published p item) (λ before. producer_of before ≡ Some p) }
    ensures popped { (p : ℕ) (item : Item ℕ) → Whenever (ends.view pass.now).seen (HandedOut p item) (λ before. consumer_of before ≡ Some p) }
{
    queues::histories_are_sound::<u64>();
    pass.history();
}

/// Of an overflowing queue: what was taken out, by pops and by pushes, is a beginning of what was pushed,
/// each the oldest that waited then, and at most one more than the capacity waits. A pop found nothing only
/// where nothing waited. A length was that of a moment of the call. An acquire of the producer's role
/// answered whether nobody had it, and who pushed had it.
pub fn of_overflowing_queue(pass: &safely_overflowing_index_queue::Pass)
    ensures book { (before after : List (Event ℕ)) → (ends.view pass.now).seen ≡ before ++ after
        → published before ≡ handed_out before ++ waiting before }
    ensures few { (before after : List (Event ℕ)) → (ends.view pass.now).seen ≡ before ++ after
        → length (waiting before) ≤ (ends.queue_of pass.now).capacity + 1 }
    ensures oldest { (p : ℕ) (item : Item ℕ) → Whenever (ends.view pass.now).seen (HandedOut p item)
        (λ before. (rest : List (Item ℕ)) × (waiting before ≡ item ∷ rest)) }
    ensures none { (p : ℕ) → Whenever (ends.view pass.now).seen (Acted p (Queues queue_calls.Pop) PoppedNone) (λ before. waiting before ≡ []) }
    ensures measured { (p : ℕ) (answer : Answer ℕ) → Whenever (ends.view pass.now).seen (Finished p (Queues queue_calls.Len) answer)
        (λ before. HeldSometime p (λ part. answer ≡ Number (length (waiting part))) before) }
    ensures producer { (p : ℕ) (answer : Answer ℕ) → Whenever (ends.view pass.now).seen (Finished p (Queues queue_calls.AcquireProducer) answer)
        (λ before. answer ≡ Truth (is_none (producer_of before))) }
    ensures pushed { (p : ℕ) (item : Item ℕ) → Whenever (ends.view pass.now).seen (Published p item) (λ before. producer_of before ≡ Some p) }
    ensures taken { (p : ℕ) (item : Item ℕ) → Whenever (ends.view pass.now).seen (HandedOut p item)
        (λ before. (producer_of before ≡ Some p) ⊎ (consumer_of before ≡ Some p)) }
{
    overflowing::overflowing_histories_are_sound::<u64>();
    pass.history();
}

/// Each load has answered the value that stood then. An acquire of the role answered whether nobody had it, a look at it whether
/// somebody had it, and who stored had it. A look at the version answered 1 more than the number of the stores.
pub fn of_value(pass: &unrestricted_atomic::Pass<u64>)
    ensures loaded { (p : ℕ) (answer : Answer ℕ) → Whenever (values.view pass.now).seen (Acted p (Atomic value_calls.Load) answer)
        (λ before. answer ≡ Loaded (value_in one_word before)) }
    ensures acquired { (p : ℕ) (answer : Answer ℕ)
        → Whenever (values.view pass.now).seen (Finished p (Atomic value_calls.AcquireProducer) answer)
        (λ before. answer ≡ Truth (is_none (storer_of before))) }
    ensures looked { (p : ℕ) (answer : Answer ℕ)
        → Whenever (values.view pass.now).seen (Finished p (Atomic value_calls.HasProducer) answer)
        (λ before. answer ≡ Truth (not (is_none (storer_of before)))) }
    ensures counted { (p : ℕ) (answer : Answer ℕ)
        → Whenever (values.view pass.now).seen (Finished p (Atomic value_calls.Version) answer)
        (λ before. answer ≡ Number (length (values_stored.stored before) + 1)) }
    ensures stored { (p x : ℕ) (answer : Answer ℕ) → Whenever (values.view pass.now).seen (Acted p (Atomic (value_calls.Store x)) answer)
        (λ before. storer_of before ≡ Some p) }
{
    value::histories_are_sound::<u64>();
    pass.history();
}

/// An index was filled where it was not, and a recovery asked about one that its owner had at a moment of the
/// call. It freed for its own owner what it was told to free, or was shown. `is_locked` has answered whether
/// the set was locked. In a well-formed, honest history an index was granted where nobody held it, and in any
/// history if nobody has given it back and no recovery has freed it. Updates meet the changes. Up to the end
/// of each call it has seen the events of the first of the turns that it knows.
pub fn of_container(pass: &container::Pass<u64>)
    ensures filled { (p index owner : ℕ) → Whenever (containers.history pass.now) (Filled p index owner)
        (λ before. (index < (containers.container_of pass.now).capacity) × (filled_of index before ≡ None)) }
    ensures asked { (p index owner : ℕ) → Whenever (containers.history pass.now) (Asked p index owner)
        (λ before. HeldSometime p (IsFilledWith owner index) before) }
    ensures freed { (p index owner other : ℕ) (mode : ReleaseMode) (wrote : List (Event ℕ))
        → Whenever (containers.history pass.now) (FreedOf p index owner)
        (λ before. span_of p before ≡ Open (Container (container_calls.Recover other mode)) wrote
        → (owner ≡ other) × (IsOneOf (Yes index owner) (set_acts_of p before) ⊎ WasShown p index before)) }
    ensures looked { (p : ℕ) (locked : Bool)
        → Whenever (containers.history pass.now) (Finished p (Container container_calls.IsLocked) (Truth locked))
        (λ before. locked ≡ is_locked before) }
    ensures granted { IsWellFormed (containers.history pass.now) → IsHonest (containers.history pass.now) → (p index owner : ℕ)
        → Whenever (containers.history pass.now) (Granted p index owner) (λ before. owner_of index before ≡ None) }
    ensures held { (p index owner : ℕ) → times_freed index (containers.history pass.now) ≡ 0
        → Whenever (containers.history pass.now) (Granted p index owner) (λ before. owner_of index before ≡ None) }
    ensures met { changes_of (containers.history pass.now) < 2 ^ 64 - 1 → Each MeetsChanges (containers.history pass.now) }
    ensures ended { (p : ℕ) (start : Start ℕ) (answer : Answer ℕ) (before rest : List (Event ℕ))
        → containers.history pass.now ≡ (before ++ Finished p start answer ∷ []) ++ rest
        → (turns : List (Turn ℕ)) × AreFirst turns (containers.view pass.now).turns
        × (before ++ Finished p start answer ∷ []
        ≡ (run_of (containers.code_of pass.now) kinds.Container (containers.container_of pass.now).capacity turns).events) }
{
    container_laws::container_histories_are_sound::<u64>();
    container_laws::container_indices_are_held_by_one::<u64>();
    container_laws::indices_never_freed_are_freed_right::<u64>();
    container_laws::container_updates_meet_changes::<u64>();
    container_laws::container_calls_end_histories::<u64>();
    pass.history();
}

/// Where no two calls that may lock overlap, and less than a third of 2^64 - 2 changes were made, the counter of a robust set
/// is not at its end, nor that of a container.
pub fn of_counters()
    ensures set { (capacity : ℕ) (events : List (Event ℕ)) → LocksApart events → 3 * changes events < 2 ^ 64 - 2
        → set_contracts.IsWorn capacity events → ⊥ }
    ensures container { (code : Coding ℕ) (capacity : ℕ) (events : List (Event ℕ)) → LocksApart events
        → 3 * changes events < 2 ^ 64 - 2 → container_contracts.IsWorn code capacity events → ⊥ }
{
    owners::worn_sets_have_changed();
    container_laws::worn_containers_have_changed::<u64>();
}
