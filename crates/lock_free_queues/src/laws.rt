//! What one history of a queue says: laws of every history that a pass has seen. Laws that name a kind
//! hold of a queue of any kind; with `IsBounded` they hold of queues that refuse a push when they are
//! full. These functions do nothing: the contract of each is a law, whose proof is a lemma that a
//! client's proof can cite.
ghost use Rattle.std.specs.Prelude.{◌≡◌, ◌⊎◌, ◌<◌, ◌≤◌, ◌+◌, ◌-◌, ◌^◌, ◌++◌, ◌∷◌, [], ℕ, Bool, true, false};
ghost use Rattle.std.specs.Prelude.{Option, Some, None, IfSome, IfNone, List, length, map, take, sum_by, is_some};
ghost use Rattle.steps.specs.declared.queues.roles.Role.{Role};
ghost use Rattle.model.specs.declared.event.Answer.{Answer};
ghost use Rattle.model.specs.declared.event.Event.{Event};
ghost use Rattle.model.specs.declared.event.Item.{Item};
ghost use Rattle.model.specs.declared.event.Item.TheVariants.{Index};
ghost use Rattle.model.specs.declared.families.queues.QueueKind.{QueueKind};
ghost use Rattle.model.specs.declared.families.queues.calls.LengthOf.{LengthOf};
ghost use Rattle.model.specs.declared.turn.Kind.TheVariants as kinds;
ghost use Rattle.model.specs.Coding.{Coding, one_word};
ghost use Rattle.model.specs.Families.Queues.Reading.{published, handed_out, waiting};
ghost use Rattle.model.specs.Linearizable.{IsLinearizable};
ghost use Rattle.model.specs.Linearized.{as_list};
ghost use Rattle.model.specs.Progress.{KeepsGuarantees};
ghost use Rattle.model.specs.StronglyLinearizable.{AreStronglyLinearizable, Ordered};
ghost use Rattle.threaded.specs.Shares.{IsAll};
ghost use Rattle.history.specs.declared.view.View.{View};
ghost use Rattle.history.specs.History.{IsBeginning, IsHistory};
ghost use Rattle.history.specs.Views.{first_view};
ghost use Rattle.lock_free_queues.specs.Queues.Bounded.{IsBounded, machine_kind};
ghost use Rattle.history.specs.Passes.{Goes, MissesNothing};
ghost use Rattle.lock_free_queues.specs.Queues.Merges.{Merges, HasPushedUpTo, HasTaken, HasDrained};
ghost use Rattle.lock_free_queues.specs.Queues.Overflowing.{HasOverflowed};
ghost use Rattle.lock_free_queues.specs.Queues.Positions.{IsPublished, IsTaken, IsSound, IsOverSound};
ghost use Rattle.steps.specs.Objects.Lists.{Bounded};
ghost use Rattle.lock_free_queues.specs.Queues.Closes.{Closes};
ghost use Rattle.lock_free_queues.specs.Queues.Sent.{HasSent, HasReceived, HasPassed, TellsApart};
ghost use Rattle.lock_free_queues.specs.Queues.Sums.{puts, gets, HasDone};
ghost use Rattle.lock_free_queues.specs.Queues.Contracts.{HasPushed, HasPublished, WasFull, HasPopped};
ghost use Rattle.lock_free_queues.specs.Queues.Contracts.{PushDone, PushRefused, PopDone, PopEmpty};
ghost use Rattle.lock_free_queues.specs.Queues.Contracts.{HasTakenOut, HasTakenFirst, WasEmpty, FoundNone, HasMeasured};
ghost use Rattle.lock_free_queues.specs.Queues.Contracts.{HasAcquired, HasReleased, HasSplit, HasJoined, HasPeeked, HasSeenRole};

pub mod relays;

/// A history of a queue is linearizable as its list: the calls of all passes, pushes and pops. The lemma is
/// `linearizable` of `proofs/Queues/Promised.antt`.
pub fn histories_are_linearizable<T>()
    ensures { (code : Coding T) (kind : QueueKind) (capacity : ℕ) (v : View T)
        → IsHistory code (machine_kind kind) capacity v.seen
        → IsLinearizable (as_list kind capacity) v.seen }
{}

/// The histories of a queue are strongly linearizable. One function of events gives the order of the calls, and as a history
/// goes on calls are only added at the end of its order (`strong`). So two looks of one pass agree on the past: what it had
/// seen at the first begins what it has seen at the second, and so do the orders (`agree`). The lemma is `strong` of
/// `proofs/Queues/Promised.antt`.
pub fn histories_are_strongly_linearizable<T>()
    ensures strong { (code : Coding T) (kind : QueueKind) (capacity : ℕ)
        → AreStronglyLinearizable (IsHistory code (machine_kind kind) capacity) (as_list kind capacity) }
    ensures agree { (code : Coding T) (kind : QueueKind) (capacity : ℕ)
        (all : AreStronglyLinearizable (IsHistory code (machine_kind kind) capacity) (as_list kind capacity)) (old new : View T)
        → IsBeginning old.seen new.seen
        → (added : List (Ordered T)) × (all.order new.seen ≡ all.order old.seen ++ added) }
{}

/// Pops take out what was published, in order, and no more waits than the capacity. A push answers false only
/// where the capacity waits, a pop None only where nothing does, a peek the oldest that waits. A length is
/// that of a moment of the call. A role is granted to one party at a time, which alone publishes, or takes
/// out. A look tells whether a role is held. The lemma is `sound` of `proofs/Queues/Promised.antt`.
pub fn histories_are_sound<T>()
    ensures { (code : Coding T) (kind : QueueKind) (capacity : ℕ) (v : View T) → IsBounded kind
        → IsHistory code (machine_kind kind) capacity v.seen → IsSound capacity v.seen }
{}

/// Each value that leaves an overflowing queue, by a push or by a pop, is the oldest that waits. At most one
/// more than the capacity waits, while a push is under way. All else is as in `histories_are_sound`. The
/// lemma is `over_sound` of `proofs/Queues/Promised.antt`.
pub fn overflowing_histories_are_sound<T>()
    ensures { (code : Coding T) (capacity : ℕ) (v : View T) → IsHistory code kinds.Overflow capacity v.seen
        → IsOverSound capacity v.seen }
{}

/// Each call is wait-free, or obstruction-free, as docs/FIELD.md says. In the machine that has the
/// history no call has taken more steps than that, whatever the number of turns. How many a
/// thread's call takes is what its clause `steps` says, with the same numbers. The lemma is
/// `guarantees` of `proofs/Queues/Promised.antt`.
pub fn calls_keep_guarantees<T>()
    ensures { (code : Coding T) (kind : QueueKind) (capacity : ℕ) (v : View T)
        → (h : IsHistory code (machine_kind kind) capacity v.seen) → KeepsGuarantees h.trace }
{}

/// No position is published twice, or taken twice. The lemmas are `published_once` and `taken_once` of
/// `proofs/Queues/Positions.antt`.
pub fn positions_are_once<T>()
    ensures published { (p q i : ℕ) (x y : Item T) (events : List (Event T)) → IsPublished p i x events
        → IsPublished q i y events → (p ≡ q) × (x ≡ y) }
    ensures taken { (p q i : ℕ) (x y : Item T) (events : List (Event T)) → IsTaken p i x events
        → IsTaken q i y events → (p ≡ q) × (x ≡ y) }
{}

/// What is published and what is taken at equal positions are equal values. The lemma is
/// `agree` of `proofs/Queues/Promised.antt`.
pub fn values_agree<T>()
    ensures { (code : Coding T) (kind : QueueKind) (capacity p q i : ℕ) (x y : Item T) (v : View T)
        → IsHistory code (machine_kind kind) capacity v.seen → IsPublished p i x v.seen → IsTaken q i y v.seen → x ≡ y }
{}

/// What was published or taken at a position stays published or taken there as the history goes on. The
/// lemmas are `still_published` and `still_taken` of `proofs/Queues/Positions.antt`.
pub fn positions_stay<T>()
    ensures published { (p i : ℕ) (x : Item T) (old new : List (Event T)) → IsBeginning old new
        → IsPublished p i x old → IsPublished p i x new }
    ensures taken { (p i : ℕ) (x : Item T) (old new : List (Event T)) → IsBeginning old new → IsTaken p i x old
        → IsTaken p i x new }
{}

/// A push publishes right after all that its guard had seen published. A pop takes from right after all that
/// its guard had seen taken. The lemmas are `published_low` and `taken_low` of
/// `proofs/Queues/Positions.antt`, and `published_next` and `taken_next` of `proofs/Queues/Promised.antt`.
pub fn positions_rise<T>()
    ensures published { (item : Item T) (old new : View T) → HasPublished item old new
        → (p : ℕ) × IsPublished p (length (published old.seen)) item new.seen }
    ensures above { (old : View T) (q j : ℕ) (y : Item T) → IsPublished q j y old.seen
        → j < length (published old.seen) }
    ensures taken { (item : Item T) (old new : View T) → HasTakenOut item old new
        → (p : ℕ) × IsTaken p (length (handed_out old.seen)) item new.seen }
    ensures below { (old : View T) (q j : ℕ) (y : Item T) → IsTaken q j y old.seen → j < length (handed_out old.seen) }
{}

/// What leaves an overflowing queue stood at a position above all that its guard had seen taken. Where a pop
/// found nothing, each position that its guard had seen published had been taken. The lemmas are
/// `taken_first` and `none_waited` of `proofs/Queues/Promised.antt`.
pub fn overflowing_takes_in_order<T>()
    ensures taken { (item : Item T) (old new : View T) → HasTakenFirst item old new
        → (p i : ℕ) × IsTaken p i item new.seen × (length (handed_out old.seen) ≤ i) }
    ensures none { (old new : View T) → FoundNone old new → (q j : ℕ) (y : Item T) → IsPublished q j y old.seen
        → (i : ℕ) × (j < i) × (i ≤ length (handed_out new.seen)) }
{}

/// Where a pop found nothing, each position that its guard had seen published had been taken. Where a push
/// found the queue full, each that its guard had seen taken lies more than the capacity below the next to be
/// published. The lemmas are `none_later_than` and `full_above` of `proofs/Queues/Promised.antt`.
pub fn refusals_are_right<T>()
    ensures empty { (old new : View T) → WasEmpty old new → (q j : ℕ) (y : Item T) → IsPublished q j y old.seen
        → j < length (handed_out old.seen) }
    ensures full { (code : Coding T) (kind : QueueKind) (capacity : ℕ) (item : Item T) (old new : View T)
        → IsBounded kind
        → IsHistory code (machine_kind kind) capacity new.seen → WasFull capacity item old new
        → (q j : ℕ) (y : Item T) → IsTaken q j y old.seen → j + capacity < length (published old.seen) }
{}

/// Where a pop with the whole share finds nothing, all that was published has been taken out. The two lists
/// are equal. The lemma is `all_taken` of `proofs/Queues/Whole.antt`, beside `nothing_more`, by which nobody
/// else has published or taken out anything.
pub fn emptied_is_all<T>()
    ensures { (code : Coding T) (kind : QueueKind) (capacity : ℕ) (old new : View T) → IsAll old.share
        → MissesNothing old
        → Goes old new → IsHistory code (machine_kind kind) capacity new.seen
        → HasPopped None old new → (published new.seen ≡ published old.seen)
        × (handed_out new.seen ≡ published new.seen) }
{}

/// The answer of a call says how much it adds to what its pass has published and taken out itself. The lemmas
/// are `done_pushed` and the further `done_..` of `proofs/Queues/Sums.antt`.
pub fn calls_are_counted<T>()
    ensures pushed { (item : Item T) (old new : View T) → HasPushed item true old new → HasDone 1 0 old new }
    ensures refused { (item : Item T) (capacity : ℕ) (old new : View T) → PushRefused capacity item old new
        → HasDone 0 0 old new }
    ensures added { (value : ℕ) (old new : View T) → HasOverflowed value None old new → HasDone 1 0 old new }
    ensures replaced { (value oldest : ℕ) (old new : View T) → HasOverflowed value (Some oldest) old new
        → HasDone 1 1 old new }
    ensures popped { (item : Item T) (old new : View T) → HasPopped (Some item) old new → HasDone 0 1 old new }
    ensures none { (old new : View T) → HasPopped None old new → HasDone 0 0 old new }
    ensures peeked { (answer : Option (Item T)) (old new : View T) → HasPeeked answer old new → HasDone 0 0 old new }
    ensures seen { (role : Role) (taken : Bool) (old new : View T) → HasSeenRole role taken old new
        → HasDone 0 0 old new }
    ensures acquired { (role : Role) (taken : Bool) (old new : View T) → HasAcquired role taken old new
        → HasDone 0 0 old new }
    ensures released { (role : Role) (old new : View T) → HasReleased role old new → HasDone 0 0 old new }
    ensures measured { (which : LengthOf) (capacity : ℕ) (answer : Answer T) (old new : View T)
        → HasMeasured which capacity answer old new → HasDone 0 0 old new }
{}

/// Who has the whole share knows how much was published and taken out. It is what its own calls,
/// and those of the passes that it took in, have published and taken out. The lemma is
/// `whole_counted` of `proofs/Queues/Sums.antt`.
pub fn whole_is_counted<T>()
    ensures { (v : View T) → IsAll v.share → MissesNothing v
        → (length (published v.seen) ≡ sum_by puts v.made) × (length (handed_out v.seen) ≡ sum_by gets v.made) }
{}

/// A push that succeeds appends its value to those that its pass has sent. Nothing is appended as the role
/// is taken or given back, or where a push is refused. The lemmas are `sent_none` and the further
/// `sent_..` of `proofs/Queues/Sent.antt`.
pub fn pushes_are_sent<T, V>()
    ensures acquired { (named : V
        → Item T) (role : Role) (old new : View T)
        → Goes old new → HasAcquired role true old new → HasSent named [] old new }
    ensures pushed { (named : V
        → Item T) (values : List V) (value : V) (old was new : View T)
        → HasSent named values old was → Goes was new → PushDone (named value) was new
        → HasSent named (values ++ value ∷ []) old new }
    ensures refused { (named : V
        → Item T) (room : ℕ) (values : List V) (item : Item T)
        (old was new : View T) → HasSent named values old was → Goes was new
        → PushRefused room item was new → HasSent named values old new }
    ensures released { (named : V
        → Item T) (role : Role) (values : List V) (old was new : View T)
        → HasSent named values old was → Goes was new → HasReleased role was new
        → published new.seen ≡ published was.seen → HasSent named values old new }
{}

/// A pop that finds a value appends it to those that its pass has received. Nothing is appended as the role
/// is taken or given back, where a pop finds none, or by a peek. The lemmas are `received_none` and the
/// further `received_..` of `proofs/Queues/Sent.antt`.
pub fn pops_are_received<T, V>()
    ensures acquired { (named : V
        → Item T) (role : Role) (old new : View T)
        → Goes old new → HasAcquired role true old new → HasReceived named [] old new }
    ensures popped { (named : V
        → Item T) (values : List V) (value : V) (old was new : View T)
        → HasReceived named values old was → Goes was new → PopDone (named value) was new
        → HasReceived named (values ++ value ∷ []) old new }
    ensures none { (named : V
        → Item T) (values : List V) (old was new : View T)
        → HasReceived named values old was → Goes was new → PopEmpty was new
        → HasReceived named values old new }
    ensures peeked { (named : V
        → Item T) (values : List V) (answer : Option (Item T)) (old was new : View T)
        → HasReceived named values old was → Goes was new → HasPeeked answer was new
        → HasReceived named values old new }
    ensures released { (named : V
        → Item T) (role : Role) (values : List V) (old was new : View T)
        → HasReceived named values old was → Goes was new → HasReleased role was new
        → handed_out new.seen ≡ handed_out was.seen → HasReceived named values old new }
{}

/// Two halves of a first pass that are joined know all that happened. If one of them sent some values and the other
/// received some, nobody else pushed or popped: what was sent is all that was published, and what was received is all
/// that was taken out. The lemma is `passed` of `proofs/Queues/Passed.antt`, beside `both_passed` for other passes.
pub fn halves_pass_all<T, V>()
    ensures { (named : V → Item T) (sent received : List V) (capacity : ℕ) (first left right mine theirs new : View T)
        → first ≡ first_view capacity → HasSplit first left right → HasSent named sent left mine
        → HasReceived named received right theirs
        → HasJoined mine theirs new → MissesNothing new → HasPassed named sent received new }
{}

/// What was received is a beginning of what was sent, in order. A bounded queue has at most its capacity
/// left, and the list that `close` returns is what is left. The lemmas are `in_order`, `few_left` and
/// `rest_waits` of `proofs/Queues/Passed.antt`.
pub fn passed_in_order<T, V>()
    ensures order { (named : V
        → Item T) (code : Coding T) (kind : QueueKind) (capacity : ℕ) (sent received : List V) (v : View T)
        → TellsApart named → IsHistory code (machine_kind kind) capacity v.seen → HasPassed named sent received v
        → received ≡ take (length received) sent }
    ensures few { (named : V
        → Item T) (code : Coding T) (kind : QueueKind) (capacity : ℕ) (sent received : List V) (v : View T)
        → IsBounded kind → IsHistory code (machine_kind kind) capacity v.seen → HasPassed named sent received v
        → length sent ≤ length received + capacity }
    ensures closed { (named : V → Item T) (capacity : ℕ) (sent received : List V) (v : View T) (q : Bounded V)
        → TellsApart named
        → HasPassed named sent received v → Closes named capacity v q → sent ≡ received ++ q.values }
{}

/// A `close` loses nothing. What the pass has seen at the moment of which `close` tells is a history (clause
/// `each` of `history` of a pass). What that history has published is what it has taken out, then the numbers
/// that the list of an overflowing queue leaves out, and then the list. The lemmas are `closed_book` of
/// `proofs/Queues/Closes.antt` and `over_closed_book` of `proofs/Queues/OverCloses.antt`.
pub fn closes_lose_nothing<T, V>()
    ensures bounded { (named : V
        → Item T) (code : Coding T) (kind : QueueKind) (capacity : ℕ) (at : List (Event T)) (q : Bounded V)
        → IsHistory code (machine_kind kind) capacity at → waiting at ≡ map named q.values
        → published at ≡ handed_out at ++ map named q.values }
    ensures overflowing { (capacity : ℕ) (at : List (Event ℕ)) (older : List (Item ℕ)) (q : Bounded ℕ)
        → IsHistory one_word kinds.Overflow capacity at → waiting at ≡ older ++ map Index q.values
        → published at ≡ handed_out at ++ (older ++ map Index q.values) }
{}

/// Who knows what was sent and received goes on knowing it. With the whole share nothing changes as a role is taken,
/// each pop receives one value more, and where a pop finds none all that was sent was received. The lemmas are
/// `still_passed`, `one_passed` and `all_passed` of `proofs/Queues/Passed.antt`.
pub fn passed_goes_on<T, V>()
    ensures acquired { (named : V
        → Item T) (role : Role) (sent received : List V)
        (old new : View T)
        → HasPassed named sent received old → Goes old new → HasAcquired role true old new
        → HasPassed named sent received new }
    ensures popped { (named : V
        → Item T) (value : V) (sent received : List V) (old new : View T)
        → HasPassed named sent received old → Goes old new → PopDone (named value) old new
        → HasPassed named sent (received ++ value ∷ []) new }
    ensures none { (named : V
        → Item T) (code : Coding T) (kind : QueueKind) (capacity : ℕ) (sent received : List V) (old new : View T)
        → TellsApart named → HasPassed named sent received old → Goes old new
        → IsHistory code (machine_kind kind) capacity new.seen → HasPopped None old new → received ≡ sent }
{}

/// A push succeeds where its pass had seen fewer values wait than the capacity. With the whole share it
/// succeeds where its pass has pushed less than it has popped and the capacity together. In both cases the
/// last position, 2^64 - 1, was not reached before. The lemmas are `push_succeeds` and
/// `counted_push_succeeds` of `proofs/Queues/Passed.antt`.
pub fn pushes_succeed<T>()
    ensures seen { (capacity : ℕ) (item : Item T) (taken : Bool) (old new : View T)
        → length (waiting old.seen) < capacity
        → length (published old.seen) < 2 ^ 64 - 1 → (taken ≡ false → PushRefused capacity item old new)
        → taken ≡ true }
    ensures counted { (code : Coding T) (kind : QueueKind) (capacity : ℕ) (item : Item T) (taken : Bool)
        (old new : View T)
        → IsHistory code (machine_kind kind) capacity old.seen → IsAll old.share → MissesNothing old
        → sum_by puts old.made < sum_by gets old.made + capacity → sum_by puts old.made < 2 ^ 64 - 1
        → (taken ≡ false → PushRefused capacity item old new) → taken ≡ true }
{}

/// A pop succeeds where its pass had seen a value wait. The lemma is
/// `pop_succeeds` of `proofs/Queues/Passed.antt`.
pub fn pops_succeed<T, V>()
    ensures { (answer : Option V) (old new : View T) → 0 < length (waiting old.seen) → IfNone answer (PopEmpty old new)
        → is_some answer ≡ true }
{}

/// A pop right after a peek that answered a value answers the same value, whatever was pushed since. The lemma is
/// `pop_answers_it` of `proofs/Queues/Peeks.antt`.
pub fn peeks_tell_pops<T>()
    ensures { (code : Coding T) (kind : QueueKind) (capacity : ℕ) (item : Item T) (answer : Option (Item T))
        (old was new : View T)
        → IsHistory code (machine_kind kind) capacity new.seen → HasPeeked (Some item) old was
        → IfSome answer (λ x. HasTakenOut x was new) → IfNone answer (WasEmpty was new) → answer ≡ Some item }
{}

/// No number that is pushed into an overflowing queue is lost. If one half of a first pass pushed these numbers and got
/// some back, the other half popped some, and who has joined both pops the rest, then each number was popped or handed
/// back, once, and both lists stand in the order of the pushes. The lemma is `overflowed` of
/// `proofs/Queues/Merging.antt`, and those on single calls stand in `proofs/Queues/TakenOut.antt`.
pub fn overflowing_merges()
    ensures { (capacity : ℕ) (role : Role) (all back came popped : List ℕ)
        (first left right mine theirs joined taking last : View ℕ)
        → length all < 2 ^ 64 - 1 → first ≡ first_view capacity → HasSplit first left right
        → HasPushedUpTo all back left mine
        → HasTaken came right theirs → HasJoined mine theirs joined → MissesNothing joined
        → Goes joined taking → HasAcquired role true joined taking
        → HasDrained came popped taking last → Merges popped back all }
{}
