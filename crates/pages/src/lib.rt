//! Theorems on pages, of seven structures: `Machine.antt` of `specs` says what a run is and what linearizable means, and a file
//! for each structure what its machine is. For the two bit sets `Places.antt` says what holds at one place. These files cite
//! the standard library alone. In fewer than 2^63 turns no position, no version and no
//! count of a counting bit set comes to its last number. (The 16-bit count in the head of a unique index set wraps.)
#![tactic(auto)]

ghost use Rattle.std.specs.Prelude.{◌≡◌, ℕ, ◌<◌, ◌^◌, List, length, map, fold, slice_index, ◌-◌};
ghost use Rattle.model.specs.Coding.{one_word};
ghost use Rattle.model.specs.Turns.{run};
ghost use Rattle.model.specs.World.{trace_in};
ghost use Rattle.model.specs.World as model;
ghost use Rattle.model.specs.declared.turn.Kind.TheVariants.{Atomic, IndexQueue, Overflow, Queue};
ghost use Rattle.pages.specs.BitSet.{bit_set};
ghost use Rattle.pages.specs.BitSet as bits;
ghost use Rattle.pages.specs.BitSetBridge as bits_bridge;
ghost use Rattle.pages.specs.CountingBitSet.{counting_bit_set};
ghost use Rattle.pages.specs.CountingBitSet as counts;
ghost use Rattle.pages.specs.CountingBitSetBridge as counts_bridge;
ghost use Rattle.pages.specs.IndexQueue.{index_queue, bounded_list};
ghost use Rattle.pages.specs.IndexQueue as queue;
ghost use Rattle.pages.specs.IndexQueueBridge.{DoesAsTheCode, PopsByTable, PushesByTable, RunsAsTheMachine, acquired, as_turn, reading, roles_told, by_role};
ghost use Rattle.pages.specs.Machine.{Turn, opening, turned, IsLinearizable};
ghost use Rattle.pages.specs.OverflowingQueue.{overflowing_list};
ghost use Rattle.pages.specs.OverflowingQueue as overflowing;
ghost use Rattle.pages.specs.OverflowingQueueBridge.{OverflowingDoesAsTheCode, OverflowingPopsByTable, OverflowingPushesByTable, OverflowingRunsAsTheMachine};
ghost use Rattle.pages.specs.OverflowingQueueBridge as overflowing_bridge;
ghost use Rattle.pages.specs.Places.{ActsAt};
ghost use Rattle.pages.specs.Queue.{Written};
ghost use Rattle.pages.specs.Queue as values;
ghost use Rattle.pages.specs.QueueBridge.{QueueDoesAsTheCode, QueuePopsByTable, QueuePushesByTable, QueueRunsAsTheMachine};
ghost use Rattle.pages.specs.QueueBridge as values_bridge;
ghost use Rattle.pages.specs.Reading.{IsSame};
ghost use Rattle.pages.specs.RolesBridge.{RunsByRole};
ghost use Rattle.pages.specs.UniqueIndexSet.{Each, HoldsAlone, ReleasesOwn, unique_index_set};
ghost use Rattle.pages.specs.UniqueIndexSet as unique;
ghost use Rattle.pages.specs.UniqueIndexSetBridge as unique_bridge;
ghost use Rattle.pages.specs.Value.{value, register};
ghost use Rattle.pages.specs.Value as single;
ghost use Rattle.pages.specs.ValueBridge.{LoadsByTable, StoresByTable, ValueDoesAsTheCode, ValueRunsAsTheMachine};
ghost use Rattle.pages.specs.ValueBridge as single_bridge;
ghost use Rattle.model.specs.Coding.{coding_by};

use machine::Machine;
use steps::words::Words;

/// The index queue, with one producer and one consumer: the theorem of its page. The function does nothing: its contract is
/// a law.
pub fn index_queue()
    ensures { (capacity : ℕ) (turns : List (Turn queue.Call)) → capacity < 2 ^ 32 → length turns < 2 ^ 63
        → IsLinearizable (bounded_list capacity)
        (fold (turned (index_queue capacity)) (opening (index_queue capacity)) turns).history }
{}

/// The page is about the code: each stage asks for what the code's function asks for, and goes on as it does. And it is
/// about machines: from where parties 0 and 1 have the roles, turn by turn, the words, the invocations and the responses
/// are those of the model's machine.
pub fn index_queue_is_the_code()
    ensures code { DoesAsTheCode }
    ensures pushes { PushesByTable }
    ensures pops { PopsByTable }
    ensures machine { RunsAsTheMachine }
{}

/// The single value of one word, which one party stores and any loads: the theorem of its page. The function does nothing:
/// its contract is a law.
pub fn single_value()
    ensures { (turns : List (Turn single.Call)) → length turns < 2 ^ 63
        → IsLinearizable register (fold (turned value) (opening value) turns).history }
{}

/// The page of the single value is about the code, and about machines of as many parties as its turns name, from where
/// party 0 has the role.
pub fn single_value_is_the_code()
    ensures code { ValueDoesAsTheCode }
    ensures stores { StoresByTable }
    ensures loads { LoadsByTable }
    ensures machine { ValueRunsAsTheMachine }
{}

/// What a `Machine` of an index queue has taken is a run of that page: if its parties 0 and 1 acquired the roles first, and then took these
/// turns, its words, the invocations and the responses are those of the page's machine over the same turns. `Machine::new`
/// and each `Machine::step` say which turns a machine has taken; one that is refused for memory is not among them. The
/// function does nothing.
pub fn a_machine_runs_the_page(machine: &Machine<u64>)
    ensures { (capacity : ℕ) (turns : List (Turn queue.Call)) → capacity < 2 ^ 32 → length turns < 2 ^ 63
        → trace_in (coding_by ⟦<u64 as Words>⟧) machine.now ≡ run (map as_turn turns) (acquired capacity)
        → IsSame reading roles_told (trace_in (coding_by ⟦<u64 as Words>⟧) machine.now)
        (fold (turned (index_queue capacity)) (opening (index_queue capacity)) turns) }
{}

/// The overflowing queue of a capacity above 0, with one producer and one consumer: the theorem of its page. The function
/// does nothing: its contract is a law. Without capacity no call takes a step: a push hands its own value back, and a pop
/// returns None.
pub fn overflowing_queue()
    ensures { (capacity : ℕ) (turns : List (Turn overflowing.Call)) → 0 < capacity → capacity < 2 ^ 32 → length turns < 2 ^ 63
        → IsLinearizable (overflowing_list capacity)
        (fold (turned (overflowing.overflowing_queue capacity)) (opening (overflowing.overflowing_queue capacity)) turns).history }
{}

/// The page of the overflowing queue is about the code, and about machines, from where parties 0 and 1 have the roles.
pub fn overflowing_queue_is_the_code()
    ensures code { OverflowingDoesAsTheCode }
    ensures pushes { OverflowingPushesByTable }
    ensures pops { OverflowingPopsByTable }
    ensures machine { OverflowingRunsAsTheMachine }
{}

/// The bit set, of any parties: the theorem of its page. At each place each call acts at one moment inside it, and whatever
/// bit was set there was reset by one call, or stands. The function does nothing: its contract is a law.
pub fn bit_set()
    ensures { (capacity place : ℕ) (turns : List (Turn bits.Call)) → place < capacity
        → ActsAt (bits.at place) (fold (turned (bit_set capacity)) (opening (bit_set capacity)) turns).history
        (bits.now (fold (turned (bit_set capacity)) (opening (bit_set capacity)) turns).words place) }
{}

/// The page of the bit set is about the code: each stage asks for what the code's function asks for, and goes on as it does,
/// and a reset of all hands out what the machine's events say.
pub fn bit_set_is_the_code()
    ensures code { bits_bridge.BitSetDoesAsTheCode }
    ensures hands_out { bits_bridge.HandsOutAsTheMachine }
    ensures sets { bits_bridge.SetsByTable }
    ensures nexts { bits_bridge.NextsByTable }
    ensures alls { bits_bridge.AllsByTable }
    ensures machine { bits_bridge.BitSetRunsAsTheMachine }
{}

/// The counting bit set, of any parties: the theorem of its page. At each place each call acts at one moment inside it, and
/// whatever was counted there was taken out by one call, or is its count. In fewer than 2^63 turns no count wraps.
pub fn counting_bit_set()
    ensures { (capacity place : ℕ) (turns : List (Turn counts.Call)) → place < capacity → length turns < 2 ^ 63
        → ActsAt (counts.at place) (fold (turned (counting_bit_set capacity)) (opening (counting_bit_set capacity)) turns).history
        (slice_index (fold (turned (counting_bit_set capacity)) (opening (counting_bit_set capacity)) turns).words place) }
{}

/// The page of the counting bit set is about the code.
pub fn counting_bit_set_is_the_code()
    ensures code { counts_bridge.CountingDoesAsTheCode }
    ensures hands_out { counts_bridge.HandsOutAsTheMachine }
    ensures sets { counts_bridge.CountsByTable }
    ensures takes { counts_bridge.TakesByTable }
    ensures machine { counts_bridge.CountingRunsAsTheMachine }
{}

/// The unique index set, of any parties of which each releases what it holds: the theorem of its page. An index has a holder
/// from the response of an acquire to the invocation of its release, and never two. None is acquired once the set is locked,
/// and none has a holder as it is. The function does nothing: its contract is a law.
pub fn unique_index_set()
    ensures { (capacity : ℕ) (turns : List (Turn unique.Call)) → 0 < capacity → capacity < 2 ^ 24 - 1 → length turns < 2 ^ 63
        → Each ReleasesOwn (fold (turned (unique_index_set capacity)) (opening (unique_index_set capacity)) turns).history
        → Each (HoldsAlone capacity) (fold (turned (unique_index_set capacity)) (opening (unique_index_set capacity)) turns).history }
{}

/// The page of the unique index set is about the code, and about machines.
pub fn unique_index_set_is_the_code()
    ensures code { unique_bridge.UniqueDoesAsTheCode }
    ensures acquires { unique_bridge.AcquiresByTable }
    ensures releases { unique_bridge.ReleasesByTable }
    ensures locking_releases { unique_bridge.LockingReleasesByTable }
    ensures machine { unique_bridge.UniqueRunsAsTheMachine }
{}

/// What a `Machine` of a bit set, of a counting bit set or of a unique index set has taken is a run of its page: if it took
/// these turns from its making on, its words, the invocations and the responses are those of the page's machine over the same
/// turns, where the response of a reset of all says what its steps have handed out. Of a unique index set this is so if each
/// index was released by its holder. The function does nothing.
pub fn a_machine_runs_the_sets(machine: &Machine<u64>)
    ensures bits { bits_bridge.BitSetIsRun (trace_in (coding_by ⟦<u64 as Words>⟧) machine.now) }
    ensures counts { counts_bridge.CountingIsRun (trace_in (coding_by ⟦<u64 as Words>⟧) machine.now) }
    ensures unique { unique_bridge.UniqueIsRun (trace_in (coding_by ⟦<u64 as Words>⟧) machine.now) }
{}

/// The queue of values of any type that is written in 1 to 128 words, with one producer and one consumer: the theorem of its
/// page. The function does nothing: its contract is a law.
pub fn queue_of_values<T>()
    ensures { (how : Written T) (capacity : ℕ) (turns : List (Turn (values.Call T))) → capacity < 2 ^ 32 → length turns < 2 ^ 63
        → IsLinearizable (values.bounded_list capacity)
        (fold (turned (values.queue how capacity)) (opening (values.queue how capacity)) turns).history }
{}

/// The page of the queue of values is about the code, and about machines, from where parties 0 and 1 have the roles.
pub fn queue_of_values_is_the_code<T>()
    ensures code { QueueDoesAsTheCode T }
    ensures pushes { QueuePushesByTable T }
    ensures pops { QueuePopsByTable T }
    ensures machine { QueueRunsAsTheMachine T }
{}

/// Roles change hands: on the model's machine, with neither a bound of parties nor one of turns, parties acquire the roles and
/// give them back, and look. Whatever turns they take, the invocations and responses of pushes and pops, or of stores
/// and loads, are the history of the page's machine over those of these turns, where whoever makes a push is called party 0,
/// whoever makes a pop party 1, who stores party 0, and who loads by his own number and 1. The function does nothing.
pub fn roles_change_hands<T>()
    ensures index { (capacity : ℕ) → capacity < 2 ^ 32
        → RunsByRole by_role (index_queue capacity) (model.opening one_word IndexQueue capacity 0) }
    ensures overflowing { (capacity : ℕ) → 0 < capacity
        → RunsByRole overflowing_bridge.by_role (overflowing.overflowing_queue capacity) (model.opening one_word Overflow capacity 0) }
    ensures value { RunsByRole single_bridge.by_role value (model.opening one_word Atomic 1 0) }
    ensures values { (how : Written T) (capacity : ℕ) → capacity < 2 ^ 32
        → RunsByRole (values_bridge.by_role how) (values.queue how capacity)
        (model.opening (values_bridge.code_of how) Queue capacity 0) }
{}
