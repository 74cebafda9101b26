//! What passes of a unique index set hold where several threads take indices, and where they are joined again.
ghost use Rattle.std.specs.Prelude.{◌≡◌, ◌≢◌, ◌++◌, ℕ, [], List, AllPairs};
ghost use Rattle.threaded.specs.Shares.{all_shares};
ghost use Rattle.history.specs.Passes.{HasSplit, HasJoined};
ghost use Rattle.lock_free_sets.specs.declared.mpmc.unique_index_set.Pass.{Pass};
ghost use Rattle.lock_free_sets.specs.Unique.Held.{HoldsAll, IsSound};
ghost use Rattle.lock_free_sets.specs.Unique.Pools.{Holding};
ghost use Rattle.lock_free_sets.specs.Unique.Contracts.{HasCounted};
ghost use Rattle.lock_free_sets.specs.UniqueIndexSet.{SamePass, set_of, share, view};

/// Two halves of a pass, once they are joined, hold what both held. They have as much of the right to know
/// the whole as the pass had. Halves can be halved again, for any number of threads. The lemma is `both_hold`
/// of `proofs/Unique/Pools.antt`, which also has lemmas on single calls.
pub fn halves_hold_both()
    ensures { (start mine other one two joined : Pass) (is js : List ℕ) → HasSplit (view start) (view mine) (view other)
        → set_of mine ≡ set_of start → Holding mine is one → Holding other js two
        → HasJoined (view one) (view two) (view joined) → set_of joined ≡ set_of one → Holding start (is ++ js) joined }
{}

/// No index is held twice. Where a first pass has the whole share again and has given back all that it took,
/// nobody holds an index. The lemmas are `holds_apart` and `none_out` of `proofs/Unique/Pools.antt`.
pub fn holders_are_apart()
    ensures apart { (start now : Pass) (is : List ℕ) → Holding start is now → IsSound (view now) → AllPairs (λ i j. i ≢ j) is }
    ensures none { (first was given now : Pass) (is : List ℕ) (n : ℕ) → share first ≡ all_shares → Holding first is was
        → Holding was [] given → SamePass given now → HasCounted n (view given) (view now) → HoldsAll n (view now) → n ≡ 0 }
{}
