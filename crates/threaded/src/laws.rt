//! Laws of joined shares: when they are again the whole right to know what has happened to a
//! structure. These functions do nothing: the contract of each is a law, whose proof is a lemma that a
//! client's proof can cite.
ghost use Rattle.std.specs.Prelude.{◌≡◌, ◌<◌, ℕ, List, ◌∷◌};
ghost use Rattle.std.specs.List.{sum};
ghost use Rattle.threaded.specs.declared.share.Share.{Share};
ghost use Rattle.threaded.specs.Shares.{IsAll, rest, pieces, added};
ghost use Rattle.threaded.specs.Parts.{AreParts};

/// A whole share that was split n times is whole again once all parts are joined, the last first. The lemma
/// is `any_number` of `proofs/Fractions.antt`.
pub fn any_number()
    ensures { (n : ℕ) (s : Share) → 0 < s.parts → IsAll s → IsAll (added (rest n s) (pieces n s)) }
{}

/// Shares that have all parts of one whole are the whole once they are joined, in any order. The lemma is
/// `any_order` of `proofs/Fractions.antt`, beside those on the parts of a half and of a sum.
pub fn any_order()
    ensures { (whole : ℕ) (ks : List ℕ) (s : Share) (ts : List Share) → 0 < whole
        → AreParts whole ks (s ∷ ts) → sum ks ≡ whole → IsAll (added s ts) }
{}
