//! Worked rows of the definitions that contracts cite. Each is a proof of `proofs/`, and
//! `docs/DEFINITIONS.md` names it.
#![tactic(auto)]

ghost use Rattle.std.specs.Prelude.{◌≡◌, true, [], ◌∷◌};
ghost use Rattle.std.specs.Ordering.{nat_cmp};
ghost use Rattle.vc_merge.specs.Ascending.{member};

/// A row as a law, which a caller has in its proofs: 3 is a member of `1 3 5`.
pub fn three_is_a_member()
    ensures { member nat_cmp (1 ∷ 3 ∷ 5 ∷ []) 3 ≡ true }
{}
