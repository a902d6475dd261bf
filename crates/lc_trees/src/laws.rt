//! What claims and certificates by construction prove, as the contracts of functions that do nothing.
ghost use Rattle.std.specs.Prelude.{◌≡◌, List, ℕ};
ghost use Rattle.lc_formats.specs.Certificate.{accepted};
ghost use Rattle.lc_formats.specs.Claim.{Built, Document};
ghost use Rattle.lc_formats.specs.ClaimMeaning.{IsTreeVerdict};
ghost use Rattle.lc_formats.specs.Document.{IsShapedTree, document_in, document};
ghost use Rattle.lc_formats.specs.Proven.{SoundClaims, SoundTrees, IsVerdict, IsProvenTree, Proves};

/// Every nonzero word of the code that a claim of the right shape defines has at least the weight of the claim's bound. The
/// induction is over claims: a search proves its distance, r checks of an alternant form are independent on any r coordinates, and
/// each combinator has a bound from those of its parts (MacWilliams and Sloane, chapters 1, 2, 10, 12 and 18).
pub fn claims_bound_their_codes()
    ensures sound { SoundClaims }
{}

/// A valid certificate by construction that has the shape proves its distance: its word has this weight, and no nonzero word of the
/// code that its claim defines is lighter. So does each one that is accepted, and each certificate of either version that bytes read
/// as and that is accepted.
pub fn valid_trees_prove_the_distance()
    ensures sound { SoundTrees }
    ensures accepted { (b : Built) → IsShapedTree b → IsTreeVerdict b accepted → IsProvenTree b }
    ensures checked { (bytes : List ℕ) (d : Document) → document_in bytes ≡ document d →
        IsVerdict (document d) accepted → Proves d }
{}
