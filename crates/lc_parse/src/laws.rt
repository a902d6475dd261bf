ghost use Rattle.std.specs.Prelude.{◌≡◌, ℕ, ◌≤◌, ◌⊎◌, All, List, length};
ghost use Rattle.lc_grammar.specs.Token.{scan};
ghost use Rattle.lc_grammar.specs.Tree.{Statement};
ghost use Rattle.lc_grammar.specs.Grammar.{Reads, Fault, IsFault};
ghost use Rattle.lc_parse.specs.Spans.{AreApart};

/// No bytes are two scripts: a script's tree is the only one of its bytes.
pub fn one_script()
    ensures { (bytes : List ℕ) (ss other : List Statement) → Reads bytes ss → Reads bytes other → ss ≡ other }
{}

/// No bytes have two faults.
pub fn one_fault()
    ensures { (bytes : List ℕ) (f other : Fault) → IsFault bytes f → IsFault bytes other → f ≡ other }
{}

/// Bytes that are a script have no fault.
pub fn script_or_fault()
    ensures apart { (bytes : List ℕ) (ss : List Statement) (f : Fault) → Reads bytes ss → IsFault bytes f → ⊥ }
    // All bytes are a script or have a fault.
    ensures one { (bytes : List ℕ) → ((ss : List Statement) × Reads bytes ss) ⊎ ((f : Fault) × IsFault bytes f) }
{}

/// Spans of tokens rise and don't overlap, and they are within the bytes.
pub fn spans_rise()
    ensures apart { (bytes : List ℕ) → AreApart 0 (scan bytes).tokens }
    ensures within { (bytes : List ℕ) → All (λ t. t.end ≤ length bytes) (scan bytes).tokens }
{}
