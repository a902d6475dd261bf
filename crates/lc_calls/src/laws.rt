//! What arguments bind a call, and which names are bound after an assignment, as the contracts of functions that do nothing.
ghost use Rattle.std.specs.Prelude.{◌≡◌, ◌≢◌, ◌↔◌, ℕ, List, None, Some, length};
ghost use Rattle.lc_grammar.specs.Tree.{Exprs, count_of};
ghost use Rattle.lc_language.specs.declared.Call.TheVariants as call;
ghost use Rattle.lc_language.specs.declared.ValueCall.{ValueCall};
ghost use Rattle.lc_language.specs.declared.QueryCall.{QueryCall};
ghost use Rattle.lc_language.specs.declared.Kind.{Kind};
ghost use Rattle.lc_language.specs.Calls.{signature_for, bind, bind_query};
ghost use Rattle.lc_language.specs.Value.{Value, Binding, value_named};
ghost use Rattle.lc_language.specs.Evaluation.{first_misfit};
ghost use Rattle.lc_calls.specs.Names.{IsBound};

/// Arguments in the number of one of a call's forms bind the call, unless one of them isn't of its kind: then the first such
/// argument has an offset, which is that of the fault.
#[tactic(auto, using(crate::proofs::MisfitLaws::misfits_are_arguments_laws))]
pub fn misfits_are_arguments()
    ensures calls { (c : ValueCall) (es : Exprs) (vs : List Value) (kinds : List Kind) →
        signature_for (call.Value c) (count_of es) ≡ Some kinds → count_of es ≡ length vs →
        (bind c vs ≡ None) ↔ ((offset : ℕ) × (first_misfit kinds es vs ≡ Some offset)) }
    ensures queries { (c : QueryCall) (es : Exprs) (vs : List Value) (kinds : List Kind) →
        signature_for (call.Query c) (count_of es) ≡ Some kinds → count_of es ≡ length vs →
        (bind_query c vs ≡ None) ↔ ((offset : ℕ) × (first_misfit kinds es vs ≡ Some offset)) }
{}

/// After an assignment its name has the new value, every other name has the value that it had, and a name that had none has none.
pub fn names_after_an_assignment()
    ensures { (b : Binding) (old new : List Binding) →
        IsBound b old new ↔ ((value_named b.name new ≡ Some b.value)
        × ((x : List ℕ) → x ≢ b.name → value_named x new ≡ value_named x old)) }
{}
