//! Laws of what is declared. A call costs nothing: it gives a proof what its clauses say.
ghost use Rattle.std.specs.Prelude.{◌≡◌, ℕ, List, Ok, true};
ghost use Rattle.eo_declare.specs.Declarations.{declared_rule, defined, defined_fun, defined_sort};
ghost use Rattle.eo_elab.specs.Fitting.{FitsTerms, macro_is_bound};
ghost use Rattle.eo_names.specs.Contexts.{Context};
ghost use Rattle.eo_sexp.specs.Sexp.{Sexp};
ghost use Rattle.eo_shape.specs.Shapes.{ParameterShape, RuleShape};
ghost use Rattle.eo_sig.specs.Signature.{Macro, Rule, are_ordered};

/// A law: where terminators are values and macros use their own parameters alone, the type of each
/// parameter of a rule that is declared uses earlier parameters only, and a macro that is defined
/// uses its own parameters alone.
pub fn ordering_law()
    ensures rules { (c : Context) (s : RuleShape) (r : Rule) → FitsTerms c →
        declared_rule c s ≡ Ok r → are_ordered 0 r.parameters ≡ true }
    ensures macros { (c : Context) (name : List ℕ) (params : List ParameterShape) (body : Sexp) (m : Macro) → FitsTerms c →
        defined c name params body ≡ Ok m → macro_is_bound m ≡ true }
{}

/// A law: where terminators are values and macros use their own parameters alone, so do the macros
/// that a reference file defines.
pub fn reference_law()
    ensures functions { (c : Context) (name : List ℕ) (params : List ParameterShape) (output body : Sexp) (m : Macro) → FitsTerms c →
        defined_fun c name params output body ≡ Ok m → macro_is_bound m ≡ true }
    ensures sorts { (c : Context) (name : List ℕ) (params : List (List ℕ)) (type : Sexp) (m : Macro) → FitsTerms c →
        defined_sort c name params type ≡ Ok m → macro_is_bound m ≡ true }
{}
