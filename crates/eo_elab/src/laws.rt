//! A law of the names that terms are given. A call costs nothing: it gives a proof what its
//! clauses say.
ghost use Rattle.std.specs.Prelude.{◌≡◌, List, [], Ok, true};
ghost use Rattle.std.specs.List.{list_all};
ghost use Rattle.eo_elab.specs.Fitting.{FitsTerms, are_free, named_term_is_closed};
ghost use Rattle.eo_elab.specs.Meaning.{means};
ghost use Rattle.eo_names.specs.Contexts.{Context};
ghost use Rattle.eo_names.specs.Readers.{NamedTerm};
ghost use Rattle.eo_sexp.specs.Sexp.{Sexp};
ghost use Rattle.eo_term.specs.Tree.{Tree};

/// A law: where terminators are values and macros use their own parameters alone, the names that
/// terms of an assertion are given may be declared, each is given once, and they mean trees without
/// parameters.
pub fn named_terms_law()
    ensures named_terms { (c : Context) (s : Sexp) (t : Tree) (named_terms : List NamedTerm) → FitsTerms c →
        means c [] s [] ≡ Ok (t, named_terms) → list_all named_term_is_closed named_terms ≡ true }
    ensures free { (c : Context) (s : Sexp) (t : Tree) (named_terms : List NamedTerm) → FitsTerms c →
        means c [] s [] ≡ Ok (t, named_terms) → are_free c [] named_terms ≡ true }
{}
