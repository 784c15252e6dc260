//! The rules of the suite, and those that preserve truth, by name.
ghost use Rattle.std.specs.Prelude.{◌≡◌, bytes_eq, slice_get, map, false};
ghost use Rattle.std.specs.List.{list_any};
ghost use Rattle.std.specs.Option.{option_map_or};
ghost use Rattle.eo_sem.specs.Proving.{keeps_truth as is_keeping};
ghost use Rattle.eo_sem.specs.ProveAnswers.{rule_names};
ghost use Rattle.eo_sem.specs.SemanticRules.{semantic_rules};
ghost use Rattle.eo_sem.specs.Suite.{suite_signature};

/// The rules of the suite, in order.
const RULES: [&[u8]; 41] = [
    b"refl",
    b"symm",
    b"trans",
    b"split",
    b"eq_resolve",
    b"modus_ponens",
    b"not_not_elim",
    b"contra",
    b"and_elim",
    b"and_intro",
    b"not_or_elim",
    b"implies_elim",
    b"not_implies_elim1",
    b"not_implies_elim2",
    b"equiv_elim1",
    b"equiv_elim2",
    b"not_equiv_elim1",
    b"not_equiv_elim2",
    b"xor_elim1",
    b"xor_elim2",
    b"not_xor_elim1",
    b"not_xor_elim2",
    b"ite_elim1",
    b"ite_elim2",
    b"not_ite_elim1",
    b"not_ite_elim2",
    b"not_and",
    b"cnf_and_pos",
    b"cnf_and_neg",
    b"cnf_or_pos",
    b"cnf_or_neg",
    b"cnf_implies_pos",
    b"cnf_implies_neg1",
    b"cnf_implies_neg2",
    b"cnf_equiv_pos1",
    b"cnf_equiv_pos2",
    b"cnf_equiv_neg1",
    b"cnf_equiv_neg2",
    b"resolution",
    b"chain_resolution",
    b"scope",
];

/// Those that preserve truth by the truth tables of the connectives.
const SEMANTIC_RULES: [&[u8]; 31] = [
    b"split",
    b"eq_resolve",
    b"modus_ponens",
    b"not_not_elim",
    b"contra",
    b"and_elim",
    b"and_intro",
    b"implies_elim",
    b"not_implies_elim1",
    b"not_implies_elim2",
    b"equiv_elim1",
    b"equiv_elim2",
    b"not_equiv_elim1",
    b"not_equiv_elim2",
    b"xor_elim1",
    b"xor_elim2",
    b"not_xor_elim1",
    b"not_xor_elim2",
    b"ite_elim1",
    b"ite_elim2",
    b"not_ite_elim1",
    b"not_ite_elim2",
    b"cnf_implies_pos",
    b"cnf_implies_neg1",
    b"cnf_implies_neg2",
    b"cnf_equiv_pos1",
    b"cnf_equiv_pos2",
    b"cnf_equiv_neg1",
    b"cnf_equiv_neg2",
    b"resolution",
    b"scope",
];

/// Whether the rule of the suite with this number keeps truth by the truth tables.
pub(crate) fn keeps_truth(rule: usize) -> bool
    ensures { result ≡ is_keeping suite_signature rule }
{
    is_listed(rules(), rule, semantic())
}

/// The names of the suite's rules, in order.
fn rules() -> &'static [&'static [u8]]
    ensures { map (λ w. w.now) result.now ≡ rule_names }
{
    &RULES
}

/// Those of the rules that preserve truth.
fn semantic() -> &'static [&'static [u8]]
    ensures { map (λ w. w.now) result.now ≡ semantic_rules }
{
    &SEMANTIC_RULES
}

/// Whether a name, by its number, is one of those that are chosen.
fn is_listed(names: &[&[u8]], n: usize, chosen: &[&[u8]]) -> bool
    ensures { result ≡ option_map_or (λ name. list_any (λ w. bytes_eq name.now w.now) chosen.now) (slice_get names.now n) false }
{
    match names.get(n) {
        Some(name) => is_one_of(chosen, name),
        None => false,
    }
}

/// Whether a name is one of these.
fn is_one_of(names: &[&[u8]], name: &[u8]) -> bool
    ensures { result ≡ list_any (λ w. bytes_eq name.now w.now) names.now }
{
    names.iter().any(|w| name == *w)
}
