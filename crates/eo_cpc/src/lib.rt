//! The suite: a signature of propositional reasoning and equality, which proofs may include.
#![tactic(auto)]

ghost use Rattle.std.specs.Prelude.{◌≡◌, bytes_eq};
ghost use Rattle.eo_cpc.specs.Suite.{suite};

/// The text of the suite, a line for each command: constants with their attributes, programs, and
/// rules of propositional reasoning and equality.
pub fn suite() -> &'static [u8]
    ensures { result.now ≡ suite }
{
    b"(declare-const Int Type)\n\
(declare-consts <numeral> Int)\n\
(declare-const String Type)\n\
(declare-consts <string> String)\n\
(declare-parameterized-const BitVec ((w Int)) Type)\n\
(declare-consts <binary> (BitVec (eo::len eo::self)))\n\
(declare-const not (-> Bool Bool))\n\
(declare-const and (-> Bool Bool Bool) :right-assoc-nil true)\n\
(declare-const or (-> Bool Bool Bool) :right-assoc-nil false)\n\
(declare-const => (-> Bool Bool Bool) :right-assoc)\n\
(declare-const xor (-> Bool Bool Bool) :left-assoc)\n\
(declare-parameterized-const = ((T Type :implicit)) (-> T T Bool) :chainable and)\n\
(declare-parameterized-const distinct ((T Type :implicit)) (-> T T Bool) :pairwise and)\n\
(declare-parameterized-const ite ((T Type :implicit)) (-> Bool T T T))\n\
(declare-parameterized-const extract ((n Int :implicit) (h Int) (l Int)) (-> (BitVec n) (BitVec (eo::add (eo::add h \
  1) (eo::neg l)))))\n\
(declare-const @List Type)\n\
(declare-const @nil @List)\n\
(declare-parameterized-const @list ((T Type :implicit)) (-> T @List @List) :right-assoc-nil @nil)\n\
(declare-const forall (-> @List Bool Bool) :binder @list)\n\
(declare-const exists (-> @List Bool Bool) :binder @list)\n\
(program $cl ((x Bool) (xs Bool :list)) :signature (Bool) Bool ((($cl (or x xs)) (or x xs)) (($cl false) false) (($cl \
  x) (or x))))\n\
(program $uncl ((x Bool)) :signature (Bool) Bool ((($uncl (or x)) x) (($uncl x) x)))\n\
(program $nots ((x Bool) (xs Bool :list)) :signature (Bool) Bool ((($nots true) false) (($nots (and x xs)) (eo::cons \
  or (not x) ($nots xs)))))\n\
(program $sy ((T Type) (t T) (s T)) :signature (Bool) Bool ((($sy (= t s)) (= s t)) (($sy (not (= t s))) (not (= s \
  t)))))\n\
(program $tr ((T Type) (t T) (s T) (r T) (Es Bool :list)) :signature (T T Bool) Bool ((($tr t s true) (= t s)) (($tr \
  t s (and (= s r) Es)) ($tr t r Es))))\n\
(program $rl ((C Bool) (D Bool) (L Bool)) :signature (Bool Bool Bool Bool) Bool ((($rl C D true L) (eo::list_concat \
  or (eo::list_erase or C L) (eo::list_erase or D (not L)))) (($rl C D false L) (eo::list_concat or (eo::list_erase or \
  C (not L)) (eo::list_erase or D L)))))\n\
(program $chain ((C Bool) (D Bool) (Ds Bool :list) (p Bool) (ps @List :list) (L Bool) (Ls @List :list)) :signature \
  (Bool Bool @List @List) Bool ((($chain C true @nil @nil) C) (($chain C (and D Ds) (@list p ps) (@list L Ls)) ($chain \
  ($rl C ($cl D) p L) Ds ps Ls))))\n\
(declare-rule refl ((T Type) (t T)) :args (t) :conclusion (= t t))\n\
(declare-rule symm ((F Bool)) :premises (F) :conclusion ($sy F))\n\
(declare-rule trans ((T Type) (t T) (s T) (Es Bool :list)) :premise-list (and (= t s) Es) and :conclusion ($tr t s \
  Es))\n\
(declare-rule split ((F Bool)) :args (F) :conclusion (or F (not F)))\n\
(declare-rule eq_resolve ((F Bool) (G Bool)) :premises (F (= F G)) :conclusion G)\n\
(declare-rule modus_ponens ((F Bool) (G Bool)) :premises (F (=> F G)) :conclusion G)\n\
(declare-rule not_not_elim ((F Bool)) :premises ((not (not F))) :conclusion F)\n\
(declare-rule contra ((F Bool)) :premises (F (not F)) :conclusion false)\n\
(declare-rule and_elim ((F Bool) (i Int)) :premises (F) :args (i) :conclusion (eo::list_nth and F i))\n\
(declare-rule and_intro ((F Bool)) :premise-list F and :conclusion F)\n\
(declare-rule not_or_elim ((F Bool) (i Int)) :premises ((not F)) :args (i) :conclusion (not (eo::list_nth or F i)))\n\
(declare-rule implies_elim ((F Bool) (G Bool)) :premises ((=> F G)) :conclusion (or (not F) G))\n\
(declare-rule not_implies_elim1 ((F Bool) (G Bool)) :premises ((not (=> F G))) :conclusion F)\n\
(declare-rule not_implies_elim2 ((F Bool) (G Bool)) :premises ((not (=> F G))) :conclusion (not G))\n\
(declare-rule equiv_elim1 ((F Bool) (G Bool)) :premises ((= F G)) :conclusion (or (not F) G))\n\
(declare-rule equiv_elim2 ((F Bool) (G Bool)) :premises ((= F G)) :conclusion (or F (not G)))\n\
(declare-rule not_equiv_elim1 ((F Bool) (G Bool)) :premises ((not (= F G))) :conclusion (or F G))\n\
(declare-rule not_equiv_elim2 ((F Bool) (G Bool)) :premises ((not (= F G))) :conclusion (or (not F) (not G)))\n\
(declare-rule xor_elim1 ((F Bool) (G Bool)) :premises ((xor F G)) :conclusion (or F G))\n\
(declare-rule xor_elim2 ((F Bool) (G Bool)) :premises ((xor F G)) :conclusion (or (not F) (not G)))\n\
(declare-rule not_xor_elim1 ((F Bool) (G Bool)) :premises ((not (xor F G))) :conclusion (or F (not G)))\n\
(declare-rule not_xor_elim2 ((F Bool) (G Bool)) :premises ((not (xor F G))) :conclusion (or (not F) G))\n\
(declare-rule ite_elim1 ((C Bool) (F Bool) (G Bool)) :premises ((ite C F G)) :conclusion (or (not C) F))\n\
(declare-rule ite_elim2 ((C Bool) (F Bool) (G Bool)) :premises ((ite C F G)) :conclusion (or C G))\n\
(declare-rule not_ite_elim1 ((C Bool) (F Bool) (G Bool)) :premises ((not (ite C F G))) :conclusion (or (not C) (not \
  F)))\n\
(declare-rule not_ite_elim2 ((C Bool) (F Bool) (G Bool)) :premises ((not (ite C F G))) :conclusion (or C (not G)))\n\
(declare-rule not_and ((F Bool)) :premises ((not F)) :conclusion ($nots F))\n\
(declare-rule cnf_and_pos ((F Bool) (i Int)) :args (F i) :conclusion (or (not F) (eo::list_nth and F i)))\n\
(declare-rule cnf_and_neg ((F Bool)) :args (F) :conclusion (eo::cons or F ($nots F)))\n\
(declare-rule cnf_or_pos ((F Bool)) :args (F) :conclusion (eo::cons or (not F) F))\n\
(declare-rule cnf_or_neg ((F Bool) (i Int)) :args (F i) :conclusion (or F (not (eo::list_nth or F i))))\n\
(declare-rule cnf_implies_pos ((F Bool) (G Bool)) :args ((=> F G)) :conclusion (or (not (=> F G)) (not F) G))\n\
(declare-rule cnf_implies_neg1 ((F Bool) (G Bool)) :args ((=> F G)) :conclusion (or (=> F G) F))\n\
(declare-rule cnf_implies_neg2 ((F Bool) (G Bool)) :args ((=> F G)) :conclusion (or (=> F G) (not G)))\n\
(declare-rule cnf_equiv_pos1 ((F Bool) (G Bool)) :args ((= F G)) :conclusion (or (not (= F G)) (not F) G))\n\
(declare-rule cnf_equiv_pos2 ((F Bool) (G Bool)) :args ((= F G)) :conclusion (or (not (= F G)) F (not G)))\n\
(declare-rule cnf_equiv_neg1 ((F Bool) (G Bool)) :args ((= F G)) :conclusion (or (= F G) F G))\n\
(declare-rule cnf_equiv_neg2 ((F Bool) (G Bool)) :args ((= F G)) :conclusion (or (= F G) (not F) (not G)))\n\
(declare-rule resolution ((C Bool) (D Bool) (p Bool) (L Bool)) :premises (C D) :args (p L) :conclusion ($uncl ($rl \
  ($cl C) ($cl D) p L)))\n\
(declare-rule chain_resolution ((C Bool) (Ds Bool :list) (ps @List) (Ls @List)) :premise-list (and C Ds) and :args \
  (ps Ls) :conclusion ($uncl ($chain ($cl C) Ds ps Ls)))\n\
(declare-rule scope ((F Bool) (G Bool)) :assumption F :premises (G) :conclusion (=> F G))\n\
(declare-const - (-> Int Int Int) :left-assoc)\n\
(declare-const - (-> Int Int))\n"
}

/// Whether these bytes are the suite.
pub fn is_suite(bytes: &[u8]) -> bool
    ensures { result ≡ bytes_eq bytes.now suite }
{
    bytes == suite()
}

#[cfg(test)]
mod tests;
