//! What is declared, by its number.
ghost use Rattle.std.specs.Prelude.{◌≡◌, ℕ, ◌<◌, List, length, Some, slice_get, IfSome, option_map};
ghost use Rattle.eo_term.specs.Tree.{Tree};
ghost use Rattle.eo_term.specs.Terms.{tree_at};
ghost use Rattle.eo_sig.specs.Signature as sig;
ghost use Rattle.eo_sig.specs.Reading.{signature, macros, read_constant, read_macro, read_program, read_rule};
ghost use Rattle.eo_sig.specs.Reading.{constants_of, programs_of, rules_of, IsBelow, ConstBelow, MacroBelow, ProgramBelow, RuleBelow};

use super::Signature;
use crate::{ConstDecl, LiteralClass, MacroDecl, ProgramDecl, RuleDecl};
use eo_term::Id;

impl Signature {
    /// The constant with this number.
    pub fn constant(&self, n: usize) -> &ConstDecl
        requires { n < length (constants_of self.now) }
        ensures kept { slice_get (constants_of self.now) n ≡ Some result.now }
        ensures value { (ts : List Tree) → sig.constant_at (signature ts self.now) n ≡ Some (read_constant ts result.now) }
        ensures below { (m : ℕ) → IsBelow m self.now → ConstBelow m result.now }
        ensures live { (m : ℕ) → IsBelow m self.now → result.now.ty < m }
    {
        let place = self.constants[n];
        self.entries[place].as_constant().unwrap()
    }

    /// The program with this number.
    pub fn program(&self, n: usize) -> &ProgramDecl
        requires { n < length (programs_of self.now) }
        ensures kept { slice_get (programs_of self.now) n ≡ Some result.now }
        ensures value { (ts : List Tree) → sig.program_at (signature ts self.now) n ≡ Some (read_program ts result.now) }
        ensures below { (m : ℕ) → IsBelow m self.now → ProgramBelow m result.now }
    {
        let (_, place) = self.programs.get_index(n).unwrap();
        self.entries[*place].as_program().unwrap()
    }

    /// The rule with this number.
    pub fn rule_of(&self, n: usize) -> &RuleDecl
        requires { n < length (rules_of self.now) }
        ensures kept { slice_get (rules_of self.now) n ≡ Some result.now }
        ensures value { (ts : List Tree) → sig.rule_at (signature ts self.now) n ≡ Some (read_rule ts result.now) }
        ensures below { (m : ℕ) → IsBelow m self.now → RuleBelow m result.now }
    {
        let (_, place) = self.rules.get_index(n).unwrap();
        self.entries[*place].as_rule().unwrap()
    }

    /// The macro with this number.
    pub fn macro_of(&self, n: usize) -> &MacroDecl
        requires { n < length self.now.macros }
        ensures kept { slice_get self.now.macros n ≡ Some result.now }
        ensures value { (ts : List Tree) → slice_get (macros ts self.now) n ≡ Some (read_macro ts result.now) }
        ensures below { (m : ℕ) → IsBelow m self.now → MacroBelow m result.now }
    {
        let (_, d) = self.macros.get_index(n).unwrap();
        d
    }

    /// The type of a class of literals, in which parameter 0 is the literal; none, where it is
    /// not set.
    pub fn literal_type(&self, class: LiteralClass) -> Option<Id>
        ensures value { (ts : List Tree) → option_map (tree_at ts) result ≡ sig.literal_type (signature ts self.now) class }
        ensures live { (m : ℕ) → IsBelow m self.now → IfSome result (λ i. i < m) }
    {
        match class {
            LiteralClass::Numeral => self.numeral,
            LiteralClass::Binary => self.binary,
            LiteralClass::String => self.string,
        }
    }
}
