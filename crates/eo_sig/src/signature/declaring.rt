//! Calls that declare.
ghost use Rattle.std.specs.Prelude.{◌≡◌, ℕ, ◌<◌, List, length, map, true, None, is_some, IfOk, OnOk, OnErr};
ghost use Rattle.eo_term.specs.Tree.{Tree};
ghost use Rattle.eo_term.specs.Terms.{tree_at};
ghost use Rattle.eo_sig.specs.Signature as sig;
ghost use Rattle.eo_sig.specs.declared.records.Declared.TheVariants as declared;
ghost use Rattle.eo_sig.specs.Adding.{EntryIsFree};
ghost use Rattle.eo_sig.specs.Reading.{signature, macros, counts_in, read_parameter, read_constant, read_macro, read_program};
ghost use Rattle.eo_sig.specs.Reading.{read_rule, read_premises};
ghost use Rattle.eo_sig.specs.Reading.{IsBelow, ConstBelow, MacroBelow, ProgramBelow, RuleBelow};
ghost use Rattle.eo_sig.specs.Reading.{with_entry, with_macro, Enters, IsFree, IsFreeRule, Adds, AddsAt, AddsMacro};
ghost use Rattle.eo_sig.specs.Refused.{Tells, IsFaultOnly};
ghost use Rattle.eo_sig.specs.Usable.{AreOrdered, StaysUsable};

use super::Signature;
use crate::patterns::{cases_are_bound, cases_may_hold, rule_is_bound, rule_is_plain};
use crate::types::{ends_at_right, implicit_occur, may_type};
use crate::{
    ConstDecl, Declared, LiteralClass, MacroDecl, PremiseShape, ProgramDecl, RuleDecl, SigRefused,
};
use eo_base::ok_with;
use eo_term::{Id, Table};

impl Signature {
    /// Declares a constant, whose terms are terms of the table, and returns its number. It takes the
    /// numbers of arguments that [`ConstDecl::counts`] gives.
    ///
    /// `BadPattern` comes exactly where its type or a parameter's type holds an operator that no
    /// declared type may hold, or its terminator is no value. Else `UnboundParam` comes exactly
    /// where an implicit parameter occurs in no type of an argument outside every operator. Else
    /// `Redeclared` comes exactly where [`Signature::is_free_for`] is false. `Memory`: out of memory.
    pub fn declare(&mut self, table: &Table, d: ConstDecl) -> Result<usize, SigRefused>
        requires live { ConstBelow (length table.now.trees) d }
        ensures tells { Tells result (sig.declare_fault (signature table.now.trees self.old) (macros table.now.trees self.old)
            (read_constant table.now.trees d)) }
        ensures kept { OnOk result (self.new ≡ with_entry (declared.Const d (counts_in table.now.trees d)) self.old) }
        ensures adds { IfOk result (AddsAt sig.constants self.old
            (λ ts. sig.IsConstant (read_constant ts d) (sig.counts_of (read_constant table.now.trees d))) self.new) }
        ensures usable { OnOk result (StaysUsable table.now.trees self.old self.new) }
        ensures below { OnOk result ((m : ℕ) → IsBelow m self.old → ConstBelow m d → IsBelow m self.new) }
        ensures err { OnErr result (self.new ≡ self.old) }
    {
        let ((), d) = ok_with(self.check_new(table, &d), d)?;
        let number = self.constants();
        let counts = d.counts(table);
        match self.add(table, Declared::Const(d, counts)) {
            Ok(()) => Ok(number),
            Err(e) => Err(SigRefused::Memory(e)),
        }
    }

    /// Refuses a constant exactly where [`Signature::declare`] does, but for lack of memory. Its
    /// terms are terms of the table. Nothing is added.
    pub fn check_new(&self, table: &Table, d: &ConstDecl) -> Result<(), SigRefused>
        requires { ConstBelow (length table.now.trees) d.now }
        ensures tells { Tells result (sig.declare_fault (signature table.now.trees self.now) (macros table.now.trees self.now)
            (read_constant table.now.trees d.now)) }
        ensures sound { OnOk result (sig.constant_fault (read_constant table.now.trees d.now) ≡ None) }
        ensures free { OnOk result (EntryIsFree self.now (declared.Const d.now (counts_in table.now.trees d.now))) }
    {
        check_constant(table, d)?;
        if !self.is_free_for(table, d) {
            return Err(SigRefused::Redeclared);
        }
        Ok(())
    }

    /// Defines a macro, whose name is to be free, and returns its number. `Memory`, which is out
    /// of memory, is the only refusal.
    pub fn define(&mut self, d: MacroDecl) -> Result<usize, SigRefused>
        requires free { IsFree self.old d.name }
        ensures tells { Tells result None }
        ensures kept { OnOk result (self.new ≡ with_macro d self.old) }
        ensures adds { IfOk result (λ n. (ts : List Tree) → AddsMacro ts self.old (read_macro ts d) self.new) }
        ensures number { IfOk result (λ n. n ≡ length self.old.macros) }
        ensures below { OnOk result ((m : ℕ) → IsBelow m self.old → MacroBelow m d → IsBelow m self.new) }
        ensures err { OnErr result (self.new ≡ self.old) }
    {
        match self.keep_macro(d) {
            Ok(n) => Ok(n),
            Err(e) => Err(SigRefused::Memory(e)),
        }
    }

    /// Adds a program, whose name is to be free, whose terms are terms of the table, and which has
    /// at most 64 arguments, and returns its number.
    ///
    /// `BadPattern` comes exactly where a pattern of a case holds an operator. Else `UnboundParam`
    /// comes exactly where the body of a case uses a parameter that does not occur in the case's
    /// patterns. `Memory`: out of memory.
    pub fn add_program(&mut self, table: &Table, d: ProgramDecl) -> Result<usize, SigRefused>
        requires free { IsFree self.old d.name }
        requires live { ProgramBelow (length table.now.trees) d }
        ensures tells { Tells result (sig.program_fault (read_program table.now.trees d)) }
        ensures kept { OnOk result (self.new ≡ with_entry (declared.Program d) self.old) }
        ensures adds { IfOk result (AddsAt sig.programs self.old (λ ts. sig.IsProgram (read_program ts d)) self.new) }
        ensures usable { OnOk result ((ts : List Tree) → StaysUsable ts self.old self.new) }
        ensures below { OnOk result ((m : ℕ) → IsBelow m self.old → ProgramBelow m d → IsBelow m self.new) }
        ensures err { OnErr result (self.new ≡ self.old) }
    {
        let ((), d) = ok_with(check_program(table, &d), d)?;
        let number = self.programs();
        match self.add(table, Declared::Program(d)) {
            Ok(()) => Ok(number),
            Err(e) => Err(SigRefused::Memory(e)),
        }
    }

    /// Adds a rule, whose name is to be free among rules, whose terms are terms of the table, and of
    /// which the type of each parameter uses earlier parameters only, and returns its number.
    ///
    /// `BadPattern` comes exactly where a pattern holds an operator, a parameter's type holds an
    /// operator that no declared type may hold, or premises are joined by a constant that has no
    /// terminator at the right. Else `UnboundParam` comes exactly where a requirement or the
    /// conclusion uses a parameter that gets no value: one that occurs in no pattern, and not
    /// outside every operator in the type of a later parameter that gets one. `Memory` is out of
    /// memory.
    pub fn add_rule(&mut self, table: &Table, d: RuleDecl) -> Result<usize, SigRefused>
        requires free { IsFreeRule self.old d.name }
        requires live { RuleBelow (length table.now.trees) d }
        requires ordered { AreOrdered table.now.trees d.params }
        ensures tells { Tells result (sig.rule_fault (signature table.now.trees self.old) (read_rule table.now.trees d)) }
        ensures kept { Enters result (declared.Rule d) self.old self.new }
        ensures adds { IfOk result (AddsAt sig.rules self.old (λ ts. sig.IsRule (read_rule ts d)) self.new) }
        ensures usable { OnOk result ((ts : List Tree) → AreOrdered ts d.params → StaysUsable ts self.old self.new) }
        ensures below { OnOk result ((m : ℕ) → IsBelow m self.old → RuleBelow m d → IsBelow m self.new) }
    {
        let ((), d) = ok_with(self.check_rule(table, &d), d)?;
        let number = self.rules();
        match self.add(table, Declared::Rule(d)) {
            Ok(()) => Ok(number),
            Err(e) => Err(SigRefused::Memory(e)),
        }
    }

    /// Gives a class of literals its type, a term of the table in which parameter 0 is the
    /// literal.
    ///
    /// `Redeclared` comes exactly where the class has a type. Else `BadPattern` comes exactly
    /// where the type holds an operator that no declared type may hold. `Memory` is out of
    /// memory.
    pub fn set_literal_type(
        &mut self,
        table: &Table,
        class: LiteralClass,
        ty: Id,
    ) -> Result<(), SigRefused>
        requires { ty < length table.now.trees }
        ensures tells { Tells result (sig.literal_type_fault (signature table.now.trees self.old) class (tree_at table.now.trees ty)) }
        ensures kept { OnOk result (self.new ≡ with_entry (declared.Literal class ty) self.old) }
        ensures adds { OnOk result ((ts : List Tree) → Adds ts self.old (sig.IsLiteralType class (tree_at ts ty)) self.new) }
        ensures usable { OnOk result ((ts : List Tree) → StaysUsable ts self.old self.new) }
        ensures below { OnOk result ((m : ℕ) → IsBelow m self.old → ty < m → IsBelow m self.new) }
        ensures err { OnErr result (self.new ≡ self.old) }
    {
        self.check_literals(table, class, ty)?;
        match self.add(table, Declared::Literal { class, ty }) {
            Ok(()) => Ok(()),
            Err(e) => Err(SigRefused::Memory(e)),
        }
    }

    /// Refuses a second type of a class of literals, and one that may not be declared.
    pub(super) fn check_literals(
        &self,
        table: &Table,
        class: LiteralClass,
        ty: Id,
    ) -> Result<(), SigRefused>
        requires { ty < length table.now.trees }
        ensures { Tells result (sig.literal_type_fault (signature table.now.trees self.now) class (tree_at table.now.trees ty)) }
    {
        if self.literal_type(class).is_some() {
            return Err(SigRefused::Redeclared);
        }
        if !table.may_be_type(ty) {
            return Err(SigRefused::BadPattern);
        }
        Ok(())
    }

    /// Refuses a rule that may not be added, whatever its name.
    pub(super) fn check_rule(&self, table: &Table, d: &RuleDecl) -> Result<(), SigRefused>
        requires { RuleBelow (length table.now.trees) d.now }
        ensures { Tells result (sig.rule_fault (signature table.now.trees self.now) (read_rule table.now.trees d.now)) }
    {
        let holds = rule_is_plain(table, d)
            && may_type(table, d.params.as_slice())
            && self.can_join(&d.premises);
        if !holds {
            return Err(SigRefused::BadPattern);
        }
        if !rule_is_bound(table, d) {
            return Err(SigRefused::UnboundParam);
        }
        Ok(())
    }

    // Whether premises may be matched so: what joins them is a constant with a terminator at the
    // right.
    fn can_join(&self, premises: &PremiseShape) -> bool
        ensures { (ts : List Tree) → result ≡ sig.can_join (signature ts self.now) (read_premises ts premises.now) }
    {
        match premises {
            PremiseShape::Each(_) => true,
            PremiseShape::Joined { with, .. } => self.has_terminator(*with),
        }
    }

    /// Whether the number is that of a constant with a terminator at the right.
    pub fn has_terminator(&self, n: usize) -> bool
        ensures { (ts : List Tree) → result ≡ is_some (sig.terminator (signature ts self.now) n) }
    {
        n < self.constants.len() && ends_at_right(&self.constant(n).attribute)
    }
}

/// Refuses a constant that may not be declared, whatever its name.
pub(super) fn check_constant(table: &Table, d: &ConstDecl) -> Result<(), SigRefused>
    requires { ConstBelow (length table.now.trees) d.now }
    ensures tells { Tells result (sig.constant_fault (read_constant table.now.trees d.now)) }
    ensures fault { IsFaultOnly result }
{
    if !d.may_hold(table) {
        return Err(SigRefused::BadPattern);
    }
    if !implicit_occur(table, d.ty, d.params.as_slice()) {
        return Err(SigRefused::UnboundParam);
    }
    Ok(())
}

/// Refuses a program that may not be added, whatever its name.
pub(super) fn check_program(table: &Table, d: &ProgramDecl) -> Result<(), SigRefused>
    requires { ProgramBelow (length table.now.trees) d.now }
    ensures { Tells result (sig.program_fault (read_program table.now.trees d.now)) }
{
    if !cases_may_hold(table, d.cases.as_slice()) {
        return Err(SigRefused::BadPattern);
    }
    if !cases_are_bound(table, d.cases.as_slice()) {
        return Err(SigRefused::UnboundParam);
    }
    Ok(())
}
