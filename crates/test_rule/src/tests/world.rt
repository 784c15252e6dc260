//! Terms, and a signature with constants and rules over them.
ghost use Rattle.std.specs.Prelude.{◌≡◌, ◌<◌, ℕ, true, length, option_map, option_to_list, All, IsTrue, IfOk};
ghost use Rattle.std.specs.List.{list_all};
ghost use Rattle.eo_term.specs.Growth.{tree_in, trees_in};
ghost use Rattle.eo_term.specs.Terms.{HasArity, PartsBelow, TextsBelow, IsPlain, IsProper};
ghost use Rattle.eo_term.specs.Tree.{is_value};
ghost use Rattle.eo_sig.specs.Growth.{GrowsUnder};
ghost use Rattle.eo_sig.specs.Reading.{AttributeBelow, CaseBelow, ConstBelow, IsBelow, PremisesBelow, ProgramBelow, RuleBelow};
ghost use Rattle.eo_sig.specs.Reading.{SomeBelow, rules_of, signature};
ghost use Rattle.eo_sig.specs.declared.records.ConstDecl.{ConstDecl};
ghost use Rattle.eo_sig.specs.declared.records.Param.{Param};
ghost use Rattle.eo_sig.specs.declared.records.ProgramDecl.{ProgramDecl};
ghost use Rattle.eo_sig.specs.declared.records.RuleDecl.{RuleDecl};
ghost use Rattle.eo_sig.specs.Usable.{AreOrdered, IsUsable};
ghost use Rattle.eo_rule.specs.Reading.{IsUseOf};

use super::rows::{ConstRow, Form, Given, RuleRow, Told, Trial, UseRow, Want};
use eo_base::limits::PARAMETERS;
use eo_base::{Name, ok_with};
use eo_eval::Evaluator;
use eo_pattern::Subst;
use eo_rule::{RuleRefused, RuleUse, conclude};
use eo_sig::{
    Attribute, Case, Cases, ConstDecl, IdPairs, LiteralClass, Param, Params, PremiseShape,
    ProgramDecl, RuleDecl, Signature, are_ordered,
};
use eo_term::{BOOL, Id, Ids, Node, OpCode, OpName, Table};
use eo_type::Types;
use std::alloc::{AllocError, Global};
use std::marker::Model;
use std::test::Fail;

/// The number of the constant `not`.
pub(super) const NOT: usize = 6;

/// The number of the constant `and`.
pub(super) const AND: usize = 7;

/// The number of the constant `Int`.
pub(super) const INT: usize = 8;

// The constants in order. The first has the number 4. `Int` is the type of numerals. A vector type
// `vec n` is that of `zeros` on the number n - 1, and a type `proof f` that of `proved` on the formula
// whose negation f is.
const CONSTANTS: &[ConstRow<'static>] = &[
    ("p", "B", ""),
    ("q", "B", ""),
    ("not", ">BB", ""),
    ("and", ">B>BB", "t"),
    ("Int", "T", ""),
    ("c", "I", ""),
    ("vec", ">IT", ""),
    ("zeros", "^IV+x1", ""),
    ("proof", ">BT", ""),
    ("proved", "^BF~x", ""),
];

/// A table, and a signature over it that declares these constants.
///
/// A call that gets a term of another table fails.
#[derive(Drop)]
pub(super) struct World {
    alloc: Global,
    table: Table,
    sig: Signature,
}

impl Model for World {
    ghost use Rattle.std.specs.Prelude.{ℕ, length};
    ghost use Rattle.eo_sig.specs.Reading.{IsBelow, signature};
    ghost use Rattle.eo_sig.specs.Usable.{IsUsable};

    ghost Value = { ℕ };

    ghost view = { λ a. length a.table.trees };

    ghost invariant = { λ a. IsBelow (length a.table.trees) a.sig × IsUsable (signature a.table.trees a.sig) };
}

impl World {
    // Nothing is declared yet.
    fn first(alloc: Global) -> Result<World, AllocError> {
        let table = Table::new(alloc)?;
        let (sig, table) = ok_with(Signature::new(alloc), table)?;
        Ok(World { alloc, table, sig })
    }

    // Declares all constants, and gives numerals a type.
    fn declare_all(&mut self) -> Result<(), Fail> {
        self.declare_constants(CONSTANTS)?;
        let int = self.con(INT)?;
        self.type_numerals(int)
    }

    // Declares constants.
    fn declare_constants(&mut self, rows: &[ConstRow<'_>]) -> Result<(), Fail> {
        for row in rows {
            self.declare_constant(row)?;
        }
        Ok(())
    }

    fn declare_constant(&mut self, row: &ConstRow<'_>) -> Result<(), Fail> {
        let (name, ty, end) = *row;
        let ty = self.term(ty)?;
        let end = self.optional(end)?;
        self.declare(name.as_bytes(), ty, end)
    }

    // Gives numerals a type.
    fn type_numerals(&mut self, ty: Id) -> Result<(), Fail> {
        let ty = live(&self.table, ty)?;
        self.sig
            .set_literal_type(&self.table, LiteralClass::Numeral, ty)?;
        Ok(())
    }

    // Declares a constant, which spells lists with this terminator if it has one.
    fn declare(&mut self, name: &[u8], ty: Id, end: Option<Id>) -> Result<(), Fail> {
        if !self.sig.is_free(name) {
            return Err(Fail::new("no free name"));
        }
        let d = constant(self.alloc, &self.table, name, ty, end)?;
        self.sig.declare(&self.table, d)?;
        Ok(())
    }

    /// A constant, by its number.
    pub(super) fn con(&mut self, number: usize) -> Result<Id, Fail> {
        make_term(&self.sig, &mut self.table, Node::Con(number))
    }

    /// A number.
    pub(super) fn num(&mut self, number: i128) -> Result<Id, Fail> {
        make_term(&self.sig, &mut self.table, Node::Num(number))
    }

    /// A parameter, by its number.
    pub(super) fn par(&mut self, number: u8) -> Result<Id, Fail> {
        if number >= 64 {
            return Err(Fail::new("no parameter"));
        }
        make_term(&self.sig, &mut self.table, Node::Par(number))
    }

    /// The type of functions from one type to another.
    pub(super) fn arr(&mut self, from: Id, to: Id) -> Result<Id, Fail> {
        let from = live(&self.table, from)?;
        let to = live(&self.table, to)?;
        make_term(&self.sig, &mut self.table, Node::Arr { from, to })
    }

    /// The type of functions whose argument is bound as the parameter 0.
    pub(super) fn qar(&mut self, ty: Id, to: Id) -> Result<Id, Fail> {
        let ty = live(&self.table, ty)?;
        let to = live(&self.table, to)?;
        make_term(&self.sig, &mut self.table, Node::Qar { par: 0, ty, to })
    }

    /// A term applied to another.
    pub(super) fn app(&mut self, fun: Id, arg: Id) -> Result<Id, Fail> {
        let fun = live(&self.table, fun)?;
        let arg = live(&self.table, arg)?;
        make_term(&self.sig, &mut self.table, Node::App { fun, arg })
    }

    /// A constant, by its number, applied to a term.
    pub(super) fn apply_constant(&mut self, number: usize, arg: Id) -> Result<Id, Fail> {
        let fun = self.con(number)?;
        self.app(fun, arg)
    }

    /// The item before the conjunction.
    pub(super) fn and(&mut self, first: Id, rest: Id) -> Result<Id, Fail> {
        let front = self.apply_constant(AND, first)?;
        self.app(front, rest)
    }

    /// The negation of a term, and of that, and so on.
    pub(super) fn nots(&mut self, id: Id, times: usize) -> Result<Id, Fail> {
        let mut id = id;
        for _ in 0..times {
            id = self.apply_constant(NOT, id)?;
        }
        Ok(id)
    }

    /// An operator of the language on these arguments.
    pub(super) fn op(&mut self, op: OpName, args: &[Id]) -> Result<Id, Fail> {
        if args.len() != op.arity() || !are_live(&self.table, args) {
            return Err(Fail::new("no arguments of the operator"));
        }
        made_op(&self.sig, &mut self.table, OpCode::Builtin(op), args)
    }

    /// A program, by its number, on a term.
    pub(super) fn call(&mut self, program: usize, arg: Id) -> Result<Id, Fail> {
        let arg = live(&self.table, arg)?;
        made_op(&self.sig, &mut self.table, OpCode::Prog(program), &[arg])
    }

    /// Adds a program with these cases, each a pattern and a body.
    pub(super) fn program(&mut self, name: &[u8], cases: &[(Id, Id)]) -> Result<(), Fail> {
        if !self.sig.is_free(name) {
            return Err(Fail::new("no free name"));
        }
        let d = program(self.alloc, &self.table, name, cases)?;
        self.sig.add_program(&self.table, d)?;
        Ok(())
    }

    /// Where its memory comes from.
    pub(super) fn alloc(&self) -> Global {
        self.alloc
    }

    // Adds the program 0, with these cases, each a pattern and a body.
    fn declare_program(&mut self, rows: &[(&str, &str)]) -> Result<(), Fail> {
        let mut cases = Vec::new(self.alloc);
        let declared = self.declare_cases(rows, &mut cases);
        drop(cases);
        declared
    }

    // The same, with the terms of the cases after these.
    fn declare_cases(
        &mut self,
        rows: &[(&str, &str)],
        cases: &mut Vec<(Id, Id)>,
    ) -> Result<(), Fail> {
        for (pattern, body) in rows {
            let pattern = self.term(pattern)?;
            let body = self.term(body)?;
            cases.push((pattern, body))?;
        }
        self.program(b"u", cases.as_slice())
    }

    // Declares rules.
    fn declare_rules(&mut self, rows: &[RuleRow<'_>]) -> Result<(), Fail> {
        for row in rows {
            self.declare_rule(row)?;
        }
        Ok(())
    }

    fn declare_rule(&mut self, row: &RuleRow<'_>) -> Result<(), Fail> {
        let form = self.form(row)?;
        let declared = self.rule(row.0.as_bytes(), &form);
        drop(form);
        declared
    }

    // The terms of a rule.
    fn form(&mut self, row: &RuleRow<'_>) -> Result<Form, Fail> {
        let (_, types, assumption, premises, args, requirement, conclusion) = *row;
        let list = premises.strip_prefix("*");
        let assumption = self.optional(assumption)?;
        let requirement = self.pair(requirement)?;
        let conclusion = self.term(conclusion)?;
        Ok(Form {
            types: self.terms(types)?,
            assumption,
            premises: self.terms(list.unwrap_or(premises))?,
            joins: list.is_some(),
            args: self.terms(args)?,
            requirement,
            conclusion,
        })
    }

    // Declares a rule.
    fn rule(&mut self, name: &[u8], form: &Form) -> Result<(), Fail> {
        let d = ordered_rule(self.alloc, &self.table, name, form)?;
        if !self.sig.is_free_rule(d.name.as_bytes()) {
            drop(d);
            return Err(Fail::new("no free name"));
        }
        self.sig.add_rule(&self.table, d)?;
        Ok(())
    }

    // The first use of a rule that gives another answer than its row says, if one does.
    fn try_out(&mut self, trial: &Trial<'_>) -> Result<Option<usize>, Fail> {
        self.declare_all()?;
        self.declare_program(trial.cases)?;
        self.declare_rules(trial.rules)?;
        self.wrong(trial.uses)
    }

    // The first row that gives another answer than it says, if one does. The values of the
    // parameters are held in one assignment for all rows.
    fn wrong(&mut self, rows: &[UseRow<'_>]) -> Result<Option<usize>, Fail> {
        let mut subst = Subst::new(self.alloc);
        let answer = self.wrong_with(&mut subst, rows);
        drop(subst);
        answer
    }

    fn wrong_with(
        &mut self,
        subst: &mut Subst,
        rows: &[UseRow<'_>],
    ) -> Result<Option<usize>, Fail> {
        for (i, row) in rows.iter().enumerate() {
            if !self.is_right(subst, row)? {
                return Ok(Some(i));
            }
        }
        Ok(None)
    }

    // Whether a row gives what it says.
    fn is_right(&mut self, subst: &mut Subst, row: &UseRow<'_>) -> Result<bool, Fail> {
        let want = self.expected_outcome(row.5)?;
        let given = self.given_by(row)?;
        let told = self.outcome_of(subst, row.0.as_bytes(), &given);
        drop(given);
        Ok(told? == want)
    }

    // The terms that a row gives.
    fn given_by(&mut self, row: &UseRow<'_>) -> Result<Given, Fail> {
        let (_, assumption, premises, args, stated, _) = *row;
        let assumption = self.optional(assumption)?;
        let stated = self.optional(stated)?;
        Ok(Given {
            assumption,
            premises: self.terms(premises)?,
            args: self.terms(args)?,
            stated,
        })
    }

    // What is wanted, with its term.
    fn expected_outcome(&mut self, want: Want<'_>) -> Result<Told, Fail> {
        match want {
            Want::Formula(code) => Ok(Told::Formula(self.term(code)?)),
            Want::Fault(name) => Ok(Told::Fault(name)),
        }
    }

    // What a use of a rule gives.
    fn outcome_of(&mut self, subst: &mut Subst, name: &[u8], given: &Given) -> Result<Told, Fail> {
        let Some(rule) = self.sig.rule(name) else {
            return Err(Fail::new("no such rule"));
        };
        let given = values_given(self.alloc, &self.table, given)?;
        let answer = told_by(self.alloc, &self.sig, &mut self.table, subst, rule, &given);
        drop(given);
        answer
    }
}

/// Fails at the first use of a rule that gives another answer than its row says: its trial, and its
/// place there. Each trial has a new world.
pub(super) fn all_right(alloc: Global, trials: &[Trial<'_>]) -> Result<(), Fail> {
    for trial in trials {
        if let Some(i) = wrong_in(alloc, trial)? {
            return Err(Fail::new(format_args!("{}: use {i}", trial.name)));
        }
    }
    Ok(())
}

// The first such use of one trial, if there is one. This alone owns a world, and drops it by a
// call: each way out of a function that lets go of one by itself is expensive to prove.
fn wrong_in(alloc: Global, trial: &Trial<'_>) -> Result<Option<usize>, Fail> {
    let mut w = World::first(alloc)?;
    let answer = w.try_out(trial);
    drop(w);
    answer
}

// What a use of the rule of this number gives.
fn told_by(
    alloc: Global,
    sig: &Signature,
    table: &mut Table,
    subst: &mut Subst,
    rule: usize,
    given: &RuleUse,
) -> Result<Told, Fail>
    requires rule { rule < length (rules_of sig.now) }
    requires given { IsUseOf table.old given.now }
    requires below { IsBelow (length table.old.trees) sig.now }
    requires usable { IsUsable (signature table.old.trees sig.now) }
    ensures grows { GrowsUnder sig.now table.old table.new }
{
    sig.laws();
    let mut eval = Evaluator::new(alloc);
    let answer = told_with(alloc, sig, table, &mut eval, subst, rule, given);
    drop(eval);
    answer
}

// The same by this evaluator.
fn told_with(
    alloc: Global,
    sig: &Signature,
    table: &mut Table,
    eval: &mut Evaluator,
    subst: &mut Subst,
    rule: usize,
    given: &RuleUse,
) -> Result<Told, Fail>
    requires rule { rule < length (rules_of sig.now) }
    requires given { IsUseOf table.old given.now }
    requires below { IsBelow (length table.old.trees) sig.now }
    requires usable { IsUsable (signature table.old.trees sig.now) }
    ensures grows { GrowsUnder sig.now table.old table.new }
{
    sig.laws();
    let mut types = Types::new(alloc);
    let answer = conclude(alloc, sig, table, &mut types, eval, subst, rule, given);
    drop(types);
    tells(answer)
}

// The same of what is answered.
fn tells(answer: Result<Id, RuleRefused>) -> Result<Told, Fail> {
    match answer {
        Ok(id) => Ok(Told::Formula(id)),
        Err(RuleRefused::Fault(name)) => Ok(Told::Fault(name)),
        Err(RuleRefused::Memory(e)) => Err(e.into()),
    }
}

// The term, if it is one of the table.
fn live(table: &Table, id: Id) -> Result<Id, Fail>
    ensures { IfOk result (λ i. i < length table.now.trees) }
{
    if id.place() >= table.len() {
        return Err(Fail::new("no term of the table"));
    }
    Ok(id)
}

// The same for a term that may be there.
fn live_or_none(table: &Table, id: Option<Id>) -> Result<Option<Id>, Fail>
    ensures { IfOk result (SomeBelow (length table.now.trees)) }
{
    match id {
        Some(id) => Ok(Some(live(table, id)?)),
        None => Ok(None),
    }
}

// Whether each term is one of the table.
fn are_live(table: &Table, ids: &[Id]) -> bool
    ensures { IsTrue result → All (λ i. i < length table.now.trees) ids.now }
{
    let count = table.len();
    ids.iter().all(|id| id.place() < count)
}

// The term with this root.
fn make_term(sig: &Signature, table: &mut Table, node: Node) -> Result<Id, Fail>
    requires plain { IsPlain node }
    requires parts { PartsBelow (length table.old.trees) node }
    requires texts { TextsBelow (length table.old.texts) node }
    requires proper { IsProper node }
    requires below { IsBelow (length table.old.trees) sig.now }
    ensures grows { GrowsUnder sig.now table.old table.new }
{
    sig.laws();
    Ok(table.intern(node)?)
}

// An operator on these arguments.
fn made_op(sig: &Signature, table: &mut Table, code: OpCode, args: &[Id]) -> Result<Id, Fail>
    requires count { HasArity code (length args.now) }
    requires args { All (λ i. i < length table.old.trees) args.now }
    requires below { IsBelow (length table.old.trees) sig.now }
    ensures grows { GrowsUnder sig.now table.old table.new }
{
    sig.laws();
    Ok(table.intern_op(code, args)?)
}

// The attribute of a constant with this terminator or none.
fn attribute(table: &Table, end: Option<Id>) -> Result<Attribute, Fail>
    ensures { IfOk result (AttributeBelow (length table.now.trees)) }
{
    match end {
        Some(id) => Ok(Attribute::RightNil(live(table, id)?)),
        None => Ok(Attribute::Plain),
    }
}

// A constant of this type, with no parameters.
fn constant(
    alloc: Global,
    table: &Table,
    name: &[u8],
    ty: Id,
    end: Option<Id>,
) -> Result<ConstDecl, Fail>
    ensures below { IfOk result (ConstBelow (length table.now.trees)) }
    ensures named { IfOk result (λ (d : ConstDecl). d.name ≡ name.now) }
{
    let ty = live(table, ty)?;
    let attribute = attribute(table, end)?;
    let name = Name::new(alloc, name)?;
    Ok(ConstDecl {
        name,
        params: Params::new(alloc),
        ty,
        attribute,
        from_reference: false,
    })
}

// These terms.
fn terms(alloc: Global, table: &Table, ids: &[Id]) -> Result<Ids, Fail>
    ensures { IfOk result (All (λ i. i < length table.now.trees)) }
{
    let mut list = Ids::new(alloc);
    for id in ids {
        list.push(live(table, *id)?)?;
    }
    Ok(list)
}

// Parameters of these types.
fn params(alloc: Global, table: &Table, types: &[Id]) -> Result<Params, Fail>
    ensures { IfOk result (All (λ (p : Param). p.ty < length table.now.trees)) }
{
    let mut list = Params::new(alloc);
    for ty in types {
        list.push(param(alloc, table, *ty)?)?;
    }
    Ok(list)
}

// A parameter of this type.
fn param(alloc: Global, table: &Table, ty: Id) -> Result<Param, Fail>
    ensures { IfOk result (λ (p : Param). p.ty < length table.now.trees) }
{
    let ty = live(table, ty)?;
    Ok(Param {
        name: Name::new(alloc, b"x")?,
        ty,
        implicit: false,
        list: false,
    })
}

// A rule of which the type of each parameter uses earlier ones only.
fn ordered_rule(alloc: Global, table: &Table, name: &[u8], form: &Form) -> Result<RuleDecl, Fail>
    ensures below { IfOk result (RuleBelow (length table.now.trees)) }
    ensures ordered { IfOk result (λ (d : RuleDecl). AreOrdered table.now.trees d.params) }
{
    let d = rule(alloc, table, name, form)?;
    if d.params.as_slice().len() > PARAMETERS || !are_ordered(table, d.params.as_slice()) {
        drop(d);
        return Err(Fail::new("a type uses a later parameter"));
    }
    Ok(d)
}

// The cases with these patterns and bodies.
fn cases_of(alloc: Global, table: &Table, rows: &[(Id, Id)]) -> Result<Cases, Fail>
    ensures { IfOk result (All (CaseBelow (length table.now.trees))) }
{
    let mut cases = Cases::new(alloc);
    for row in rows {
        cases.push(case_of(alloc, table, row.0, row.1)?)?;
    }
    Ok(cases)
}

// The case with this pattern and this body.
fn case_of(alloc: Global, table: &Table, pattern: Id, body: Id) -> Result<Case, Fail>
    ensures { IfOk result (CaseBelow (length table.now.trees)) }
{
    let body = live(table, body)?;
    Ok(Case {
        patterns: terms(alloc, table, &[pattern])?,
        body,
    })
}

// A program with these cases. The types of its inputs and of its value play no part.
fn program(
    alloc: Global,
    table: &Table,
    name: &[u8],
    cases: &[(Id, Id)],
) -> Result<ProgramDecl, Fail>
    ensures below { IfOk result (ProgramBelow (length table.now.trees)) }
    ensures named { IfOk result (λ (d : ProgramDecl). d.name ≡ name.now) }
{
    let output = live(table, BOOL)?;
    let cases = cases_of(alloc, table, cases)?;
    let name = Name::new(alloc, name)?;
    Ok(ProgramDecl {
        name,
        params: Params::new(alloc),
        inputs: Ids::new(alloc),
        output,
        cases,
    })
}

// A rule.
fn rule(alloc: Global, table: &Table, name: &[u8], form: &Form) -> Result<RuleDecl, Fail>
    ensures { IfOk result (RuleBelow (length table.now.trees)) }
{
    let mut d = bare_rule(alloc, table, name, form.conclusion)?;
    add_parts(alloc, table, form, &mut d)?;
    Ok(d)
}

// A rule that has a name and a conclusion.
fn bare_rule(alloc: Global, table: &Table, name: &[u8], conclusion: Id) -> Result<RuleDecl, Fail>
    ensures { IfOk result (RuleBelow (length table.now.trees)) }
{
    let conclusion = live(table, conclusion)?;
    let name = Name::new(alloc, name)?;
    Ok(RuleDecl {
        name,
        params: Params::new(alloc),
        assumption: None,
        premises: PremiseShape::Each(Ids::new(alloc)),
        args: Ids::new(alloc),
        requirements: IdPairs::new(alloc),
        conclusion,
        sorry: false,
    })
}

// Gives a rule all other parts.
fn add_parts(alloc: Global, table: &Table, form: &Form, d: &mut RuleDecl) -> Result<(), Fail>
    requires { RuleBelow (length table.now.trees) d.old }
    ensures { RuleBelow (length table.now.trees) d.new }
{
    d.params = params(alloc, table, form.types.as_slice())?;
    d.assumption = live_or_none(table, form.assumption)?;
    d.premises = shape(alloc, table, form)?;
    d.args = terms(alloc, table, form.args.as_slice())?;
    d.requirements = requirements(alloc, table, form.requirement)?;
    Ok(())
}

// What its premises are matched with.
fn shape(alloc: Global, table: &Table, form: &Form) -> Result<PremiseShape, Fail>
    ensures { IfOk result (PremisesBelow (length table.now.trees)) }
{
    let premises = form.premises.as_slice();
    if !form.joins {
        return Ok(PremiseShape::Each(terms(alloc, table, premises)?));
    }
    let Some(pattern) = premises.first() else {
        return Err(Fail::new("no pattern"));
    };
    Ok(PremiseShape::Joined {
        pattern: live(table, *pattern)?,
        with: AND,
    })
}

// One requirement or none.
fn requirements(alloc: Global, table: &Table, pair: Option<(Id, Id)>) -> Result<IdPairs, Fail>
    ensures { IfOk result (All (λ (q : ℕ × ℕ). (q.0 < length table.now.trees) × (q.1 < length table.now.trees))) }
{
    let mut list = IdPairs::new(alloc);
    if let Some((first, second)) = pair {
        list.push((live(table, first)?, live(table, second)?))?;
    }
    Ok(list)
}

// What is given to a rule, if that are values.
fn values_given(alloc: Global, table: &Table, given: &Given) -> Result<RuleUse, Fail>
    ensures { IfOk result (IsUseOf table.now) }
{
    let assumption = value_or_none(table, given.assumption)?;
    let stated = live_or_none(table, given.stated)?;
    Ok(RuleUse {
        assumption,
        premises: values(alloc, table, given.premises.as_slice())?,
        args: values(alloc, table, given.args.as_slice())?,
        stated,
    })
}

// These terms, if they are values.
fn values(alloc: Global, table: &Table, ids: &[Id]) -> Result<Ids, Fail>
    ensures live { IfOk result (All (λ i. i < length table.now.trees)) }
    ensures values { IfOk result (λ is. list_all is_value (trees_in table.now is) ≡ true) }
{
    let list = terms(alloc, table, ids)?;
    if !are_values(table, list.as_slice()) {
        drop(list);
        return Err(Fail::new("no value"));
    }
    Ok(list)
}

// The term, if it is a value, or none.
fn value_or_none(table: &Table, id: Option<Id>) -> Result<Option<Id>, Fail>
    ensures live { IfOk result (SomeBelow (length table.now.trees)) }
    ensures values { IfOk result (λ o. list_all is_value (option_to_list (option_map (tree_in table.now) o)) ≡ true) }
{
    match id {
        None => Ok(None),
        Some(id) => {
            let id = live(table, id)?;
            if !table.is_value(id) {
                return Err(Fail::new("no value"));
            }
            Ok(Some(id))
        }
    }
}

// Whether all terms are values.
fn are_values(table: &Table, ids: &[Id]) -> bool
    requires { All (λ i. i < length table.now.trees) ids.now }
    ensures { result ≡ list_all is_value (trees_in table.now ids.now) }
{
    for id in ids {
        if !table.is_value(*id) {
            return false;
        }
    }
    true
}
