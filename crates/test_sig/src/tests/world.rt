//! A signature, and terms of its table.
ghost use Rattle.std.specs.Prelude.{◌≡◌, ◌<◌, length, All, IfOk, IsTrue};
ghost use Rattle.eo_sig.specs.Reading.{CaseBelow, ConstBelow, ProgramBelow, RuleBelow};
ghost use Rattle.eo_sig.specs.Usable.{AreOrdered};

use eo_base::limits::PARAMETERS;
use eo_base::{Name, ok_with};
use eo_sig::{
    Attribute, Case, Cases, ConstDecl, Declared, Entry, IdPairs, Param, Params, PremiseShape,
    ProgramDecl, RuleDecl, SigRefused, Signature, are_ordered,
};
use eo_term::{BOOL, Id, Ids, Node, OpCode, OpName, TRUE, TYPE, Table};
use std::alloc::{AllocError, Global};
use std::marker::Model;
use std::test::Fail;

/// A term.
#[derive(Clone, Copy)]
pub(super) enum Sample {
    Bool,
    True,
    /// The parameter 0.
    Open,
    /// The operator `eo::neg` on that.
    Operator,
    /// The type of functions from the parameter to `Bool`.
    OfArguments,
    /// That of functions from `Bool` to the parameter.
    OfValues,
    /// That of functions from the operator to `Bool`.
    InOperator,
}

/// What became of a declaration.
#[derive(Clone, Copy, Debug, PartialEq, Eq)]
pub(super) enum Answer {
    /// It is made, and has this number.
    Number(usize),
    /// Its name is not free.
    Taken,
    Redeclared,
    BadPattern,
    UnboundParam,
    /// The type of a parameter uses a later one.
    Unordered,
    Memory,
}

/// A table and a signature. A call that gets a term of another table fails.
#[derive(Drop)]
pub(super) struct World {
    alloc: Global,
    table: Table,
    sig: Signature,
}

impl Model for World {
    ghost use Rattle.std.specs.Prelude.{ℕ, length};

    ghost Value = { ℕ };

    ghost view = { λ a. length a.table.trees };
}

impl World {
    /// Nothing is declared yet.
    pub(super) fn new(alloc: Global) -> Result<World, AllocError> {
        let table = Table::new(alloc)?;
        let (sig, table) = ok_with(Signature::new(alloc), table)?;
        Ok(World { alloc, table, sig })
    }

    // The term of a sample.
    fn term(&mut self, sample: Sample) -> Result<Id, Fail> {
        match sample {
            Sample::Bool => Ok(BOOL),
            Sample::True => Ok(TRUE),
            Sample::Open => self.open(),
            Sample::Operator => self.negate(),
            Sample::OfArguments => self.from_open(),
            Sample::OfValues => self.to_open(),
            Sample::InOperator => self.from_negated(),
        }
    }

    // The parameter 0.
    fn open(&mut self) -> Result<Id, Fail> {
        Ok(self.table.intern(Node::Par(0))?)
    }

    // The operator `eo::neg` on that.
    fn negate(&mut self) -> Result<Id, Fail> {
        let open = self.table.intern(Node::Par(0))?;
        Ok(self.table.intern_op(OpCode::Builtin(OpName::Neg), &[open])?)
    }

    fn from_open(&mut self) -> Result<Id, Fail> {
        let open = self.open()?;
        self.function(open, BOOL)
    }

    fn to_open(&mut self) -> Result<Id, Fail> {
        let open = self.open()?;
        self.function(BOOL, open)
    }

    fn from_negated(&mut self) -> Result<Id, Fail> {
        let hidden = self.negate()?;
        self.function(hidden, BOOL)
    }

    // The type of functions from one type to another.
    fn function(&mut self, from: Id, to: Id) -> Result<Id, Fail> {
        let from = live(&self.table, from)?;
        let to = live(&self.table, to)?;
        Ok(self.table.intern(Node::Arr { from, to })?)
    }

    /// Declares a constant of type `Bool`, without parameters.
    pub(super) fn declare(&mut self, name: &[u8]) -> Result<Answer, Fail> {
        let d = constant(self.alloc, &self.table, name, BOOL)?;
        Ok(self.declare_constant(d))
    }

    /// Declares a constant that has so many arguments of type `Bool`, and folds them so.
    pub(super) fn declare_taking(
        &mut self,
        name: &[u8],
        n: u8,
        attribute: Attribute,
    ) -> Result<Answer, Fail> {
        let ty = self.taking(n)?;
        let d = folding_constant(self.alloc, &self.table, name, ty, attribute)?;
        Ok(self.declare_constant(d))
    }

    // The type of functions with so many arguments.
    fn taking(&mut self, n: u8) -> Result<Id, Fail> {
        let mut ty = BOOL;
        for _ in 0..n {
            ty = self.function(BOOL, ty)?;
        }
        Ok(ty)
    }

    /// Declares a constant of this type, whose parameter 0 is implicit and a type.
    pub(super) fn declare_implicit(&mut self, name: &[u8], ty: Sample) -> Result<Answer, Fail> {
        let ty = self.term(ty)?;
        let d = implicit_constant(self.alloc, &self.table, name, ty)?;
        Ok(self.declare_constant(d))
    }

    /// Whether the check alone passes a constant of this type, whose parameter 0 is implicit and a
    /// type.
    pub(super) fn checks_implicit(&mut self, name: &[u8], ty: Sample) -> Result<bool, Fail> {
        let ty = self.term(ty)?;
        let d = implicit_constant(self.alloc, &self.table, name, ty)?;
        Ok(self.passes(d))
    }

    fn passes(&self, d: ConstDecl) -> bool
        requires { ConstBelow self.now d }
    {
        let counts = d.counts(&self.table);
        let d = Declared::Const(d, counts);
        self.sig.check(&self.table, &d).is_ok()
    }

    fn declare_constant(&mut self, d: ConstDecl) -> Answer
        requires { ConstBelow self.old d }
    {
        what_became(self.sig.declare(&self.table, d))
    }

    /// Adds a program over a parameter of type `Bool`, with values of type `Bool`, and with one
    /// case.
    pub(super) fn add_program(
        &mut self,
        name: &[u8],
        pattern: Sample,
        body: Sample,
    ) -> Result<Answer, Fail> {
        let pattern = self.term(pattern)?;
        let body = self.term(body)?;
        let d = program(self.alloc, &self.table, name, pattern, body)?;
        Ok(self.declare_program(d))
    }

    fn declare_program(&mut self, d: ProgramDecl) -> Answer
        requires { ProgramBelow self.old d }
    {
        if !self.sig.is_free(d.name.as_bytes()) {
            drop(d);
            return Answer::Taken;
        }
        what_became(self.sig.add_program(&self.table, d))
    }

    /// Adds a rule over a parameter of type `Bool`, with one argument.
    pub(super) fn add_rule(
        &mut self,
        name: &[u8],
        arg: Sample,
        conclusion: Sample,
    ) -> Result<Answer, Fail> {
        let arg = self.term(arg)?;
        let conclusion = self.term(conclusion)?;
        let d = rule(self.alloc, &self.table, name, arg, conclusion)?;
        Ok(self.declare_rule(d))
    }

    fn declare_rule(&mut self, d: RuleDecl) -> Answer
        requires { RuleBelow self.old d }
    {
        if !is_ordered(&self.table, &d) {
            drop(d);
            return Answer::Unordered;
        }
        if !self.sig.is_free_rule(d.name.as_bytes()) {
            drop(d);
            return Answer::Taken;
        }
        what_became(self.sig.add_rule(&self.table, d))
    }

    /// What the name means among constants, macros and programs.
    pub(super) fn lookup(&self, name: &[u8]) -> Option<Entry> {
        self.sig.lookup(name)
    }

    /// What the name means before so many arguments.
    pub(super) fn lookup_count(&self, name: &[u8], n: usize) -> Option<Entry> {
        self.sig.lookup_count(name, n)
    }

    /// The constant of the name that takes so many arguments.
    pub(super) fn constant_taking(&self, name: &[u8], n: usize) -> Option<usize> {
        self.sig.constant_taking(name, n)
    }

    /// The number of the rule with this name.
    pub(super) fn rule(&self, name: &[u8]) -> Option<usize> {
        self.sig.rule(name)
    }

    /// The type of the constant with this name.
    pub(super) fn constant_type(&self, name: &[u8]) -> Option<Id> {
        match self.sig.lookup(name) {
            Some(Entry::Constant(n)) => Some(self.sig.constant(n).ty),
            _ => None,
        }
    }

    /// The body of the first case of the program with this name.
    pub(super) fn program_body(&self, name: &[u8]) -> Option<Id> {
        match self.sig.lookup(name) {
            Some(Entry::Program(n)) => Some(self.sig.program(n).cases.as_slice().first()?.body),
            _ => None,
        }
    }

    /// The conclusion of the rule with this name.
    pub(super) fn rule_conclusion(&self, name: &[u8]) -> Option<Id> {
        match self.sig.rule(name) {
            Some(n) => Some(self.sig.rule_of(n).conclusion),
            None => None,
        }
    }
}

/// Whether the check holds in a world of its own, where nothing is declared yet. A test hands its
/// check over, so that it owns no world itself.
pub(super) fn holds<F: FnOnce(&mut World) -> Result<bool, Fail>>(
    alloc: Global,
    check: F,
) -> Result<bool, Fail>
    requires { F.IsAlwaysCallable check }
{
    let mut w = World::new(alloc)?;
    let answer = check(&mut w);
    drop(w);
    answer
}

fn what_became(made: Result<usize, SigRefused>) -> Answer {
    match made {
        Ok(n) => Answer::Number(n),
        Err(SigRefused::Redeclared) => Answer::Redeclared,
        Err(SigRefused::BadPattern) => Answer::BadPattern,
        Err(SigRefused::UnboundParam) => Answer::UnboundParam,
        Err(SigRefused::Memory(_)) => Answer::Memory,
    }
}

// The term, if it is one of the table.
fn live(table: &Table, id: Id) -> Result<Id, Fail>
    ensures { IfOk result (λ i. i < length table.now.trees) }
{
    if id.place() >= table.len() {
        return Err(Fail::new("no term of the table"));
    }
    Ok(id)
}

// One parameter of this type.
fn parameter(alloc: Global, table: &Table, ty: Id, implicit: bool) -> Result<Params, Fail>
    ensures { IfOk result (All (λ p. p.ty < length table.now.trees)) }
{
    let ty = live(table, ty)?;
    let name = Name::new(alloc, b"x")?;
    let mut params = Params::new(alloc);
    params.push(Param {
        name,
        ty,
        implicit,
        list: false,
    })?;
    Ok(params)
}

// One term.
fn one(alloc: Global, table: &Table, id: Id) -> Result<Ids, Fail>
    ensures all { IfOk result (All (λ i. i < length table.now.trees)) }
    ensures one { IfOk result (λ s. length s ≡ 1) }
{
    let id = live(table, id)?;
    let mut ids = Ids::new(alloc);
    ids.push(id)?;
    Ok(ids)
}

// A constant without parameters.
fn constant(alloc: Global, table: &Table, name: &[u8], ty: Id) -> Result<ConstDecl, Fail>
    ensures { IfOk result (ConstBelow (length table.now.trees)) }
{
    let ty = live(table, ty)?;
    let name = Name::new(alloc, name)?;
    Ok(ConstDecl {
        name,
        params: Params::new(alloc),
        ty,
        attribute: Attribute::Plain,
        from_reference: false,
    })
}

// A constant without parameters that folds its arguments so, by no other term.
fn folding_constant(
    alloc: Global,
    table: &Table,
    name: &[u8],
    ty: Id,
    attribute: Attribute,
) -> Result<ConstDecl, Fail>
    ensures { IfOk result (ConstBelow (length table.now.trees)) }
{
    let mut d = constant(alloc, table, name, ty)?;
    d.attribute = match attribute {
        Attribute::RightNil(end) => Attribute::RightNil(live(table, end)?),
        Attribute::LeftNil(end) => Attribute::LeftNil(live(table, end)?),
        other => other,
    };
    Ok(d)
}

// A constant whose parameter 0 is implicit and a type.
fn implicit_constant(alloc: Global, table: &Table, name: &[u8], ty: Id) -> Result<ConstDecl, Fail>
    ensures { IfOk result (ConstBelow (length table.now.trees)) }
{
    let mut d = constant(alloc, table, name, ty)?;
    d.params = parameter(alloc, table, TYPE, true)?;
    Ok(d)
}

// One case, with one pattern.
fn case(alloc: Global, table: &Table, pattern: Id, body: Id) -> Result<Cases, Fail>
    ensures { IfOk result (All (CaseBelow (length table.now.trees))) }
{
    let body = live(table, body)?;
    let patterns = one(alloc, table, pattern)?;
    let mut cases = Cases::new(alloc);
    cases.push(Case { patterns, body })?;
    Ok(cases)
}

fn program(
    alloc: Global,
    table: &Table,
    name: &[u8],
    pattern: Id,
    body: Id,
) -> Result<ProgramDecl, Fail>
    ensures { IfOk result (ProgramBelow (length table.now.trees)) }
{
    let mut d = bare_program(alloc, table, name)?;
    d.params = parameter(alloc, table, BOOL, false)?;
    d.inputs = one(alloc, table, BOOL)?;
    d.cases = case(alloc, table, pattern, body)?;
    Ok(d)
}

// A program with values of type `Bool`, which takes nothing.
fn bare_program(alloc: Global, table: &Table, name: &[u8]) -> Result<ProgramDecl, Fail>
    ensures { IfOk result (ProgramBelow (length table.now.trees)) }
{
    let output = live(table, BOOL)?;
    let name = Name::new(alloc, name)?;
    Ok(ProgramDecl {
        name,
        params: Params::new(alloc),
        inputs: Ids::new(alloc),
        output,
        cases: Cases::new(alloc),
    })
}

fn rule(
    alloc: Global,
    table: &Table,
    name: &[u8],
    arg: Id,
    conclusion: Id,
) -> Result<RuleDecl, Fail>
    ensures { IfOk result (RuleBelow (length table.now.trees)) }
{
    let mut d = bare_rule(alloc, table, name, conclusion)?;
    d.params = parameter(alloc, table, BOOL, false)?;
    d.args = one(alloc, table, arg)?;
    Ok(d)
}

// Whether the type of each parameter of a rule uses earlier parameters only.
fn is_ordered(table: &Table, d: &RuleDecl) -> bool
    requires { RuleBelow (length table.now.trees) d.now }
    ensures { IsTrue result → AreOrdered table.now.trees d.now.params }
{
    let params = d.params.as_slice();
    params.len() <= PARAMETERS && are_ordered(table, params)
}

// A rule that takes nothing.
fn bare_rule(alloc: Global, table: &Table, name: &[u8], conclusion: Id) -> Result<RuleDecl, Fail>
    ensures { IfOk result (RuleBelow (length table.now.trees)) }
{
    let conclusion = live(table, conclusion)?;
    let name = Name::new(alloc, name)?;
    Ok(RuleDecl {
        name,
        params: Params::new(alloc),
        assumption: None,
        premises: PremiseShape::Each(Ids::new(alloc)),
        args: Ids::new(alloc),
        requirements: IdPairs::new(alloc),
        conclusion,
        sorry: false,
    })
}
