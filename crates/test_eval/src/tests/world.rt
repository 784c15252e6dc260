//! Terms, and a signature with constants and programs over them.
ghost use Rattle.std.specs.Prelude.{◌≡◌, ◌<◌, ℕ, length, All, IsTrue, IfOk};
ghost use Rattle.eo_term.specs.Terms.{HasArity, PartsBelow, TextsBelow, IsPlain, IsProper};
ghost use Rattle.eo_sig.specs.Growth.{GrowsUnder};
ghost use Rattle.eo_sig.specs.declared.records.ConstDecl.{ConstDecl};
ghost use Rattle.eo_sig.specs.declared.records.ProgramDecl.{ProgramDecl};
ghost use Rattle.eo_sig.specs.Reading.{AttributeBelow, CaseBelow, ConstBelow, IsBelow, ProgramBelow};

use super::rows::{ProgramRow, Row, Trial, Want};
use super::words::PROGRAMS;
use eo_base::limits::PARAMETERS;
use eo_base::{Name, ok_with};
use eo_eval::{Evaluator, Outcome};
use eo_sig::{Attribute, Case, Cases, ConstDecl, Params, ProgramDecl, Signature};
use eo_term::{BOOL, FALSE, Id, Ids, Node, OpCode, OpName, Table, TermRefused, TextId};
use eo_type::Types;
use std::alloc::Global;
use std::marker::Model;
use std::process::Abort;
use std::test::Fail;

/// A table and a signature over it. It declares the constants `p`, the number 4, and `or`, the
/// number 5, which has the terminator `false`, and the programs of `words`. Both constants have the
/// type `Bool`.
///
/// A call that gets a term of another table fails.
#[derive(Drop)]
pub(super) struct World {
    alloc: Global,
    table: Table,
    sig: Signature,
}

impl Model for World {
    ghost use Rattle.std.specs.Prelude.{ℕ, length};
    ghost use Rattle.eo_sig.specs.Reading.{IsBelow, signature};
    ghost use Rattle.eo_sig.specs.Usable.{IsUsable};

    ghost Value = { ℕ };

    ghost view = { λ a. length a.table.trees };

    ghost invariant = { λ a. IsBelow (length a.table.trees) a.sig × IsUsable (signature a.table.trees a.sig) };
}

impl World {
    // Nothing is declared yet.
    fn first(alloc: Global) -> Result<World, Fail> {
        let table = Table::new(alloc)?;
        let (sig, table) = ok_with(Signature::new(alloc), table)?;
        Ok(World { alloc, table, sig })
    }

    // Declares all constants and programs, where nothing is declared yet.
    fn declare_all(&mut self) -> Result<(), Fail> {
        self.declare(b"p", None)?;
        self.declare(b"or", Some(FALSE))?;
        self.declare_programs(PROGRAMS)
    }

    // Declares a constant, which spells lists with this terminator if it has one.
    fn declare(&mut self, name: &[u8], end: Option<Id>) -> Result<(), Fail> {
        if !self.sig.is_free(name) {
            return Err(Fail::new("no free name"));
        }
        let d = constant(self.alloc, &self.table, name, end)?;
        self.sig.declare(&self.table, d)?;
        Ok(())
    }

    /// Where its memory comes from.
    pub(super) fn alloc(&self) -> Global {
        self.alloc
    }

    /// The term with this root, which has no text in it and is no operator.
    pub(super) fn node(&mut self, node: Node) -> Result<Id, Fail> {
        if !has_parts(&self.table, &node) {
            return Err(Fail::new("no parts of a term"));
        }
        Ok(make_term(&self.sig, &mut self.table, node)?)
    }

    /// A string of one character.
    pub(super) fn string(&mut self, letter: u8) -> Result<Id, Fail> {
        let text = text(&self.sig, &mut self.table, letter)?;
        Ok(make_term(&self.sig, &mut self.table, Node::Str(text))?)
    }

    /// The variable of this name, which is one character, and this type.
    pub(super) fn var(&mut self, letter: u8, ty: Id) -> Result<Id, Fail> {
        let name = text(&self.sig, &mut self.table, letter)?;
        let ty = live(&self.table, ty)?;
        Ok(make_term(&self.sig, &mut self.table, Node::Var { name, ty })?)
    }

    /// An operator of the language on these arguments.
    pub(super) fn op(&mut self, op: OpName, args: &[Id]) -> Result<Id, Fail> {
        if args.len() != op.arity() || !are_live(&self.table, args) {
            return Err(Fail::new("no arguments of the operator"));
        }
        Ok(made_op(&self.sig, &mut self.table, OpCode::Builtin(op), args)?)
    }

    /// A program, by its number, on these arguments.
    pub(super) fn call(&mut self, program: usize, args: &[Id]) -> Result<Id, Fail> {
        if args.len() > PARAMETERS || !are_live(&self.table, args) {
            return Err(Fail::new("no arguments of a program"));
        }
        Ok(made_op(&self.sig, &mut self.table, OpCode::Prog(program), args)?)
    }

    // Declares programs.
    fn declare_programs(&mut self, rows: &[ProgramRow<'_>]) -> Result<(), Fail> {
        for row in rows {
            self.declare_program(row)?;
        }
        Ok(())
    }

    fn declare_program(&mut self, row: &ProgramRow<'_>) -> Result<(), Fail> {
        let mut terms = Vec::new(self.alloc);
        let declared = self.declare_by(row, &mut terms);
        drop(terms);
        declared
    }

    // Declares a program by its terms, which are put here.
    fn declare_by(&mut self, row: &ProgramRow<'_>, terms: &mut Vec<Id>) -> Result<(), Fail> {
        let (name, width, cases) = *row;
        self.push_cases(cases, terms)?;
        terms.reverse();
        self.add_program(name.as_bytes(), width, terms.as_slice())
    }

    // The terms of cases, before these, of which the first is last.
    fn push_cases(&mut self, cases: &[&str], behind: &mut Vec<Id>) -> Result<(), Fail> {
        for case in cases.iter().rev() {
            self.push_terms(case, behind)?;
        }
        Ok(())
    }

    // Adds the program with these terms, so many in a case.
    fn add_program(&mut self, name: &[u8], width: usize, terms: &[Id]) -> Result<(), Fail> {
        if !self.sig.is_free(name) {
            return Err(Fail::new("no free name"));
        }
        let d = program(self.alloc, &self.table, name, width, terms)?;
        self.sig.add_program(&self.table, d)?;
        Ok(())
    }

    // The first row whose term ends in another way than the row says, if one does.
    fn wrong(
        &mut self,
        evaluator: &mut Evaluator,
        rows: &[Row<'_>],
    ) -> Result<Option<usize>, Fail> {
        self.declare_all()?;
        for (i, row) in rows.iter().enumerate() {
            if !self.is_right(evaluator, row)? {
                return Ok(Some(i));
            }
        }
        Ok(None)
    }

    fn is_right(&mut self, evaluator: &mut Evaluator, row: &Row<'_>) -> Result<bool, Fail> {
        let id = self.term(row.0)?;
        let want = self.expected_outcome(row.1)?;
        Ok(self.outcome(evaluator, id)? == want)
    }

    // How the evaluation is to end, with its value.
    fn expected_outcome(&mut self, want: Want<'_>) -> Result<Outcome, Fail> {
        match want {
            Want::Value(words) => Ok(Outcome::Value(self.term(words)?)),
            Want::Stuck => Ok(Outcome::Stuck),
            Want::Deep => Ok(Outcome::Deep),
            Want::Range => Ok(Outcome::Range),
            Want::Tall => Ok(Outcome::Tall),
        }
    }

    // How the evaluation of a term ends.
    fn outcome(&mut self, evaluator: &mut Evaluator, id: Id) -> Result<Outcome, Fail> {
        let id = live(&self.table, id)?;
        let mut types = Types::new(self.alloc);
        let answer = evaluator.evaluate(&self.sig, &mut self.table, &mut types, id);
        drop(types);
        Ok(answer?)
    }
}

/// Asserts that each term ends as its row says: else the trial and the place of one that does not are
/// printed.
pub(super) fn assert_right(
    rt: &impl Abort,
    alloc: Global,
    trials: &[Trial<'_>],
) -> Result<(), Fail> {
    assert_eq!(rt; wrong(alloc, trials)?, None);
    Ok(())
}

// The first term that ends in another way than its row says, if one does: its trial, and its place
// there. Each trial has a new world and a new evaluator.
fn wrong<'a>(alloc: Global, trials: &[Trial<'a>]) -> Result<Option<(&'a str, usize)>, Fail> {
    for trial in trials {
        if let Some(i) = wrong_alone(alloc, trial)? {
            return Ok(Some((trial.name, i)));
        }
    }
    Ok(None)
}

/// The same in trials that have a new world each, and all of them one evaluator.
pub(super) fn wrong_by_one<'a>(
    alloc: Global,
    trials: &[Trial<'a>],
) -> Result<Option<(&'a str, usize)>, Fail> {
    let mut evaluator = Evaluator::new(alloc);
    let answer = wrong_by(alloc, &mut evaluator, trials);
    drop(evaluator);
    answer
}

fn wrong_by<'a>(
    alloc: Global,
    evaluator: &mut Evaluator,
    trials: &[Trial<'a>],
) -> Result<Option<(&'a str, usize)>, Fail> {
    for trial in trials {
        if let Some(i) = wrong_in(alloc, evaluator, trial)? {
            return Ok(Some((trial.name, i)));
        }
    }
    Ok(None)
}

fn wrong_alone(alloc: Global, trial: &Trial<'_>) -> Result<Option<usize>, Fail> {
    let mut evaluator = Evaluator::new(alloc);
    let answer = wrong_in(alloc, &mut evaluator, trial);
    drop(evaluator);
    answer
}

// It alone owns a world, and drops it by a call: each way out of a function that lets go of one
// by itself is expensive to prove.
fn wrong_in(
    alloc: Global,
    evaluator: &mut Evaluator,
    trial: &Trial<'_>,
) -> Result<Option<usize>, Fail> {
    let mut w = World::first(alloc)?;
    let answer = w.wrong(evaluator, trial.rows);
    drop(w);
    answer
}

// The term, if it is one of the table.
fn live(table: &Table, id: Id) -> Result<Id, Fail>
    ensures { IfOk result (λ i. i < length table.now.trees) }
{
    if id.place() >= table.len() {
        return Err(Fail::new("no term of the table"));
    }
    Ok(id)
}

// Whether each term is one of the table.
fn are_live(table: &Table, ids: &[Id]) -> bool
    ensures { IsTrue result → All (λ i. i < length table.now.trees) ids.now }
{
    let count = table.len();
    ids.iter().all(|id| id.place() < count)
}

// Whether the parts of a node are terms of the table, where it has no text in it and is no
// operator.
fn has_parts(table: &Table, node: &Node) -> bool
    ensures plain { IsTrue result → IsPlain node.now }
    ensures parts { IsTrue result → PartsBelow (length table.now.trees) node.now }
    ensures texts { IsTrue result → TextsBelow (length table.now.texts) node.now }
    ensures proper { IsTrue result → IsProper node.now }
{
    match *node {
        Node::Con(_) | Node::Num(_) => true,
        Node::Par(number) => number < 64,
        Node::App { fun, arg } => has(table, fun) && has(table, arg),
        Node::Arr { from, to } => has(table, from) && has(table, to),
        Node::Qar { ty, to, .. } => has(table, ty) && has(table, to),
        _ => false,
    }
}

// Whether the term is one of the table.
fn has(table: &Table, id: Id) -> bool
    ensures { IsTrue result → id < length table.now.trees }
{
    id.place() < table.len()
}

// The term with this root.
fn make_term(sig: &Signature, table: &mut Table, node: Node) -> Result<Id, TermRefused>
    requires plain { IsPlain node }
    requires parts { PartsBelow (length table.old.trees) node }
    requires texts { TextsBelow (length table.old.texts) node }
    requires proper { IsProper node }
    requires below { IsBelow (length table.old.trees) sig.now }
    ensures grows { GrowsUnder sig.now table.old table.new }
{
    sig.laws();
    table.intern(node)
}

// An operator or a program on these arguments.
fn made_op(sig: &Signature, table: &mut Table, code: OpCode, args: &[Id]) -> Result<Id, TermRefused>
    requires count { HasArity code (length args.now) }
    requires args { All (λ i. i < length table.old.trees) args.now }
    requires below { IsBelow (length table.old.trees) sig.now }
    ensures grows { GrowsUnder sig.now table.old table.new }
{
    sig.laws();
    table.intern_op(code, args)
}

// The text of one character.
fn text(sig: &Signature, table: &mut Table, letter: u8) -> Result<TextId, Fail>
    requires { IsBelow (length table.old.trees) sig.now }
    ensures live { IfOk result (λ i. i < length table.new.texts) }
    ensures grows { GrowsUnder sig.now table.old table.new }
{
    sig.laws();
    Ok(table.text(&[u32::from(letter)])?)
}

// The attribute of a constant with this terminator or none.
fn attribute(table: &Table, end: Option<Id>) -> Result<Attribute, Fail>
    ensures { IfOk result (AttributeBelow (length table.now.trees)) }
{
    match end {
        Some(id) => Ok(Attribute::RightNil(live(table, id)?)),
        None => Ok(Attribute::Plain),
    }
}

// A constant of type `Bool`, with no parameters.
fn constant(alloc: Global, table: &Table, name: &[u8], end: Option<Id>) -> Result<ConstDecl, Fail>
    ensures below { IfOk result (ConstBelow (length table.now.trees)) }
    ensures named { IfOk result (λ (d : ConstDecl). d.name ≡ name.now) }
{
    let ty = live(table, BOOL)?;
    let attribute = attribute(table, end)?;
    let name = Name::new(alloc, name)?;
    Ok(ConstDecl {
        name,
        params: Params::new(alloc),
        ty,
        attribute,
        from_reference: false,
    })
}

// These terms.
fn terms(alloc: Global, table: &Table, ids: &[Id]) -> Result<Ids, Fail>
    ensures { IfOk result (All (λ i. i < length table.now.trees)) }
{
    let mut list = Ids::new(alloc);
    for id in ids {
        list.push(live(table, *id)?)?;
    }
    Ok(list)
}

// The cases with these terms, so many in each: its patterns, and then its body.
fn cases_of(alloc: Global, table: &Table, width: usize, terms: &[Id]) -> Result<Cases, Fail>
    ensures { IfOk result (All (CaseBelow (length table.now.trees))) }
{
    if width == 0 {
        return Err(Fail::new("no body"));
    }
    let mut cases = Cases::new(alloc);
    for case in terms.chunks(width) {
        cases.push(case_of(alloc, table, case)?)?;
    }
    Ok(cases)
}

fn case_of(alloc: Global, table: &Table, case: &[Id]) -> Result<Case, Fail>
    ensures { IfOk result (CaseBelow (length table.now.trees)) }
{
    let Some((body, patterns)) = case.split_last() else {
        return Err(Fail::new("no body"));
    };
    let body = live(table, *body)?;
    let patterns = terms(alloc, table, patterns)?;
    Ok(Case { patterns, body })
}

// A program of this name with these cases. The types of its inputs and of its value play no part.
fn program(
    alloc: Global,
    table: &Table,
    name: &[u8],
    width: usize,
    terms: &[Id],
) -> Result<ProgramDecl, Fail>
    ensures below { IfOk result (ProgramBelow (length table.now.trees)) }
    ensures named { IfOk result (λ (d : ProgramDecl). d.name ≡ name.now) }
{
    let output = live(table, BOOL)?;
    let cases = cases_of(alloc, table, width, terms)?;
    let (name, cases) = ok_with(Name::new(alloc, name), cases)?;
    Ok(ProgramDecl {
        name,
        params: Params::new(alloc),
        inputs: Ids::new(alloc),
        output,
        cases,
    })
}
