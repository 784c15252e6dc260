//! Texts, and what they mean over a signature.
ghost use Rattle.std.specs.Prelude.{◌≡◌, ◌<◌, ◌≤◌, [], true, length, IsTrue, IfOk, OnOk};
ghost use Rattle.eo_sig.specs.Reading.{IsBelow, ConstBelow, MacroBelow, ProgramBelow, RuleBelow};
ghost use Rattle.eo_sig.specs.Usable.{AreOrdered};
ghost use Rattle.eo_term.specs.Growth.{Grows};
ghost use Rattle.eo_declare.specs.Declaring.{IsCommand, DeclarationBelow};
ghost use Rattle.eo_names.specs.Names.{AreBelow, BindingsBelow};
ghost use Rattle.eo_names.specs.Ready.{IsReady, Keeps};
ghost use Rattle.eo_sexp.specs.Collecting.{IsAtCommand, IsLive};

use eo_base::limits::PARAMETERS;
use eo_base::ok_with;
use eo_declare::declaration;
use eo_elab::{ElabRefused, Locals, Names, reference_term, term};
use eo_sexp::{Collector, Fed, Sexp};
use eo_shape::{ShapeRefused, command_of};
use eo_sig::{
    ConstDecl, Declaration, Entry, LiteralClass, MacroDecl, PremiseShape, ProgramDecl, RuleDecl,
    SigRefused, Signature, are_ordered,
};
use eo_term::{Id, Node, Table};
use std::alloc::{AllocError, Global};
use std::marker::Model;
use std::test::Fail;

/// The greatest number of bytes of a text.
const TEXT: usize = 65_536;

/// What became of a text.
#[derive(Clone, Copy, PartialEq, Eq)]
pub(super) enum Answer {
    /// It has a meaning, or is declared.
    Done,
    BadLiteral,
    BadCommand,
    Redeclared,
    UnknownSymbol,
    BadArity,
    Tall,
    Parameters,
    BadPattern,
    UnboundParam,
    Memory,
    /// It is no s-expression, or one that declares nothing.
    Unread,
}

/// What a text is read as.
#[derive(Clone, Copy)]
enum Kind {
    Declaration,
    Term,
    /// A term of a reference file, in an assertion or outside.
    Reference { in_assert: bool },
}

/// What a term of a reference file is.
#[derive(Clone, Copy, PartialEq, Eq)]
pub(super) enum Referred {
    /// It is this bit string.
    Bits { width: u8, value: u128 },
    /// It is another term, and this many names were given.
    Names(usize),
    /// It has no meaning.
    Refused(Answer),
}

/// What is said of a text.
#[derive(Clone, Copy, PartialEq, Eq)]
pub(super) enum Told {
    /// It is declared.
    Declared,
    /// The term that it means.
    Means(Id),
    /// What it is in a reference file.
    Refers(Referred),
    /// It is not declared, or has no meaning.
    Refused(Answer),
}

/// A text, and what becomes of it.
pub(super) type Outcome<'a> = (&'a str, Answer);

/// Two texts that are compared.
pub(super) type Pair<'a> = (&'a str, &'a str);

/// A term of a reference file, and what it is.
pub(super) type Reference<'a> = (&'a str, &'a Referred);

/// A part of a rule that is a term.
#[derive(Clone, Copy)]
pub(super) enum Part {
    Assumption,
    /// What all premises are matched with.
    Pattern,
    /// The first argument, and the last.
    First,
    Last,
    /// The two terms of the first requirement.
    Left,
    Right,
    Conclusion,
}

/// How many parts a rule has, and what joins its premises.
#[derive(Clone, Copy)]
pub(super) struct Counts {
    pub(super) params: usize,
    pub(super) joiner: Option<usize>,
    pub(super) args: usize,
    pub(super) requirements: usize,
    pub(super) sorry: bool,
}

/// A table and a signature over it.
#[derive(Drop)]
pub(super) struct World {
    alloc: Global,
    table: Table,
    sig: Signature,
}

impl Model for World {
    ghost use Rattle.std.specs.Prelude.{ℕ, length};
    ghost use Rattle.eo_sig.specs.Reading.{IsBelow};

    ghost Value = { ℕ };

    ghost view = { λ a. length a.table.trees };

    ghost invariant = { λ a. IsBelow (length a.table.trees) a.sig };
}

impl World {
    /// Nothing is declared yet.
    pub(super) fn new(alloc: Global) -> Result<World, AllocError> {
        let table = Table::new(alloc)?;
        let (sig, table) = ok_with(Signature::new(alloc), table)?;
        Ok(World { alloc, table, sig })
    }

    /// Where its memory comes from.
    pub(super) fn alloc(&self) -> Global {
        self.alloc
    }

    /// What becomes of a declaration.
    pub(super) fn declare(&mut self, text: &str) -> Result<Answer, Fail> {
        Ok(answer_of(self.outcome_of(Kind::Declaration, text)?))
    }

    /// Whether that becomes of a declaration.
    pub(super) fn declares(&mut self, row: Outcome<'_>) -> Result<bool, Fail> {
        let (text, want) = row;
        Ok(self.declare(text)? == want)
    }

    /// Whether that becomes of a term.
    pub(super) fn answers(&mut self, row: Outcome<'_>) -> Result<bool, Fail> {
        let (text, want) = row;
        Ok(answer_of(self.term(text)?) == want)
    }

    /// Whether a term of a reference file is that outside of assertions.
    pub(super) fn refers(&mut self, row: Reference<'_>) -> Result<bool, Fail> {
        let (text, want) = row;
        let told = self.outcome_of(Kind::Reference { in_assert: false }, text)?;
        Ok(told == Told::Refers(*want))
    }

    /// Whether a term of a reference file is that in an assertion.
    pub(super) fn asserts(&mut self, row: Reference<'_>) -> Result<bool, Fail> {
        let (text, want) = row;
        let told = self.outcome_of(Kind::Reference { in_assert: true }, text)?;
        Ok(told == Told::Refers(*want))
    }

    /// What is said of a term.
    pub(super) fn term(&mut self, text: &str) -> Result<Told, Fail> {
        self.outcome_of(Kind::Term, text)
    }

    /// The term that the text means; nothing, where it is refused.
    pub(super) fn term_of(&mut self, text: &str) -> Result<Option<Id>, Fail> {
        Ok(id_of(self.term(text)?))
    }

    /// Whether both texts have meanings, and the same one.
    pub(super) fn agree(&mut self, texts: Pair<'_>) -> Result<bool, Fail> {
        let (a, b) = texts;
        let x = self.term_of(a)?;
        let y = self.term_of(b)?;
        Ok(x.is_some() & (x == y))
    }

    /// Whether both texts have meanings, and different ones.
    pub(super) fn differ(&mut self, texts: Pair<'_>) -> Result<bool, Fail> {
        let (a, b) = texts;
        let x = self.term_of(a)?;
        let y = self.term_of(b)?;
        Ok(x.is_some() & y.is_some() & (x != y))
    }

    /// Whether the constant of the name has, after the declaration, the type that the text means.
    pub(super) fn has_type(&mut self, row: (&str, &str, &str)) -> Result<bool, Fail> {
        let (text, name, ty) = row;
        self.declare(text)?;
        let x = self.declared_type(name);
        let y = self.term_of(ty)?;
        Ok(x.is_some() & (x == y))
    }

    fn declared_type(&self, name: &str) -> Option<Id> {
        match self.sig.lookup(name.as_bytes()) {
            Some(Entry::Constant(k)) => Some(self.sig.constant(k).ty),
            _ => None,
        }
    }

    /// Whether the text means that part of the rule of the name.
    pub(super) fn has_part(&mut self, row: (&str, Part, &str)) -> Result<bool, Fail> {
        let (name, part, text) = row;
        let x = self.part(name, part);
        let y = self.term_of(text)?;
        Ok(x.is_some() & (x == y))
    }

    fn part(&self, name: &str, part: Part) -> Option<Id> {
        match self.sig.rule(name.as_bytes()) {
            Some(n) => part_of(self.sig.rule_of(n), part),
            None => None,
        }
    }

    /// How many parts the rule of the name has.
    pub(super) fn counts(&self, name: &str) -> Option<Counts> {
        match self.sig.rule(name.as_bytes()) {
            Some(n) => Some(counts_of(self.sig.rule_of(n))),
            None => None,
        }
    }

    // What is said of a text.
    fn outcome_of(&mut self, kind: Kind, text: &str) -> Result<Told, Fail> {
        let Some(text) = read(self.alloc, text.as_bytes())? else {
            return Ok(Told::Refused(Answer::Unread));
        };
        let told = self.told_of(kind, &text.sexp());
        drop(text);
        Ok(told)
    }

    fn told_of(&mut self, kind: Kind, s: &Sexp<'_>) -> Told {
        match kind {
            Kind::Declaration => self.declare_sexp(s),
            Kind::Term => self.told_of_term(s),
            Kind::Reference { in_assert } => Told::Refers(self.refer(s, in_assert)),
        }
    }

    fn told_of_term(&mut self, s: &Sexp<'_>) -> Told {
        match self.meaning(s) {
            Ok(id) => Told::Means(id),
            Err(e) => Told::Refused(answer_of_refusal(&e)),
        }
    }

    fn refer(&mut self, s: &Sexp<'_>, in_assert: bool) -> Referred {
        match self.reference_meaning(s, in_assert) {
            Ok(referred) => referred,
            Err(e) => Referred::Refused(answer_of_refusal(&e)),
        }
    }

    fn meaning(&mut self, s: &Sexp<'_>) -> Result<Id, ElabRefused> {
        let locals = parameters(self.alloc, &mut self.table)?;
        let meant = term(self.alloc, s, &locals, &self.sig, &mut self.table);
        drop(locals);
        meant
    }

    fn reference_meaning(
        &mut self,
        s: &Sexp<'_>,
        in_assert: bool,
    ) -> Result<Referred, ElabRefused> {
        self.sig.laws();
        let locals = parameters(self.alloc, &mut self.table)?;
        let mut names = Names::new(self.alloc);
        let meant = reference_meaning(
            self.alloc,
            s,
            &locals,
            &self.sig,
            &mut self.table,
            in_assert,
            &mut names,
        );
        drop(names);
        drop(locals);
        meant
    }

    fn declare_sexp(&mut self, s: &Sexp<'_>) -> Told {
        if !is_command(s) {
            return Told::Refused(Answer::Unread);
        }
        match declaration(self.alloc, s, &self.sig, &mut self.table) {
            Ok(d) => outcome_of_answer(add(&mut self.sig, &self.table, d)),
            Err(e) => Told::Refused(answer_of_refusal(&e)),
        }
    }
}

/// The number of the first row that is not right.
pub(super) fn first_wrong<Row: Copy, F: Fn(&mut World, Row) -> Result<bool, Fail>>(
    world: &mut World,
    rows: &[Row],
    is_right: F,
) -> Result<Option<usize>, Fail>
    requires { F.IsAlwaysCallable is_right }
{
    for (i, row) in rows.iter().enumerate() {
        if !is_right(world, *row)? {
            return Ok(Some(i));
        }
    }
    Ok(None)
}

/// Declares what the rows say; each is to become what is written beside it.
pub(super) fn prepare(world: &mut World, rows: &[Outcome<'_>]) -> Result<(), Fail> {
    match first_wrong(world, rows, World::declares)? {
        None => Ok(()),
        Some(_) => Err(Fail::new("a row was not declared")),
    }
}

// The outcome of a text of which that is said.
fn answer_of(told: Told) -> Answer {
    match told {
        Told::Refused(answer) => answer,
        _ => Answer::Done,
    }
}

// The term that is returned.
fn id_of(told: Told) -> Option<Id> {
    match told {
        Told::Means(id) => Some(id),
        _ => None,
    }
}

fn outcome_of_answer(answer: Answer) -> Told {
    match answer {
        Answer::Done => Told::Declared,
        _ => Told::Refused(answer),
    }
}

// Parameters 0 and 1, `xs` and `ys`, which represent lists, and parameter 2, `z`.
fn parameters(alloc: Global, table: &mut Table) -> Result<Locals, AllocError>
    ensures below { IfOk result (AreBelow (length table.new.trees)) }
    ensures grows { Grows table.old table.new }
{
    let mut locals = Locals::new(alloc);
    add_parameters(table, &mut locals)?;
    Ok(locals)
}

// Adds the parameters to names of which there are none.
fn add_parameters(table: &mut Table, locals: &mut Locals) -> Result<(), AllocError>
    requires none { locals.old ≡ [] }
    ensures below { OnOk result (AreBelow (length table.new.trees) locals.new) }
    ensures grows { Grows table.old table.new }
{
    add_parameter(table, locals, b"xs", 0, true)?;
    add_parameter(table, locals, b"ys", 1, true)?;
    add_parameter(table, locals, b"z", 2, false)
}

// Adds a name for the parameter of this number.
fn add_parameter(
    table: &mut Table,
    locals: &mut Locals,
    name: &[u8],
    number: u8,
    list: bool,
) -> Result<(), AllocError>
    requires number { number < 64 }
    requires below { AreBelow (length table.old.trees) locals.old }
    ensures below { OnOk result (AreBelow (length table.new.trees) locals.new) }
    ensures grows { Grows table.old table.new }
{
    let id = table.intern_low(Node::Par(number))?;
    locals.add(name, id, list)?;
    Ok(())
}

// What a term of a reference file is, to which names may be given.
fn reference_meaning(
    alloc: Global,
    s: &Sexp<'_>,
    locals: &Locals,
    sig: &Signature,
    table: &mut Table,
    in_assert: bool,
    names: &mut Names,
) -> Result<Referred, ElabRefused>
    requires ready { IsReady (length table.old.trees) sig.now locals.now }
    requires names { BindingsBelow (length table.old.trees) names.old }
    ensures grows { Grows table.old table.new }
    ensures keeps { Keeps sig.now locals.now table.old.trees table.new.trees }
{
    let id = reference_term(alloc, s, locals, sig, table, in_assert, names)?;
    Ok(bits_or_names(table.node(id), names.len()))
}

// A bit string, or how many names were given.
fn bits_or_names(node: Node, names: usize) -> Referred {
    match node {
        Node::Bits { width, value } => Referred::Bits { width, value },
        _ => Referred::Names(names),
    }
}

fn part_of(rule: &RuleDecl, part: Part) -> Option<Id> {
    match part {
        Part::Assumption => rule.assumption,
        Part::Pattern => pattern_of(&rule.premises),
        Part::First => rule.args.as_slice().first().copied(),
        Part::Last => rule.args.as_slice().last().copied(),
        Part::Left => left_of(rule.requirements.as_slice()),
        Part::Right => right_of(rule.requirements.as_slice()),
        Part::Conclusion => Some(rule.conclusion),
    }
}

fn counts_of(rule: &RuleDecl) -> Counts {
    Counts {
        params: rule.params.as_slice().len(),
        joiner: joiner_of(&rule.premises),
        args: rule.args.as_slice().len(),
        requirements: rule.requirements.as_slice().len(),
        sorry: rule.sorry,
    }
}

// What all premises are matched with.
fn pattern_of(premises: &PremiseShape) -> Option<Id> {
    match premises {
        PremiseShape::Joined { pattern, .. } => Some(*pattern),
        PremiseShape::Each(_) => None,
    }
}

// What joins the premises.
fn joiner_of(premises: &PremiseShape) -> Option<usize> {
    match premises {
        PremiseShape::Joined { with, .. } => Some(*with),
        PremiseShape::Each(_) => None,
    }
}

// The two terms of the first requirement.
fn left_of(requirements: &[(Id, Id)]) -> Option<Id> {
    match requirements.first() {
        Some((left, _)) => Some(*left),
        None => None,
    }
}

fn right_of(requirements: &[(Id, Id)]) -> Option<Id> {
    match requirements.first() {
        Some((_, right)) => Some(*right),
        None => None,
    }
}

// Adds what was declared.
fn add(sig: &mut Signature, table: &Table, d: Declaration) -> Answer
    requires ready { IsBelow (length table.now.trees) sig.old }
    requires below { DeclarationBelow (length table.now.trees) d }
    ensures ready { IsBelow (length table.now.trees) sig.new }
{
    match d {
        Declaration::Const(d) => add_constant(sig, table, d),
        Declaration::Macro(d) => add_macro(sig, table, d),
        Declaration::Literal { class, ty } => add_literals(sig, table, class, ty),
        Declaration::Program(d) => add_program(sig, table, d),
        Declaration::Rule(d) => add_rule(sig, table, d),
    }
}

fn add_constant(sig: &mut Signature, table: &Table, d: ConstDecl) -> Answer
    requires ready { IsBelow (length table.now.trees) sig.old }
    requires below { ConstBelow (length table.now.trees) d }
    ensures ready { IsBelow (length table.now.trees) sig.new }
{
    match sig.declare(table, d) {
        Ok(_) => Answer::Done,
        Err(e) => unfit(&e),
    }
}

fn add_macro(sig: &mut Signature, table: &Table, d: MacroDecl) -> Answer
    requires ready { IsBelow (length table.now.trees) sig.old }
    requires below { MacroBelow (length table.now.trees) d }
    ensures ready { IsBelow (length table.now.trees) sig.new }
{
    if !sig.is_free(d.name.as_bytes()) {
        drop(d);
        return Answer::Unread;
    }
    match sig.define(d) {
        Ok(_) => Answer::Done,
        Err(e) => unfit(&e),
    }
}

fn add_program(sig: &mut Signature, table: &Table, d: ProgramDecl) -> Answer
    requires ready { IsBelow (length table.now.trees) sig.old }
    requires below { ProgramBelow (length table.now.trees) d }
    ensures ready { IsBelow (length table.now.trees) sig.new }
{
    if !sig.is_free(d.name.as_bytes()) {
        drop(d);
        return Answer::Unread;
    }
    match sig.add_program(table, d) {
        Ok(_) => Answer::Done,
        Err(e) => unfit(&e),
    }
}

fn add_rule(sig: &mut Signature, table: &Table, d: RuleDecl) -> Answer
    requires ready { IsBelow (length table.now.trees) sig.old }
    requires below { RuleBelow (length table.now.trees) d }
    ensures ready { IsBelow (length table.now.trees) sig.new }
{
    if !is_ordered(table, &d) {
        drop(d);
        return Answer::Unread;
    }
    if !sig.is_free_rule(d.name.as_bytes()) {
        drop(d);
        return Answer::Unread;
    }
    match sig.add_rule(table, d) {
        Ok(_) => Answer::Done,
        Err(e) => unfit(&e),
    }
}

// Whether the type of each parameter of a rule uses earlier parameters only.
fn is_ordered(table: &Table, d: &RuleDecl) -> bool
    requires { RuleBelow (length table.now.trees) d.now }
    ensures { IsTrue result → AreOrdered table.now.trees d.now.params }
{
    let params = d.params.as_slice();
    params.len() <= PARAMETERS && are_ordered(table, params)
}

fn add_literals(sig: &mut Signature, table: &Table, class: LiteralClass, ty: Id) -> Answer
    requires ready { IsBelow (length table.now.trees) sig.old }
    requires below { ty < length table.now.trees }
    ensures ready { IsBelow (length table.now.trees) sig.new }
{
    match sig.set_literal_type(table, class, ty) {
        Ok(()) => Answer::Done,
        Err(e) => unfit(&e),
    }
}

fn unfit(e: &SigRefused) -> Answer {
    match e {
        SigRefused::Redeclared => Answer::Redeclared,
        SigRefused::BadPattern => Answer::BadPattern,
        SigRefused::UnboundParam => Answer::UnboundParam,
        SigRefused::Memory(_) => Answer::Memory,
    }
}

fn answer_of_refusal(e: &ElabRefused) -> Answer {
    match e {
        ElabRefused::BadLiteral => Answer::BadLiteral,
        ElabRefused::BadCommand => Answer::BadCommand,
        ElabRefused::Redeclared => Answer::Redeclared,
        ElabRefused::UnknownSymbol => Answer::UnknownSymbol,
        ElabRefused::BadArity => Answer::BadArity,
        ElabRefused::Tall => Answer::Tall,
        ElabRefused::Parameters => Answer::Parameters,
        ElabRefused::BadPattern => Answer::BadPattern,
        ElabRefused::Memory(_) => Answer::Memory,
    }
}

// Whether it is a command, or one of a wrong shape.
fn is_command(s: &Sexp<'_>) -> bool
    ensures { IsTrue result → IsCommand s.now }
{
    match command_of(s, false) {
        Ok(_) => true,
        Err(ShapeRefused::BadCommand) => true,
        Err(ShapeRefused::UnknownCommand) => false,
    }
}

/// A text whose first s-expression was read.
#[derive(Drop)]
struct Text {
    collector: Collector,
}

impl Model for Text {
    ghost use Rattle.std.specs.Prelude.{ℕ};
    ghost use Rattle.eo_sexp.specs.Collecting.{IsAtCommand};

    ghost Value = { ℕ };

    ghost view = { λ a. 0 };

    ghost invariant = { λ a. IsAtCommand a.collector };
}

impl Text {
    fn sexp(&self) -> Sexp<'_> {
        self.collector.command()
    }
}

// A text up to its first s-expression; nothing, where there is none. An atom ends with a space.
fn read(alloc: Global, text: &[u8]) -> Result<Option<Text>, AllocError> {
    let mut collector = Collector::new(alloc, false)?;
    if is_read(&mut collector, text) {
        return Ok(Some(Text { collector }));
    }
    drop(collector);
    Ok(None)
}

// Whether a text is read up to its first s-expression.
fn is_read(collector: &mut Collector, text: &[u8]) -> bool
    requires { IsLive collector.old }
    ensures { IsTrue result → IsAtCommand collector.new }
{
    let here = collector.here();
    if here.offset > TEXT as u64 || text.len() > TEXT {
        return false;
    }
    match collector.feed(text) {
        Fed::Command { used: _ } => true,
        _ => false,
    }
}
