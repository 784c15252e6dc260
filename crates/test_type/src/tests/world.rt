//! Terms, and a signature that declares constants of their types.
ghost use Rattle.std.specs.Prelude.{◌≡◌, ℕ, ◌<◌, ◌≤◌, List, length, All, IsTrue, IfOk, OnOk};
ghost use Rattle.eo_term.specs.Tree.{Tree};
ghost use Rattle.eo_term.specs.Terms.{PartsBelow, TextsBelow, IsPlain, IsProper, arity};
ghost use Rattle.eo_sig.specs.declared.records.ConstDecl.{ConstDecl};
ghost use Rattle.eo_sig.specs.Reading.{IsBelow, ConstBelow};
ghost use Rattle.eo_type.specs.Known.{Fit};

use eo_base::{Name, ok_with};
use eo_sig::{Attribute, ConstDecl, LiteralClass, Params, SigRefused, Signature, growth_law};
use eo_term::{BOOL, Id, Node, OpCode, OpName, TYPE, Table, TermRefused};
use eo_type::{TypeRefused, Types, settle};
use std::alloc::{AllocError, Global};
use std::marker::Model;
use std::test::Fail;

/// A table and a signature over it. The first four constants are `Type`, `Bool`, `true` and
/// `false`; what is declared is numbered from 4 on.
///
/// A call that gets a term of another table fails.
#[derive(Drop)]
pub(super) struct World {
    alloc: Global,
    table: Table,
    sig: Signature,
}

impl Model for World {
    ghost use Rattle.std.specs.Prelude.{ℕ, ◌≤◌, length};
    ghost use Rattle.eo_sig.specs.Reading.{IsBelow};

    ghost Value = { ℕ };

    ghost view = { λ a. length a.table.trees };

    ghost invariant = { λ a. (n : ℕ) → length a.table.trees ≤ n → IsBelow n a.sig };
}

impl World {
    /// Nothing is declared yet.
    pub(super) fn new(alloc: Global) -> Result<World, AllocError> {
        let table = first_table(alloc)?;
        let (sig, table) = ok_with(first_signature(alloc), table)?;
        Ok(World { alloc, table, sig })
    }

    /// A constant, by its number.
    pub(super) fn con(&mut self, number: usize) -> Result<Id, Fail> {
        self.node(Node::Con(number))
    }

    /// A number.
    pub(super) fn num(&mut self, number: i128) -> Result<Id, Fail> {
        self.node(Node::Num(number))
    }

    /// A parameter, by its number.
    pub(super) fn par(&mut self, number: u8) -> Result<Id, Fail> {
        self.node(Node::Par(number))
    }

    /// A term applied to another.
    pub(super) fn app(&mut self, fun: Id, arg: Id) -> Result<Id, Fail> {
        self.node(Node::App { fun, arg })
    }

    /// The type of functions from one type to another.
    pub(super) fn arr(&mut self, from: Id, to: Id) -> Result<Id, Fail> {
        self.node(Node::Arr { from, to })
    }

    /// The type of functions whose argument is bound as a parameter.
    pub(super) fn qar(&mut self, par: u8, ty: Id, to: Id) -> Result<Id, Fail> {
        self.node(Node::Qar { par, ty, to })
    }

    // The term with this root, which has no text in it and is no operator.
    fn node(&mut self, node: Node) -> Result<Id, Fail> {
        if !has_parts(&self.table, &node) {
            return Err(Fail::new("no parts of a term"));
        }
        Ok(make_term(&mut self.table, node)?)
    }

    /// The bit string `#xA5`.
    pub(super) fn bits(&mut self) -> Result<Id, Fail> {
        let node = Node::Bits {
            width: 8,
            value: 0xa5,
        };
        Ok(make_term(&mut self.table, node)?)
    }

    /// The string `ab`.
    pub(super) fn string(&mut self) -> Result<Id, Fail> {
        let text = self.table.text(&[97, 98])?;
        Ok(make_term(&mut self.table, Node::Str(text))?)
    }

    /// The variable `x` of this type.
    pub(super) fn var(&mut self, ty: Id) -> Result<Id, Fail> {
        let ty = live(&self.table, ty)?;
        let name = self.table.text(&[120])?;
        Ok(make_term(&mut self.table, Node::Var { name, ty })?)
    }

    /// An operator on its arguments.
    pub(super) fn op(&mut self, op: OpName, args: &[Id]) -> Result<Id, Fail> {
        if args.len() != op.arity() || !are_live(&self.table, args) {
            return Err(Fail::new("no arguments of the operator"));
        }
        Ok(made_op(&mut self.table, op, args)?)
    }

    /// Declares a constant of this type.
    pub(super) fn declare(&mut self, name: &[u8], ty: Id) -> Result<(), Fail> {
        if !self.sig.is_free(name) {
            return Err(Fail::new("no free name"));
        }
        let ty = live(&self.table, ty)?;
        let d = constant(self.alloc, name, ty)?;
        self.sig.declare(&self.table, d)?;
        Ok(())
    }

    /// Gives a class of literals its type.
    pub(super) fn set_class(&mut self, class: LiteralClass, ty: Id) -> Result<(), Fail> {
        let ty = live(&self.table, ty)?;
        self.sig.set_literal_type(&self.table, class, ty)?;
        Ok(())
    }

    /// Whether each term has the type beside it, or none.
    pub(super) fn have_types(&mut self, rows: &[(Id, Option<Id>)]) -> Result<bool, Fail> {
        let mut types = Types::new(self.alloc);
        let answer = have_types(&mut types, &self.sig, &mut self.table, rows);
        drop(types);
        answer
    }

    /// The type of a term, if it has one.
    pub(super) fn type_of(&mut self, id: Id) -> Result<Result<Option<Id>, TypeRefused>, Fail> {
        let id = live(&self.table, id)?;
        let mut types = Types::new(self.alloc);
        let ty = types.type_of(&self.sig, &mut self.table, id);
        drop(types);
        Ok(ty)
    }

    /// Whether the type of a term is the same when it is asked for again, and nothing is made for it.
    pub(super) fn is_kept(&mut self, id: Id) -> Result<bool, Fail> {
        let id = live(&self.table, id)?;
        let mut types = Types::new(self.alloc);
        let answer = is_kept(&mut types, &self.sig, &mut self.table, id);
        drop(types);
        answer
    }

    /// Whether a variable of type `Bool`, and then a function type that is made with its number once
    /// the variable is freed, have their types.
    pub(super) fn have_types_in_turn(&mut self) -> Result<bool, Fail> {
        let mut types = Types::new(self.alloc);
        let answer = have_types_in_turn(&mut types, &self.sig, &mut self.table);
        drop(types);
        answer
    }

    /// The term to which a term is settled, if there is one.
    pub(super) fn settle(&mut self, id: Id) -> Result<Option<Id>, Fail> {
        let id = live(&self.table, id)?;
        Ok(settle(self.alloc, &self.sig, &mut self.table, id)?)
    }
}

/// Whether the check holds in a world of its own, where nothing is declared yet. A test hands its
/// check over, so that it owns no world itself.
pub(super) fn holds<F: FnOnce(&mut World) -> Result<bool, Fail>>(
    alloc: Global,
    check: F,
) -> Result<bool, Fail>
    requires { F.IsAlwaysCallable check }
{
    let mut w = World::new(alloc)?;
    let answer = check(&mut w);
    drop(w);
    answer
}

// A table with no more than the first terms.
fn first_table(alloc: Global) -> Result<Table, AllocError>
    ensures { IfOk result (λ t. 4 ≤ length t.trees) }
{
    Table::new(alloc)
}

// A signature of which a proof knows only where its terms are.
fn first_signature(alloc: Global) -> Result<Signature, AllocError>
    ensures { IfOk result (λ s. (n : ℕ) → 4 ≤ n → IsBelow n s) }
{
    growth_law();
    Signature::new(alloc)
}

// The term, if it is one of the table.
fn live(table: &Table, id: Id) -> Result<Id, Fail>
    ensures { IfOk result (λ i. i < length table.now.trees) }
{
    if id.place() >= table.len() {
        return Err(Fail::new("no term of the table"));
    }
    Ok(id)
}

// Whether each term is one of the table.
fn are_live(table: &Table, ids: &[Id]) -> bool
    ensures { IsTrue result → All (λ i. i < length table.now.trees) ids.now }
{
    let count = table.len();
    ids.iter().all(|id| id.place() < count)
}

// Whether the parts of a node are terms of the table, where it has no text in it and is no
// operator.
fn has_parts(table: &Table, node: &Node) -> bool
    ensures plain { IsTrue result → IsPlain node.now }
    ensures parts { IsTrue result → PartsBelow (length table.now.trees) node.now }
    ensures texts { IsTrue result → TextsBelow (length table.now.texts) node.now }
    ensures proper { IsTrue result → IsProper node.now }
{
    match *node {
        Node::Con(_) | Node::Num(_) => true,
        Node::Par(number) => number < 64,
        Node::App { fun, arg } => has(table, fun) && has(table, arg),
        Node::Arr { from, to } => has(table, from) && has(table, to),
        Node::Qar { ty, to, .. } => has(table, ty) && has(table, to),
        _ => false,
    }
}

// Whether the term is one of the table.
fn has(table: &Table, id: Id) -> bool
    ensures { IsTrue result → id < length table.now.trees }
{
    id.place() < table.len()
}

// The term with this root.
fn make_term(table: &mut Table, node: Node) -> Result<Id, TermRefused>
    requires plain { IsPlain node }
    requires parts { PartsBelow (length table.old.trees) node }
    requires texts { TextsBelow (length table.old.texts) node }
    requires proper { IsProper node }
    ensures more { length table.old.trees ≤ length table.new.trees }
{
    table.intern(node)
}

// An operator of the language over these arguments.
fn made_op(table: &mut Table, op: OpName, args: &[Id]) -> Result<Id, TermRefused>
    requires count { length args.now ≡ arity op }
    requires args { All (λ i. i < length table.old.trees) args.now }
    ensures more { length table.old.trees ≤ length table.new.trees }
{
    table.intern_op(OpCode::Builtin(op), args)
}

// A constant of this type, with no parameters.
fn constant(alloc: Global, name: &[u8], ty: Id) -> Result<ConstDecl, Fail>
    ensures below { IfOk result (λ d. (n : ℕ) → ty < n → ConstBelow n d) }
    ensures named { IfOk result (λ (d : ConstDecl). d.name ≡ name.now) }
{
    Ok(ConstDecl {
        name: Name::new(alloc, name)?,
        params: Params::new(alloc),
        ty,
        attribute: Attribute::Plain,
        from_reference: false,
    })
}

// Whether each term has the type beside it, or none. No type is known at first.
fn have_types(
    types: &mut Types,
    sig: &Signature,
    table: &mut Table,
    rows: &[(Id, Option<Id>)],
) -> Result<bool, Fail>
    requires { Fit sig.now table.old types.old }
    ensures more { length table.old.trees ≤ length table.new.trees }
{
    for (id, ty) in rows {
        let id = live(table, *id)?;
        if types.type_of(sig, table, id)? != *ty {
            return Ok(false);
        }
    }
    Ok(true)
}

// Whether the type of a term is the same when it is asked for again, and nothing is made for it.
fn is_kept(types: &mut Types, sig: &Signature, table: &mut Table, id: Id) -> Result<bool, Fail>
    requires live { id < length table.old.trees }
    requires fits { Fit sig.now table.old types.old }
    ensures more { length table.old.trees ≤ length table.new.trees }
{
    let first = types.type_of(sig, table, id)?;
    let terms = table.len();
    let again = types.type_of(sig, table, id)?;
    Ok(first.is_some() && again == first && table.len() == terms)
}

// Whether a variable of type `Bool`, and then a function type with its number, have their types.
fn have_types_in_turn(types: &mut Types, sig: &Signature, table: &mut Table) -> Result<bool, Fail>
    requires { Fit sig.now table.old types.old }
    ensures more { length table.old.trees ≤ length table.new.trees }
{
    let name = table.text(&[120])?;
    let ty = live(table, BOOL)?;
    let (first, of_first) = typed_for_now(types, sig, table, Node::Var { name, ty })?;
    let (second, of_second) = typed_for_now(types, sig, table, Node::Arr { from: ty, to: ty })?;
    Ok(first == second && of_first == Some(BOOL) && of_second == Some(TYPE))
}

// The number and the type of the term with this root, which is freed.
fn typed_for_now(
    types: &mut Types,
    sig: &Signature,
    table: &mut Table,
    node: Node,
) -> Result<(Id, Option<Id>), Fail>
    requires plain { IsPlain node }
    requires parts { PartsBelow (length table.old.trees) node }
    requires texts { TextsBelow (length table.old.texts) node }
    requires proper { IsProper node }
    requires fits { Fit sig.now table.old types.old }
    ensures fits { OnOk result (Fit sig.now table.new types.new) }
    ensures more { length table.old.trees ≤ length table.new.trees }
{
    types.laws();
    let mark = table.mark();
    let id = table.intern(node)?;
    let ty = types.type_of(sig, table, id)?;
    table.release(mark);
    types.forget(mark);
    Ok((id, ty))
}
